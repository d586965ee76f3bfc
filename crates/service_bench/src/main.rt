//! Applies entries of one kind to a service, beside subscriptions to one type of notifications, stored alarms and streams of
//! applications. Its words are the kind (`write`, `even`, `free`, `offer`, `send`, `start` or `read`), how many entries are
//! applied, and how many alarms, subscriptions and streams there are before; without words each kind is applied some times. It
//! tells how many entries and deeds there were, and on standard error how many nanoseconds the entries took. `bench/service`
//! measures it.
#![tactic(auto)]

mod applying;
mod calling;
mod kind;
mod unused;

use applying::{Setting, apply_all, prepare};
use kind::Kind;
use service_core::Service;
use std::alloc::{AllocError, Global};
use std::io::ErrorKind;
use std::rt::{Clock, Env};
use std::time::Instant;
use std::{env, io};
use unused::unused;

/// The numbers of a run.
#[derive(Clone, Copy)]
struct Run {
    kind: Kind,
    count: u32,
    setting: Setting,
}

/// A service that nobody has used.
fn fresh(alloc: Global) -> Result<Service, AllocError> {
    let value = unused(alloc)?;
    let restored = Service::restore(alloc, &value);
    drop(value);
    match restored {
        Ok(service) => Ok(service),
        Err(_) => Err(AllocError),
    }
}

/// Applies the entries of a run, and tells the deeds and the nanoseconds.
fn time<R: Clock>(
    rt: &R,
    alloc: Global,
    service: &mut Service,
    run: Run,
) -> io::Result<(u64, u64)> {
    prepare(alloc, service, run.setting, run.kind)?;
    let begin = Instant::now(rt)?;
    let deeds = apply_all(alloc, service, run.setting, run.kind, run.count)?;
    let spent = begin.elapsed(rt)?;
    Ok((deeds, spent.as_nanos().min(1_000_000_000_000_000) as u64))
}

/// A run on a service that nobody has used.
fn run_fresh<R: Clock>(rt: &R, alloc: Global, run: Run) -> io::Result<(u64, u64)> {
    let mut service = fresh(alloc)?;
    let timed = time(rt, alloc, &mut service, run);
    drop(service);
    timed
}

/// The number of a word, or another one where there is no word.
fn number_of(word: Option<String>, other: u32) -> io::Result<u32> {
    match word {
        None => Ok(other),
        Some(word) => match word.as_str().parse() {
            Ok(number) => Ok(number),
            Err(_) => Err(io::Error::from(ErrorKind::InvalidInput)),
        },
    }
}

/// The kind of a word, which is to be one.
fn kind_of(word: &str) -> io::Result<Kind> {
    match Kind::of(word) {
        Some(kind) => Ok(kind),
        None => Err(io::Error::from(ErrorKind::InvalidInput)),
    }
}

/// Does a run, and tells of it.
fn tell<R: Print + Eprint + Clock + AllocGlobal>(rt: &R, run: Run) -> io::Result<()> {
    let (deeds, spent) = run_fresh(rt, rt.alloc(), run)?;
    let word = run.kind.word();
    let count = run.count;
    eprintln!(rt; "ns={spent}")?;
    println!(rt; "{word} entries={count} deeds={deeds}")
}

/// Each kind, some times.
fn tell_each<R: Print + Eprint + Clock + AllocGlobal>(rt: &R) -> io::Result<()> {
    for kind in [
        Kind::Write,
        Kind::Even,
        Kind::Free,
        Kind::Offer,
        Kind::Send,
        Kind::Start,
        Kind::Read,
    ] {
        let setting = Setting {
            streams: 2,
            subs: 2,
            alarms: 3,
        };
        let run = Run {
            kind,
            count: 4,
            setting,
        };
        tell(rt, run)?;
    }
    Ok(())
}

fn main(rt: HostRuntime) -> io::Result<()> {
    let mut words = env::args(&rt)?;
    let _ = words.next();
    let Some(word) = words.next() else {
        return tell_each(&rt);
    };
    let kind = kind_of(word.as_str())?;
    let count = number_of(words.next(), 20)?;
    let alarms = number_of(words.next(), 0)?;
    let subs = number_of(words.next(), 0)?;
    let streams = number_of(words.next(), 0)?;
    let setting = Setting {
        streams,
        subs,
        alarms,
    };
    let run = Run {
        kind,
        count,
        setting,
    };
    tell(&rt, run)
}
