//! Does one thing of a library many times, for `bench`: its first word says which, the others how often. Without words it does each of
//! them a few times.
#![tactic(auto)]

mod messages;
mod queues;
mod records;
mod scanning;

use std::io::ErrorKind;
use std::sync::Wait;
use std::thread::Threads;
use std::{env, io};

// The number that a word names.
fn number_of(word: Option<String>) -> io::Result<u32> {
    let Some(word) = word else {
        return Err(io::Error::from(ErrorKind::InvalidInput));
    };
    match word.as_str().parse() {
        Ok(number) => Ok(number),
        Err(_) => Err(io::Error::from(ErrorKind::InvalidInput)),
    }
}

// Messages are spelled and read again.
fn tell_messages<R: Print + AllocGlobal>(rt: &R, count: u32) -> io::Result<()> {
    let (bytes, sum) = messages::spell_all(rt.alloc(), count)?;
    println!(rt; "messages={count} bytes={bytes} sum={sum}")
}

// Records are printed.
fn tell_records<R: Print + AllocGlobal>(rt: &R, count: u32) -> io::Result<()> {
    let (bytes, sum) = records::print_all(rt.alloc(), count)?;
    println!(rt; "records={count} bytes={bytes} sum={sum}")
}

// Records are searched.
fn tell_found<R: Print + AllocGlobal>(rt: &R, count: u32, class_c: bool) -> io::Result<()> {
    let (found, gone) = scanning::search(rt.alloc(), class_c, count)?;
    println!(rt; "found={found} bytes={gone}")
}

// Callbacks are handed out, by 1 to 8 workers.
fn tell_handed_out<R: Print + AllocGlobal + Threads + Wait + Sync>(
    rt: &R,
    callbacks: u32,
    workers: u32,
    count: u32,
) -> io::Result<()> {
    if callbacks == 0 || workers == 0 || workers > 8 {
        return Err(io::Error::from(ErrorKind::InvalidInput));
    }
    let (all, sum) = queues::hand_out(rt, rt.alloc(), callbacks, workers, count)?;
    println!(rt; "handed_out={all} sum={sum}")
}

// Each of them, a few times.
fn tell_each<R: Print + AllocGlobal + Threads + Wait + Sync>(rt: &R) -> io::Result<()> {
    tell_messages(rt, 10)?;
    tell_records(rt, 10)?;
    tell_found(rt, 10, false)?;
    tell_found(rt, 10, true)?;
    tell_handed_out(rt, 16, 4, 3)
}

fn main(rt: HostRuntime) -> io::Result<()> {
    let mut words = env::args(&rt)?;
    let _ = words.next();
    let Some(word) = words.next() else {
        return tell_each(&rt);
    };
    let first = number_of(words.next())?;
    match word.as_str() {
        "messages" => tell_messages(&rt, first),
        "records" => tell_records(&rt, first),
        "found" => tell_found(&rt, first, words.next().is_some()),
        "handed_out" => {
            let workers = number_of(words.next())?;
            tell_handed_out(&rt, first, workers, number_of(words.next())?)
        }
        _ => Err(io::Error::from(ErrorKind::InvalidInput)),
    }
}
