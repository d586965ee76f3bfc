//! The Log Service and the Notification Service of a high-availability cluster, driven by a script.
//!
//! `main` makes the real source, sink and disks and calls `run`, which does all the rest.
#![tactic(auto)]

mod ending;
mod run;

use callback_dispatch::OpenGate;
use cluster_core::World;
use command_journal::ColdWorld;
use disk_model::{DirDisk, Root};
use io_edge::{StdSink, StdSource};
pub use played_runs::Status8;
pub use run::run;
use spare_server::TrioWorld;
use std::alloc::AllocError;
use std::env;
use std::io::ErrorKind;
use std::process::ExitCode;
use std::rt::Env;

// The command's words behind the program's name. Where one is no text there are none, which is no command.
fn words_of<R: Env + AllocGlobal>(rt: &R) -> Result<Vec<String>, AllocError> {
    match env::args(rt) {
        Ok(mut args) => {
            let _ = args.next();
            args.collect(rt.alloc())
        }
        Err(error) if error.kind() == ErrorKind::OutOfMemory => Err(AllocError),
        Err(_) => Ok(Vec::new(rt.alloc())),
    }
}

fn main(rt: HostRuntime) -> ExitCode {
    let words = match words_of(&rt) {
        Ok(words) => words,
        Err(_) => return ExitCode::from(Status8::Memory.code()),
    };
    // Each disk has a runtime of its own.
    let Ok(files) = rt.clone() else {
        return ExitCode::from(Status8::Memory.code());
    };
    let Ok(frames) = rt.clone() else {
        return ExitCode::from(Status8::Memory.code());
    };
    let alloc = rt.alloc();
    let mut source = StdSource::new(rt.stdin());
    let mut out = StdSink::new(rt.stdout());
    let mut disk = DirDisk::new(files, Root::Logs);
    let mut journal = DirDisk::new(frames, Root::Journal);
    let mut world = World::empty(alloc);
    let mut cold = ColdWorld::empty(alloc);
    let mut trio = TrioWorld::empty(alloc);
    let status = run(
        &rt,
        alloc,
        words.as_slice(),
        &mut source,
        &mut out,
        &mut disk,
        &mut journal,
        &OpenGate,
        &mut world,
        &mut cold,
        &mut trio,
    );
    world.end();
    cold.end();
    trio.end();
    ExitCode::from(status.code())
}

#[cfg(test)]
mod tests;
