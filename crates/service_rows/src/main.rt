//! Plays each script of its input, which are parted by lines of four equal signs, on a service alone. A line of a client is a
//! call, `push` shows the items that subscriptions hold, `deliver K` is the receipt through the K-th of them, `files` and `cat`
//! show the disk, and `time` is as ever. There is no net and no client's agent, so `settle` has nothing to deliver and
//! `dispatch` nothing to hand out. What each call is answered is printed. Before each entry the service is saved and made again,
//! and both have to answer the entry alike.
#![tactic(auto)]

mod applying;
mod beginning;
mod broken;
mod files;
mod playing;
mod printing;
mod twins;

use playing::play_script;
use std::alloc::{AllocError, Global};
use std::io;
use std::io::Write;

/// Takes a line of the input. At the end of a script, it is played.
fn take_line(
    alloc: Global,
    script: &mut Vec<u8>,
    line: &str,
    out: &mut Vec<u8>,
) -> Result<(), AllocError> {
    if line != "====" {
        script.extend_from_slice(line.as_bytes())?;
        script.push(b'\n')?;
        return Ok(());
    }
    play_script(alloc, script.as_slice(), out)?;
    script.clear();
    Ok(())
}

/// What the scripts print.
fn play_all<R: Input + AllocGlobal>(rt: &R) -> io::Result<Vec<u8>> {
    let mut out = Vec::new(rt.alloc());
    let mut script = Vec::new(rt.alloc());
    for line in rt.lines(rt.alloc()) {
        let line = line?;
        take_line(rt.alloc(), &mut script, line.as_str(), &mut out)?;
    }
    if !script.is_empty() {
        play_script(rt.alloc(), script.as_slice(), &mut out)?;
    }
    Ok(out)
}

fn main(rt: HostRuntime) -> io::Result<()> {
    let out = play_all(&rt)?;
    io::writer(&rt).write_all(out.as_slice())
}
