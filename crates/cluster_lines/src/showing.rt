//! What is shown of servers and files, and refusals.
ghost use Rattle.std.specs.Prelude.{◌≡◌, OnOk, OnErr, IsErrOf};
ghost use Rattle.std.specs.Result.{is_ok};
ghost use Rattle.ais_values.specs.Causes.{RoseExactlyOn};
ghost use Rattle.disk_model.specs.declared.answers.DiskAnswer.{DiskAnswer};
ghost use Rattle.script_lines.specs.declared.line.Line.TheVariants.{Cat};
ghost use Rattle.cluster_clients.specs.Looks.{FileCalls, ListCalls, Looks};
ghost use Rattle.cluster_rounds.specs.Worlds.{Does};
ghost use Rattle.cluster_lines.specs.Showing.{StandsAs, refused, servers_listed};
ghost use Rattle.cluster_lines.specs.Steps.{files_listed, file_shown, ShowsOn, TellsRead};

use crate::Scripted;
use ais_values::{Seq, Text};
use cluster_clients::{list_files, read_file};
use cluster_events::Standing;
use cluster_rounds::{Cluster, Serving};
use disk_model::{DiskAnswer, SharedDisk};
use event_text::{put_refused, put_servers, put_shown};
use script_lines::Line;
use std::alloc::{AllocError, Global};

/// Adds the line of a refused event, by how the servers stand. Where memory runs out the lines stay.
pub fn put_refusal<S: Serving>(
    alloc: Global,
    world: &Cluster<S>,
    lines: &mut Vec<Seq<u8>>,
    line: &Line,
    standing: &Standing,
) -> Result<(), AllocError>
    requires { StandsAs S.kit world.now standing.now }
    ensures ok { OnOk result (Does S.kit (refused S.kit line.now) world.entry.now world.entry.now
        lines.old.items lines.new.items) }
    ensures err { OnErr result (lines.new.items ≡ lines.old.items) }
{
    put_refused(alloc, lines, line, standing)
}

/// The same by what the servers tell.
pub(crate) fn refused<S: Scripted>(
    alloc: Global,
    world: &Cluster<S>,
    lines: &mut Vec<Seq<u8>>,
    line: &Line,
) -> Result<(), AllocError>
    ensures ok { OnOk result (Does S.kit (refused S.kit line.now) world.entry.now world.entry.now
        lines.old.items lines.new.items) }
    ensures err { OnErr result (lines.new.items ≡ lines.old.items) }
{
    let standing = S::standing(world);
    put_refusal(alloc, world, lines, line, &standing)
}

/// Adds the lines of all servers with their roles.
pub(crate) fn show_servers<S: Scripted>(
    alloc: Global,
    world: &Cluster<S>,
    lines: &mut Vec<Seq<u8>>,
) -> Result<(), AllocError>
    ensures { OnOk result (Does S.kit (servers_listed S.kit) world.entry.now world.entry.now
        lines.old.items lines.new.items) }
{
    let standing = S::standing(world);
    put_servers(alloc, lines, standing.roles)
}

/// Adds the lines of all files with their lengths. `Failed` comes exactly where the disk's count of faults rose.
pub fn show_files<S: Scripted, D: SharedDisk>(
    alloc: Global,
    world: &Cluster<S>,
    lines: &mut Vec<Seq<u8>>,
    disk: &mut D,
) -> Result<(), DiskAnswer>
    ensures ok { OnOk result (ShowsOn S.kit (files_listed S.kit) world.entry.now lines.old.items
        lines.new.items (D.seen disk.old).files) }
    ensures stays { IsErrOf result DiskAnswer.Failed → lines.new.items ≡ lines.old.items }
    ensures same { (D.seen disk.new).files ≡ (D.seen disk.old).files }
    ensures cause { RoseExactlyOn (D.seen disk.old).faults (D.seen disk.new).faults result
        DiskAnswer.Failed }
    ensures never_stopped { IsErrOf result DiskAnswer.Stopped → ⊥ }
    ensures stops { (D.seen disk.new).stops ≡ (D.seen disk.old).stops }
    ensures looks { Looks (ListCalls (D.seen disk.old).files) (is_ok result) (D.seen disk.old).tally
        (D.seen disk.new).tally }
    ensures armed { (D.seen disk.new).tally.armed ≡ (D.seen disk.old).tally.armed }
{
    let mut listed = match list_files(alloc, disk) {
        Ok(listed) => listed,
        Err(answer) => return Err(answer),
    };
    match lines.append(&mut listed) {
        Ok(()) => Ok(()),
        Err(_) => Err(DiskAnswer::Memory),
    }
}

/// Adds the lines of what was read of a file. Where nothing was, the line that asked for it is refused.
fn tell_read<S: Scripted>(
    alloc: Global,
    world: &Cluster<S>,
    lines: &mut Vec<Seq<u8>>,
    line: &Line,
    read: Option<Seq<u8>>,
) -> Result<(), AllocError>
    ensures { OnOk result (TellsRead S.kit line.now read world.entry.now lines.old.items
        lines.new.items) }
{
    match read {
        Some(bytes) => put_shown(alloc, lines, bytes.as_slice()),
        None => refused(alloc, world, lines, line),
    }
}

/// Adds the lines of the file that a `cat` line names. Where there is no file of that name, the line is refused. `Failed` comes
/// exactly where the disk's count of faults rose.
pub fn show_file<S: Scripted, D: SharedDisk>(
    alloc: Global,
    world: &Cluster<S>,
    lines: &mut Vec<Seq<u8>>,
    disk: &mut D,
    line: &Line,
    name: &Text,
) -> Result<(), DiskAnswer>
    requires { line.now ≡ Cat name.now }
    ensures ok { OnOk result (ShowsOn S.kit (file_shown S.kit name.now) world.entry.now
        lines.old.items lines.new.items (D.seen disk.old).files) }
    ensures stays { IsErrOf result DiskAnswer.Failed → lines.new.items ≡ lines.old.items }
    ensures same { (D.seen disk.new).files ≡ (D.seen disk.old).files }
    ensures cause { RoseExactlyOn (D.seen disk.old).faults (D.seen disk.new).faults result
        DiskAnswer.Failed }
    ensures never_stopped { IsErrOf result DiskAnswer.Stopped → ⊥ }
    ensures stops { (D.seen disk.new).stops ≡ (D.seen disk.old).stops }
    ensures looks { Looks (FileCalls name.now (D.seen disk.old).files) (is_ok result)
        (D.seen disk.old).tally (D.seen disk.new).tally }
    ensures armed { (D.seen disk.new).tally.armed ≡ (D.seen disk.old).tally.armed }
{
    let read = match read_file(alloc, disk, name.as_slice()) {
        Ok(read) => read,
        Err(answer) => return Err(answer),
    };
    match tell_read(alloc, world, lines, line, read) {
        Ok(()) => Ok(()),
        Err(_) => Err(DiskAnswer::Memory),
    }
}
