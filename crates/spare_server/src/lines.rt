//! What a line does to the parts of a world.
ghost use Rattle.std.specs.Prelude.{◌≡◌, ℕ, List, OnOk, OnErr, IfErr};
ghost use Rattle.std.specs.Result.{is_ok};
ghost use Rattle.trio_lines.specs.Lines.{SpellsTrio};
ghost use Rattle.trio_lines.specs.declared.line.TrioLine.TheVariants as trio;
ghost use Rattle.cluster_rounds.specs.Broken.{BreaksAlone};
ghost use Rattle.cluster_rounds.specs.Counted.{Counted};
ghost use Rattle.cluster_rounds.specs.Worlds.{HasState, HasStateOn, Does, any_state};
ghost use Rattle.cluster_lines.specs.Lines.{CanPlay};
ghost use Rattle.cluster_lines.specs.Playing.{LooksBy};
ghost use Rattle.group_servers.specs.GroupKit.{group_kit, group_script};
ghost use Rattle.spare_server.specs.Happening.{group_line, name_of};
ghost use Rattle.spare_server.specs.Lines.{acked_at, IsThird, mirrored_at, refused_as};
ghost use Rattle.spare_server.specs.Parts.{Plays, Breaks};

use ais_values::Seq;
use callback_dispatch::Gate;
use cluster_lines::{as_answer, play};
use cluster_rounds::Cluster;
use disk_model::{DiskAnswer, NoDisk, SharedDisk};
use event_text::put_refused_text;
use group_servers::{Group, ack_at, mirror_at, standing_of};
use script_lines::{Line, Server, let_line_go};
use std::alloc::{AllocError, Global};
use std::mem;
use std::sync::Wait;
use std::thread::Threads;
use trio_lines::{TrioLine, TrioServer, put_trio_line};

/// A server's name in a group.
fn name_of(server: TrioServer) -> Server
    ensures { result ≡ name_of server }
{
    match server {
        TrioServer::A => Server::A,
        TrioServer::B => Server::B,
        TrioServer::C => Server::C,
    }
}

/// Adds the line of a refused event. Where memory runs out the lines stay.
fn refused(
    alloc: Global,
    parts: &Cluster<Group<3>>,
    lines: &mut Vec<Seq<u8>>,
    line: &TrioLine,
) -> Result<(), AllocError>
    ensures ok { OnOk result (Does (group_kit 3) (refused_as line.now) parts.entry.now
        parts.entry.now lines.old.items lines.new.items) }
    ensures err { OnErr result (lines.new.items ≡ lines.old.items) }
{
    let mut text = Vec::new(alloc);
    match put_trio_line(&mut text, line) {
        Ok(()) => {
            let standing = standing_of(parts);
            let told = put_refused_text(alloc, lines, text.as_slice(), &standing);
            mem::drop(text);
            told
        }
        Err(error) => {
            mem::drop(text);
            Err(error)
        }
    }
}

/// `mirror S`: the first message on the way to a server is delivered. The line is refused where there is none.
fn mirror_line(
    alloc: Global,
    parts: &mut Cluster<Group<3>>,
    lines: &mut Vec<Seq<u8>>,
    line: &TrioLine,
    server: TrioServer,
) -> Result<(), AllocError>
    requires state { HasState (group_kit 3) parts.old }
    requires line { line.now ≡ trio.Mirror server }
    ensures ok { OnOk result (Does (group_kit 3) (mirrored_at server) parts.old parts.new
        lines.old.items lines.new.items) }
    ensures err { OnErr result (BreaksAlone (group_kit 3) parts.old parts.new) }
{
    match mirror_at(alloc, parts, lines, name_of(server)) {
        Ok(went) => {
            if went {
                return Ok(());
            }
            refused(alloc, parts, lines, line)
        }
        Err(error) => Err(error),
    }
}

/// `ack S`: the first message on the way back from a server is delivered. The line is refused where there is none.
fn ack_line(
    alloc: Global,
    parts: &mut Cluster<Group<3>>,
    lines: &mut Vec<Seq<u8>>,
    line: &TrioLine,
    server: TrioServer,
) -> Result<(), AllocError>
    requires state { HasState (group_kit 3) parts.old }
    requires line { line.now ≡ trio.Ack server }
    ensures ok { OnOk result (Does (group_kit 3) (acked_at server) parts.old parts.new
        lines.old.items lines.new.items) }
    ensures err { OnErr result (BreaksAlone (group_kit 3) parts.old parts.new) }
{
    match ack_at(alloc, parts, name_of(server)) {
        Ok(went) => {
            if went {
                return Ok(());
            }
            refused(alloc, parts, lines, line)
        }
        Err(error) => Err(error),
    }
}

/// The line of a group that does what a line on the third server does.
fn third_line(line: &TrioLine) -> Line
    requires { IsThird line.now }
    ensures { result ≡ group_line line.now }
{
    match line {
        TrioLine::Arm { k } => Line::Arm {
            server: Server::C,
            count: *k,
        },
        TrioLine::Restart => Line::Restart { server: Server::C },
        _ => Line::Crash { server: Server::C },
    }
}

/// What a line on the third server does.
fn play_third<R: Threads + Wait + Sync, D: SharedDisk, G: Gate>(
    rt: &R,
    alloc: Global,
    parts: &mut Cluster<Group<3>>,
    lines: &mut Vec<Seq<u8>>,
    line: &TrioLine,
    disk: &mut D,
    gate: &G,
) -> Result<(), DiskAnswer>
    requires state { HasStateOn (group_kit 3) any_state parts.old (D.seen disk.old) }
    requires spelled { (raw : List ℕ) × SpellsTrio line.now raw }
    requires third { IsThird line.now }
    ensures ok { OnOk result (Plays line.now parts.old parts.new lines.old.items lines.new.items
        (D.seen disk.old) (D.seen disk.new)) }
    ensures broken { IfErr result (λ answer. Breaks answer line.now parts.old parts.new
        lines.old.items lines.new.items (D.seen disk.old) (D.seen disk.new)) }
    ensures counts { Counted (group_kit 3) (D.seen disk.old) (D.seen disk.new) result }
    ensures looks { LooksBy (group_line line.now) (D.seen disk.old).files (is_ok result)
        (D.seen disk.old).tally (D.seen disk.new).tally }
{
    let third = third_line(line);
    let mut beside = NoDisk::new();
    let played = play(rt, alloc, parts, lines, &third, disk, &mut beside, gate);
    let_line_go(third);
    played
}

/// What a line does.
pub(crate) fn play_line<R: Threads + Wait + Sync, D: SharedDisk, G: Gate>(
    rt: &R,
    alloc: Global,
    parts: &mut Cluster<Group<3>>,
    lines: &mut Vec<Seq<u8>>,
    line: &TrioLine,
    disk: &mut D,
    gate: &G,
) -> Result<(), DiskAnswer>
    requires state { HasStateOn (group_kit 3) any_state parts.old (D.seen disk.old) }
    requires spelled { (raw : List ℕ) × SpellsTrio line.now raw }
    requires can { CanPlay group_script parts.old.now (group_line line.now) }
    ensures ok { OnOk result (Plays line.now parts.old parts.new lines.old.items lines.new.items
        (D.seen disk.old) (D.seen disk.new)) }
    ensures broken { IfErr result (λ answer. Breaks answer line.now parts.old parts.new
        lines.old.items lines.new.items (D.seen disk.old) (D.seen disk.new)) }
    ensures counts { Counted (group_kit 3) (D.seen disk.old) (D.seen disk.new) result }
    ensures looks { LooksBy (group_line line.now) (D.seen disk.old).files (is_ok result)
        (D.seen disk.old).tally (D.seen disk.new).tally }
{
    match line {
        TrioLine::Plain { line: shared } => {
            let mut beside = NoDisk::new();
            play(rt, alloc, parts, lines, shared, disk, &mut beside, gate)
        }
        TrioLine::Mirror { server } => as_answer(mirror_line(alloc, parts, lines, line, *server)),
        TrioLine::Ack { server } => as_answer(ack_line(alloc, parts, lines, line, *server)),
        _ => play_third(rt, alloc, parts, lines, line, disk, gate),
    }
}
