//! Lines that are played while the server is down.
ghost use Rattle.std.specs.Prelude.{◌≡◌, IfErr, IfOk, OnErr, OnOk};
ghost use Rattle.std.specs.Result.{is_ok};
ghost use Rattle.std.specs.List.{AllByRecursion};
ghost use Rattle.script_lines.specs.declared.line.Line.TheVariants.{Deliver};
ghost use Rattle.wire.specs.MessageSpelling.{MessageInRange};
ghost use Rattle.cluster_rounds.specs.Broken.{BreaksAlone};
ghost use Rattle.cluster_rounds.specs.Wild.{always, GoesWild, KeepsWild, StandsOf, StandsOn};
ghost use Rattle.cluster_rounds.specs.Worlds.{any_state, Does};
ghost use Rattle.cluster_lines.specs.Playing.{LooksBy};
ghost use Rattle.cold_servers.specs.ColdKit.{cold_kit};
ghost use Rattle.cold_servers.specs.Down.{IsDownLine, PlaysDownLine};
ghost use Rattle.cold_servers.specs.Ignoring.{down_delivered, down_resent, IgnoresAll, IsAskingAt};
ghost use Rattle.cold_servers.specs.Steps.{AreDown};

use crate::Solo;
use crate::arming::disarm;
use crate::standing::refuse;
use ais_values::Seq;
use cluster_clients::{Fetched, fetch, number_in, place_of};
use cluster_events::Why;
use cluster_lines::{as_answer, show_file, show_files};
use cluster_rounds::{Cluster, deliver, is_for_agent};
use disk_model::{DiskAnswer, SharedDisk};
use event_text::put_ignored;
use message_net::Net;
use script_lines::Line;
use std::alloc::{AllocError, Global};
use std::sync::Wait;
use wire::{Message, let_message_go, let_messages_go};

/// Whether the byte string of this place in the net is a message that is not for an agent.
fn is_asking(alloc: Global, net: &Net, place: u64) -> Result<bool, AllocError>
    ensures { IfOk result (λ asking. IsAskingAt asking place net.now) }
{
    match fetch(alloc, net, place) {
        Ok(found) => match found {
            None => Ok(false),
            Some(fetched) => match fetched {
                Fetched::Whole { message } => {
                    let asking = !is_for_agent(&message);
                    let_message_go(Some(message));
                    Ok(asking)
                }
                Fetched::Bad { .. } => Ok(false),
            },
        },
        Err(error) => Err(error),
    }
}

/// `deliver K`: a reply or an item goes to its agent; a request or a receipt has no effect. The line is refused where the net has none of that
/// number.
fn deliver_line<R: Wait>(
    rt: &R,
    alloc: Global,
    world: &mut Cluster<Solo>,
    lines: &mut Vec<Seq<u8>>,
    line: &Line,
    place: u64,
) -> Result<(), AllocError>
    requires state { StandsOf cold_kit any_state always world.old }
    requires line { line.now ≡ Deliver place }
    ensures ok { OnOk result (Does cold_kit (down_delivered place) world.old world.new
        lines.old.items lines.new.items) }
    ensures err { OnErr result (BreaksAlone cold_kit world.old world.new) }
    ensures wild { OnOk result (KeepsWild cold_kit always world.old world.new) }
{
    match is_asking(alloc, &world.net, place) {
        Ok(asking) => {
            if asking {
                return put_ignored(alloc, lines, place, Why::ServerDown);
            }
        }
        Err(error) => return Err(error),
    }
    match deliver(rt, alloc, world, lines, place) {
        Ok(done) => {
            if done {
                return Ok(());
            }
            refuse(alloc, world, lines, line)
        }
        Err(error) => Err(error),
    }
}

/// The lines of messages that have no effect.
fn ignore_all(
    alloc: Global,
    net: &Net,
    lines: &mut Vec<Seq<u8>>,
    messages: &[Message],
) -> Result<(), AllocError>
    requires { AllByRecursion MessageInRange messages.now }
    ensures { OnOk result (IgnoresAll messages.now net.now lines.old.items lines.new.items) }
{
    for message in messages {
        let place = number_in(alloc, net, message)?;
        put_ignored(alloc, lines, place, Why::ServerDown)?;
    }
    Ok(())
}

/// `resend C`: nothing that the agent sends again has an effect.
fn resend_line(
    alloc: Global,
    world: &mut Cluster<Solo>,
    lines: &mut Vec<Seq<u8>>,
    client: u16,
) -> Result<(), AllocError>
    requires { StandsOf cold_kit any_state always world.old }
    ensures ok { OnOk result (Does cold_kit (down_resent client) world.old world.new lines.old.items
        lines.new.items) }
    ensures err { OnErr result (BreaksAlone cold_kit world.old world.new) }
    ensures wild { OnOk result (KeepsWild cold_kit always world.old world.new) }
{
    let at = match place_of(world.agents.as_slice(), client) {
        Some(at) => at,
        None => return Ok(()),
    };
    match world.agents.as_slice()[at].resend(alloc) {
        Ok(messages) => {
            let done = ignore_all(alloc, &world.net, lines, messages.as_slice());
            let_messages_go(messages);
            done
        }
        Err(error) => Err(error),
    }
}

/// What a line comes to while the server is down, which asks something of it or shows files; `restart a` is apart.
///
/// What asks for an active server is refused, but requests and receipts that are delivered have no effect. Files are shown as the record disk
/// has them. `disarm` is done. `Failed` comes exactly where the disk had a fault as its files were shown: all stays as it was then. `Memory`
/// comes where memory ran out. `Stopped` never comes.
pub fn down_line<R: Wait, D: SharedDisk, J: SharedDisk>(
    rt: &R,
    alloc: Global,
    world: &mut Cluster<Solo>,
    lines: &mut Vec<Seq<u8>>,
    line: &Line,
    disk: &mut D,
    beside: &mut J,
) -> Result<(), DiskAnswer>
    requires state { StandsOn cold_kit any_state always world.old
        (cold_kit.see (D.seen disk.old) (J.seen beside.old)) }
    requires down { AreDown world.old }
    requires line { IsDownLine line.now }
    ensures played { PlaysDownLine result line.now world.old world.new lines.old.items
        lines.new.items (cold_kit.see (D.seen disk.old) (J.seen beside.old))
        (cold_kit.see (D.seen disk.new) (J.seen beside.new)) }
    ensures wild { GoesWild cold_kit always result world.old world.new
        (cold_kit.see (D.seen disk.old) (J.seen beside.old))
        (cold_kit.see (D.seen disk.new) (J.seen beside.new)) }
    ensures looks { LooksBy line.now (D.seen disk.old).files (is_ok result) (D.seen disk.old).tally
        (D.seen disk.new).tally }
{
    match line {
        Line::Deliver { place } => {
            as_answer(deliver_line(rt, alloc, world, lines, line, *place))
        }
        Line::Resend { client } => as_answer(resend_line(alloc, world, lines, *client)),
        Line::Files => show_files(alloc, world, lines, disk),
        Line::Cat { name } => show_file(alloc, world, lines, disk, line, name),
        Line::Disarm => {
            disarm(world, disk, beside);
            Ok(())
        }
        _ => as_answer(refuse(alloc, world, lines, line)),
    }
}
