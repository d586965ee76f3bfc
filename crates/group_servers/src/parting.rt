//! Servers beside the active one that go down.
ghost use Rattle.std.specs.Prelude.{◌≡◌, ◌++◌, ◌∷◌, [], true, option_map, IfOk, OnOk, OnErr};
ghost use Rattle.std.specs.List.{list_any};
ghost use Rattle.cluster_events.specs.declared.lines.ServerRole.TheVariants as role;
ghost use Rattle.event_text.specs.Texts.{entry_line, server_line};
ghost use Rattle.mirror.specs.declared.heard.Role.TheVariants.{Active};
ghost use Rattle.cluster_rounds.specs.Worlds.{Does};
ghost use Rattle.cluster_rounds.specs.Broken.{BreaksAlone};
ghost use Rattle.group_servers.specs.Seats.{goes_to, still_waits};
ghost use Rattle.group_servers.specs.Parted.{TakesLast, DropsAt, lost_entry, lost_lines, settled_by, follows};
ghost use Rattle.group_servers.specs.GroupKit.{group_kit};
ghost use Rattle.group_servers.specs.Steps.{parted_by};

use crate::catching::push_caught;
use crate::seats::{any_goes, any_linked, same_server, still_waits};
use crate::{Group, Seat};
use ais_values::Seq;
use calls::{Entry, let_entry_go};
use cluster_events::ServerRole;
use cluster_rounds::Cluster;
use event_text::{put_entry, put_server};
use lead_server::{clear, go_down};
use mirror::{Node, let_heard_go};
use script_lines::Server;
use std::alloc::{AllocError, Global};
use std::mem;
use wire::{Message, let_message_go, let_messages_go, mirrored};

/// Takes the last message, if there is one, and lets the others go.
fn take_last(alloc: Global, list: &mut Seq<Message>) -> Option<Message>
    ensures last { TakesLast result list.old }
    ensures none { list.new ≡ [] }
{
    let mut items = mem::replace(list, Seq::new(alloc)).into_vec();
    let last = items.pop();
    let_messages_go(Seq::from_vec(items));
    last
}

/// The server of this name goes down, and what is on the way to it and back is lost. Answers with the last message that was on the way to it.
fn drop_at(alloc: Global, seats: &mut [Seat], server: Server) -> Option<Message>
    ensures { DropsAt server result seats.old seats.new }
{
    match seats.split_first_mut() {
        None => None,
        Some((first, rest)) => {
            if same_server(server, first.server) {
                go_down(&mut first.node);
                clear(alloc, &mut first.back);
                take_last(alloc, &mut first.link)
            } else {
                drop_at(alloc, rest, server)
            }
        }
    }
}

/// The entry, with its number, that a lost message brought, if it goes to no other server.
fn lost_entry(goes: bool, lost: Option<Message>) -> Option<(u64, Entry)>
    ensures { result ≡ lost_entry goes lost }
{
    if goes {
        let_message_go(lost);
        return None;
    }
    mirrored(lost)
}

/// Adds the lines of an entry and of a server that is down.
fn put_both(
    alloc: Global,
    lines: &mut Vec<Seq<u8>>,
    number: u64,
    entry: &Entry,
    server: Server,
) -> Result<(), AllocError>
    ensures { OnOk result (lines.new.items ≡ lines.old.items ++ entry_line number entry.now
        ∷ server_line server role.Down ∷ []) }
{
    put_entry(alloc, lines, number, entry)?;
    put_server(alloc, lines, server, ServerRole::Down)
}

/// Adds the line of an entry, if there is one, and of a server that is down. Answers with the entry.
fn put_parted(
    alloc: Global,
    lines: &mut Vec<Seq<u8>>,
    server: Server,
    lost: Option<(u64, Entry)>,
) -> Result<Option<Entry>, AllocError>
    ensures { IfOk result (λ entry. (entry ≡ option_map (λ found. found.1) lost)
        × (lines.new.items ≡ lines.old.items ++ lost_lines lost server)) }
{
    match lost {
        None => match put_server(alloc, lines, server, ServerRole::Down) {
            Ok(()) => Ok(None),
            Err(error) => Err(error),
        },
        Some((number, entry)) => match put_both(alloc, lines, number, &entry, server) {
            Ok(()) => Ok(Some(entry)),
            Err(error) => {
                let_entry_go(Some(entry));
                Err(error)
            }
        },
    }
}

/// The active server looks at the others again: without one that is linked it is alone, and an entry in hand waits no more once neither it
/// nor a confirmation of it is on the way.
fn settle(alloc: Global, active: &mut Node, seats: &[Seat])
    requires { active.old.replica.role ≡ Active }
    ensures { active.new ≡ settled_by (list_any goes_to seats.now) (still_waits seats.now)
        active.old }
{
    if !any_linked(seats) {
        let_heard_go(active.peer_down(alloc));
        return;
    }
    if !still_waits(seats) {
        let_entry_go(active.take_waiting());
    }
}

/// A server that is not active crashes: an entry that waited for it alone is committed. Where memory runs out nothing is said of the servers.
pub(crate) fn crash_other<const N: usize>(
    alloc: Global,
    world: &mut Cluster<Group<N>>,
    lines: &mut Vec<Seq<u8>>,
    server: Server,
) -> Result<(), AllocError>
    requires follows { follows server world.old.servers ≡ true }
    requires role { world.old.servers.active.replica.role ≡ Active }
    ensures ok { OnOk result (Does (group_kit N) (parted_by N server) world.old world.new
        lines.old.items lines.new.items) }
    ensures err { OnErr result (BreaksAlone (group_kit N) world.old world.new) }
{
    world.history.reserve()?;
    let lost = drop_at(alloc, &mut world.servers.seats, server);
    let goes = any_goes(&world.servers.seats);
    match put_parted(alloc, lines, server, lost_entry(goes, lost)) {
        Ok(entry) => {
            settle(alloc, &mut world.servers.active, &world.servers.seats);
            push_caught(&mut world.history, entry);
            Ok(())
        }
        Err(error) => Err(error),
    }
}
