//! Servers that are armed and restarted.
ghost use Rattle.std.specs.Prelude.{◌≡◌, ◌≤◌, true, ℕ, List, IfOk, OnOk, OnErr};
ghost use Rattle.script_lines.specs.declared.line.Line.TheVariants.{Arm, Disarm, Restart};
ghost use Rattle.mirror.specs.declared.heard.Role.TheVariants.{Active};
ghost use Rattle.cluster_rounds.specs.Worlds.{Does};
ghost use Rattle.cluster_rounds.specs.Broken.{BreaksAlone};
ghost use Rattle.cluster_lines.specs.Own.{DoesOn};
ghost use Rattle.group_servers.specs.Parted.{leads, rests, Begins, joined_at};
ghost use Rattle.group_servers.specs.GroupKit.{group_kit, group_script};
ghost use Rattle.group_servers.specs.Steps.{armed_by, disarmed_by, restarted_by, IsUntold};

use crate::seats::{any_standby, is_down_at, same_server};
use crate::standing::refused;
use crate::{Group, Seat};
use ais_values::Seq;
use calls::let_entry_go;
use cluster_events::ServerRole;
use cluster_rounds::Cluster;
use disk_model::SharedDisk;
use event_text::put_server;
use lead_server::go_joining;
use mirror::{Heard, Node};
use script_lines::{Line, Server};
use std::alloc::{AllocError, Global};
use std::mem;
use wire::{Message, let_messages_go};

/// Whether a server is the active one and some other one is standby.
pub(crate) fn leads<const N: usize>(servers: &Group<N>, server: Server) -> bool
    ensures { result ≡ leads server servers.now }
{
    same_server(server, servers.acting) && any_standby(&servers.seats)
}

/// Whether a server is another one than the active one, and is down.
fn rests<const N: usize>(servers: &Group<N>, server: Server) -> bool
    ensures { result ≡ rests server servers.now }
{
    !same_server(server, servers.acting) && is_down_at(&servers.seats, server)
}

/// `arm S K`: the active server stops in the changing device call of this number from now on. The event is refused where the server is not the
/// active one, and where no other one is standby. `Err` comes where memory ran out: nothing changed but lines.
pub fn arm<const N: usize, D: SharedDisk>(
    alloc: Global,
    world: &mut Cluster<Group<N>>,
    lines: &mut Vec<Seq<u8>>,
    line: &Line,
    server: Server,
    count: u64,
    disk: &mut D,
) -> Result<(), AllocError>
    requires count { 1 ≤ count }
    requires line { line.now ≡ Arm server count }
    ensures ok { OnOk result (DoesOn (group_kit N) group_script (Arm server count) (armed_by N
        server count) world.old world.new lines.old.items lines.new.items (D.seen disk.old)
        (D.seen disk.new)) }
    ensures world { OnErr result (world.new ≡ world.old) }
    ensures disk { OnErr result (D.seen disk.new ≡ D.seen disk.old) }
{
    if leads(&world.servers, server) {
        disk.arm(count);
        world.servers.armed = true;
        return Ok(());
    }
    refused(alloc, world, lines, line)
}

/// `disarm`: no server stops any more.
pub fn disarm<const N: usize, D: SharedDisk>(world: &mut Cluster<Group<N>>, disk: &mut D)
    ensures { (lines : List (List ℕ)) → DoesOn (group_kit N) group_script Disarm (disarmed_by N)
        world.old world.new lines lines (D.seen disk.old) (D.seen disk.new) }
{
    disk.disarm();
    world.servers.armed = false;
}

/// What a server that comes back is sent at once: the value of the service where nothing is in hand, and else nothing.
fn begin(alloc: Global, active: &mut Node) -> Result<Seq<Message>, AllocError>
    requires { active.old.replica.role ≡ Active }
    ensures { IfOk result (λ messages. Begins active.old active.new messages) }
{
    if active.in_hand().is_some() {
        return Ok(Seq::new(alloc));
    }
    match active.begin_join(alloc) {
        Ok(heard) => {
            let Heard {
                to_net,
                to_peer,
                committed,
                ..
            } = heard;
            let_messages_go(to_net);
            let_entry_go(committed);
            Ok(to_peer)
        }
        Err(error) => Err(error),
    }
}

/// The server of this name joins, and these messages are on the way to it.
fn join_at(alloc: Global, seats: &mut [Seat], server: Server, messages: Seq<Message>)
    ensures { seats.new ≡ joined_at server messages seats.old }
{
    match seats.split_first_mut() {
        None => let_messages_go(messages),
        Some((first, rest)) => {
            if same_server(server, first.server) {
                go_joining(alloc, &mut first.node);
                let_messages_go(mem::replace(&mut first.link, messages));
            } else {
                join_at(alloc, rest, server, messages);
            }
        }
    }
}

/// A server that was down joins: it is sent the value of the service at once where nothing is in hand, and else once that is worked.
fn join<const N: usize>(
    alloc: Global,
    world: &mut Cluster<Group<N>>,
    lines: &mut Vec<Seq<u8>>,
    server: Server,
) -> Result<(), AllocError>
    requires down { rests server world.old.servers ≡ true }
    requires role { world.old.servers.active.replica.role ≡ Active }
    ensures ok { OnOk result (Does (group_kit N) (restarted_by N server) world.old world.new
        lines.old.items lines.new.items) }
    ensures err { OnErr result (IsUntold world.old world.new) }
{
    put_server(alloc, lines, server, ServerRole::Joining)?;
    match begin(alloc, &mut world.servers.active) {
        Ok(messages) => {
            join_at(alloc, &mut world.servers.seats, server, messages);
            Ok(())
        }
        Err(error) => Err(error),
    }
}

/// `restart S`: a server that is down joins. The event is refused where it is not down, and where it is none of the servers. `Err` comes where
/// memory ran out: some of it may be done.
pub fn restart<const N: usize>(
    alloc: Global,
    world: &mut Cluster<Group<N>>,
    lines: &mut Vec<Seq<u8>>,
    line: &Line,
    server: Server,
) -> Result<(), AllocError>
    requires line { line.now ≡ Restart server }
    requires role { world.old.servers.active.replica.role ≡ Active }
    ensures ok { OnOk result (Does (group_kit N) (restarted_by N server) world.old world.new
        lines.old.items lines.new.items) }
    ensures err { OnErr result (BreaksAlone (group_kit N) world.old world.new) }
{
    if rests(&world.servers, server) {
        return join(alloc, world, lines, server);
    }
    refused(alloc, world, lines, line)
}
