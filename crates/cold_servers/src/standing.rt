//! How the server and its journal are shown, and refusals.
ghost use Rattle.std.specs.Prelude.{◌≡◌, OnErr, OnOk};
ghost use Rattle.cluster_lines.specs.Showing.{refused, StandsAs};
ghost use Rattle.cluster_rounds.specs.Worlds.{Does};
ghost use Rattle.cold_servers.specs.ColdKit.{cold_kit};
ghost use Rattle.cold_servers.specs.Standing.{standing_as};
ghost use Rattle.cold_servers.specs.Steps.{AreBy};

use crate::Solo;
use ais_values::Seq;
use cluster_events::{Roles, ServerRole, Standing};
use cluster_rounds::Cluster;
use event_text::put_refused;
use lead_server::role_shown;
use mirror::Role;
use script_lines::Line;
use std::alloc::{AllocError, Global};

/// The roles of the server and of its journal, and the lengths of the lists of messages.
fn standing_of(world: &Cluster<Solo>) -> Standing
    ensures { result ≡ standing_as world.entry.now }
{
    Standing {
        roles: Roles::Two {
            a: role_shown(world.servers.lone.armed, world.servers.lone.node.role()),
            b: ServerRole::Journal,
        },
        net: world.net.len(),
        link: world.servers.lone.link.as_slice().len() as u64,
        back: world.servers.lone.back.as_slice().len() as u64,
        in_hand: world.servers.lone.node.in_hand(),
    }
}

/// Whether the server is active, and so up in each state that the cluster stands for.
pub fn is_up(world: &Cluster<Solo>) -> bool
    ensures { AreBy result world.entry.now }
{
    matches!(world.servers.lone.node.role(), Role::Active)
}

/// The roles of the server and of its journal, the lengths of the net and of both ways, and the number in hand: of a server that is down
/// nothing on the way or in hand is shown. It takes no memory.
pub fn stands(world: &Cluster<Solo>) -> Standing
    ensures { StandsAs cold_kit world.entry.now result }
{
    standing_of(world)
}

/// Adds the line of a refused event. Where memory runs out the lines stay.
pub fn refuse(
    alloc: Global,
    world: &Cluster<Solo>,
    lines: &mut Vec<Seq<u8>>,
    line: &Line,
) -> Result<(), AllocError>
    ensures ok { OnOk result (Does cold_kit (refused cold_kit line.now) world.entry.now
        world.entry.now lines.old.items lines.new.items) }
    ensures err { OnErr result (lines.new.items ≡ lines.old.items) }
{
    let standing = standing_of(world);
    put_refused(alloc, lines, line, &standing)
}
