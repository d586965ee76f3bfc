//! Servers of any count are such servers as a cluster may have, and play the lines of scripts.
ghost use Rattle.group_cluster.specs.Seats.{Peers};
ghost use Rattle.group_servers.specs.GroupKit.{group_kit, group_script};
ghost use Rattle.group_servers.specs.GroupLaws.{group_laws};
ghost use Rattle.group_servers.specs.GroupScript.{group_follows};

use crate::{Group, hearing, playing, pushing, working};
use ais_values::Seq;
use cluster_events::Standing;
use cluster_lines::Scripted;
use cluster_rounds::{Cluster, Serving};
use disk_model::{DiskAnswer, SharedDisk};
use script_lines::Line;
use std::alloc::{AllocError, Global};
use wire::Message;

impl<const N: usize> Serving for Group<N> {
    ghost Peers = { Peers };

    ghost kit = { group_kit N };

    ghost script = { group_script };

    fn hear(
        alloc: Global,
        world: &mut Cluster<Group<N>>,
        lines: &mut Vec<Seq<u8>>,
        place: u64,
        message: &Message,
    ) -> Result<(), AllocError> {
        hearing::hear(alloc, world, lines, place, message)
    }

    fn push(
        alloc: Global,
        world: &mut Cluster<Group<N>>,
        lines: &mut Vec<Seq<u8>>,
    ) -> Result<Seq<Message>, AllocError> {
        pushing::push(alloc, world, lines)
    }

    fn steps() -> u64 {
        13
    }

    fn advance<D: SharedDisk, J: SharedDisk>(
        alloc: Global,
        world: &mut Cluster<Group<N>>,
        lines: &mut Vec<Seq<u8>>,
        disk: &mut D,
        _beside: &mut J,
    ) -> Result<bool, DiskAnswer> {
        working::advance(alloc, world, lines, disk)
    }

    ghost laws = { group_laws N };
}

impl<const N: usize> Scripted for Group<N> {
    fn standing(world: &Cluster<Group<N>>) -> Standing {
        playing::stands(world)
    }

    fn play_own<D: SharedDisk, J: SharedDisk>(
        alloc: Global,
        world: &mut Cluster<Group<N>>,
        lines: &mut Vec<Seq<u8>>,
        line: &Line,
        disk: &mut D,
        _beside: &mut J,
    ) -> Result<(), DiskAnswer> {
        playing::play_own(alloc, world, lines, line, disk)
    }

    ghost follows = { group_follows N };
}
