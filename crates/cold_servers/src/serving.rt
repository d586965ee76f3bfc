//! One server and its journal are such servers as a cluster may have, and play the lines of scripts.
ghost use Rattle.cold_cluster.specs.Cold.{Alone};
ghost use Rattle.cold_servers.specs.ColdKit.{cold_kit, cold_script};
ghost use Rattle.cold_servers.specs.ColdLaws.{cold_laws};
ghost use Rattle.cold_servers.specs.ColdScript.{cold_follows};

use crate::standing::{is_up, stands};
use crate::{Solo, advancing, hearing, lines};
use ais_values::Seq;
use cluster_events::Standing;
use cluster_lines::Scripted;
use cluster_rounds::{Cluster, Serving};
use disk_model::{DiskAnswer, SharedDisk};
use script_lines::Line;
use std::alloc::{AllocError, Global};
use wire::Message;

impl Serving for Solo {
    ghost Peers = { Alone };

    ghost kit = { cold_kit };

    ghost script = { cold_script };

    fn hear(
        alloc: Global,
        world: &mut Cluster<Solo>,
        lines: &mut Vec<Seq<u8>>,
        place: u64,
        message: &Message,
    ) -> Result<(), AllocError> {
        if is_up(world) {
            return hearing::hear(alloc, world, lines, place, message);
        }
        Err(AllocError)
    }

    fn push(
        alloc: Global,
        world: &mut Cluster<Solo>,
        lines: &mut Vec<Seq<u8>>,
    ) -> Result<Seq<Message>, AllocError> {
        if is_up(world) {
            return match world.servers.lone.node.in_hand() {
                None => hearing::push(alloc, world, lines),
                Some(_) => Err(AllocError),
            };
        }
        Err(AllocError)
    }

    fn steps() -> u64 {
        13
    }

    fn advance<D: SharedDisk, J: SharedDisk>(
        alloc: Global,
        world: &mut Cluster<Solo>,
        lines: &mut Vec<Seq<u8>>,
        disk: &mut D,
        beside: &mut J,
    ) -> Result<bool, DiskAnswer> {
        if is_up(world) {
            return advancing::advance(alloc, world, lines, disk, beside);
        }
        Err(DiskAnswer::Memory)
    }

    ghost laws = { cold_laws };
}

impl Scripted for Solo {
    fn standing(world: &Cluster<Solo>) -> Standing {
        stands(world)
    }

    fn play_own<D: SharedDisk, J: SharedDisk>(
        alloc: Global,
        world: &mut Cluster<Solo>,
        lines: &mut Vec<Seq<u8>>,
        line: &Line,
        disk: &mut D,
        beside: &mut J,
    ) -> Result<(), DiskAnswer> {
        if is_up(world) {
            return lines::play_own(alloc, world, lines, line, disk, beside);
        }
        Err(DiskAnswer::Memory)
    }

    ghost follows = { cold_follows };
}
