//! The world as one that plays the lines of scripts.
ghost use Rattle.group_cluster.specs.Seats.{Peers};
ghost use Rattle.group_servers.specs.declared.group.Group.{Group};
ghost use Rattle.cluster_core.specs.Game.{world_game};
ghost use Rattle.cluster_core.specs.GameLaws.{world_plays};

use crate::World;
use played_runs::Playable;
use script_lines::Line;

impl Playable<Line> for World {
    ghost Peers = { Peers };

    ghost Servers = { Group 2 };

    ghost game = { world_game };

    ghost plays = { world_plays };
}
