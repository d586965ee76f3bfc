//! The world as one that plays the lines of scripts.
ghost use Rattle.group_cluster.specs.Seats.{Peers};
ghost use Rattle.group_servers.specs.declared.group.Group.{Group};
ghost use Rattle.spare_server.specs.Game.{trio_game};
ghost use Rattle.spare_server.specs.GameLaws.{trio_plays};

use crate::TrioWorld;
use played_runs::Playable;
use trio_lines::TrioLine;

impl Playable<TrioLine> for TrioWorld {
    ghost Peers = { Peers };

    ghost Servers = { Group 3 };

    ghost game = { trio_game };

    ghost plays = { trio_plays };
}
