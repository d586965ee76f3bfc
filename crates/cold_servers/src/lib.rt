//! One server and its journal, as servers of a cluster: how it is crashed and comes back, and what lines come to while it is up or down.
#![tactic(auto)]

ghost use Rattle.cluster_rounds.specs.Kits.{IsKit};
ghost use Rattle.cluster_lines.specs.Following.{IsScript};
ghost use Rattle.cold_servers.specs.ColdKit.{cold_kit, cold_script};

mod advancing;
mod arming;
mod downing;
mod hearing;
mod lines;
mod restarting;
mod serving;
mod solo;
mod standing;

pub use arming::disarm;
pub use downing::down_line;
pub use restarting::restart;
pub use solo::Solo;
pub use standing::{is_up, refuse, stands};

/// What is asked of the servers of a cluster, and of the lines of a script over them, holds of one server and its journal.
pub fn law_of_servers()
    ensures servers { IsKit cold_kit }
    ensures lines { IsScript cold_kit cold_script }
{}
