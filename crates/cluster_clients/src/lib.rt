//! The clients' side of a cluster, which is the same whatever its servers are: agents that ask, take and hand out, the net that
//! their messages stand in, what is shown of files, and why an event was not done.
#![tactic(auto)]

mod agents;
mod answer;
mod asking;
mod fetching;
mod files;
mod posting;
mod replies;
mod taking;

pub use agents::{clients_of, dispatch, place_of, sent_again};
pub use answer::EventAnswer;
pub use asking::ask;
pub use fetching::{Fetched, fetch};
pub use files::{list_files, read_file};
pub use posting::{inject, number_in, post, post_all};
pub use replies::reply_to;
pub use taking::take;
