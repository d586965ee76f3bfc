//! The text of the lines that events print.
#![tactic(auto)]

mod client_lines;
mod cluster_lines;
mod pieces;
mod shown;

pub use client_lines::{put_callback, put_declined, put_dispatched, put_reply};
pub use cluster_lines::{
    put_entry, put_file, put_ignored, put_post, put_raw, put_refused, put_refused_text, put_server,
    put_servers, put_text,
};
pub use pieces::role_word;
pub use shown::put_shown;
