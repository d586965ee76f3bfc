//! A disk that servers share: the trait with its meaning, a disk in memory, one on folders, and one without room.
#![tactic(auto)]

mod answers;
mod bytes;
mod dir_disk;
mod entries;
mod folders;
mod kept_files;
mod mem_disk;
mod no_disk;
mod reading;
mod shared_disk;
mod shelf;
mod stored_file;
mod tally;
mod walk;

pub use answers::{DiskAnswer, DiskFault};
pub use dir_disk::DirDisk;
pub use folders::Root;
pub use mem_disk::MemDisk;
pub use no_disk::NoDisk;
pub use reading::read_front;
pub use shared_disk::SharedDisk;
pub use tally::Tally;
