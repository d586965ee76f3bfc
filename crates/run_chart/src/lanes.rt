//! The places of messages across the net's column.
use crate::run::Message;
use std::alloc::{AllocError, Global};

/// How many messages have places of their own at a time; further ones share them.
const MAX_LANES: usize = 12;

/// Gives each message a place that no other one has while it is drawn, as long as there are places.
pub(crate) fn place_messages(alloc: Global, messages: &mut Vec<Message>) -> Result<(), AllocError> {
    let mut free: Vec<usize> = Vec::new(alloc);
    for message in messages.iter_mut() {
        message.lane = lane_of(&mut free, message.posted, message.last)?;
    }
    Ok(())
}

// A lane that is free at the row `from`, which is then held to the row `to`. `free` has for each lane the first row at which it is free.
fn lane_of(free: &mut Vec<usize>, from: usize, to: usize) -> Result<u64, AllocError> {
    match free.iter().position(|row| *row <= from) {
        Some(lane) => {
            if let Some(row) = free.get_mut(lane) {
                *row = to.saturating_add(1);
            }
            Ok(lane as u64)
        }
        None if free.len() < MAX_LANES => {
            let lane = free.len();
            free.push(to.saturating_add(1))?;
            Ok(lane as u64)
        }
        None => Ok((from % MAX_LANES) as u64),
    }
}
