//! A large run: its script is made and played turn by turn, over any world, and one line tells where it led.
#![tactic(auto)]

mod loading;

pub use loading::play_load;
