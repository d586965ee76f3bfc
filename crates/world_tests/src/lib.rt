//! Tests of three servers over a disk in memory, and of one server and its journal over two.
#![tactic(auto)]

#[cfg(test)]
mod fault_tests;
#[cfg(test)]
mod playing;
#[cfg(test)]
mod rows;
#[cfg(test)]
mod silent;
#[cfg(test)]
mod silent_tests;
#[cfg(test)]
mod stop_tests;
#[cfg(test)]
mod trio_rows;
#[cfg(test)]
mod trio_tests;
