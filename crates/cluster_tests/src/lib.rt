//! Tests of a node of the cluster, of lines of a script over two of them, of values that are handed to one, and of a journal.
#![tactic(auto)]

#[cfg(test)]
mod broken_starts;
#[cfg(test)]
mod exchange_tests;
#[cfg(test)]
mod gate_tests;
#[cfg(test)]
mod journal_start_tests;
#[cfg(test)]
mod journals;
#[cfg(test)]
mod lines_tests;
#[cfg(test)]
mod mirror_tests;
#[cfg(test)]
mod saved_fit_tests;
#[cfg(test)]
mod service_core_tests;
