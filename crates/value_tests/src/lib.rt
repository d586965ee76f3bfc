//! Tests of the crates of values, records, streams, disks and messages in flight, a file or two a tested crate: what no
//! clause says.
#![tactic(auto)]

#[cfg(test)]
mod ais_values_tests;
#[cfg(test)]
mod civil_time_tests;
#[cfg(test)]
mod client_set_tests;
#[cfg(test)]
mod client_window_tests;
#[cfg(test)]
mod disk_model_tests;
#[cfg(test)]
mod format_expr_tests;
#[cfg(test)]
mod io_edge_tests;
#[cfg(test)]
mod journal_frames_tests;
#[cfg(test)]
mod load_script_tests;
#[cfg(test)]
mod message_net_tests;
#[cfg(test)]
mod record_find_tests;
#[cfg(test)]
mod record_print_tests;
#[cfg(test)]
mod record_scan_tests;
#[cfg(test)]
mod stream_config_tests;
#[cfg(test)]
mod stream_files_tests;
#[cfg(test)]
mod stream_layout_tests;
