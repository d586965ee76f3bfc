//! Tests of the crates of the two services, a file a tested crate: what no clause says.
#![tactic(auto)]

#[cfg(test)]
mod alarm_order_tests;
#[cfg(test)]
mod alarm_view_tests;
#[cfg(test)]
mod calls_tests;
#[cfg(test)]
mod fixtures;
#[cfg(test)]
mod log_service_tests;
#[cfg(test)]
mod ntf_filters_tests;
#[cfg(test)]
mod ntf_service_tests;
#[cfg(test)]
mod ntf_types_tests;
#[cfg(test)]
mod service_parts_tests;
#[cfg(test)]
mod sub_queue_tests;
