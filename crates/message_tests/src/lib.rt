//! Tests of what is written and read: messages, scripts, lines of events; and of a client that takes its messages and hands out callbacks.
#![tactic(auto)]

#[cfg(test)]
mod callback_dispatch_tests;
#[cfg(test)]
mod client_agent_tests;
#[cfg(test)]
mod event_text_tests;
#[cfg(test)]
mod script_tests;
#[cfg(test)]
mod trio_lines_tests;
#[cfg(test)]
mod wire_tests;
