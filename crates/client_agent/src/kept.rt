//! The calls that were sent and whose reply was not taken, the newest in front.
ghost use Rattle.std.specs.Prelude.{◌≡◌, ◌+◌, ◌==◌, nat_le, ◌++◌, Some, OnOk, IfOk, IfSome};
ghost use Rattle.std.specs.List.{find, list_any};
ghost use Rattle.std.specs.Option.{option_copied};
ghost use Rattle.client_set.specs.Rising.{without};
ghost use Rattle.cluster_facts.specs.Agents.{service_of, call_of, kept_call, requests_of, log_after, ntf_after};
ghost use Rattle.client_agent.specs.Inside.{calls_kept, Fall};

use ais_values::{Duplicate, MAX_REPLIES, Which};
use calls::{Ask, Call, Shared};
use std::alloc::{AllocError, Global};
use std::collections::VecDeque;
use wire::Message;

/// A call that was sent, under its number.
#[derive(Drop)]
pub struct Kept {
    pub number: u32,
    pub call: Shared<Call>,
}

/// How many numbers the calls without a reply may span.
const WINDOW: u64 = MAX_REPLIES as u64;

/// The service that a call belongs to.
pub fn service_of(call: &Call) -> Which
    ensures { result ≡ service_of call.now }
{
    match call {
        Call::LogInit
        | Call::LogOpen { .. }
        | Call::LogWrite { .. }
        | Call::LogClose { .. }
        | Call::LogFilter { .. }
        | Call::LogFini => Which::Log,
        _ => Which::Ntf,
    }
}

/// The call that is sent for what is asked.
fn call_of(alloc: Global, ask: &Ask) -> Result<Call, AllocError>
    ensures { IfOk result (λ call. call ≡ call_of ask.now) }
{
    match ask {
        Ask::Start {
            service: Which::Log,
            ..
        } => Ok(Call::LogInit),
        Ask::Start {
            service: Which::Ntf,
            ..
        } => Ok(Call::NtfInit),
        Ask::Plain { call } => call.copy(alloc),
    }
}

/// A value and a copy of it.
fn with_copy<T: Duplicate + Drop>(alloc: Global, value: T) -> Result<(T, T), AllocError>
    ensures { IfOk result (λ pair. (pair.0 ≡ value) × (pair.1 ≡ value)) }
{
    let copy = value.copy(alloc)?;
    Ok((value, copy))
}

/// The call that is sent for what is asked, to be kept and to be posted.
pub fn calls_of(alloc: Global, ask: &Ask) -> Result<(Shared<Call>, Shared<Call>), AllocError>
    ensures { IfOk result (λ calls.
        (calls.0 ≡ call_of ask.now) × (calls.1 ≡ call_of ask.now)) }
{
    let call = call_of(alloc, ask)?;
    let kept = Shared::new(alloc, call)?;
    with_copy(alloc, kept)
}

/// Whether the client has a handle of the Log Service after this call.
pub fn log_after(call: &Call, before: bool) -> bool
    ensures { result ≡ log_after call.now before }
{
    match call {
        Call::LogInit => true,
        Call::LogFini => false,
        _ => before,
    }
}

/// Whether the client has a handle of the Notification Service after this call.
pub fn ntf_after(call: &Call, before: bool) -> bool
    ensures { result ≡ ntf_after call.now before }
{
    match call {
        Call::NtfInit => true,
        Call::NtfFini => false,
        _ => before,
    }
}

/// Whether some call is unanswered whose number is at most the next number minus 32.
pub fn is_shut(next: u32, kept: &VecDeque<Kept>) -> bool
    ensures { result ≡ list_any (λ sent. nat_le (sent.number + 32) next) kept.now.items }
{
    kept.iter()
        .any(|sent| u64::from(sent.number) + WINDOW <= u64::from(next))
}

/// The unanswered call of this number, with the number.
fn find_kept(kept: &VecDeque<Kept>, number: u32) -> Option<&Kept>
    ensures { option_copied result ≡ find (λ sent. sent.number == number) kept.now.items }
{
    kept.iter().find(|sent| sent.number == number)
}

/// The unanswered call of this number, wherever it stands.
fn look_for(kept: &VecDeque<Kept>, number: u32) -> Option<&Call>
    ensures { option_copied result ≡ kept_call number (calls_kept kept.now.items) }
{
    match find_kept(kept, number) {
        Some(sent) => Some(sent.call.get()),
        None => None,
    }
}

/// The unanswered call of this number, where it stands as far from the newest as calls were sent after it: none of these
/// has its reply.
fn call_at(kept: &VecDeque<Kept>, number: u32) -> Option<&Call>
    requires { Fall (calls_kept kept.now.items) }
    ensures { IfSome result (λ call. Some call.now ≡ kept_call number (calls_kept kept.now.items)) }
{
    if kept.is_empty() {
        return None;
    }
    let newest = kept[0].number;
    if newest < number {
        return None;
    }
    let place = (newest - number) as usize;
    if place >= kept.len() {
        return None;
    }
    let sent = &kept[place];
    if sent.number != number {
        return None;
    }
    Some(sent.call.get())
}

/// The unanswered call of this number. Where calls are answered in order it is told at once.
pub fn find_call(kept: &VecDeque<Kept>, number: u32) -> Option<&Call>
    requires { Fall (calls_kept kept.now.items) }
    ensures { option_copied result ≡ kept_call number (calls_kept kept.now.items) }
{
    match call_at(kept, number) {
        Some(call) => Some(call),
        None => look_for(kept, number),
    }
}

/// Lets the call of this number go.
pub fn forget_call(kept: &mut VecDeque<Kept>, number: u32)
    ensures { calls_kept kept.new.items ≡
        without (λ sent. sent.0 == number) (calls_kept kept.old.items) }
{
    kept.retain(|sent| sent.number != number);
}

/// Adds the requests of these calls, the oldest first.
pub fn add_requests(
    alloc: Global,
    client: u16,
    kept: &VecDeque<Kept>,
    messages: &mut Vec<Message>,
) -> Result<(), AllocError>
    ensures { OnOk result (messages.new.items ≡
        messages.old.items ++ requests_of client (calls_kept kept.now.items)) }
{
    let mut left = kept.len();
    // At once, since the messages are wide.
    messages.reserve(left)?;
    while left > 0 {
        left -= 1;
        let sent = &kept[left];
        let call = sent.call.copy(alloc)?;
        messages.push(Message::Request {
            client,
            seq: sent.number,
            call,
        })?;
    }
    Ok(())
}
