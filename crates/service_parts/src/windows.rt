//! The windows of all clients, in order of their numbers.
ghost use Rattle.std.specs.Prelude.{◌≡◌, ◌<◌, ◌≤◌, List, [], length, IfOk, IsTrue, nat_lt, true, vec_len, find, is_some, insert, option_copied};
ghost use Rattle.std.specs.Vec.{vec_capacity};
ghost use Rattle.std.specs.List.{prefix_len};
ghost use Rattle.client_set.specs.Rising.{IsRising};
ghost use Rattle.client_window.specs.Windows.{window_of, more_places};
ghost use Rattle.client_window.specs.Judgement.{IsJudged};
ghost use Rattle.service_table.specs.Tables.{is_window_for, window_before};
ghost use Rattle.service_table.specs.Steps.{window_for, with_reply, answered};
ghost use Rattle.service_parts.specs.Windows.{IsFresh, HasRoom};

use calls::Reply;
use client_window::{Judged, Room, Window};
use service_table::ClientWindow;
use std::alloc::{AllocError, Global};

/// Room for the reply to a client's next call.
#[derive(Drop)]
pub enum ReplyRoom {
    /// The client has a window; these are places for its replies, where all that it has are taken.
    Known { more: Option<Room<Reply>> },
    /// The window of a client that has none yet.
    First { window: Window<Reply> },
}

/// Whether a window is that of a client of a lower number.
fn is_below(caller: &ClientWindow, client: u16) -> bool
    ensures { result ≡ nat_lt caller.now.client client }
{
    caller.client < client
}

/// Whether a window is this client's.
fn is_for(caller: &ClientWindow, client: u16) -> bool
    ensures { result ≡ is_window_for client caller.now }
{
    caller.client == client
}

/// Whether all windows are those of lower clients.
fn are_below(callers: &[ClientWindow], client: u16) -> bool
    requires { IsRising window_before callers.now }
    ensures { IsTrue result →
        length callers.now ≡ prefix_len (λ caller. nat_lt caller.client client) callers.now }
{
    match callers.last() {
        None => true,
        Some(last) => is_below(last, client),
    }
}

/// How many windows stand before that of a client. It is found at once where clients are 1, 2, 3 and so on, and for one above all;
/// else by halving.
fn place_of(callers: &[ClientWindow], client: u16) -> usize
    requires { IsRising window_before callers.now }
    ensures { result ≡ prefix_len (λ caller. nat_lt caller.client client) callers.now }
{
    let place = usize::from(client).saturating_sub(1);
    if place < callers.len() && is_for(&callers[place], client) {
        return place;
    }
    if are_below(callers, client) {
        return callers.len();
    }
    callers.partition_point(|caller| is_below(caller, client))
}

/// The window of a client, if it has one.
fn window_at(callers: &[ClientWindow], client: u16) -> Option<&ClientWindow>
    requires { IsRising window_before callers.now }
    ensures { option_copied result ≡ find (is_window_for client) callers.now }
{
    let place = place_of(callers, client);
    if place >= callers.len() {
        return None;
    }
    let caller = &callers[place];
    if !is_for(caller, client) {
        return None;
    }
    Some(caller)
}

/// Whether a client has a window.
fn has_window(callers: &[ClientWindow], client: u16) -> bool
    requires { IsRising window_before callers.now }
    ensures { result ≡ is_some (find (is_window_for client) callers.now) }
{
    window_at(callers, client).is_some()
}

/// Places for the reply to the next call of a client that has a window, where all that it has are taken.
fn more_room(
    alloc: Global,
    callers: &[ClientWindow],
    client: u16,
) -> Result<Option<Room<Reply>>, AllocError>
    requires order { IsRising window_before callers.now }
    requires known { is_some (find (is_window_for client) callers.now) ≡ true }
    ensures { IfOk result (λ more.
        more ≡ more_places (length (window_for client callers.now).replies)) }
{
    match window_at(callers, client) {
        Some(caller) => caller.window.room(alloc),
        None => unreachable!(),
    }
}

/// Room for the reply to a client's next call: more places in a window that is full, or a window for a client that has none. On an
/// error nothing changes.
pub fn room_for(
    alloc: Global,
    callers: &mut Vec<ClientWindow>,
    client: u16,
) -> Result<ReplyRoom, AllocError>
    requires { IsRising window_before callers.old.items }
    ensures callers { callers.new.items ≡ callers.old.items }
    ensures room { IfOk result (λ room.
        HasRoom client callers.new.items (vec_len callers.new) (vec_capacity callers.new) room) }
{
    if has_window(callers.as_slice(), client) {
        let more = more_room(alloc, callers.as_slice(), client)?;
        return Ok(ReplyRoom::Known { more });
    }
    let window = Window::new(alloc)?;
    callers.reserve(1)?;
    Ok(ReplyRoom::First { window })
}

/// Takes the reply to the next call.
fn take_reply(window: &mut Window<Reply>, more: Option<Room<Reply>>, reply: Reply)
    requires next { window.old.next < 4294967295 }
    requires room { more ≡ more_places (length window.old.replies) }
    ensures { window.new ≡ with_reply reply window.old }
{
    let _next = window.next();
    window.take(more, reply);
}

/// Answers the next call of a client that has a window.
fn answer_known(
    callers: &mut Vec<ClientWindow>,
    client: u16,
    more: Option<Room<Reply>>,
    reply: Reply,
)
    requires order { IsRising window_before callers.old.items }
    requires known { is_some (find (is_window_for client) callers.old.items) ≡ true }
    requires next { (window_for client callers.old.items).next < 4294967295 }
    requires room { more ≡ more_places (length (window_for client callers.old.items).replies) }
    ensures { callers.new.items ≡ answered client reply callers.old.items }
{
    let place = place_of(callers.as_slice(), client);
    let caller = &mut callers[place];
    take_reply(&mut caller.window, more, reply);
}

/// Puts a window at a place, for which there is room.
fn put_at(callers: &mut Vec<ClientWindow>, place: usize, caller: ClientWindow)
    requires within { place ≤ vec_len callers.old }
    requires room { vec_len callers.old < vec_capacity callers.old }
    ensures { callers.new.items ≡ insert callers.old.items place caller }
{
    let _ = callers.insert(place, caller);
}

/// Answers the first call of a client, for which there is a new window and a place.
fn answer_first(callers: &mut Vec<ClientWindow>, client: u16, window: Window<Reply>, reply: Reply)
    requires order { IsRising window_before callers.old.items }
    requires room { IsFresh client callers.old.items (vec_len callers.old)
        (vec_capacity callers.old) window }
    ensures { callers.new.items ≡ answered client reply callers.old.items }
{
    let place = place_of(callers.as_slice(), client);
    let mut window = window;
    take_reply(&mut window, None, reply);
    put_at(callers, place, ClientWindow { client, window });
}

/// Answers the next call of a client. It takes no memory.
pub fn answer_call(callers: &mut Vec<ClientWindow>, client: u16, room: ReplyRoom, reply: Reply)
    requires order { IsRising window_before callers.old.items }
    requires room { HasRoom client callers.old.items (vec_len callers.old)
        (vec_capacity callers.old) room }
    requires next { (window_for client callers.old.items).next < 4294967295 }
    ensures { callers.new.items ≡ answered client reply callers.old.items }
{
    match room {
        ReplyRoom::Known { more } => answer_known(callers, client, more, reply),
        ReplyRoom::First { window } => answer_first(callers, client, window, reply),
    }
}

/// What the call of this number is, for a client that made no call.
fn judge_first<'a>(seq: u32) -> Judged<'a, Reply>
    ensures { IsJudged seq [] result }
{
    if seq == 0 {
        Judged::Old
    } else if seq == 1 {
        Judged::New
    } else {
        Judged::Ahead
    }
}

/// What the call of this number is, by all replies that the client was ever given. It takes no memory.
pub fn judge_call(callers: &[ClientWindow], client: u16, seq: u32) -> Judged<'_, Reply>
    requires { IsRising window_before callers.now }
    ensures { (all : List Reply) → window_for client callers.now ≡ window_of all
        → IsJudged seq all result }
{
    match window_at(callers, client) {
        None => judge_first(seq),
        Some(caller) => caller.window.judge(seq),
    }
}

/// The number of the next call of a client.
pub fn next_call(callers: &[ClientWindow], client: u16) -> u32
    requires { IsRising window_before callers.now }
    ensures { result ≡ (window_for client callers.now).next }
{
    match window_at(callers, client) {
        None => 1,
        Some(caller) => caller.window.next(),
    }
}
