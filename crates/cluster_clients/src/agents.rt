//! The clients' agents: look-up, and callbacks handed out.
ghost use Rattle.std.specs.Prelude.{◌≡◌, ◌<◌, ◌≤◌, ◌++◌, ℕ, length, map, slice_get, Some, IfSome, IsTrue, IfOk, OnOk, OnErr};
ghost use Rattle.std.specs.List.{flat_map};
ghost use Rattle.cluster_facts.specs.Agents.{Agent as AgentOf, resent};
ghost use Rattle.client_agent.specs.Seen.{Seen, seen_of};
ghost use Rattle.client_agent.specs.Steps.{HasWorkers};
ghost use Rattle.callback_dispatch.specs.declared.numbered.Numbered.{Numbered};
ghost use Rattle.event_text.specs.Texts.{callback_lines};
ghost use Rattle.cluster_clients.specs.Clients.{AreByClient, place_of, StandsAt, IsCutAt, IsDispatchedAt, Dispatches};
ghost use Rattle.cluster_clients.specs.PartlyDone.{MayDispatch};

use ais_values::{Seq, Status};
use callback_dispatch::{Gate, Numbered};
use client_agent::{Agent, Dispatched, How, let_agents_go};
use event_text::{put_callback, put_declined, put_dispatched};
use std::alloc::{AllocError, Global};
use std::mem;
use std::sync::Wait;
use std::thread::Threads;
use wire::Message;

/// Whether all agents are those of lower clients, where agents stand by rising client.
fn are_below(agents: &[Agent], client: u16) -> bool
    ensures { IsTrue result → AreByClient agents.now
        → IsCutAt client (length agents.now) agents.now }
{
    match agents.last() {
        None => true,
        Some(last) => last.client() < client,
    }
}

/// How many agents are those of lower clients, where agents stand by rising client. It is told at once where clients are 1, 2, 3
/// and so on, and for one above all; else by halving.
pub(crate) fn count_below(agents: &[Agent], client: u16) -> usize
    ensures bound { result ≤ length agents.now }
    ensures cut { AreByClient agents.now → IsCutAt client result agents.now }
{
    let place = usize::from(client).saturating_sub(1);
    if place < agents.len() && agents[place].client() == client {
        return place;
    }
    if are_below(agents, client) {
        return agents.len();
    }
    agents.partition_point(|agent| agent.client() < client)
}

/// The place of a client's agent, if it has one, where agents stand by rising client. Where they stand otherwise an agent that it
/// finds is the client's, but it may find none.
pub fn place_of(agents: &[Agent], client: u16) -> Option<usize>
    ensures bound { IfSome result (λ place. place < length agents.now) }
    ensures own { IfSome result (λ place. StandsAt client place agents.now) }
    ensures place { AreByClient agents.now → result ≡ place_of client agents.now }
{
    let place = count_below(agents, client);
    if place >= agents.len() {
        return None;
    }
    if agents[place].client() != client {
        return None;
    }
    Some(place)
}

/// The clients that were ever called, by rising number.
pub fn clients_of(alloc: Global, agents: &[Agent]) -> Result<Vec<u16>, AllocError>
    ensures { IfOk result (λ clients. clients.items ≡ map (λ (one : Seen). one.client) agents.now) }
{
    let mut clients = Vec::new(alloc);
    for agent in agents {
        clients.push(agent.client())?;
    }
    Ok(clients)
}

/// The messages that the agent at a place sends again.
pub fn sent_again(alloc: Global, agents: &[Agent], at: usize) -> Result<Seq<Message>, AllocError>
    requires { at < length agents.now }
    ensures { IfOk result (λ messages. (client places : ℕ) (agent : AgentOf) →
        slice_get agents.now at ≡ Some (seen_of client places agent) →
        messages ≡ resent client agent) }
{
    agents[at].resend(alloc)
}

/// The agent at a place hands out callbacks, by workers that pass the gate. Where memory runs out the agents stay.
fn dispatch_at<R: Threads + Wait + Sync, G: Gate>(
    rt: &R,
    alloc: Global,
    agents: &mut Seq<Agent>,
    place: usize,
    how: How,
    gate: &G,
) -> Result<Dispatched, AllocError>
    requires within { place < length agents.old }
    requires workers { HasWorkers how }
    ensures ok { IfOk result (λ dispatched. IsDispatchedAt how place agents.old dispatched
        agents.new) }
    ensures err { OnErr result (agents.new ≡ agents.old) }
{
    let mut list = mem::replace(agents, Seq::new(alloc)).into_vec();
    let answer = list[place].dispatch(rt, alloc, how, gate);
    let_agents_go(mem::replace(agents, Seq::from_vec(list)));
    answer
}

/// Adds the lines of callbacks that are handed out, in their order.
fn put_callbacks(
    alloc: Global,
    lines: &mut Vec<Seq<u8>>,
    client: u16,
    callbacks: &[Numbered],
) -> Result<(), AllocError>
    ensures { OnOk result (lines.new.items ≡ lines.old.items ++ flat_map
        (λ (one : Numbered). callback_lines client one.number one.callback) callbacks.now) }
{
    for one in callbacks {
        put_callback(alloc, lines, client, one.number, &one.callback)?;
    }
    Ok(())
}

/// Hands out callbacks of a client, and adds the lines. Workers pass the gate, and the lines are the same for every number of
/// them. Where memory runs out callbacks may be handed out without lines.
pub fn dispatch<R: Threads + Wait + Sync, G: Gate>(
    rt: &R,
    alloc: Global,
    agents: &mut Seq<Agent>,
    lines: &mut Vec<Seq<u8>>,
    client: u16,
    how: How,
    gate: &G,
) -> Result<(), AllocError>
    requires { HasWorkers how }
    ensures ok { OnOk result (Dispatches how client agents.old agents.new lines.old.items
        lines.new.items) }
    ensures err { OnErr result (MayDispatch how client agents.old agents.new) }
{
    match place_of(agents.as_slice(), client) {
        None => put_declined(alloc, lines, client, Status::BadHandle),
        Some(place) => match dispatch_at(rt, alloc, agents, place, how, gate)? {
            Dispatched::Refused { status } => put_declined(alloc, lines, client, status),
            Dispatched::Given { taken } => {
                put_callbacks(alloc, lines, client, taken.as_slice())?;
                put_dispatched(alloc, lines, client, taken.as_slice().len() as u64)
            }
        },
    }
}
