//! Calls that clients ask for.
ghost use Rattle.std.specs.Prelude.{◌≡◌, ◌≤◌, ◌<◌, length, true, IsTrue, IfOk, OnOk, OnErr};
ghost use Rattle.cluster_facts.specs.Agents.{fresh};
ghost use Rattle.client_agent.specs.Steps.{IsSent};
ghost use Rattle.cluster_clients.specs.Clients.{StandsAt, IsAbsent};
ghost use Rattle.cluster_clients.specs.Asked.{CanCallAt, AllStarted, IsSentAt, HasFitRequest, IsToldSent};
ghost use Rattle.cluster_clients.specs.Asked.{Asks, Enlists, is_posted, IsPlaced, MayPost, IsPartlyPlaced};
ghost use Rattle.cluster_clients.specs.PartlyDone.{AsksPartly};

use crate::agents::{count_below, place_of};
use crate::posting::post;
use ais_values::Seq;
use calls::Ask;
use client_agent::{Agent, Sent, let_agent_go, let_agents_go, let_sent_go};
use event_text::put_declined;
use message_net::Net;
use std::alloc::{AllocError, Global};
use std::mem;

/// The agent at a place is asked. Where memory runs out the agents stay.
fn call_at(
    alloc: Global,
    agents: &mut Seq<Agent>,
    place: usize,
    asked: &Ask,
) -> Result<Sent, AllocError>
    requires within { place < length agents.old }
    requires number { CanCallAt place agents.old }
    ensures ok { IfOk result (λ sent. IsSentAt asked.now place agents.old sent agents.new) }
    ensures err { OnErr result (agents.new ≡ agents.old) }
{
    let mut list = mem::replace(agents, Seq::new(alloc)).into_vec();
    let answer = list[place].call(alloc, asked);
    let_agents_go(mem::replace(agents, Seq::from_vec(list)));
    answer
}

/// Tells what became of a call: its request is posted, or a line says why it is refused.
fn tell(
    alloc: Global,
    net: &mut Net,
    lines: &mut Vec<Seq<u8>>,
    client: u16,
    sent: &Sent,
) -> Result<(), AllocError>
    requires { HasFitRequest sent.now }
    ensures ok { OnOk result (IsToldSent client sent.now net.old net.new lines.old.items
        lines.new.items) }
    ensures err { OnErr result (MayPost sent.now net.old net.new) }
{
    match sent {
        Sent::Posted { message } => post(alloc, net, lines, message),
        Sent::Refused { status } => put_declined(alloc, lines, client, *status),
    }
}

/// The same, of a value that is let go.
fn tell_sent(
    alloc: Global,
    net: &mut Net,
    lines: &mut Vec<Seq<u8>>,
    client: u16,
    sent: Sent,
) -> Result<(), AllocError>
    requires { HasFitRequest sent }
    ensures ok { OnOk result (IsToldSent client sent net.old net.new lines.old.items
        lines.new.items) }
    ensures err { OnErr result (MayPost sent net.old net.new) }
{
    let told = tell(alloc, net, lines, client, &sent);
    let_sent_go(sent);
    told
}

/// A client whose agent stands at its place asks for a call.
fn ask_at(
    alloc: Global,
    net: &mut Net,
    agents: &mut Seq<Agent>,
    lines: &mut Vec<Seq<u8>>,
    callbacks: u32,
    client: u16,
    asked: &Ask,
    at: usize,
) -> Result<(), AllocError>
    requires from { 1 ≤ client }
    requires to { client ≤ 4096 }
    requires number { CanCallAt at agents.old }
    requires found { StandsAt client at agents.old }
    ensures ok { OnOk result (Asks callbacks client asked.now net.old net.new agents.old agents.new
        lines.old.items lines.new.items) }
    ensures err { OnErr result (AsksPartly callbacks client asked.now net.old net.new agents.old
        agents.new) }
{
    match call_at(alloc, agents, at, asked) {
        Ok(sent) => tell_sent(alloc, net, lines, client, sent),
        Err(error) => Err(error),
    }
}

/// Whether the agent at a place can number one call more.
fn can_call(agents: &[Agent], at: usize) -> bool
    requires within { at < length agents.now }
    requires started { AllStarted agents.now }
    ensures { IsTrue result → CanCallAt at agents.now }
{
    agents[at].next() < u32::MAX
}

/// Puts an agent among the others, by rising clients. Where memory runs out they stay.
fn enlist(alloc: Global, agents: &mut Seq<Agent>, agent: Agent) -> Result<(), AllocError>
    ensures ok { OnOk result (Enlists agent.client agent true agents.old agents.new) }
    ensures err { OnErr result (agents.new ≡ agents.old) }
{
    let place = count_below(agents.as_slice(), agent.client());
    let mut list = mem::replace(agents, Seq::new(alloc)).into_vec();
    let done = list.insert(place, agent);
    let_agents_go(mem::replace(agents, Seq::from_vec(list)));
    match done {
        Ok(()) => Ok(()),
        Err(failed) => {
            let_agent_go(failed.value);
            Err(AllocError)
        }
    }
}

/// A new agent, and what became of its first call.
fn first_call<R>(
    rt: &R,
    alloc: Global,
    callbacks: u32,
    client: u16,
    asked: &Ask,
) -> Result<(Agent, Sent), AllocError>
    ensures { IfOk result (λ made. IsSent client callbacks asked.now fresh made.1 made.0) }
{
    let mut agent = Agent::new(rt, alloc, client, callbacks)?;
    match agent.call(alloc, asked) {
        Ok(sent) => Ok((agent, sent)),
        Err(error) => {
            let_agent_go(agent);
            Err(error)
        }
    }
}

/// Whether a request is to be posted.
fn is_posted(sent: &Sent) -> bool
    ensures { result ≡ is_posted sent.now }
{
    match sent {
        Sent::Posted { .. } => true,
        Sent::Refused { .. } => false,
    }
}

/// The first call of a new agent: the agent joins the others where its request is posted.
fn place_first(
    alloc: Global,
    net: &mut Net,
    agents: &mut Seq<Agent>,
    lines: &mut Vec<Seq<u8>>,
    client: u16,
    agent: Agent,
    sent: Sent,
) -> Result<(), AllocError>
    requires fit { HasFitRequest sent }
    requires own { agent.client ≡ client }
    ensures ok { OnOk result (IsPlaced client agent sent net.old net.new agents.old agents.new
        lines.old.items lines.new.items) }
    ensures err { OnErr result (IsPartlyPlaced client agent sent net.old net.new agents.old
        agents.new) }
{
    if !is_posted(&sent) {
        let_agent_go(agent);
        return tell_sent(alloc, net, lines, client, sent);
    }
    match enlist(alloc, agents, agent) {
        Ok(()) => tell_sent(alloc, net, lines, client, sent),
        Err(error) => {
            let_sent_go(sent);
            Err(error)
        }
    }
}

/// A client that has no agent yet asks for a call.
fn ask_first<R>(
    rt: &R,
    alloc: Global,
    net: &mut Net,
    agents: &mut Seq<Agent>,
    lines: &mut Vec<Seq<u8>>,
    callbacks: u32,
    client: u16,
    asked: &Ask,
) -> Result<(), AllocError>
    requires from { 1 ≤ client }
    requires to { client ≤ 4096 }
    requires absent { IsAbsent client agents.old }
    ensures ok { OnOk result (Asks callbacks client asked.now net.old net.new agents.old agents.new
        lines.old.items lines.new.items) }
    ensures err { OnErr result (AsksPartly callbacks client asked.now net.old net.new agents.old
        agents.new) }
{
    match first_call(rt, alloc, callbacks, client, asked) {
        Ok((agent, sent)) => place_first(alloc, net, agents, lines, client, agent, sent),
        Err(error) => Err(error),
    }
}

/// A client asks for a call: its request is posted, or its agent refuses it by itself. Where memory runs out the agent may have
/// sent the call though its request was not posted. The same
/// is answered where the agent numbered 4,294,967,294 calls.
pub fn ask<R>(
    rt: &R,
    alloc: Global,
    net: &mut Net,
    agents: &mut Seq<Agent>,
    lines: &mut Vec<Seq<u8>>,
    callbacks: u32,
    client: u16,
    asked: &Ask,
) -> Result<(), AllocError>
    requires from { 1 ≤ client }
    requires to { client ≤ 4096 }
    requires started { AllStarted agents.old }
    ensures ok { OnOk result (Asks callbacks client asked.now net.old net.new agents.old agents.new
        lines.old.items lines.new.items) }
    ensures err { OnErr result (AsksPartly callbacks client asked.now net.old net.new agents.old
        agents.new) }
{
    match place_of(agents.as_slice(), client) {
        Some(at) => {
            if !can_call(agents.as_slice(), at) {
                return Err(AllocError);
            }
            ask_at(alloc, net, agents, lines, callbacks, client, asked, at)
        }
        None => ask_first(rt, alloc, net, agents, lines, callbacks, client, asked),
    }
}
