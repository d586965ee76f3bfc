//! The figures of a world and of a disk's files, and the line that tells them.
ghost use Rattle.std.specs.Prelude.{◌≡◌, ◌+◌, ◌++◌, ℕ, List, false, string_bytes, IfOk, IfSome};
ghost use Rattle.std.specs.FinMap as map;
ghost use Rattle.std.specs.Option.{option_map_or};
ghost use Rattle.std.specs.Result.{is_ok};
ghost use Rattle.ais_values.specs.Causes.{RoseExactlyOn};
ghost use Rattle.disk_model.specs.Counts.{read_more};
ghost use Rattle.plain_service.specs.Setups.{Setup};
ghost use Rattle.cluster_facts.specs.Agents.{Agent as AgentOf, resent};
ghost use Rattle.cluster_facts.specs.Messages.{Posting, messages_in};
ghost use Rattle.cluster_facts.specs.World.{World as WorldOf};
ghost use Rattle.cluster_events.specs.Servers.{State};
ghost use Rattle.client_agent.specs.Seen.{seen_of};
ghost use Rattle.cluster_clients.specs.Clients.{ShowsAgents};
ghost use Rattle.cluster_clients.specs.Looks.{ListCalls, Looks};
ghost use Rattle.cluster_clients.specs.Spelled.{AreSpelled};
ghost use Rattle.group_cluster.specs.Seats.{Peers};
ghost use Rattle.lead_server.specs.Roles.{role_shown};
ghost use Rattle.event_text.specs.Texts.{role_text};
ghost use Rattle.cluster_core.specs.Worlds.{Shows};
ghost use Rattle.cluster_core.specs.Game.{world_game};
ghost use Rattle.load_runs.specs.Handed.{ToldBy};
ghost use Rattle.world_runs.specs.Figures.{is_request, requests_again, requests_in, state_line, CountsFile, CountsFront, files_text, halt_of, is_fetched_request, is_request_at, roles_text, world_text};
ghost use Rattle.world_runs.specs.Loads.{TellsLoad};

use client_agent::Agent;
use cluster_clients::{Fetched, fetch};
use cluster_core::World;
use disk_model::{DiskAnswer, DiskFault, SharedDisk};
use lead_server::role_shown;
use message_net::Net;
use mirror::Role;
use played_runs::Halt;
use std::alloc::{AllocError, Global};
use wire::{Message, let_message_go, let_messages_go};

/// Whether a message is a request.
fn is_request(message: &Message) -> bool
    ensures { result ≡ is_request message.now }
{
    match message {
        Message::Request { .. } => true,
        _ => false,
    }
}

/// How many of these messages are requests.
fn count_requests(messages: &[Message]) -> usize
    ensures { result ≡ requests_in messages.now }
{
    let mut count: usize = 0;
    for message in messages {
        count += usize::from(is_request(message));
    }
    count
}

/// Whether a byte string is a request.
fn is_fetched_request(fetched: Fetched) -> bool
    ensures { result ≡ is_fetched_request fetched }
{
    match fetched {
        Fetched::Whole { message } => {
            let is_asking = is_request(&message);
            let_message_go(Some(message));
            is_asking
        }
        Fetched::Bad { .. } => false,
    }
}

/// Whether a request was found.
fn is_request_in(found: Option<Fetched>) -> bool
    ensures { result ≡ option_map_or is_fetched_request found false }
{
    match found {
        None => false,
        Some(fetched) => is_fetched_request(fetched),
    }
}

/// Whether what stands at a place of the net is a request.
fn is_request_at(alloc: Global, net: &Net, place: u64) -> Result<bool, AllocError>
    ensures { IfOk result (λ found. (postings : List Posting) → AreSpelled postings net.now →
        found ≡ is_request_at place postings) }
{
    match fetch(alloc, net, place) {
        Ok(found) => Ok(is_request_in(found)),
        Err(error) => Err(error),
    }
}

/// How many requests stand in the net.
fn requests_of_net(alloc: Global, net: &Net) -> Result<u64, AllocError>
    ensures { IfOk result (λ count. (postings : List Posting) → AreSpelled postings net.now →
        count ≡ requests_in (messages_in postings)) }
{
    let mut count: u64 = 0;
    for place in 0..net.len() {
        let found = is_request_at(alloc, net, place + 1)?;
        count += u64::from(found);
    }
    Ok(count)
}

/// How many requests an agent sends again.
fn requests_of_agent(alloc: Global, agent: &Agent) -> Result<u64, AllocError>
    ensures { IfOk result (λ count. (client places : ℕ) (shown : AgentOf) →
        agent.now ≡ seen_of client places shown → count ≡ requests_in (resent client shown)) }
{
    let messages = agent.resend(alloc)?;
    let count = count_requests(messages.as_slice());
    let_messages_go(messages);
    Ok(count as u64)
}

/// How many requests all agents send again. More than a `u64` tells count as want of memory.
fn requests_of_agents(alloc: Global, agents: &[Agent]) -> Result<u64, AllocError>
    ensures { IfOk result (λ count. (world : WorldOf) → ShowsAgents world agents.now →
        count ≡ requests_again world.agents world.clients) }
{
    let mut count: u64 = 0;
    for agent in agents {
        let more = requests_of_agent(alloc, agent)?;
        count = match count.checked_add(more) {
            Some(sum) => sum,
            None => return Err(AllocError),
        };
    }
    Ok(count)
}

/// Why a run halts where names were not told. A disk that is read does not stop.
fn halt_of(answer: DiskAnswer) -> Halt
    ensures { result ≡ halt_of answer }
{
    match answer {
        DiskAnswer::Failed => Halt::DiskFault,
        DiskAnswer::Memory | DiskAnswer::Stopped => Halt::Memory,
    }
}

/// The number of a disk's files and the sum of their lengths.
#[derive(Clone, Copy)]
pub struct Held {
    files: u64,
    bytes: u64,
}

/// These and a file of this length. `None` where a sum is more than a `u64` tells.
fn one_more(held: Held, length: u64) -> Option<Held>
    ensures { IfSome result (λ more. (more.files ≡ held.files + 1)
        × (more.bytes ≡ held.bytes + length)) }
{
    match held.files.checked_add(1) {
        None => None,
        Some(files) => match held.bytes.checked_add(length) {
            None => None,
            Some(bytes) => Some(Held { files, bytes }),
        },
    }
}

/// These and the file of a name, if it has a length. More than a `u64` tells count as want of memory, here and below.
fn with_file<D: SharedDisk>(disk: &mut D, name: &[u8], held: Held) -> Result<Held, Halt>
    ensures counted { IfOk result (λ more. IfSome (D.seen disk.old).files (λ told.
        CountsFile told name.now held more)) }
    ensures same { (D.seen disk.new).files ≡ (D.seen disk.old).files }
    ensures stops { (D.seen disk.new).stops ≡ (D.seen disk.old).stops }
    ensures asked { (D.seen disk.new).tally ≡ read_more 1 (D.seen disk.old).tally }
    ensures cause { RoseExactlyOn (D.seen disk.old).faults (D.seen disk.new).faults result
        Halt.DiskFault }
{
    match disk.len(name) {
        Ok(None) => Ok(held),
        Ok(Some(length)) => match one_more(held, length) {
            Some(more) => Ok(more),
            None => Err(Halt::Memory),
        },
        Err(DiskFault::Failed) => Err(Halt::DiskFault),
    }
}

/// Counts the files of a disk. `DiskFault` comes exactly where the disk's count of faults rose.
fn count_files<D: SharedDisk>(alloc: Global, disk: &mut D) -> Result<Held, Halt>
    ensures counted { IfOk result (λ held. IfSome (D.seen disk.old).files (λ told.
        CountsFront told (map.keys told) held)) }
    ensures same { (D.seen disk.new).files ≡ (D.seen disk.old).files }
    ensures stops { (D.seen disk.new).stops ≡ (D.seen disk.old).stops }
    ensures looks { Looks (ListCalls (D.seen disk.old).files) (is_ok result) (D.seen disk.old).tally
        (D.seen disk.new).tally }
    ensures cause { RoseExactlyOn (D.seen disk.old).faults (D.seen disk.new).faults result
        Halt.DiskFault }
{
    let names = match disk.names(alloc) {
        Ok(names) => names,
        Err(answer) => return Err(halt_of(answer)),
    };
    let mut held = Held { files: 0, bytes: 0 };
    for name in names.as_slice() {
        held = match with_file(disk, name.as_slice(), held) {
            Ok(more) => more,
            Err(halt) => return Err(halt),
        };
    }
    Ok(held)
}

/// The word of a server's role.
fn role_word(armed: bool, role: Role) -> &'static str
    ensures { result.now ≡ role_text (role_shown armed role) }
{
    event_text::role_word(role_shown(armed, role))
}

/// The part of the line on the world.
fn world_text(alloc: Global, entries: u64, replies: u64, net: u64) -> Result<String, AllocError>
    ensures { IfOk result (λ text. string_bytes text ≡ world_text entries replies net) }
{
    format!(in alloc; "load entries={entries} replies={replies} net={net}")
}

/// The part on the files.
fn files_text(alloc: Global, files: u64, bytes: u64) -> Result<String, AllocError>
    ensures { IfOk result (λ text. string_bytes text ≡ files_text files bytes) }
{
    format!(in alloc; " files={files} bytes={bytes}")
}

/// The part on the servers.
fn roles_text(alloc: Global, a: &str, b: &str) -> Result<String, AllocError>
    ensures { IfOk result (λ text. string_bytes text ≡ roles_text a.now b.now) }
{
    format!(in alloc; " a={a} b={b}\n")
}

/// The parts, one behind the other.
fn joined_line(front: String, files: String, roles: String) -> Result<String, AllocError>
    ensures { IfOk result (λ line. string_bytes line
        ≡ string_bytes front ++ string_bytes files ++ string_bytes roles) }
{
    let mut line = front;
    line.push_str(files.as_str())?;
    line.push_str(roles.as_str())?;
    Ok(line)
}

/// The line of a world and of files that were counted.
fn load_line(alloc: Global, world: &World, held: &Held) -> Result<String, AllocError>
    ensures { IfOk result (λ line. (setup : Setup) (state : State Peers) → Shows setup state
        world.entry.now → string_bytes line ≡ state_line state held.now.files held.now.bytes) }
{
    let entries = world.history.len();
    let net = world.net.len();
    let requests = requests_of_net(alloc, &world.net)?;
    let again = requests_of_agents(alloc, world.agents.as_slice())?;
    let replies = requests.saturating_sub(again);
    let a = role_word(world.armed, world.a.role());
    let b = role_word(world.armed, world.b.role());
    let front = world_text(alloc, entries, replies, net)?;
    let files = files_text(alloc, held.files, held.bytes)?;
    let roles = roles_text(alloc, a, b)?;
    let line = joined_line(front, files, roles)?;
    Ok(line)
}

/// Counts the files of the disk, and makes the line of these and of the world.
///
/// `DiskFault` comes exactly where the disk's count of faults rose; the disk is asked for its names and for the length of each file,
/// once, and for nothing else.
fn tell_load<D: SharedDisk>(alloc: Global, disk: &mut D, world: &World) -> Result<String, Halt>
    ensures told { IfOk result (λ line. (setup : Setup) (state : State Peers) → Shows setup state
        world.entry.now → TellsLoad state (D.seen disk.old).files (string_bytes line)) }
    ensures same { (D.seen disk.new).files ≡ (D.seen disk.old).files }
    ensures stops { (D.seen disk.new).stops ≡ (D.seen disk.old).stops }
    ensures looks { Looks (ListCalls (D.seen disk.old).files) (is_ok result) (D.seen disk.old).tally
        (D.seen disk.new).tally }
    ensures cause { RoseExactlyOn (D.seen disk.old).faults (D.seen disk.new).faults result
        Halt.DiskFault }
{
    let held = match count_files(alloc, disk) {
        Ok(held) => held,
        Err(halt) => return Err(halt),
    };
    match load_line(alloc, world, &held) {
        Ok(line) => Ok(line),
        Err(_) => Err(Halt::Memory),
    }
}

/// The same, as what plays a large run asks for it.
pub(crate) fn tell_state<D: SharedDisk>(
    alloc: Global,
    disk: &mut D,
    world: &World,
) -> Result<String, Halt>
    ensures { ToldBy world_game D.seen state_line disk.old disk.new world.entry.now result }
{
    tell_load(alloc, disk, world)
}
