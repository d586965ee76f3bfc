//! What no clause says: that calls are sent, messages taken and callbacks handed out while there is memory. Each helper
//! lets its large values go, so that the tests hold none.
ghost use Rattle.std.specs.Prelude.{◌≤◌};
ghost use Rattle.client_agent.specs.Steps.{HasWorkers};

use ais_values::{ClassId, Name, Seq, Status, Text, Version, Which};
use callback_dispatch::{Gate, Numbered, OpenGate};
use calls::{Ask, Boxed, Call, Callback, Reply};
use client_agent::*;
use ntf_filters::FilterSet;
use record_print::Header;
use std::alloc::Global;
use std::process::Abort;
use std::sync::Wait;
use std::sync::atomic::AtomicU32;
use std::sync::atomic::Ordering::SeqCst;
use std::thread::Threads;
use stream_config::{Mark, StreamName};
use sub_queue::{Content, Item, Lost};
use wire::{Message, let_message_go, let_messages_go};

/// A call of a client.
#[derive(Clone, Copy)]
enum Asked {
    Start { service: Which, major: u8 },
    /// A write to the system stream that asks for a callback.
    Write { invocation: u64 },
    Subscribe,
    /// Sets the mask of the system stream.
    Filter { mask: u32 },
    EndLog,
}

fn write(rt: &impl Abort, alloc: Global, invocation: u64) -> Call {
    let class = ClassId {
        vendor: 0,
        major: 0,
        minor: 0,
    };
    let header = Header::Generic {
        class,
        user: Name::new(alloc, b"u").expect(rt, "memory"),
        severity: 6,
    };
    Call::LogWrite {
        stream: StreamName::System,
        invocation,
        flags: 1,
        time: 0,
        header,
        body: Text::new(alloc, b"x").expect(rt, "memory"),
    }
}

fn subscribe(rt: &impl Abort, alloc: Global) -> Call {
    let filters = FilterSet {
        objects: None,
        attributes: None,
        states: None,
        alarms: None,
        security: None,
    };
    let filters = Boxed::new(alloc, filters).expect(rt, "memory");
    Call::NtfSubscribe { id: 9, filters }
}

fn ask_of(rt: &impl Abort, alloc: Global, asked: Asked) -> Ask {
    match asked {
        Asked::Start { service, major } => Ask::Start {
            service,
            version: Version {
                release: b'A',
                major,
                minor: 1,
            },
        },
        Asked::Write { invocation } => Ask::Plain {
            call: write(rt, alloc, invocation),
        },
        Asked::Subscribe => Ask::Plain {
            call: subscribe(rt, alloc),
        },
        Asked::Filter { mask } => Ask::Plain {
            call: Call::LogFilter {
                stream: StreamName::System,
                mask,
            },
        },
        Asked::EndLog => Ask::Plain {
            call: Call::LogFini,
        },
    }
}

/// The number of the request, or 1,000 and the code of the refusal.
fn number_sent(sent: &Sent) -> u32 {
    match sent {
        Sent::Posted {
            message: Message::Request { seq, .. },
        } => *seq,
        Sent::Posted { .. } => 0,
        Sent::Refused { status } => 1000 + u32::from(status.code()),
    }
}

/// What a call comes to.
fn sent(rt: &impl Abort, alloc: Global, agent: &mut Agent, asked: Asked) -> u32 {
    assert!(rt; agent.next() < 1000);
    let ask = ask_of(rt, alloc, asked);
    let answer = agent.call(alloc, &ask).expect(rt, "memory");
    drop(ask);
    let number = number_sent(&answer);
    let_sent_go(answer);
    number
}

/// The number of the answered call, 100 and the number of the receipt, or 1,000 and why the message was missed.
fn number_taken(taken: &Taken) -> u32 {
    match taken {
        Taken::Answered { seq, .. } => *seq,
        Taken::Item {
            receipt: Message::Receipt { through, .. },
        } => through.saturating_add(100),
        Taken::Item { .. } => 0,
        Taken::Missed { why } => match why {
            MissedWhy::Answered => 1001,
            MissedWhy::Left => 1002,
            MissedWhy::Taken => 1003,
            MissedWhy::Ahead => 1004,
            MissedWhy::Gone => 1005,
        },
    }
}

/// What a reply comes to.
fn replied<R: Abort + Wait>(
    rt: &R,
    alloc: Global,
    agent: &mut Agent,
    seq: u32,
    reply: Reply,
) -> u32 {
    assert!(rt; agent.client() == 7);
    let message = Message::Reply {
        client: 7,
        seq,
        reply,
    };
    let taken = agent.receive(rt, alloc, &message).expect(rt, "memory");
    let_message_go(Some(message));
    let number = number_taken(&taken);
    let_taken_go(taken);
    number
}

/// What an item comes to.
fn delivered<R: Abort + Wait>(
    rt: &R,
    alloc: Global,
    agent: &mut Agent,
    key: u32,
    number: u32,
) -> u32 {
    assert!(rt; agent.client() == 7);
    let mut lost = Seq::new(alloc);
    let one = Lost {
        kind: 4,
        id: u64::from(number),
    };
    lost.push(one).expect(rt, "memory");
    let content = Content::Discarded { lost };
    let message = Message::Item {
        client: 7,
        key,
        item: Item { number, content },
    };
    let taken = agent.receive(rt, alloc, &message).expect(rt, "memory");
    let_message_go(Some(message));
    let number = number_taken(&taken);
    let_taken_go(taken);
    number
}

/// The numbers of the callbacks, as digits, or 99 where they are refused.
fn digits_of(dispatched: &Dispatched) -> u64 {
    match dispatched {
        Dispatched::Refused { .. } => 99,
        Dispatched::Given { taken } => {
            let mut digits: u64 = 0;
            for numbered in taken.as_slice() {
                digits = digits.saturating_mul(10).saturating_add(numbered.number);
            }
            digits
        }
    }
}

/// What a dispatch hands out whose workers pass this gate.
fn handed_through<R: Abort + Threads + Wait + Sync, G: Gate>(
    rt: &R,
    alloc: Global,
    agent: &mut Agent,
    how: How,
    gate: &G,
) -> u64
    requires { HasWorkers how }
{
    let dispatched = agent.dispatch(rt, alloc, how, gate).expect(rt, "memory");
    let digits = digits_of(&dispatched);
    drop(dispatched);
    digits
}

/// What a dispatch hands out.
fn handed<R: Abort + Threads + Wait + Sync>(
    rt: &R,
    alloc: Global,
    agent: &mut Agent,
    how: How,
) -> u64
    requires { HasWorkers how }
{
    handed_through(rt, alloc, agent, how, &OpenGate)
}

/// How many messages are sent again.
fn count_resent(rt: &impl Abort, alloc: Global, agent: &Agent) -> usize {
    let messages = agent.resend(alloc).expect(rt, "memory");
    let count = messages.as_slice().len();
    let_messages_go(messages);
    count
}

#[test]
fn numbers_calls_and_refuses_by_itself(rt: HostRuntime) {
    let alloc = rt.alloc();
    let service = Which::Log;
    let mut agent = Agent::new(&rt, alloc, 7, 8).expect(&rt, "memory");
    for (asked, want) in [
        (Asked::Write { invocation: 1 }, 1009),
        (Asked::Start { service, major: 3 }, 1003),
        (Asked::Start { service, major: 2 }, 1),
        (Asked::Subscribe, 1009),
        (Asked::EndLog, 2),
        (Asked::Write { invocation: 1 }, 1009),
        (Asked::Start { service, major: 1 }, 3),
    ] {
        assert!(rt; sent(&rt, alloc, &mut agent, asked) == want, "{want}");
    }
    let_agent_go(agent);
}

#[test]
fn has_32_calls_without_a_reply(rt: HostRuntime) {
    let alloc = rt.alloc();
    let service = Which::Log;
    let mut agent = Agent::new(&rt, alloc, 7, 8).expect(&rt, "memory");
    let start = Asked::Start { service, major: 2 };
    assert!(rt; sent(&rt, alloc, &mut agent, start) == 1);
    let write = Asked::Write { invocation: 1 };
    for number in 2..33 {
        assert!(rt; sent(&rt, alloc, &mut agent, write) == number, "{number}");
    }
    assert!(rt; sent(&rt, alloc, &mut agent, write) == 1006);
    assert!(rt; replied(&rt, alloc, &mut agent, 1, Reply::Done) == 1);
    assert!(rt; sent(&rt, alloc, &mut agent, write) == 33);
    assert!(rt; count_resent(&rt, alloc, &agent) == 32);
    let_agent_go(agent);
}

/// The agent of a client with one subscription, its first call, and a queue of two.
fn subscribed(rt: &impl Abort, alloc: Global) -> Agent {
    let mut agent = Agent::new(rt, alloc, 7, 2).expect(rt, "memory");
    let start = Asked::Start {
        service: Which::Ntf,
        major: 1,
    };
    assert!(rt; sent(rt, alloc, &mut agent, start) == 1);
    assert!(rt; sent(rt, alloc, &mut agent, Asked::Subscribe) == 2);
    agent
}

/// Items of the subscription and of another one come, some of them ahead, again or where the queue is full.
fn takes_items<R: Abort + Wait>(rt: &R, alloc: Global, agent: &mut Agent) {
    for (key, number, want) in [
        (2, 2, 1004),
        (2, 1, 101),
        (2, 1, 1003),
        (3, 1, 1005),
        (2, 2, 102),
        (2, 3, 1002),
    ] {
        assert!(rt; delivered(rt, alloc, agent, key, number) == want, "{want}");
    }
}

#[test]
fn takes_each_reply_and_item_once(rt: HostRuntime) {
    let alloc = rt.alloc();
    let mut agent = subscribed(&rt, alloc);
    assert!(rt; replied(&rt, alloc, &mut agent, 2, Reply::Done) == 2);
    assert!(rt; replied(&rt, alloc, &mut agent, 2, Reply::Done) == 1001);
    takes_items(&rt, alloc, &mut agent);
    assert!(rt; handed(&rt, alloc, &mut agent, How::One) == 1);
    assert!(rt; delivered(&rt, alloc, &mut agent, 2, 3) == 103);
    assert!(rt; count_resent(&rt, alloc, &agent) == 2);
    let_agent_go(agent);
}

#[test]
fn hands_out_all_or_nothing(rt: HostRuntime) {
    let alloc = rt.alloc();
    let mut agent = subscribed(&rt, alloc);
    assert!(rt; delivered(&rt, alloc, &mut agent, 2, 1) == 101);
    assert!(rt; delivered(&rt, alloc, &mut agent, 2, 2) == 102);
    let all = How::All { workers: 4 };
    assert!(rt; handed(&rt, alloc, &mut agent, all) == 12);
    assert!(rt; handed(&rt, alloc, &mut agent, all) == 0);
    let_agent_go(agent);
    let mut other = Agent::new(&rt, alloc, 8, 2).expect(&rt, "memory");
    assert!(rt; handed(&rt, alloc, &mut other, How::One) == 99);
    let_agent_go(other);
}

/// Whether the callback of this number tells of this write.
fn is_written(numbered: &Numbered, number: u64, invocation: u64, status: Status) -> bool {
    match &numbered.callback {
        Callback::Written {
            invocation: found,
            status: told,
        } => numbered.number == number && *found == invocation && *told == status,
        _ => false,
    }
}

/// Whether the callbacks of the write 3, which had no room, and of the write 2 are handed out, and no others.
fn tells_of_both(dispatched: &Dispatched) -> bool {
    match dispatched {
        Dispatched::Given { taken } => match taken.as_slice() {
            [first, second] => {
                is_written(first, 1, 3, Status::NoSpace) && is_written(second, 2, 2, Status::Ok)
            }
            _ => false,
        },
        Dispatched::Refused { .. } => false,
    }
}

/// The agent of a client that has written three records, under the invocations 2, 3 and 4, and a queue of two.
fn written(rt: &impl Abort, alloc: Global) -> Agent {
    let mut agent = Agent::new(rt, alloc, 7, 2).expect(rt, "memory");
    let start = Asked::Start {
        service: Which::Log,
        major: 2,
    };
    assert!(rt; sent(rt, alloc, &mut agent, start) == 1);
    for number in 2..5u32 {
        let invocation = u64::from(number);
        let told = sent(rt, alloc, &mut agent, Asked::Write { invocation });
        assert!(rt; told == number, "{number}");
    }
    agent
}

#[test]
fn calls_back_for_writes_in_order(rt: HostRuntime) {
    let alloc = rt.alloc();
    let mut agent = written(&rt, alloc);
    let status = Status::NoSpace;
    let refused = Reply::Refused { status };
    assert!(rt; replied(&rt, alloc, &mut agent, 3, refused) == 3);
    assert!(rt; replied(&rt, alloc, &mut agent, 2, Reply::Done) == 2);
    assert!(rt; replied(&rt, alloc, &mut agent, 4, Reply::Done) == 1002);
    let given = agent
        .dispatch(&rt, alloc, How::All { workers: 1 }, &OpenGate)
        .expect(&rt, "memory");
    assert!(rt; tells_of_both(&given));
    drop(given);
    assert!(rt; replied(&rt, alloc, &mut agent, 4, Reply::Done) == 4);
    let_agent_go(agent);
}

/// What a reply comes to that tells a mark of the system stream. Where memory runs out it comes once more.
fn told<R: Abort + Wait>(rt: &R, alloc: Global, agent: &mut Agent, seq: u32, mark: Mark) -> u32 {
    assert!(rt; agent.client() == 7);
    let reply = Reply::Marked {
        filtered: false,
        mark,
    };
    let message = Message::Reply {
        client: 7,
        seq,
        reply,
    };
    let taken = match agent.receive(rt, alloc, &message) {
        Ok(taken) => taken,
        Err(_) => agent.receive(rt, alloc, &message).expect(rt, "memory"),
    };
    let_message_go(Some(message));
    let number = number_taken(&taken);
    let_taken_go(taken);
    number
}

/// 100 times the mask of the system stream and the invocation that is told with it, or 90,000 and that of a write
/// alone; 0 for any other callback.
fn code_of(callback: &Callback) -> u64 {
    match callback {
        Callback::FilterSet {
            stream: StreamName::System,
            mask,
            written,
        } => u64::from(*mask)
            .saturating_mul(100)
            .saturating_add(written.unwrap_or(0)),
        Callback::Written { invocation, .. } => invocation.saturating_add(90_000),
        _ => 0,
    }
}

/// The codes of the callbacks that are handed out, five digits each.
fn codes_of(dispatched: &Dispatched) -> u64 {
    match dispatched {
        Dispatched::Refused { .. } => 0,
        Dispatched::Given { taken } => {
            let mut codes: u64 = 0;
            for numbered in taken.as_slice() {
                let code = code_of(&numbered.callback);
                codes = codes.saturating_mul(100_000).saturating_add(code);
            }
            codes
        }
    }
}

/// The codes of all callbacks that wait.
fn codes_handed<R: Abort + Threads + Wait + Sync>(rt: &R, alloc: Global, agent: &mut Agent) -> u64 {
    let all = How::All { workers: 1 };
    let dispatched = agent
        .dispatch(rt, alloc, all, &OpenGate)
        .expect(rt, "memory");
    let codes = codes_of(&dispatched);
    drop(dispatched);
    codes
}

/// The agent of a client that has set a mask by call 2, written under the invocation 7 by call 3, and set a mask again
/// by call 4, with a queue of so many places.
fn filtering(rt: &impl Abort, alloc: Global, places: u32) -> Agent {
    let mut agent = Agent::new(rt, alloc, 7, places).expect(rt, "memory");
    let service = Which::Log;
    for (asked, number) in [
        (Asked::Start { service, major: 2 }, 1),
        (Asked::Filter { mask: 8 }, 2),
        (Asked::Write { invocation: 7 }, 3),
        (Asked::Filter { mask: 1 }, 4),
    ] {
        assert!(rt; sent(rt, alloc, &mut agent, asked) == number, "{number}");
    }
    agent
}

/// The callbacks where replies with these marks to the calls 2, 3 and 4 come in this order.
fn masks_told<R: Abort + Threads + Wait + Sync>(
    rt: &R,
    alloc: Global,
    marks: [(u64, u32); 3],
    order: [u32; 3],
) -> u64 {
    let mut agent = filtering(rt, alloc, 8);
    for seq in order {
        let (since, mask) = match seq {
            2 => marks[0],
            3 => marks[1],
            _ => marks[2],
        };
        let taken = told(rt, alloc, &mut agent, seq, Mark { since, mask });
        assert!(rt; taken == seq, "{seq}");
    }
    let codes = codes_handed(rt, alloc, &mut agent);
    let_agent_go(agent);
    codes
}

/// Two clients set the mask in turn: one by the entries 5 and 12 to 8 and 1, the other by 8 and 15 to 127 and 8; each
/// writes between. What each is told of it, whichever order its replies come in.
#[test]
fn tells_masks_by_the_latest_mark(rt: HostRuntime) {
    let one = [(5, 8), (8, 127), (12, 1)];
    let other = [(8, 127), (12, 1), (15, 8)];
    for (order, one_told, other_told) in [
        ([2, 3, 4], 800_12707_00100, 107_00800),
        ([2, 4, 3], 800_00100_90007, 800_90007),
        ([3, 2, 4], 90007_00100, 107_00800),
        ([3, 4, 2], 90007_00100, 107_00800),
        ([4, 2, 3], 100_90007, 800_90007),
        ([4, 3, 2], 100_90007, 800_90007),
    ] {
        assert!(rt;
            masks_told(&rt, rt.alloc(), one, order) == one_told,
            "{one_told}"
        );
        assert!(rt;
            masks_told(&rt, rt.alloc(), other, order) == other_told,
            "{other_told}"
        );
    }
}

/// A mask that is another waits for a place; a later mark with the same mask wants none, and does not replace it.
#[test]
fn leaves_a_mask_that_has_no_place(rt: HostRuntime) {
    let alloc = rt.alloc();
    let mut agent = filtering(&rt, alloc, 1);
    for (seq, since, mask, want) in [
        (3, 0, 127, 3),
        (2, 5, 8, 1002),
        (4, 4, 127, 4),
        (2, 5, 8, 1002),
    ] {
        assert!(rt;
            told(&rt, alloc, &mut agent, seq, Mark { since, mask }) == want,
            "{want}"
        );
    }
    assert!(rt; codes_handed(&rt, alloc, &mut agent) == 90_007);
    assert!(rt; told(&rt, alloc, &mut agent, 2, Mark { since: 5, mask: 8 }) == 2);
    assert!(rt; codes_handed(&rt, alloc, &mut agent) == 800);
    let_agent_go(agent);
}

/// Counts the workers that pass.
#[derive(Drop)]
struct Passed {
    workers: AtomicU32,
}

impl Gate for Passed {
    fn hold(&self, _worker: u32) {
        self.workers.fetch_add(1, SeqCst);
    }
}

/// Two callbacks are handed out by so many workers, each of which passes the gate.
fn hands_out_by<R: Abort + Threads + Wait + Sync>(rt: &R, alloc: Global, workers: u32)
    requires { (1 ≤ workers) × (workers ≤ 8) }
{
    let mut agent = subscribed(rt, alloc);
    assert!(rt; delivered(rt, alloc, &mut agent, 2, 1) == 101);
    assert!(rt; delivered(rt, alloc, &mut agent, 2, 2) == 102);
    let gate = Passed {
        workers: AtomicU32::new(0),
    };
    let all = How::All { workers };
    assert!(rt; handed_through(rt, alloc, &mut agent, all, &gate) == 12);
    assert_eq!(rt; gate.workers.load(SeqCst), workers);
    let_agent_go(agent);
}

#[test]
fn hands_out_the_same_by_any_number_of_workers(rt: HostRuntime) {
    for workers in 1..9 {
        hands_out_by(&rt, rt.alloc(), workers);
    }
}
