//! What no clause says: that each call succeeds while there is memory.
ghost use Rattle.std.specs.Prelude.{◌≡◌, ◌≢◌, ◌<◌, ◌≤◌, pos, None, ◌∷◌, []};
ghost use Rattle.calls.specs.declared.call.Call.TheVariants.{NtfInit};
ghost use Rattle.calls.specs.declared.entry.Entry.TheVariants.{Called};
ghost use Rattle.wire.specs.declared.message.Message.TheVariants.{Request, Receipt};
ghost use Rattle.stream_config.specs.WellKnown.{default_attrs};
ghost use Rattle.service_core.specs.Beginning.{CanBeginAs};
ghost use Rattle.mirror.specs.Pairing.{CanReceive};

use ais_values::{Seq, StreamKind};
use calls::{Call, Entry, Shared};
use disk_model::MemDisk;
use mirror::{Heard, Node, Outcome, Role, Why, let_heard_go, let_node_go};
use service_core::Service;
use std::alloc::Global;
use std::process::Abort;
use stream_config::{StreamAttrs, well_known};
use wire::{Message, let_message_go, let_messages_go};

/// 2024-01-01 00:00:00.
pub(crate) const START: i64 = 1_704_067_200_000_000_000;

/// The attributes of the three streams.
fn wells(
    rt: &impl Abort,
    alloc: Global,
    alarm: StreamAttrs,
    notification: StreamAttrs,
    system: StreamAttrs,
) -> Seq<StreamAttrs>
    ensures { result ≡ alarm ∷ notification ∷ system ∷ [] }
{
    let mut wells = Vec::with_capacity(alloc, 3).expect(rt, "memory");
    wells.push_reserved(alarm);
    wells.push_reserved(notification);
    wells.push_reserved(system);
    Seq::from_vec(wells)
}

/// The attributes of a stream unless other ones are given.
fn given(rt: &impl Abort, alloc: Global, kind: StreamKind) -> StreamAttrs
    requires { kind ≢ StreamKind.Application }
    ensures { result ≡ default_attrs kind }
{
    well_known(alloc, kind).expect(rt, "memory")
}

/// The attributes of the three streams unless other ones are given.
pub(crate) fn default_wells(rt: &impl Abort, alloc: Global) -> Seq<StreamAttrs>
    ensures { CanBeginAs (pos 1704067200000000000) 4 result }
{
    let alarm = given(rt, alloc, StreamKind::Alarm);
    let notification = given(rt, alloc, StreamKind::Notification);
    let system = given(rt, alloc, StreamKind::System);
    wells(rt, alloc, alarm, notification, system)
}

/// A service that nobody has used.
pub(crate) fn service(rt: &impl Abort, alloc: Global) -> Service {
    let wells = default_wells(rt, alloc);
    let (service, deeds) = Service::new(alloc, START, 4, wells).expect(rt, "memory");
    drop(deeds);
    service
}

/// What a server told: what became of a message or of work, how many messages are to be posted and how many go to its
/// partner, and whether an entry is committed.
#[derive(Clone, Copy, PartialEq)]
struct Told {
    outcome: Outcome,
    posts: usize,
    for_peer: usize,
    commits: bool,
}

fn told_by(heard: Heard) -> Told {
    let told = Told {
        outcome: heard.outcome,
        posts: heard.to_net.as_slice().len(),
        for_peer: heard.to_peer.as_slice().len(),
        commits: heard.committed.is_some(),
    };
    let_heard_go(heard);
    told
}

/// A server without partner commits an entry as it accepts it.
const ACCEPTED: Told = Told {
    outcome: Outcome::Accepted,
    posts: 0,
    for_peer: 0,
    commits: true,
};

/// A linked server sends it to its partner first.
const MIRRORED: Told = Told {
    outcome: Outcome::Accepted,
    posts: 0,
    for_peer: 1,
    commits: false,
};

/// The standby answers that it has it.
const APPLIED: Told = Told {
    outcome: Outcome::Applied,
    posts: 0,
    for_peer: 1,
    commits: true,
};

const REPEATED: Told = Told {
    outcome: Outcome::Repeated,
    posts: 1,
    for_peer: 0,
    commits: false,
};

/// A call is answered by one reply.
const WORKED: Told = Told {
    outcome: Outcome::Worked,
    posts: 1,
    for_peer: 0,
    commits: false,
};

/// The service goes to a server that joins.
const JOINS: Told = Told {
    outcome: Outcome::Changed,
    posts: 0,
    for_peer: 1,
    commits: false,
};

const TAKEN_OVER: Told = Told {
    outcome: Outcome::Changed,
    posts: 0,
    for_peer: 0,
    commits: false,
};

fn ignored(why: Why) -> Told {
    Told {
        outcome: Outcome::Ignored { why },
        posts: 0,
        for_peer: 0,
        commits: false,
    }
}

/// Hears a message, and tells this.
fn hears(rt: &impl Abort, alloc: Global, node: &mut Node, message: Message, want: Told)
    requires { CanReceive message (pos 1704067200000000000) node.old }
{
    assert!(rt; node.has_room());
    let heard = node.receive(alloc, &message, START);
    let_message_go(Some(message));
    let told = told_by(heard.expect(rt, "memory"));
    assert!(rt; told == want);
}

/// Works the entry in hand, and tells this.
fn works(rt: &impl Abort, alloc: Global, node: &mut Node, disk: &mut MemDisk) {
    assert!(rt; node.ready());
    let heard = node.work(alloc, disk);
    let told = told_by(heard.expect(rt, "a disk that serves"));
    assert!(rt; told == WORKED);
}

/// A call by which a client begins to use the Notification Service.
fn request(rt: &impl Abort, alloc: Global, client: u16, seq: u32) -> Message
    ensures { result ≡ Request client seq NtfInit }
{
    Message::Request {
        client,
        seq,
        call: Shared::new(alloc, Call::NtfInit).expect(rt, "memory"),
    }
}

/// Hears that call, and tells this.
fn asks(rt: &impl Abort, alloc: Global, node: &mut Node, client: u16, seq: u32, want: Told)
    requires least { 1 ≤ client }
    requires most { client ≤ 4096 }
    requires number { 0 < seq }
{
    hears(rt, alloc, node, request(rt, alloc, client, seq), want);
}

/// The receipt of a client that has no subscription.
fn receipt() -> Message
    ensures { result ≡ Receipt 1 1 1 }
{
    Message::Receipt {
        client: 1,
        key: 1,
        through: 1,
    }
}

/// Hears that receipt, and tells this.
fn receives(rt: &impl Abort, alloc: Global, node: &mut Node, want: Told) {
    hears(rt, alloc, node, receipt(), want);
}

/// Whether the active server has a reply for this call, which it would post again.
fn repeats(node: &Node, client: u16, seq: u32) -> bool
    requires { 0 < seq }
{
    match node.role() {
        Role::Active => node.reply_again(client, seq).is_some(),
        _ => false,
    }
}

/// A call is accepted while nothing is in hand.
fn accepts(rt: &impl Abort, alloc: Global, node: &mut Node) {
    asks(rt, alloc, node, 1, 2, ignored(Why::Ahead));
    asks(rt, alloc, node, 1, 1, ACCEPTED);
    assert!(rt; node.in_hand() == Some(1));
    asks(rt, alloc, node, 2, 1, ignored(Why::Busy { number: 1 }));
    receives(rt, alloc, node, ignored(Why::Busy { number: 1 }));
    assert!(rt; !repeats(node, 1, 1));
}

/// It is answered once it was worked, and its reply is posted again as it comes again.
fn answers(rt: &impl Abort, alloc: Global, node: &mut Node, disk: &mut MemDisk) {
    works(rt, alloc, node, disk);
    assert!(rt; node.in_hand() == None);
    assert!(rt; repeats(node, 1, 1));
    assert!(rt; !repeats(node, 1, 2));
    assert!(rt; !repeats(node, 2, 1));
    asks(rt, alloc, node, 1, 1, REPEATED);
    receives(rt, alloc, node, ignored(Why::Done));
}

/// A client makes calls from this one on, so that the first reply is no longer kept.
fn forgets(rt: &impl Abort, alloc: Global, node: &mut Node, disk: &mut MemDisk, first: u32)
    requires { 0 < first }
{
    for seq in first..34 {
        asks(rt, alloc, node, 1, seq, ACCEPTED);
        works(rt, alloc, node, disk);
    }
    assert!(rt; !repeats(node, 1, 1));
    assert!(rt; repeats(node, 1, 2));
    asks(rt, alloc, node, 1, 1, ignored(Why::Old));
    asks(rt, alloc, node, 1, 2, REPEATED);
}

pub(crate) fn new_disk(alloc: Global) -> MemDisk
    ensures { result.tally.armed ≡ None }
{
    MemDisk::new(alloc, Vec::new(alloc), Vec::new(alloc), Vec::new(alloc))
}

#[test]
fn a_call_is_answered_and_repeated(rt: HostRuntime) {
    let alloc = rt.alloc();
    let mut node = Node::start(alloc, Role::Active, service(&rt, alloc));
    let mut disk = new_disk(alloc);
    accepts(&rt, alloc, &mut node);
    answers(&rt, alloc, &mut node, &mut disk);
    drop(disk);
    let_node_go(node);
}

#[test]
fn a_call_of_long_ago_is_old(rt: HostRuntime) {
    let alloc = rt.alloc();
    let mut node = Node::start(alloc, Role::Active, service(&rt, alloc));
    let mut disk = new_disk(alloc);
    forgets(&rt, alloc, &mut node, &mut disk, 1);
    drop(disk);
    let_node_go(node);
}

/// A server of another role than the active one's.
fn ignores(rt: &impl Abort, alloc: Global, mut node: Node, role: Role) {
    assert!(rt; node.role() == role);
    receives(rt, alloc, &mut node, ignored(Why::NotForRole { role }));
    let_node_go(node);
}

#[test]
fn other_roles_ignore_all(rt: HostRuntime) {
    let alloc = rt.alloc();
    ignores(&rt, alloc, Node::down(), Role::Down);
    ignores(&rt, alloc, Node::joining(alloc), Role::Joining);
    ignores(
        &rt,
        alloc,
        Node::start(alloc, Role::Standby, service(&rt, alloc)),
        Role::Standby,
    );
}

#[test]
fn nothing_is_pushed_while_nothing_is_held(rt: HostRuntime) {
    let alloc = rt.alloc();
    let node = Node::start(alloc, Role::Active, service(&rt, alloc));
    let messages = node.push(alloc).expect(&rt, "memory");
    let count = messages.as_slice().len();
    let_messages_go(messages);
    let_node_go(node);
    assert!(rt; count == 0);
}

/// The first call, as it is mirrored.
fn first_entry(rt: &impl Abort, alloc: Global) -> Entry
    ensures { result ≡ Called 1 1 (pos 1704067200000000000) NtfInit }
{
    Entry::Called {
        client: 1,
        seq: 1,
        time: START,
        call: Shared::new(alloc, Call::NtfInit).expect(rt, "memory"),
    }
}

/// The active server's partner joins, and the first call is accepted and waits; then the server is lost.
fn mirrors(rt: &impl Abort, alloc: Global) {
    let mut node = Node::start(alloc, Role::Active, service(rt, alloc));
    let begun = told_by(node.begin_join(alloc).expect(rt, "memory"));
    assert!(rt; begun == JOINS);
    asks(rt, alloc, &mut node, 1, 1, MIRRORED);
    assert!(rt; node.in_hand() == Some(1));
    assert!(rt; !node.ready());
    let_node_go(node);
}

/// A standby hears of the first call, and answers that it has it.
fn follows(rt: &impl Abort, alloc: Global, service: Service) -> Node {
    assert!(rt; service.next(1) == 1);
    assert!(rt; service.number() == 0);
    let mut node = Node::start(alloc, Role::Standby, service);
    assert!(rt; !node.keeps());
    let message = Message::Mirror {
        number: 1,
        entry: first_entry(rt, alloc),
    };
    hears(rt, alloc, &mut node, message, APPLIED);
    assert!(rt; node.keeps());
    node
}

/// The standby is active, and repeats the reply to the first call until it is no longer kept.
fn takes_over(rt: &impl Abort, alloc: Global, node: &mut Node, disk: &mut MemDisk) {
    assert!(rt; node.role() == Role::Standby);
    let heard = node.takeover(alloc, disk);
    let told = told_by(heard.expect(rt, "a disk that serves"));
    assert!(rt; told == TAKEN_OVER);
    assert!(rt; node.role() == Role::Active);
    assert!(rt; !node.keeps());
    asks(rt, alloc, node, 1, 1, REPEATED);
    forgets(rt, alloc, node, disk, 2);
}

#[test]
fn a_standby_that_has_a_call_repeats_its_reply(rt: HostRuntime) {
    let alloc = rt.alloc();
    mirrors(&rt, alloc);
    let mut node = follows(&rt, alloc, service(&rt, alloc));
    let mut disk = new_disk(alloc);
    takes_over(&rt, alloc, &mut node, &mut disk);
    drop(disk);
    let_node_go(node);
}
