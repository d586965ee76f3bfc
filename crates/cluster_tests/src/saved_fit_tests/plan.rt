//! Values told by plain numbers, which a test changes one at a time.

/// Stands for an element that is not there.
pub(crate) const NONE: u16 = 65535;

/// No notification passes these filters, or those of alarms, of alarms and objects, or those that may not be used.
pub(crate) const EMPTY: u8 = 0;

pub(crate) const ALARMS: u8 = 1;

pub(crate) const OBJECTS_TOO: u8 = 2;

pub(crate) const OBJECTS_BY_CAUSE: u8 = 3;

pub(crate) const ALARMS_BY_SOURCE: u8 = 4;

pub(crate) const WRAP: u8 = 1;

pub(crate) const HALT: u8 = 2;

pub(crate) const ROTATE: u8 = 3;

/// A window of a client with so many replies.
#[derive(Clone, Copy)]
pub(crate) struct WindowPlan {
    pub(crate) client: u16,
    pub(crate) next: u32,
    pub(crate) replies: u32,
}

/// A stream. Its name is that of a well-known one below 3, and else an application's of this letter; its file and path
/// have one letter, and its expression is a class's token with this letter. Two of its files are told at most, by their
/// stamps, first records and bytes. A file is closed unless at 0.
#[derive(Clone, Copy)]
pub(crate) struct StreamPlan {
    pub(crate) name: u8,
    pub(crate) file: u8,
    pub(crate) path: u8,
    pub(crate) field: u8,
    pub(crate) max: u64,
    pub(crate) record: u32,
    pub(crate) ha: u8,
    pub(crate) action: u8,
    pub(crate) rotated: u32,
    pub(crate) taken: u32,
    pub(crate) opened: u32,
    pub(crate) files: usize,
    pub(crate) created: [i64; 2],
    pub(crate) closed: [i64; 2],
    pub(crate) first: [u32; 2],
    pub(crate) bytes: [u64; 2],
    pub(crate) openers: [u16; 2],
    pub(crate) since: u64,
    pub(crate) mask: u32,
}

/// A stored alarm, or a notification of another type where the event type is one.
#[derive(Clone, Copy)]
pub(crate) struct AlarmPlan {
    pub(crate) k: u32,
    pub(crate) id: u64,
    pub(crate) time: i64,
    pub(crate) event_type: u16,
    pub(crate) severity: u16,
}

/// A subscription with so many items and lost notifications.
#[derive(Clone, Copy)]
pub(crate) struct SubPlan {
    pub(crate) client: u16,
    pub(crate) key: u32,
    pub(crate) id: u32,
    pub(crate) filters: u8,
    pub(crate) first: u32,
    pub(crate) held: u32,
    pub(crate) lost: u32,
}

#[derive(Clone, Copy)]
pub(crate) struct ReaderPlan {
    pub(crate) client: u16,
    pub(crate) filters: u8,
}

/// A value. The last three say how many readers, subscriptions and streams stand behind those that are told.
#[derive(Clone, Copy)]
pub(crate) struct Plan {
    pub(crate) number: u64,
    pub(crate) last_stamp: i64,
    pub(crate) last_id: u64,
    pub(crate) capacity: u32,
    pub(crate) log_users: [u16; 2],
    pub(crate) ntf_users: [u16; 2],
    pub(crate) windows: [WindowPlan; 2],
    pub(crate) streams: [StreamPlan; 5],
    pub(crate) alarms: [AlarmPlan; 2],
    pub(crate) subs: [SubPlan; 2],
    pub(crate) readers: [ReaderPlan; 2],
    pub(crate) more_readers: u16,
    pub(crate) more_subs: u32,
    pub(crate) more_streams: u8,
}

/// A stream of two records a file that has one file, with the last two of so many records.
pub(crate) fn stream(name: u8, file: u8, action: u8, taken: u32) -> StreamPlan {
    StreamPlan {
        name,
        file,
        path: b'.',
        field: b'b',
        max: 64,
        record: 32,
        ha: 0,
        action,
        rotated: 2,
        taken,
        opened: 1,
        files: 1,
        created: [100, 102],
        closed: [0, 0],
        first: [0, 0],
        bytes: [u64::from(taken.min(2)) * 32, 0],
        openers: [NONE, NONE],
        since: 0,
        mask: 127,
    }
}

/// The alarm stream has stored three files of one record, and keeps the last two.
fn alarm_stream() -> StreamPlan {
    let mut plan = stream(0, b'a', ROTATE, 3);
    plan.record = 64;
    plan.opened = 3;
    plan.files = 2;
    plan.closed = [101, 0];
    plan.first = [1, 2];
    plan.bytes = [64, 64];
    plan
}

/// The system stream has stored two files, of two records and of one.
fn system_stream() -> StreamPlan {
    let mut plan = stream(2, b's', ROTATE, 3);
    plan.opened = 2;
    plan.files = 2;
    plan.closed = [101, 0];
    plan.first = [0, 2];
    plan.bytes = [64, 32];
    plan.openers = [1, 2];
    plan
}

/// The stream of an application, that the first client has open.
fn own_stream(name: u8, action: u8, taken: u32) -> StreamPlan {
    let mut plan = stream(name, name, action, taken);
    plan.openers = [1, NONE];
    plan
}

fn streams() -> [StreamPlan; 5] {
    [
        alarm_stream(),
        stream(1, b'n', ROTATE, 0),
        system_stream(),
        own_stream(b'v', WRAP, 5),
        own_stream(b'w', HALT, 2),
    ]
}

pub(crate) fn window(client: u16, next: u32, replies: u32) -> WindowPlan {
    WindowPlan {
        client,
        next,
        replies,
    }
}

pub(crate) fn alarm(k: u32, id: u64) -> AlarmPlan {
    AlarmPlan {
        k,
        id,
        time: 5,
        event_type: 0x4001,
        severity: 5,
    }
}

pub(crate) fn sub(client: u16, key: u32, id: u32) -> SubPlan {
    SubPlan {
        client,
        key,
        id,
        filters: OBJECTS_TOO,
        first: 1,
        held: 0,
        lost: 0,
    }
}

pub(crate) fn reader(client: u16, filters: u8) -> ReaderPlan {
    ReaderPlan { client, filters }
}

/// A value that keeps all rules.
pub(crate) fn sound() -> Plan {
    Plan {
        number: 10,
        last_stamp: 200,
        last_id: 3,
        capacity: 2,
        log_users: [1, 2],
        ntf_users: [1, 2],
        windows: [window(1, 4, 3), window(2, 2, 1)],
        streams: streams(),
        alarms: [alarm(1, 1), alarm(2, 3)],
        subs: [sub(1, 1, 7), sub(1, 3, 8)],
        readers: [reader(1, ALARMS), reader(2, ALARMS)],
        more_readers: 0,
        more_subs: 0,
        more_streams: 0,
    }
}
