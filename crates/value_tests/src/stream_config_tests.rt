use ais_values::{Duplicate, Name, Seq, Shared, StreamKind, Text};
use std::alloc::Global;
use std::process::Abort;
use stream_config::{
    FullAction, LogFile, Mark, StreamAttrs, StreamEvent, StreamName, StreamState, cfg_text,
    check_attrs, first_standing, has_room, have_one_place, lets_pass, per_file, stamp, well_known,
};

const LONGEST: &[u8] = b"aaaaaaaaaaaaaaaaaaaaaaaaaaaaaaaaaaaaaaaaaaaaaaaaaaaaaaaaaaaaaaaa";

const TOO_LONG: &[u8] = b"aaaaaaaaaaaaaaaaaaaaaaaaaaaaaaaaaaaaaaaaaaaaaaaaaaaaaaaaaaaaaaaaa";

/// The attributes of the cfg file that the format's document prints.
fn attrs_of(rt: &impl Abort, alloc: Global, file: &[u8], path: &[u8]) -> StreamAttrs {
    StreamAttrs {
        file: Text::new(alloc, file).expect(rt, "a text"),
        path: Text::new(alloc, path).expect(rt, "a text"),
        max_file: 32,
        record_size: 32,
        ha: 0,
        action: FullAction::Rotate,
        rotated: 1,
        expr: Text::new(alloc, b"@Cr @Cb").expect(rt, "a text"),
    }
}

fn passes(kind: StreamKind, attrs: StreamAttrs) -> bool {
    let accepted = check_attrs(kind, &attrs).is_ok();
    drop(attrs);
    accepted
}

#[test]
fn names_are_accepted_within_their_bounds(rt: HostRuntime) {
    let cases: [(&[u8], &[u8], bool); 10] = [
        (b"saLogSystem", b".", true),
        (b"", b".", false),
        (b"A-z_09", b"a", true),
        (LONGEST, LONGEST, true),
        (TOO_LONG, b".", false),
        (b"a", TOO_LONG, false),
        (b".", b".", false),
        (b"a", b"", false),
        (b"a/b", b".", false),
        (b"a", b"..", false),
    ];
    for (file, path, accepted) in cases {
        let attrs = attrs_of(&rt, rt.alloc(), file, path);
        let passed = passes(StreamKind::System, attrs);
        assert!(rt; passed == accepted, "{file:?} {path:?}");
    }
}

#[test]
fn numbers_are_accepted_within_their_bounds(rt: HostRuntime) {
    // record size, greatest file size, HA, rotated files, accepted
    let cases = [
        (32, 32, 0, 1, true),
        (16_384, 1_073_741_824, 1, 128, true),
        (31, 32, 0, 1, false),
        (16_385, 20_000, 0, 1, false),
        (32, 31, 0, 1, false),
        (32, 1_073_741_825, 0, 1, false),
        (32, 32, 2, 1, false),
        (32, 32, 0, 0, false),
        (32, 32, 0, 129, false),
        (0, 16_384, 0, 1, true),
        (0, 1_073_741_824, 0, 1, true),
        (0, 16_383, 0, 1, false),
        (0, 1_073_741_825, 0, 1, false),
        (1, 16_384, 0, 1, false),
    ];
    for (record_size, max_file, ha, rotated, accepted) in cases {
        let mut attrs = attrs_of(&rt, rt.alloc(), b"f", b".");
        attrs.record_size = record_size;
        attrs.max_file = max_file;
        attrs.ha = ha;
        attrs.rotated = rotated;
        let passed = passes(StreamKind::System, attrs);
        assert!(rt;
            passed == accepted,
            "{record_size} {max_file} {ha} {rotated}"
        );
    }
}

#[test]
fn records_of_varying_size_do_not_wrap(rt: HostRuntime) {
    let cases = [
        (FullAction::Wrap, 32, true),
        (FullAction::Wrap, 0, false),
        (FullAction::Halt, 0, true),
        (FullAction::Rotate, 0, true),
    ];
    for (action, record_size, accepted) in cases {
        let mut attrs = attrs_of(&rt, rt.alloc(), b"f", b".");
        attrs.max_file = 16_384;
        attrs.record_size = record_size;
        attrs.action = action;
        let passed = passes(StreamKind::System, attrs);
        assert!(rt; passed == accepted, "{action:?} {record_size}");
    }
}

#[test]
fn expressions_are_accepted_by_kind_of_stream(rt: HostRuntime) {
    let alloc = rt.alloc();
    let cases: [(StreamKind, &[u8], bool); 5] = [
        (StreamKind::Alarm, b"@Nt", true),
        (StreamKind::Notification, b"@Sv", false),
        (StreamKind::System, b"@Sv", true),
        (StreamKind::Application, b"@Nt", false),
        (StreamKind::Application, b"", true),
    ];
    for (kind, expr, accepted) in cases {
        let mut attrs = attrs_of(&rt, alloc, b"f", b".");
        attrs.expr = Text::new(alloc, expr).expect(&rt, "a text");
        assert!(rt; passes(kind, attrs) == accepted, "{kind:?} {expr:?}");
    }
}

fn cfg_is(
    rt: &impl Abort,
    alloc: Global,
    name: &StreamName,
    attrs: &StreamAttrs,
    want: &[u8],
) -> bool {
    assert!(rt; attrs.expr.as_slice().len() <= 1024);
    let text = cfg_text(alloc, name, attrs).expect(rt, "memory");
    let same = text.as_slice() == want;
    drop(text);
    same
}

#[test]
fn a_cfg_text_tells_all_attributes(rt: HostRuntime) {
    let alloc = rt.alloc();
    let mut attrs = attrs_of(&rt, alloc, b"saLogSystem", b".");
    let system =
        b"STREAM: system\nVERSION: A.02.01\nFORMAT: @Cr @Cb\nMAX_FILE_SIZE: 32\nRECORD_SIZE: 32\nFULL_ACTION: ROTATE\nROTATED_FILES: 1\nHA: 0\n";
    assert!(rt; system.len() == 125);
    assert!(rt; cfg_is(&rt, alloc, &StreamName::System, &attrs, system.as_slice()));
    attrs.action = FullAction::Halt;
    let name = StreamName::App {
        name: Name::new(alloc, b"my app").expect(&rt, "a name"),
    };
    let own =
        b"STREAM: app my app\nVERSION: A.02.01\nFORMAT: @Cr @Cb\nMAX_FILE_SIZE: 32\nRECORD_SIZE: 32\nFULL_ACTION: HALT\nROTATED_FILES: 1\nHA: 0\n";
    let same = cfg_is(&rt, alloc, &name, &attrs, own.as_slice());
    drop(name);
    drop(attrs);
    assert!(rt; same);
}

#[test]
fn well_known_streams_have_their_own_places(rt: HostRuntime) {
    let alloc = rt.alloc();
    let mut alarm = well_known(alloc, StreamKind::Alarm).expect(&rt, "memory");
    let system = well_known(alloc, StreamKind::System).expect(&rt, "memory");
    assert!(rt; alarm.file.as_slice() == b"saLogAlarm".as_slice());
    assert!(rt; per_file(&system) == 1024);
    assert!(rt; !have_one_place(&alarm, &system));
    alarm.file = system.file.copy(alloc).expect(&rt, "memory");
    assert!(rt; have_one_place(&alarm, &system));
    drop(alarm);
    drop(system);
}

#[test]
fn stamps_rise(rt: HostRuntime) {
    assert!(rt; stamp(0, 1_704_067_200_999_999_999) == 1_704_067_200);
    assert!(rt; stamp(1_704_067_200, 1_704_067_200_000_000_000) == 1_704_067_201);
    assert!(rt; stamp(1_704_067_202, 1_704_067_203_000_000_000) == 1_704_067_203);
    assert!(rt; stamp(1_704_067_206, 1_704_067_203_000_000_000) == 1_704_067_207);
}

/// The alarm stream, which has taken so many records, the last of them to its current file, whose first record has this
/// number.
fn alarm_stream(
    rt: &impl Abort,
    alloc: Global,
    attrs: StreamAttrs,
    taken: u32,
    first: u32,
) -> StreamState {
    let mut files = Seq::new(alloc);
    let file = LogFile {
        created: 7,
        closed: None,
        first,
        bytes: 96,
    };
    files.push(file).expect(rt, "memory");
    StreamState {
        name: StreamName::Alarm,
        attrs: Shared::new(alloc, attrs).expect(rt, "memory"),
        taken,
        opened: 1,
        files,
    }
}

/// The first record that stands of a stream whose files hold three records.
fn first_of(rt: &impl Abort, alloc: Global, action: FullAction, taken: u32, first: u32) -> u32 {
    let mut attrs = attrs_of(rt, alloc, b"f", b".");
    attrs.max_file = 96;
    attrs.action = action;
    let state = alarm_stream(rt, alloc, attrs, taken, first);
    assert!(rt; check_attrs(StreamKind::Alarm, state.attrs.get()).is_ok());
    let standing = first_standing(&state);
    drop(state);
    standing
}

#[test]
fn records_stand_until_they_are_overwritten_or_removed(rt: HostRuntime) {
    let cases = [
        (FullAction::Wrap, 3, 0, 0),
        (FullAction::Wrap, 4, 0, 1),
        (FullAction::Halt, 3, 0, 0),
        (FullAction::Rotate, 8, 6, 6),
    ];
    for (action, taken, first, want) in cases {
        let standing = first_of(&rt, rt.alloc(), action, taken, first);
        assert!(rt; standing == want, "after {taken}");
    }
}

/// The bytes of a file of at most 16,384, the length of a record, and whether it fits behind them.
#[test]
fn a_record_fits_up_to_the_last_byte(rt: HostRuntime) {
    let mut attrs = attrs_of(&rt, rt.alloc(), b"f", b".");
    attrs.max_file = 16_384;
    for (bytes, len, fits) in [
        (0, 1, true),
        (0, 16_384, true),
        (1, 16_384, false),
        (16_382, 2, true),
        (16_383, 2, false),
        (16_384, 1, false),
        (u64::MAX, 1, false),
    ] {
        assert!(rt;
            has_room(&attrs, bytes, len) == fits,
            "{len} behind {bytes}"
        );
    }
    drop(attrs);
}

/// A mask, a severity, and whether the mask lets it pass.
#[test]
fn a_mask_lets_the_severities_of_its_bits_pass(rt: HostRuntime) {
    for (mask, severity, passes) in [
        (0, 0, false),
        (1, 0, true),
        (126, 0, false),
        (8, 2, false),
        (8, 3, true),
        (8, 4, false),
        (63, 6, false),
        (64, 6, true),
        (127, 6, true),
        (u32::MAX, 5, true),
    ] {
        assert!(rt; severity <= 6);
        assert!(rt; lets_pass(mask, severity) == passes, "{mask} {severity}");
    }
    assert!(rt; Mark::first().since == 0 && Mark::first().mask == 127);
}

#[test]
fn copies_are_equal(rt: HostRuntime) {
    let alloc = rt.alloc();
    let attrs = attrs_of(&rt, alloc, b"f", b".");
    let before = alarm_stream(&rt, alloc, attrs, 3, 0);
    let event = StreamEvent::Ended { before, closed: 9 };
    let copy = event.copy(alloc).expect(&rt, "memory");
    let equal = event == copy;
    drop(event);
    drop(copy);
    assert!(rt; equal);
}
