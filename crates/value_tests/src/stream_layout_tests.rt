ghost use Rattle.std.specs.Prelude.{◌≡◌, ◌≤◌, ◌*◌, pos, None, [], ◌∷◌, is_some, IfOk, IfSome};
ghost use Rattle.stream_config.specs.Events.{current_file};
ghost use Rattle.stream_config.specs.Fit.{changes_file};
ghost use Rattle.stream_config.specs.WellKnown.{default_attrs};
ghost use Rattle.stream_layout.specs.Carrying.{IsStamp, IsFitStream, IsFitEvent};
ghost use Rattle.ais_values.specs.declared.kind.StreamKind.TheVariants as kinds;

use ais_values::{Duplicate, Seq, Shared, StreamKind, Text};
use std::alloc::Global;
use std::process::Abort;
use std::test::Fail;
use stream_config::{
    FullAction, LogFile, Stamps, StreamAttrs, StreamEvent, StreamName, StreamState, check_attrs,
    well_known,
};
use stream_layout::{Deed, Spot, deeds, file_name, place, place_next};

/// A stream whose files hold two records of 32 bytes.
fn attrs_of(rt: &impl Abort, alloc: Global, path: &[u8], action: FullAction) -> StreamAttrs {
    StreamAttrs {
        file: Text::new(alloc, b"saLogSystem").expect(rt, "a text"),
        path: Text::new(alloc, path).expect(rt, "a text"),
        max_file: 64,
        record_size: 32,
        ha: 0,
        action,
        rotated: 1,
        expr: Text::new(alloc, b"@Cb").expect(rt, "a text"),
    }
}

/// Where a record of such a stream stands.
fn place_of(rt: &impl Abort, alloc: Global, action: FullAction, k: u32) -> Spot {
    let attrs = attrs_of(rt, alloc, b".", action);
    assert!(rt; check_attrs(StreamKind::System, &attrs).is_ok() && attrs.record_size > 0);
    let spot = place(&attrs, k);
    drop(attrs);
    spot
}

#[test]
fn records_have_their_places(rt: HostRuntime) {
    for (action, k, file, at) in [
        (FullAction::Wrap, 1, 0, 32),
        (FullAction::Wrap, 4, 0, 0),
        (FullAction::Halt, 1, 0, 32),
        (FullAction::Rotate, 5, 2, 32),
    ] {
        assert!(rt; place_of(&rt, rt.alloc(), action, k) == Spot { file, at });
    }
    let spot = Spot { file: 2, at: 32 };
    assert!(rt; spot.copy(rt.alloc()).expect(&rt, "memory") == spot);
}

/// Attributes of a stream of records of varying size, whose files have 16,384 bytes at most.
fn free_attrs(rt: &impl Abort, alloc: Global, action: FullAction) -> Shared<StreamAttrs>
    ensures max_file { result.max_file ≡ 16384 }
    ensures record_size { result.record_size ≡ 0 }
    ensures action { result.action ≡ action }
    ensures rotated { result.rotated ≡ 1 }
{
    let mut attrs = attrs_of(rt, alloc, b".", action);
    attrs.max_file = 16_384;
    attrs.record_size = 0;
    attrs.action = action;
    attrs.rotated = 1;
    Shared::new(alloc, attrs).expect(rt, "memory")
}

/// The first file of a stream, with so many bytes.
fn first_file(rt: &impl Abort, alloc: Global, bytes: u64) -> Seq<LogFile>
    ensures { result
        ≡ record { created = pos 1704067202; closed = None; first = 0; bytes = bytes } ∷ [] }
{
    let mut files = Seq::new(alloc);
    let file = LogFile {
        created: 1_704_067_202,
        closed: None,
        first: 0,
        bytes,
    };
    files.push(file).expect(rt, "memory");
    files
}

/// The place of a record of so many bytes in a stream that halts, whose file has so many records and bytes.
fn halted_place(rt: &impl Abort, alloc: Global, taken: u32, bytes: u64, len: u32) -> Option<Spot>
    requires least { taken ≤ bytes }
    requires most { bytes ≤ taken * 16384 }
    requires room { bytes ≤ 16384 }
{
    let state = StreamState {
        name: StreamName::System,
        attrs: free_attrs(rt, alloc, FullAction::Halt),
        taken,
        opened: 1,
        files: first_file(rt, alloc, bytes),
    };
    let spot = place_next(&state, len);
    drop(state);
    spot
}

/// The same in a stream that rotates.
fn rotated_place(rt: &impl Abort, alloc: Global, taken: u32, bytes: u64, len: u32) -> Option<Spot>
    requires least { taken ≤ bytes }
    requires most { bytes ≤ taken * 16384 }
    requires room { bytes ≤ 16384 }
{
    let state = StreamState {
        name: StreamName::System,
        attrs: free_attrs(rt, alloc, FullAction::Rotate),
        taken,
        opened: 1,
        files: first_file(rt, alloc, bytes),
    };
    let spot = place_next(&state, len);
    drop(state);
    spot
}

/// Where a record goes in either stream: to this file at its end, or to none and to the next one.
fn goes_on(rt: &impl Abort, alloc: Global, taken: u32, bytes: u64, len: u32, fits: bool) {
    let most = u64::from(taken) * 16_384;
    assert!(rt; u64::from(taken) <= bytes && bytes <= most && bytes <= 16_384);
    let here = Some(Spot { file: 0, at: bytes });
    let next = Some(Spot { file: 1, at: 0 });
    let halted = halted_place(rt, alloc, taken, bytes, len);
    assert!(rt;
        halted == if fits { here } else { None },
        "{len} behind {bytes}"
    );
    let rotated = rotated_place(rt, alloc, taken, bytes, len);
    assert!(rt;
        rotated == if fits { here } else { next },
        "{len} behind {bytes}"
    );
}

/// Records and bytes of the current file, the length of the next record, and whether it fits.
#[test]
fn records_of_varying_size_go_on_where_they_fit(rt: HostRuntime) {
    for (taken, bytes, len, fits) in [
        (0, 0, 16_384, true),
        (0, 0, 1, true),
        (1, 1, 16_384, false),
        (2, 16_382, 2, true),
        (2, 16_383, 1, true),
        (2, 16_383, 2, false),
        (2, 16_384, 1, false),
    ] {
        goes_on(&rt, rt.alloc(), taken, bytes, len, fits);
    }
}

fn is_named(rt: &impl Abort, alloc: Global, path: &[u8], closed: Option<i64>, want: &[u8]) -> bool {
    let attrs = attrs_of(rt, alloc, path, FullAction::Wrap);
    assert!(rt; check_attrs(StreamKind::System, &attrs).is_ok());
    let name = match closed {
        None => file_name(alloc, &attrs, 1_704_067_202, None),
        Some(closed) => {
            assert!(rt; closed >= 0 && closed <= 20_000_000_100);
            file_name(alloc, &attrs, 1_704_067_202, Some(closed))
        }
    };
    drop(attrs);
    let name = name.expect(rt, "memory");
    let same = name.as_slice() == want;
    drop(name);
    same
}

#[test]
fn files_are_named_by_their_stamps(rt: HostRuntime) {
    let alloc = rt.alloc();
    let open = b"saLogSystem_20240101_000002.log".as_slice();
    assert!(rt; is_named(&rt, alloc, b".", None, open));
    let shut = b"apps/saLogSystem_20240101_000002_26031011_113500.log".as_slice();
    assert!(rt; is_named(&rt, alloc, b"apps", Some(20_000_000_100), shut));
}

/// The system stream with its first file, which has so many records.
fn system_stream(alloc: Global, taken: u32) -> Result<StreamState, Fail>
    requires { taken ≤ 1024 }
    ensures fit { IfOk result IsFitStream }
    ensures bytes { IfOk result (λ state. (current_file state.files).bytes ≡ taken * 256) }
    ensures attrs { IfOk result (λ state. state.attrs ≡ default_attrs kinds.System) }
{
    let attrs = Shared::new(alloc, well_known(alloc, StreamKind::System)?)?;
    let mut files = Seq::new(alloc);
    files.push(LogFile {
        created: 1_704_067_202,
        closed: None,
        first: 0,
        bytes: u64::from(taken) * 256,
    })?;
    Ok(StreamState {
        name: StreamName::System,
        attrs,
        taken,
        opened: 1,
        files,
    })
}

fn made(alloc: Global) -> Result<StreamEvent, Fail>
    ensures { IfOk result IsFitEvent }
{
    let state = system_stream(alloc, 0)?;
    Ok(StreamEvent::Made { state })
}

fn stored(alloc: Global, taken: u32, stamps: Option<Stamps>) -> Result<StreamEvent, Fail>
    requires few { taken ≤ 1024 }
    requires changes { is_some stamps
        ≡ changes_file (default_attrs kinds.System) (taken * 256) 256 }
    requires new { IfSome stamps (λ two. IsStamp two.closed × IsStamp two.created) }
    ensures { IfOk result IsFitEvent }
{
    let bytes = Text::from_vec(vec![in alloc; 120; 256]?);
    let before = system_stream(alloc, taken)?;
    Ok(StreamEvent::Stored {
        before,
        bytes,
        stamps,
    })
}

fn ended(alloc: Global) -> Result<StreamEvent, Fail>
    ensures { IfOk result IsFitEvent }
{
    let before = system_stream(alloc, 5)?;
    Ok(StreamEvent::Ended {
        before,
        closed: 1_704_067_205,
    })
}

/// The word of a deed, with the place and the number of bytes where it has them. What is renamed stands before its word.
fn word_of(rt: &impl Abort, alloc: Global, deed: &Deed) -> String {
    match deed {
        Deed::Put { bytes, .. } => number_word(rt, alloc, "put ", bytes),
        Deed::Create { .. } => word(rt, alloc, "create "),
        Deed::Write { at, bytes, .. } => {
            let number = bytes.as_slice().len();
            format!(in alloc; "write {at} {number} ").expect(rt, "memory")
        }
        Deed::Rename { .. } => word(rt, alloc, " to "),
        Deed::Remove { .. } => word(rt, alloc, "remove "),
    }
}

fn word(rt: &impl Abort, alloc: Global, text: &str) -> String {
    format!(in alloc; "{text}").expect(rt, "memory")
}

fn number_word(rt: &impl Abort, alloc: Global, text: &str, bytes: &Text) -> String {
    let number = bytes.as_slice().len();
    format!(in alloc; "{text}{number} ").expect(rt, "memory")
}

/// The file that a deed leaves, or removes.
fn name_of(deed: &Deed) -> &[u8] {
    match deed {
        Deed::Put { name, .. } => name.as_slice(),
        Deed::Create { name } => name.as_slice(),
        Deed::Write { name, .. } => name.as_slice(),
        Deed::Rename { to, .. } => to.as_slice(),
        Deed::Remove { name } => name.as_slice(),
    }
}

/// Adds a deed in words: its name, where it has them a place and the number of bytes, and its names of files.
fn put_words(rt: &impl Abort, alloc: Global, words: &mut Vec<u8>, deed: &Deed) {
    if let Deed::Rename { from, .. } = deed {
        words
            .extend_from_slice(from.as_slice())
            .expect(rt, "memory");
    }
    let word = word_of(rt, alloc, deed);
    words
        .extend_from_slice(word.as_bytes())
        .expect(rt, "memory");
    drop(word);
    words.extend_from_slice(name_of(deed)).expect(rt, "memory");
    words.extend_from_slice(b"\n").expect(rt, "memory");
}

fn does(rt: &impl Abort, alloc: Global, event: StreamEvent, want: &[u8])
    requires { IsFitEvent event }
{
    let list = deeds(alloc, &event).expect(rt, "memory");
    drop(event);
    let mut words = Vec::new(alloc);
    for deed in list.as_slice() {
        put_words(rt, alloc, &mut words, deed);
    }
    drop(list);
    assert!(rt; words.as_slice() == want);
}

#[test]
fn streams_begin_and_end_by_their_deeds(rt: HostRuntime) -> Result<(), Fail> {
    let alloc = rt.alloc();
    let making = b"put 164 saLogSystem.cfg\ncreate saLogSystem_20240101_000002.log\n".as_slice();
    does(&rt, alloc, made(alloc)?, making);
    let ending =
        b"saLogSystem_20240101_000002.log to saLogSystem_20240101_000002_20240101_000005.log\n".as_slice();
    does(&rt, alloc, ended(alloc)?, ending);
    Ok(())
}

#[test]
fn records_are_stored_by_their_deeds(rt: HostRuntime) -> Result<(), Fail> {
    let alloc = rt.alloc();
    let storing = b"write 256 256 saLogSystem_20240101_000002.log\n".as_slice();
    does(&rt, alloc, stored(alloc, 1, None)?, storing);
    let stamps = Stamps {
        closed: 1_704_067_205,
        created: 1_704_067_206,
    };
    let changing =
        b"saLogSystem_20240101_000002.log to saLogSystem_20240101_000002_20240101_000005.log\ncreate saLogSystem_20240101_000006.log\nwrite 0 256 saLogSystem_20240101_000006.log\n".as_slice();
    does(&rt, alloc, stored(alloc, 1024, Some(stamps))?, changing);
    Ok(())
}
