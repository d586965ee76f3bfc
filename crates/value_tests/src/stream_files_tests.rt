use ais_values::{Duplicate, Seq, Text};
use disk_model::{DiskAnswer, MemDisk, SharedDisk};
use std::alloc::Global;
use std::process::Abort;
use stream_files::*;
use stream_layout::Deed;

fn text(rt: &impl Abort, alloc: Global, bytes: &[u8]) -> Text {
    Text::new(alloc, bytes).expect(rt, "a text")
}

// A file made anew, another made empty and written, renamed, and a third removed: 8 device calls.
fn some_deeds(rt: &impl Abort, alloc: Global) -> Seq<Deed> {
    let mut deeds = Seq::new(alloc);
    for place in 0..5u8 {
        deeds.push(deed_at(rt, alloc, place)).expect(rt, "memory");
    }
    deeds
}

fn deed_at(rt: &impl Abort, alloc: Global, place: u8) -> Deed {
    match place {
        0 => Deed::Put {
            name: text(rt, alloc, b"a.cfg"),
            bytes: text(rt, alloc, b"new"),
        },
        1 => Deed::Create {
            name: text(rt, alloc, b"b"),
        },
        2 => Deed::Write {
            name: text(rt, alloc, b"b"),
            at: 0,
            bytes: text(rt, alloc, b"data"),
        },
        3 => Deed::Rename {
            from: text(rt, alloc, b"b"),
            to: text(rt, alloc, b"c"),
        },
        _ => Deed::Remove {
            name: text(rt, alloc, b"old"),
        },
    }
}

fn holds(
    rt: &impl Abort,
    disk: &mut MemDisk,
    alloc: Global,
    name: &[u8],
    want: Option<&[u8]>,
) -> Result<(), DiskAnswer> {
    let Some(want) = want else {
        assert!(rt; disk.len(name) == Ok(None));
        return Ok(());
    };
    assert!(rt; disk.len(name) == Ok(Some(want.len() as u64)));
    let mut bytes = vec![in alloc; 0; want.len()]?;
    disk.read(name, 0, bytes.as_mut_slice())?;
    assert!(rt; bytes.as_slice() == want);
    Ok(())
}

// The files a.cfg, b, c and old, where the device call of that number is not done.
type Left = [Option<&'static [u8]>; 4];

fn holds_all(
    rt: &impl Abort,
    disk: &mut MemDisk,
    alloc: Global,
    left: Left,
) -> Result<(), DiskAnswer> {
    holds(rt, disk, alloc, b"a.cfg", left[0])?;
    holds(rt, disk, alloc, b"b", left[1])?;
    holds(rt, disk, alloc, b"c", left[2])?;
    holds(rt, disk, alloc, b"old", left[3])
}

// A disk with the two old files, on which the changing call of this number fails, or stops it.
fn disk_before(rt: &impl Abort, alloc: Global, number: u64, stops: bool) -> MemDisk {
    let failing = if stops { 0 } else { number };
    let numbers = [failing].to_vec(alloc).expect(rt, "memory");
    let torn = b"#".to_vec(alloc).expect(rt, "memory");
    let mut disk = MemDisk::new(alloc, numbers, Vec::new(alloc), torn);
    let first = b"older".to_vec(alloc).expect(rt, "memory");
    disk.hold(b"a.cfg", first).expect(rt, "memory");
    let second = b"before".to_vec(alloc).expect(rt, "memory");
    disk.hold(b"old", second).expect(rt, "memory");
    if stops {
        disk.arm(number.max(1));
    }
    disk
}

// The deeds are performed up to the call of this number, which fails or stops the disk, and then again.
fn breaks_off_on(
    rt: &impl Abort,
    disk: &mut MemDisk,
    alloc: Global,
    deeds: &Seq<Deed>,
    number: u64,
    stops: bool,
    left: Left,
) -> Result<(), DiskAnswer> {
    let want = match (number < 9, stops) {
        (false, _) => Ok(()),
        (true, false) => Err(DiskAnswer::Failed),
        (true, true) => Err(DiskAnswer::Stopped),
    };
    assert!(rt; perform(disk, deeds) == want, "call {number}");
    holds_all(rt, disk, alloc, left)?;
    if number == 9 {
        return Ok(());
    }
    disk.disarm();
    perform(disk, deeds)?;
    holds_all(rt, disk, alloc, [Some(b"new"), None, Some(b"data"), None])
}

fn breaks_off(
    rt: &impl Abort,
    alloc: Global,
    deeds: &Seq<Deed>,
    number: u64,
    stops: bool,
    left: Left,
) -> bool {
    let mut disk = disk_before(rt, alloc, number, stops);
    let done = breaks_off_on(rt, &mut disk, alloc, deeds, number, stops, left).is_ok();
    drop(disk);
    done
}

#[test]
fn each_device_call_fails_or_stops_in_turn(rt: HostRuntime) {
    let alloc = rt.alloc();
    let old: Option<&[u8]> = Some(b"before");
    let rows: [Left; 9] = [
        [Some(b"older"), None, None, old],
        [Some(b"#"), None, None, old],
        [Some(b"#"), None, None, old],
        [Some(b"new"), None, None, old],
        [Some(b"new"), Some(b"##"), None, old],
        [Some(b"new"), Some(b"##"), None, old],
        [Some(b"new"), Some(b"data"), None, old],
        [Some(b"new"), None, Some(b"data"), old],
        [Some(b"new"), None, Some(b"data"), None],
    ];
    let deeds = some_deeds(&rt, alloc);
    for (before, row) in rows.iter().enumerate() {
        let number = before as u64 + 1;
        let fails = breaks_off(&rt, alloc, &deeds, number, false, *row);
        let stops = breaks_off(&rt, alloc, &deeds, number, true, *row);
        assert!(rt; fails && stops, "call {number}");
    }
    drop(deeds);
}

fn copy_of_deeds(rt: &impl Abort, alloc: Global) -> Seq<Deed> {
    let deeds = some_deeds(rt, alloc);
    let copy = deeds.copy(alloc).expect(rt, "memory");
    drop(deeds);
    copy
}

#[test]
fn a_copy_of_deeds_is_done_alike(rt: HostRuntime) {
    let alloc = rt.alloc();
    let deeds = copy_of_deeds(&rt, alloc);
    let mut disk = MemDisk::new(alloc, Vec::new(alloc), Vec::new(alloc), Vec::new(alloc));
    let done = perform(&mut disk, &deeds).is_ok();
    drop(deeds);
    assert!(rt; done);
    let left: Left = [Some(b"new"), None, Some(b"data"), None];
    let held = holds_all(&rt, &mut disk, alloc, left).is_ok();
    drop(disk);
    assert!(rt; held);
}
