use ais_values::Text;
use disk_model::*;
use std::alloc::Global;
use std::fs;
use std::process::Abort;
use std::rt::Files;
use std::test::Fail;

const ROOT: &str = "ais_log_root";

fn bytes_of<D: SharedDisk>(
    disk: &mut D,
    alloc: Global,
    name: &[u8],
) -> Result<Option<Vec<u8>>, DiskAnswer> {
    let Some(len) = disk.len(name)? else {
        return Ok(None);
    };
    let mut bytes = vec![in alloc; 0; len as usize]?;
    let count = disk.read(name, 0, bytes.as_mut_slice())?;
    bytes.truncate(count);
    Ok(Some(bytes))
}

fn holds<D: SharedDisk>(
    rt: &impl Abort,
    disk: &mut D,
    alloc: Global,
    name: &str,
    want: Option<&[u8]>,
) -> Result<(), DiskAnswer> {
    let found = bytes_of(disk, alloc, name.as_bytes())?;
    match (&found, want) {
        (None, None) => {}
        (Some(bytes), Some(want)) => {
            assert!(rt; bytes.as_slice() == want, "bytes of {name}");
        }
        _ => assert!(rt; false, "{name} stands or not"),
    }
    Ok(())
}

fn lists<D: SharedDisk>(
    rt: &impl Abort,
    disk: &mut D,
    alloc: Global,
    want: &[&str],
) -> Result<(), DiskAnswer> {
    let names = disk.names(alloc)?;
    let names: &[Text] = names.as_slice();
    assert!(rt; names.len() == want.len(), "how many names");
    for (name, want) in names.iter().zip(want) {
        assert!(rt; name.as_slice() == want.as_bytes());
    }
    Ok(())
}

/// A changing call of a disk, or what it has under a name.
#[derive(Clone, Copy)]
enum Step<'a> {
    Create(&'a str),
    Write(&'a str, u64, &'a [u8]),
    Cut(&'a str, u64),
    Sync(&'a str),
    Rename(&'a str, &'a str),
    Remove(&'a str),
    Holds(&'a str, &'a [u8]),
    Lacks(&'a str),
}

fn plays_one<D: SharedDisk>(
    rt: &impl Abort,
    disk: &mut D,
    alloc: Global,
    step: Step<'_>,
) -> Result<(), DiskAnswer> {
    match step {
        Step::Create(name) => {
            assert!(rt; name.len() <= 16_384);
            disk.create(name.as_bytes())
        }
        Step::Write(name, at, bytes) => disk.write_at(name.as_bytes(), at, bytes),
        Step::Cut(name, len) => disk.cut(name.as_bytes(), len),
        Step::Sync(name) => disk.sync(name.as_bytes()),
        Step::Rename(from, to) => {
            assert!(rt; to.len() <= 16_384);
            disk.rename(from.as_bytes(), to.as_bytes())
        }
        Step::Remove(name) => disk.remove(name.as_bytes()),
        Step::Holds(name, bytes) => holds(rt, disk, alloc, name, Some(bytes)),
        Step::Lacks(name) => holds(rt, disk, alloc, name, None),
    }
}

// Plays steps one behind the other.
fn plays<D: SharedDisk>(
    rt: &impl Abort,
    disk: &mut D,
    alloc: Global,
    steps: &[Step<'_>],
) -> Result<(), DiskAnswer> {
    for step in steps {
        plays_one(rt, disk, alloc, *step)?;
    }
    Ok(())
}

// A file is made, and written within, at its end and past it.
fn writes_file<D: SharedDisk>(
    rt: &impl Abort,
    disk: &mut D,
    alloc: Global,
    name: &str,
) -> Result<(), DiskAnswer> {
    let steps = [
        Step::Create(name),
        Step::Write(name, 0, b"hello"),
        Step::Write(name, 3, b"LOW"),
        Step::Write(name, 7, b"far"),
        Step::Sync(name),
        Step::Holds(name, b"helLOW"),
    ];
    plays(rt, disk, alloc, &steps)
}

// The last bytes of a file, and what is behind them.
fn reads_the_end<D: SharedDisk>(rt: &impl Abort, disk: &mut D) -> Result<(), DiskAnswer> {
    let mut part = [7; 4];
    let count = disk.read(b"z", 4, &mut part)?;
    assert!(rt; count == 2 && part == *b"OW\x07\x07");
    let none = disk.read(b"z", 9, &mut part)?;
    assert!(rt; none == 0);
    Ok(())
}

// Files are renamed, over others and from names that have none.
fn renames_files<D: SharedDisk>(
    rt: &impl Abort,
    disk: &mut D,
    alloc: Global,
) -> Result<(), DiskAnswer> {
    let steps = [
        Step::Rename("z", "b/y"),
        Step::Rename("b/y", "b/y"),
        Step::Rename("z", "a/x.cfg"),
        Step::Lacks("z"),
        Step::Holds("b/y", b"helLOW"),
        Step::Create("a/x.cfg"),
        Step::Rename("a/x.cfg", "a0/x.cfg"),
    ];
    plays(rt, disk, alloc, &steps)
}

// Files of four names, which are listed in their order.
fn makes_files<D: SharedDisk>(
    rt: &impl Abort,
    disk: &mut D,
    alloc: Global,
) -> Result<(), DiskAnswer> {
    lists(rt, disk, alloc, &[])?;
    for name in ["a0/x.cfg", "a/x.cfg", "a-b/x.cfg", "z"] {
        writes_file(rt, disk, alloc, name)?;
    }
    lists(rt, disk, alloc, &["a-b/x.cfg", "a/x.cfg", "a0/x.cfg", "z"])
}

// A file is removed, and asked for behind that.
fn removes_files<D: SharedDisk>(
    rt: &impl Abort,
    disk: &mut D,
    alloc: Global,
) -> Result<(), DiskAnswer> {
    let steps = [
        Step::Remove("a-b/x.cfg"),
        Step::Remove("a-b/x.cfg"),
        Step::Sync("a-b/x.cfg"),
    ];
    plays(rt, disk, alloc, &steps)?;
    lists(rt, disk, alloc, &["a0/x.cfg", "b/y"])?;
    holds(rt, disk, alloc, "a0/x.cfg", Some(b""))
}

// What every disk does where nothing fails.
fn changes_files<D: SharedDisk>(
    rt: &impl Abort,
    disk: &mut D,
    alloc: Global,
) -> Result<(), DiskAnswer> {
    makes_files(rt, disk, alloc)?;
    reads_the_end(rt, disk)?;
    renames_files(rt, disk, alloc)?;
    removes_files(rt, disk, alloc)
}

// A disk in memory does what every disk does, and has nothing of a file that is absent.
fn changes_memory(rt: &impl Abort, disk: &mut MemDisk, alloc: Global) -> Result<(), DiskAnswer> {
    changes_files(rt, disk, alloc)?;
    assert!(rt; disk.read(b"absent", 0, &mut [0; 2]) == Ok(0));
    let steps = [Step::Write("absent", 0, b"x"), Step::Lacks("absent")];
    plays(rt, disk, alloc, &steps)
}

#[test]
fn a_disk_in_memory_changes_its_files(rt: HostRuntime) -> Result<(), Fail> {
    let alloc = rt.alloc();
    let mut disk = MemDisk::new(alloc, Vec::new(alloc), Vec::new(alloc), Vec::new(alloc));
    let done = changes_memory(&rt, &mut disk, alloc);
    drop(disk);
    done?;
    Ok(())
}

// A disk on folders writes half of what is written as it stops, and is not armed any more then.
fn stops_in_a_write<D: SharedDisk>(
    rt: &impl Abort,
    disk: &mut D,
    alloc: Global,
) -> Result<(), DiskAnswer> {
    disk.create(b"stop/f")?;
    disk.arm(2);
    disk.write_at(b"stop/f", 0, b"abcdef")?;
    assert!(rt; disk.write_at(b"stop/f", 6, b"WXYZU") == Err(DiskAnswer::Stopped));
    let steps = [
        Step::Holds("stop/f", b"abcdefWX"),
        Step::Cut("stop/f", 7),
        Step::Holds("stop/f", b"abcdefW"),
    ];
    plays(rt, disk, alloc, &steps)?;
    disk.arm(1);
    disk.disarm();
    disk.crash();
    disk.remove(b"stop/f")
}

// What another program finds in a file below the root.
fn stands(rt: &(impl Abort + Files + AllocGlobal), path: &str, want: &[u8]) -> Result<(), Fail> {
    let found = fs::read(rt, path)?;
    assert!(rt; found.as_slice() == want, "bytes of {path}");
    Ok(())
}

// More files than a disk on folders keeps open are made, each with its name as its bytes.
fn makes_nine<D: SharedDisk>(
    rt: &impl Abort,
    disk: &mut D,
    alloc: Global,
) -> Result<(), DiskAnswer> {
    for name in [
        "k/a", "k/b", "k/c", "k/d", "k/e", "k/f", "k/g", "k/h", "k/i",
    ] {
        let steps = [Step::Create(name), Step::Write(name, 0, name.as_bytes())];
        plays(rt, disk, alloc, &steps)?;
    }
    let steps = [Step::Write("k/a", 3, b"+"), Step::Sync("k/a")];
    plays(rt, disk, alloc, &steps)
}

// Of more files than are kept open each is written rightly, under its name and under another's.
fn follows_names<D: SharedDisk>(
    rt: &(impl Abort + Files + AllocGlobal),
    disk: &mut D,
) -> Result<(), Fail> {
    makes_nine(rt, disk, rt.alloc())?;
    stands(rt, "ais_log_root/k/a", b"k/a+")?;
    disk.rename(b"k/a", b"k/b")?;
    assert!(rt; disk.write_at(b"k/a", 0, b"x") == Err(DiskAnswer::Failed));
    let steps = [Step::Sync("k/a"), Step::Write("k/b", 4, b"new")];
    plays(rt, disk, rt.alloc(), &steps)?;
    stands(rt, "ais_log_root/k/b", b"k/a+new")
}

// A file that stays open is made anew.
fn makes_anew<D: SharedDisk>(
    rt: &impl Abort,
    disk: &mut D,
    alloc: Global,
) -> Result<(), DiskAnswer> {
    let steps = [
        Step::Write("k/b", 7, b"er"),
        Step::Create("k/b"),
        Step::Write("k/b", 1, b"past the end"),
    ];
    plays(rt, disk, alloc, &steps)
}

// A file that stays open is removed, made, and cut; a crash closes it.
fn cuts_open<D: SharedDisk>(
    rt: &impl Abort,
    disk: &mut D,
    alloc: Global,
) -> Result<(), DiskAnswer> {
    disk.remove(b"k/b")?;
    assert!(rt; disk.write_at(b"k/b", 0, b"x") == Err(DiskAnswer::Failed));
    let steps = [
        Step::Cut("k/b", 0),
        Step::Create("k/b"),
        Step::Write("k/b", 0, b"anew"),
        Step::Cut("k/b", 2),
        Step::Write("k/b", 3, b"past the end"),
        Step::Write("k/b", 2, b"!"),
    ];
    plays(rt, disk, alloc, &steps)?;
    disk.crash();
    plays(
        rt,
        disk,
        alloc,
        &[Step::Write("k/b", 3, b"?"), Step::Sync("k/b")],
    )
}

// Of a file that stays open the length is known, whatever is done with it.
fn follows_lengths<D: SharedDisk>(
    rt: &(impl Abort + Files + AllocGlobal),
    disk: &mut D,
) -> Result<(), Fail> {
    makes_anew(rt, disk, rt.alloc())?;
    stands(rt, "ais_log_root/k/b", b"")?;
    cuts_open(rt, disk, rt.alloc())?;
    stands(rt, "ais_log_root/k/b", b"an!?")
}

// Names that are none of a file, and a folder with a name that is not plain.
fn refuses_names<D: SharedDisk>(
    rt: &(impl Abort + Files + AllocGlobal),
    disk: &mut D,
) -> Result<(), Fail> {
    assert!(rt; disk.read(b"absent", 0, &mut [0; 2]) == Err(DiskFault::Failed));
    assert!(rt; disk.write_at(b"absent", 0, b"x") == Err(DiskAnswer::Failed));
    assert!(rt; disk.create(b"../x") == Err(DiskAnswer::Failed));
    assert!(rt; disk.len(b"../x") == Ok(None), "no file has such a name");
    assert!(rt; disk.len(b"b") == Ok(None), "a folder is no file");
    fs::write(rt, "ais_log_root/b/a\nb", "x")?;
    assert!(rt; disk.names(rt.alloc()).is_err(), "a name that is not plain");
    Ok(())
}

// The root is removed, and a plain file stands in its place.
fn lacks_its_root<D: SharedDisk>(
    rt: &(impl Abort + Files + AllocGlobal),
    disk: &mut D,
) -> Result<(), Fail> {
    fs::remove_dir_all(rt, ROOT)?;
    fs::write(rt, ROOT, "x")?;
    assert!(rt;
        disk.names(rt.alloc()).is_err(),
        "a plain file in the root's place"
    );
    assert!(rt; disk.len(b"x") == Err(DiskFault::Failed));
    assert!(rt; disk.create(b"x") == Err(DiskAnswer::Failed));
    fs::remove_file(rt, ROOT)?;
    Ok(())
}

// Disks on two roots have each its own files.
fn two_roots<R: Abort + Files + AllocGlobal + Clone + Drop>(rt: &R) -> Result<(), Fail> {
    let mut logs = DirDisk::new(rt.clone()?, Root::Logs);
    let mut journal = DirDisk::new(rt.clone()?, Root::Journal);
    logs.create(b"f")?;
    journal.create(b"f")?;
    journal.write_at(b"f", 0, b"frame")?;
    stands(rt, "ais_log_root/f", b"")?;
    stands(rt, "ais_journal_root/f", b"frame")?;
    logs.remove(b"f")?;
    assert!(rt; logs.len(b"f") == Ok(None));
    assert!(rt; journal.len(b"f") == Ok(Some(5)));
    drop(logs);
    drop(journal);
    fs::remove_dir_all(rt, ROOT)?;
    fs::remove_dir_all(rt, "ais_journal_root")?;
    Ok(())
}

// What every disk does, and what a disk on folders does besides.
fn changes_folders<D: SharedDisk>(
    rt: &(impl Abort + Files + AllocGlobal),
    disk: &mut D,
) -> Result<(), Fail> {
    let alloc = rt.alloc();
    changes_files(rt, disk, alloc)?;
    follows_names(rt, disk)?;
    follows_lengths(rt, disk)?;
    refuses_names(rt, disk)?;
    stops_in_a_write(rt, disk, alloc)?;
    lacks_its_root(rt, disk)
}

#[test]
fn a_disk_on_folders_changes_its_files(rt: HostRuntime) -> Result<(), Fail> {
    assert!(rt;
        !fs::exists(&rt, ROOT)?,
        "the test makes this folder itself"
    );
    let mut disk = DirDisk::new(rt.clone()?, Root::Logs);
    let done = changes_folders(&rt, &mut disk);
    drop(disk);
    done?;
    two_roots(&rt)
}

// A disk in memory with the file `f` of six bytes, of which nothing is loose.
fn disk_of(
    rt: &impl Abort,
    alloc: Global,
    failing: &[u64],
    failing_reads: &[u64],
    torn: &[u8],
) -> MemDisk {
    let failing = failing.to_vec(alloc).expect(rt, "memory");
    let failing_reads = failing_reads.to_vec(alloc).expect(rt, "memory");
    let torn = torn.to_vec(alloc).expect(rt, "memory");
    let mut disk = MemDisk::new(alloc, failing, failing_reads, torn);
    let bytes = b"abcdef".to_vec(alloc).expect(rt, "memory");
    disk.hold(b"f", bytes).expect(rt, "memory");
    disk
}

// A write that is listed as failing leaves this.
fn fails_in_write(
    rt: &impl Abort,
    disk: &mut MemDisk,
    alloc: Global,
    at: u64,
    bytes: &[u8],
    left: &[u8],
) -> Result<(), DiskAnswer> {
    disk.sync(b"f")?;
    assert!(rt; disk.write_at(b"f", at, bytes) == Err(DiskAnswer::Failed));
    holds(rt, disk, alloc, "f", Some(left))
}

// The same on a disk of its own, whose second changing call fails.
fn fails_on_a_disk(
    rt: &impl Abort,
    alloc: Global,
    torn: &[u8],
    at: u64,
    bytes: &[u8],
    left: &[u8],
) -> Result<(), DiskAnswer> {
    let mut disk = disk_of(rt, alloc, &[2], &[], torn);
    let done = fails_in_write(rt, &mut disk, alloc, at, bytes, left);
    drop(disk);
    done
}

// Writes that are listed as failing, each on a disk of its own.
fn fails_in_writes(rt: &impl Abort, alloc: Global) -> Result<(), DiskAnswer> {
    let torn: [(&[u8], u64, &[u8], &[u8]); 5] = [
        // within the file, growing it by 4 and by 3, at its end, and with no torn bytes
        (b"\x01\x02\x03", 1, b"XY", b"a\x01\x02def"),
        (b"\x01\x02\x03", 4, b"WXYZUV", b"abcd\x01\x02\x03\x01"),
        (b"\x09", 5, b"WXYZ", b"abcde\x09\x09"),
        (b"\x01\x02", 6, b"W", b"abcdef"),
        (b"", 2, b"XY", b"ab\0\0ef"),
    ];
    for (torn, at, bytes, left) in torn {
        fails_on_a_disk(rt, alloc, torn, at, bytes, left)?;
    }
    Ok(())
}

// Changing calls that fail leave a file as it is; of two reads of it the second is the one that fails.
fn fails_in_calls(rt: &impl Abort, disk: &mut MemDisk, alloc: Global) -> Result<(), DiskAnswer> {
    for step in [Step::Create("g"), Step::Rename("f", "g"), Step::Remove("f")] {
        assert!(rt; plays_one(rt, disk, alloc, step) == Err(DiskAnswer::Failed));
    }
    assert!(rt; disk.len(b"g") == Ok(None));
    assert!(rt; disk.len(b"f") == Err(DiskFault::Failed));
    holds(rt, disk, alloc, "f", Some(b"abcdef"))
}

#[test]
fn listed_calls_fail_and_no_others(rt: HostRuntime) -> Result<(), Fail> {
    let alloc = rt.alloc();
    fails_in_writes(&rt, alloc)?;
    let mut disk = disk_of(&rt, alloc, &[1, 2, 3], &[2], &[]);
    let done = fails_in_calls(&rt, &mut disk, alloc);
    drop(disk);
    done?;
    Ok(())
}

// A sync that fails tears what is loose, also under a new name.
fn tears_under_a_new_name(
    rt: &impl Abort,
    disk: &mut MemDisk,
    alloc: Global,
) -> Result<(), DiskAnswer> {
    let steps = [
        Step::Write("f", 1, b"XY"),
        Step::Write("f", 4, b"WXYZUV"),
        Step::Rename("f", "g"),
    ];
    plays(rt, disk, alloc, &steps)?;
    assert!(rt; disk.sync(b"g") == Err(DiskAnswer::Failed));
    holds(rt, disk, alloc, "g", Some(b"a\x01\x02d\x01\x02\x03\x01"))
}

#[test]
fn a_failed_sync_tears_what_is_loose_also_under_a_new_name(rt: HostRuntime) -> Result<(), Fail> {
    let alloc = rt.alloc();
    let mut disk = disk_of(&rt, alloc, &[4], &[], b"\x01\x02\x03");
    let done = tears_under_a_new_name(&rt, &mut disk, alloc);
    drop(disk);
    done?;
    Ok(())
}

// Such a disk, armed to stop at the changing call of this number.
fn armed(rt: &impl Abort, alloc: Global, failing: &[u64], torn: &[u8], left: u64) -> MemDisk {
    let mut disk = disk_of(rt, alloc, failing, &[], torn);
    disk.arm(left.max(1));
    disk
}

// A write at which the disk stops, though it is listed as failing too, leaves this; the disk is not armed any more then.
fn stops_in_write(
    rt: &impl Abort,
    disk: &mut MemDisk,
    alloc: Global,
    at: u64,
    bytes: &[u8],
    left: &[u8],
) -> Result<(), DiskAnswer> {
    disk.sync(b"f")?;
    assert!(rt; disk.write_at(b"f", at, bytes) == Err(DiskAnswer::Stopped));
    plays(rt, disk, alloc, &[Step::Holds("f", left), Step::Sync("f")])
}

// The same on a disk of its own, which stops at its second changing call.
fn stops_on_a_disk(
    rt: &impl Abort,
    alloc: Global,
    torn: &[u8],
    at: u64,
    bytes: &[u8],
    left: &[u8],
) -> Result<(), DiskAnswer> {
    let mut disk = armed(rt, alloc, &[2], torn, 2);
    let done = stops_in_write(rt, &mut disk, alloc, at, bytes, left);
    drop(disk);
    done
}

#[test]
fn an_armed_disk_stops_once_and_tears_a_write_once(rt: HostRuntime) -> Result<(), Fail> {
    let torn: [(&[u8], u64, &[u8], &[u8]); 4] = [
        // within the file, growing it by 4 and by 3, and with no torn bytes
        (b"\x01\x02\x03", 1, b"XY", b"a\x01\x02def"),
        (b"\x01\x02\x03", 4, b"WXYZUV", b"abcd\x01\x02\x03\x01"),
        (b"\x09", 6, b"WXY", b"abcdef\x09"),
        (b"", 2, b"XY", b"ab\0\0ef"),
    ];
    for (torn, at, bytes, left) in torn {
        stops_on_a_disk(&rt, rt.alloc(), torn, at, bytes, left)?;
    }
    Ok(())
}

// A call at which the disk stops tears what is loose in two files, and does nothing itself.
fn stops_in_call(
    rt: &impl Abort,
    disk: &mut MemDisk,
    alloc: Global,
    call: Step<'_>,
) -> Result<(), DiskAnswer> {
    let steps = [
        Step::Write("f", 1, b"XY"),
        Step::Create("g"),
        Step::Write("g", 0, b"WXYZ"),
    ];
    plays(rt, disk, alloc, &steps)?;
    let stopped = plays_one(rt, disk, alloc, call);
    assert!(rt; stopped == Err(DiskAnswer::Stopped));
    let steps = [
        Step::Holds("f", b"a\x07\x07def"),
        Step::Holds("g", b"\x07\x07"),
    ];
    plays(rt, disk, alloc, &steps)
}

#[test]
fn a_stop_tears_what_is_loose_in_any_file(rt: HostRuntime) -> Result<(), Fail> {
    let alloc = rt.alloc();
    for call in [
        Step::Create("f"),
        Step::Rename("f", "g"),
        Step::Remove("f"),
        Step::Sync("f"),
    ] {
        let mut disk = armed(&rt, alloc, &[], b"\x07", 4);
        let done = stops_in_call(&rt, &mut disk, alloc, call);
        drop(disk);
        done?;
    }
    Ok(())
}

// A cut that fails, one that changes nothing, and one at which the disk stops.
fn cuts(rt: &impl Abort, disk: &mut MemDisk, alloc: Global) -> Result<(), DiskAnswer> {
    assert!(rt; disk.cut(b"f", 5) == Err(DiskAnswer::Failed));
    plays(
        rt,
        disk,
        alloc,
        &[Step::Cut("f", 9), Step::Holds("f", b"abcde")],
    )?;
    assert!(rt; disk.cut(b"f", 2) == Err(DiskAnswer::Stopped));
    holds(rt, disk, alloc, "f", Some(b"ab"))
}

#[test]
fn what_was_cut_off_is_gone(rt: HostRuntime) -> Result<(), Fail> {
    let alloc = rt.alloc();
    let mut disk = armed(&rt, alloc, &[1], b"", 3);
    let done = cuts(&rt, &mut disk, alloc);
    drop(disk);
    done?;
    Ok(())
}

// A disk without room answers `Memory` to each changing call, also where it is armed, and no file stands on it.
fn finds_no_room(rt: &impl Abort, disk: &mut NoDisk, alloc: Global) -> Result<(), DiskAnswer> {
    disk.arm(1);
    for call in [
        Step::Create("f"),
        Step::Write("f", 0, b"x"),
        Step::Cut("f", 0),
        Step::Sync("f"),
        Step::Rename("f", "g"),
        Step::Remove("f"),
    ] {
        let lacked = plays_one(rt, disk, alloc, call);
        assert!(rt; lacked == Err(DiskAnswer::Memory));
        lists(rt, disk, alloc, &[])?;
        holds(rt, disk, alloc, "f", None)?;
    }
    assert!(rt; disk.read(b"f", 0, &mut [7; 2]) == Ok(0));
    disk.disarm();
    disk.crash();
    Ok(())
}

#[test]
fn a_disk_without_room_takes_nothing(rt: HostRuntime) -> Result<(), Fail> {
    let mut disk = NoDisk::new();
    let done = finds_no_room(&rt, &mut disk, rt.alloc());
    drop(disk);
    done?;
    Ok(())
}
