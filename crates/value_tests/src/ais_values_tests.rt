//! What no clause says: that each call succeeds while there is memory.
use ais_values::tables::*;
use ais_values::*;
use std::alloc::{AllocError, Global};
use std::process::Abort;

#[test]
fn codes_have_names_and_names_codes(rt: HostRuntime) {
    for (code, name) in [(0x3001, "state change"), (0x4002, "QoS")] {
        assert!(rt; code_of(&EVENT_TYPES, name) == Some(code), "{name}");
        assert!(rt; name_of(&EVENT_TYPES, code) == Some(name), "{code}");
    }
    assert!(rt; code_of(&MONTHS, "nothing") == None);
    assert!(rt; name_of(&MONTHS, 13) == None);
    event_types_are_known(&rt);
    times_are_known(&rt);
    two_results_are_one(&rt);
}

fn event_types_are_known(rt: &impl Abort) {
    for (code, found) in [
        (0x1000, false),
        (0x1001, true),
        (0x5005, true),
        (0x5006, false),
    ] {
        assert!(rt; is_event_type(code) == found, "{code}");
    }
}

fn times_are_known(rt: &impl Abort) {
    for (time, accepted) in [
        (i64::MIN, true),
        (i64::MIN + 1, false),
        (-1, false),
        (0, true),
    ] {
        assert!(rt; is_time(time) == accepted, "{time}");
    }
}

fn two_results_are_one(rt: &impl Abort) {
    assert!(rt; matches!(both::<u8, u8>(Ok(1), Ok(2)), Ok((1, 2))));
    assert!(rt; both::<u8, u8>(Ok(1), Err(AllocError)).is_err());
    assert!(rt; both::<u8, u8>(Err(AllocError), Ok(2)).is_err());
}

/// Whether a status has a row with its word, which is printed of it, and a copy of it is equal to it.
fn has_its_row(rt: &impl Abort, alloc: Global, status: Status) -> bool {
    let word = status.word();
    let printed = format!(in alloc; "{status}").expect(rt, "memory");
    let same = printed.as_str() == word;
    drop(printed);
    same && code_of(&STATUSES, word) == Some(u32::from(status.code()))
        && status.copy(alloc).expect(rt, "memory") == status
}

#[test]
fn statuses_have_their_rows(rt: HostRuntime) {
    for status in [
        Status::Ok,
        Status::Version,
        Status::TryAgain,
        Status::InvalidParam,
        Status::BadHandle,
        Status::NotExist,
        Status::Exist,
        Status::NoSpace,
        Status::NoResources,
        Status::BadFlags,
    ] {
        assert!(rt; has_its_row(&rt, rt.alloc(), status), "{status:?}");
    }
}

#[test]
fn versions_are_negotiated(rt: HostRuntime) {
    let log = Version {
        release: b'A',
        major: 2,
        minor: 1,
    };
    let ntf = Version {
        release: b'A',
        major: 1,
        minor: 1,
    };
    for (service, release, major, minor, want) in [
        (Which::Log, b'A', 2, 9, Ok(log)),
        (Which::Log, b'A', 1, 0, Ok(log)),
        (Which::Log, b'A', 3, 0, Err(Status::Version)),
        (Which::Log, b'B', 1, 1, Err(Status::Version)),
        (Which::Ntf, b'A', 1, 1, Ok(ntf)),
        (Which::Ntf, b'A', 0, 255, Ok(ntf)),
        (Which::Ntf, b'A', 2, 0, Err(Status::Version)),
    ] {
        assert!(rt;
            negotiate(
                service,
                Version {
                    release,
                    major,
                    minor
                }
            ) == want
        );
    }
}

/// Whether so many of a byte are a name, of which a copy is equal to it.
fn is_name(rt: &impl Abort, alloc: Global, length: usize, byte: u8) -> bool {
    let bytes = vec![in alloc; byte; length].expect(rt, "memory");
    match Name::new(alloc, bytes.as_slice()) {
        Ok(name) => {
            let copy = name.copy(alloc).expect(rt, "memory");
            assert!(rt; name.as_slice() == bytes.as_slice() && copy == name);
            true
        }
        Err(why) => {
            assert!(rt; why == NameAnswer::Refused);
            false
        }
    }
}

/// Whether so many bytes are a text, of which a copy is equal to it.
fn is_text(rt: &impl Abort, alloc: Global, length: usize) -> bool {
    let bytes = vec![in alloc; 200; length].expect(rt, "memory");
    match Text::new(alloc, bytes.as_slice()) {
        Ok(text) => {
            let copy = text.copy(alloc).expect(rt, "memory");
            assert!(rt; text.as_slice() == bytes.as_slice() && copy == text);
            true
        }
        Err(why) => {
            assert!(rt; why == TextAnswer::Refused);
            false
        }
    }
}

#[test]
fn names_and_texts_have_bounds(rt: HostRuntime) {
    let alloc = rt.alloc();
    for (length, byte, accepted) in [
        (0, b'a', false),
        (1, b'a', true),
        (256, b'a', true),
        (257, b'a', false),
        (3, 31, false),
        (3, 32, true),
        (3, 126, true),
        (3, 127, false),
    ] {
        assert!(rt;
            is_name(&rt, alloc, length, byte) == accepted,
            "{length} times {byte}"
        );
    }
    for (length, accepted) in [(0, true), (16_384, true), (16_385, false)] {
        assert!(rt; is_text(&rt, alloc, length) == accepted, "{length}");
    }
    let text = Text::from_vec(vec![in alloc; 1, 2].expect(&rt, "memory"));
    assert!(rt; text.as_slice() == [1, 2].as_slice());
}

/// Whether a list of 40 numbers is equal to its copy, also where that is made a vector and a list again.
fn list_is_copied(rt: &impl Abort, alloc: Global) -> bool {
    let mut numbers = Seq::new(alloc);
    for number in 0..40u16 {
        numbers.push(number).expect(rt, "memory");
    }
    assert!(rt; numbers.as_slice().len() == 40);
    let copy = numbers.copy(alloc).expect(rt, "memory");
    assert!(rt; copy == numbers);
    let again = Seq::from_vec(copy.into_vec());
    let equal = again == numbers;
    drop(again);
    drop(numbers);
    equal
}

/// A copy of the value is made, which is equal to it.
fn copied<T: Duplicate + PartialEq + Drop>(rt: &impl Abort, alloc: Global, value: T) {
    let copy = value.copy(alloc).expect(rt, "memory");
    assert!(rt; copy == value);
}

#[test]
fn copies_of_lists_and_values_are_equal(rt: HostRuntime) {
    let alloc = rt.alloc();
    assert!(rt; list_is_copied(&rt, alloc));
    copied(&rt, alloc, Some(7u8));
    copied(&rt, alloc, None::<u32>);
    copied(&rt, alloc, u64::MAX);
    copied(&rt, alloc, i64::MIN);
    copied(&rt, alloc, true);
    copied(&rt, alloc, MONTHS[3]);
    copied(&rt, alloc, Which::Ntf);
    copied(&rt, alloc, StreamKind::System);
    let version = Version {
        release: b'A',
        major: 2,
        minor: 1,
    };
    copied(&rt, alloc, version);
    let class = ClassId {
        vendor: 1,
        major: 2,
        minor: 3,
    };
    copied(&rt, alloc, class);
}
