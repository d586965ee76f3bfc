use civil_time::{LAST_SECOND, civil_at, stamp_at};

#[test]
fn stamps_and_weekdays_are_those_of_an_almanac(rt: HostRuntime) {
    let table: [(u64, &[u8; 15], u8); 12] = [
        (0, b"19700101_000000", 3),
        (86_399, b"19700101_235959", 3),
        (68_169_600, b"19720229_000000", 1),
        (946_684_799, b"19991231_235959", 4),
        (951_782_400, b"20000229_000000", 1),
        (951_868_800, b"20000301_000000", 2),
        (1_704_067_200, b"20240101_000000", 0),
        (4_102_444_799, b"20991231_235959", 3),
        (4_107_542_399, b"21000228_235959", 6),
        (4_107_542_400, b"21000301_000000", 0),
        (9_000_000_000, b"22550314_160000", 2),
        (20_000_000_100, b"26031011_113500", 1),
    ];
    for (second, stamp, weekday) in table {
        assert!(rt; second <= LAST_SECOND);
        assert!(rt;
            stamp_at(second).as_slice() == stamp.as_slice(),
            "at {second}"
        );
        assert!(rt; civil_at(second).weekday == weekday, "at {second}");
    }
}
