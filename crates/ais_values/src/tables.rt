//! The code tables of the two interfaces.
use crate::CodeRow;

macro_rules! rows {
    ($($code:literal $name:literal),+ $(,)?) => {
        [$(CodeRow { code: $code, name: $name }),+]
    };
}

/// The statuses.
pub const STATUSES: [CodeRow; 10] = rows![
    1 "ok",
    3 "VERSION",
    6 "TRY_AGAIN",
    7 "INVALID_PARAM",
    9 "BAD_HANDLE",
    12 "NOT_EXIST",
    14 "EXIST",
    15 "NO_SPACE",
    18 "NO_RESOURCES",
    25 "BAD_FLAGS",
];

/// The severities of log records, by two letters.
pub const LOG_SEVERITIES: [CodeRow; 7] = rows![
    0 "EM",
    1 "AL",
    2 "CR",
    3 "ER",
    4 "WA",
    5 "NO",
    6 "IN",
];

/// What becomes of a full file.
pub const FULL_ACTIONS: [CodeRow; 3] = rows![1 "WRAP", 2 "HALT", 3 "ROTATE"];

/// The types of notifications, by the words of a script.
pub const NOTIFICATION_TYPES: [CodeRow; 5] = rows![
    0x1000 "objects",
    0x2000 "attributes",
    0x3000 "states",
    0x4000 "alarm",
    0x5000 "security",
];

/// The event types of notifications.
pub const EVENT_TYPES: [CodeRow; 17] = rows![
    0x1001 "creation",
    0x1002 "deletion",
    0x2001 "added",
    0x2002 "removed",
    0x2003 "changed",
    0x2004 "reset",
    0x3001 "state change",
    0x4001 "communication",
    0x4002 "QoS",
    0x4003 "processing",
    0x4004 "equipment",
    0x4005 "environment",
    0x5001 "integrity",
    0x5002 "operation",
    0x5003 "physical",
    0x5004 "security service",
    0x5005 "time",
];

/// The perceived severities of alarms.
pub const PERCEIVED_SEVERITIES: [CodeRow; 6] = rows![
    0 "CLEARED",
    1 "INDETERMINATE",
    2 "WARNING",
    3 "MINOR",
    4 "MAJOR",
    5 "CRITICAL",
];

/// What caused a change that a notification tells of.
pub const SOURCE_INDICATORS: [CodeRow; 3] = rows![
    1 "OBJECT_OPERATION",
    2 "UNKNOWN_OPERATION",
    3 "MANAGEMENT_OPERATION",
];

/// How a reader of stored alarms finds its first one.
pub const SEARCH_MODES: [CodeRow; 7] = rows![
    1 "BEFORE_OR_AT_TIME",
    2 "AT_TIME",
    3 "AT_OR_AFTER_TIME",
    4 "BEFORE_TIME",
    5 "AFTER_TIME",
    6 "NOTIFICATION_ID",
    7 "ONLY_FILTER",
];

/// The months of a year, by their first three letters.
pub const MONTHS: [CodeRow; 12] = rows![
    1 "Jan",
    2 "Feb",
    3 "Mar",
    4 "Apr",
    5 "May",
    6 "Jun",
    7 "Jul",
    8 "Aug",
    9 "Sep",
    10 "Oct",
    11 "Nov",
    12 "Dec",
];
