//! How a search for alarms starts, and the directions in which it goes on.
ghost use Rattle.std.specs.Prelude.{◌≡◌};
ghost use Rattle.alarm_view.specs.Modes.{mode_of, direction_of, way_of};

/// Which alarm a search starts at (`SaNtfSearchModeT`).
#[derive(Clone, Copy, PartialEq, Eq, Debug)]
pub enum SearchMode {
    /// The youngest alarm up to a time.
    BeforeOrAtTime,
    /// The oldest alarm of a time.
    AtTime,
    /// The oldest alarm from a time on.
    AtOrAfterTime,
    /// The youngest alarm before a time.
    BeforeTime,
    /// The oldest alarm after a time.
    AfterTime,
    /// The alarm of an id.
    NotificationId,
    /// The oldest alarm of all.
    OnlyFilter,
}

/// Where a search goes on (`SaNtfSearchDirectionT`).
#[derive(Clone, Copy, PartialEq, Eq, Debug)]
pub enum Direction {
    Older,
    Younger,
}

impl SearchMode {
    /// The mode of a code from 1 to 7, in the order of the variants. Another code has none.
    pub fn of(code: u32) -> Option<SearchMode>
        ensures { result ≡ mode_of code }
    {
        match code {
            1 => Some(SearchMode::BeforeOrAtTime),
            2 => Some(SearchMode::AtTime),
            3 => Some(SearchMode::AtOrAfterTime),
            4 => Some(SearchMode::BeforeTime),
            5 => Some(SearchMode::AfterTime),
            6 => Some(SearchMode::NotificationId),
            7 => Some(SearchMode::OnlyFilter),
            _ => None,
        }
    }

    /// The direction in which the starting alarm is the first of those that pass.
    pub(crate) fn way(self) -> Direction
        ensures { result ≡ way_of self }
    {
        match self {
            SearchMode::BeforeOrAtTime | SearchMode::BeforeTime => Direction::Older,
            SearchMode::AtTime
            | SearchMode::AtOrAfterTime
            | SearchMode::AfterTime
            | SearchMode::NotificationId
            | SearchMode::OnlyFilter => Direction::Younger,
        }
    }
}

impl Direction {
    /// The direction of a code: 1 is older, 2 younger. Another code has none.
    pub fn of(code: u32) -> Option<Direction>
        ensures { result ≡ direction_of code }
    {
        match code {
            1 => Some(Direction::Older),
            2 => Some(Direction::Younger),
            _ => None,
        }
    }
}
