//! What a disk counts of its calls.
ghost use Rattle.std.specs.Prelude.{◌≡◌, ◌≤◌};
ghost use Rattle.disk_model.specs.Counts.{no_calls, read_more, asked, passed, stopped, armed_at, disarmed, reaches};

/// What a disk counts of its calls. Each count of calls stops at the greatest `u64`.
#[derive(Drop)]
pub struct Tally {
    /// How many changing calls were made.
    pub changing: u64,
    /// How many reading calls were made.
    pub reading: u64,
    /// How many changing calls are left until the disk stops, where it is armed: it stops at the last of them.
    pub armed: Option<u64>,
}

impl Tally {
    /// No call was made yet, and the disk is not armed.
    pub fn new() -> Tally
        ensures { result ≡ no_calls }
    {
        Tally {
            changing: 0,
            reading: 0,
            armed: None,
        }
    }

    /// Whether the next changing call is the one at which the disk stops.
    pub fn stops_next(&self) -> bool
        ensures { result ≡ reaches 1 self.now.armed }
    {
        match self.armed {
            None => false,
            Some(left) => left <= 1,
        }
    }

    /// Counts a reading call.
    pub fn read(&mut self)
        ensures { self.new ≡ read_more 1 self.old }
    {
        self.reading = self.reading.saturating_add(1);
    }

    /// Counts a changing call for which memory was wanting: it lowers no armed count.
    pub fn ask(&mut self)
        ensures { self.new ≡ asked self.old }
    {
        self.changing = self.changing.saturating_add(1);
    }

    /// Counts a changing call that was done or failed.
    pub fn pass(&mut self)
        ensures { self.new ≡ passed 1 self.old }
    {
        self.ask();
        match self.armed {
            None => {}
            Some(left) => self.armed = Some(left.saturating_sub(1)),
        }
    }

    /// Counts the changing call at which the disk stopped; it is not armed any more.
    pub fn stop(&mut self)
        ensures { self.new ≡ stopped 1 self.old }
    {
        self.ask();
        self.armed = None;
    }

    /// Arms the disk: it stops at the changing call of this number from now on.
    pub fn arm(&mut self, left: u64)
        ensures { self.new ≡ armed_at left self.old }
    {
        self.armed = Some(left);
    }

    /// Takes the arm away.
    pub fn disarm(&mut self)
        ensures { self.new ≡ disarmed self.old }
    {
        self.armed = None;
    }
}
