//! The record that the tasks share, and its law.
ghost use Rattle.std.specs.Prelude.{◌≡◌, ◌≤◌};
ghost use Rattle.example_control.specs.Turns.{command_of, in_order};

use board_live::RecordLaw;

/// What the tasks share.
#[derive(Clone, Copy, Debug, PartialEq, Eq)]
pub struct Control {
    pub low: u64,
    pub reading: u64,
    pub high: u64,
}

impl Control {
    /// The reading, but not beyond its limits.
    pub fn command(&self) -> u64
        requires { self.now.low ≤ self.now.high }
        ensures command { result ≡ command_of self.now }
        ensures within { (self.now.low ≤ result) × (result ≤ self.now.high) }
    {
        if self.reading < self.low {
            self.low
        } else if self.high < self.reading {
            self.high
        } else {
            self.reading
        }
    }
}

impl RecordLaw for Control {
    ghost obeys = { in_order };

    fn fits(&self) -> bool {
        self.low <= self.high
    }
}
