/// A reading with the limits between which it is to lie.
#[derive(Clone, Copy, Debug, PartialEq, Eq, PartialOrd, Ord)]
pub struct Band {
    pub lo: u64,
    pub now: u64,
    pub hi: u64,
}

impl Band {
    ghost use Rattle.std.specs.Prelude.{◌≡◌};
    ghost use Rattle.history_core.specs.Band.{fits};

    /// Whether the reading lies between its limits.
    pub fn fits(&self) -> bool
        ensures { result ≡ fits self.entry.now }
    {
        self.lo <= self.now && self.now <= self.hi
    }
}
