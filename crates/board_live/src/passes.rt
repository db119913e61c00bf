//! What passes and receipts tell.
ghost use Rattle.std.specs.Prelude.{◌≡◌};

use crate::board::Pass;
use crate::receipts::Receipt;
use crate::record::{Posted, RecordLaw};
use cell_contract::Family;

impl<V: RecordLaw, F: Family<Posted<V>>> Pass<V, F> {
    /// The process that calls with it.
    pub fn process(&self) -> usize
        ensures { result ≡ self.now.process }
    {
        self.process
    }

    /// The record that the last call chose; before the first call the opening.
    pub fn own(&self) -> Posted<V>
        ensures { result ≡ self.now.own }
    {
        self.own
    }
}

impl<V: RecordLaw, F: Family<Posted<V>>> Receipt<V, F> {
    /// The process that told it.
    pub fn from(&self) -> usize
        ensures { result ≡ self.now.from }
    {
        self.from
    }

    /// The record of its sender that it names.
    pub fn told(&self) -> Posted<V>
        ensures { result ≡ self.now.item }
    {
        self.item
    }
}
