//! The numbers of the records that may still be told apart.
ghost use Rattle.std.specs.Prelude.{◌≡◌, ℕ, IfOk, OnOk, string_bytes};
ghost use Rattle.std.specs.BTreeSet.{contains};
ghost use Rattle.std.specs.Ordering.{nat_cmp};
ghost use Rattle.watch_lines.specs.Kept.{Forgets, GotNumber, IsKeptAlone, number_in, RetainsOnly};

use crate::held::held_numbers;
use crate::lined::{Lined, LinedRegister};
use object_watch::Remainder;
use std::alloc::{AllocError, Global};
use std::collections::{BTreeMap, BTreeSet};

/// The number of the opening.
const OPENING: u64 = 0;
/// So many records are kept before any is forgotten.
const FEW: usize = 16;

/// The number of each record that is kept. A record that was forgotten gets another one when it comes again.
#[derive(Drop)]
pub struct Records {
    numbers: BTreeMap<String, u64>,
    /// No record has this number yet, or a higher one.
    next: u64,
    /// From so many on records are forgotten.
    most: usize,
}

impl Records {
    /// The opening alone.
    pub(crate) fn new(alloc: Global, opening: String) -> Result<Records, AllocError>
        ensures { IfOk result (IsKeptAlone (string_bytes opening)) }
    {
        let mut numbers = BTreeMap::new(alloc);
        numbers.insert(opening, OPENING)?;
        Ok(Records {
            numbers,
            next: OPENING + 1,
            most: FEW,
        })
    }

    /// The number of a record. One that isn't kept gets the next.
    pub(crate) fn number(&mut self, text: String) -> Result<u64, AllocError>
        ensures { IfOk result (λ n. GotNumber self.old (string_bytes text) n self.new) }
    {
        if let Some(number) = self.known(text.as_str()) {
            return Ok(number);
        }
        let number = self.next;
        let Some(next) = number.checked_add(1) else {
            return Err(AllocError);
        };
        self.numbers.insert(text, number)?;
        self.next = next;
        Ok(number)
    }

    fn known(&self, text: &str) -> Option<u64>
        ensures { result ≡ number_in self.now text.now }
    {
        self.numbers.get(text).copied()
    }

    /// Forgets what nothing held names, if many records are kept.
    pub(crate) fn forget(
        &mut self,
        alloc: Global,
        held: &[Remainder<LinedRegister, Lined>],
    ) -> Result<(), AllocError>
        ensures { OnOk result (Forgets held.now self.old self.new) }
    {
        if self.numbers.len() < self.most {
            return Ok(());
        }
        let mut named = held_numbers(alloc, held)?;
        named.insert(OPENING)?;
        self.retain(&named);
        self.most = FEW.max(self.numbers.len().saturating_mul(2));
        Ok(())
    }

    /// Keeps the records with these numbers alone.
    fn retain(&mut self, named: &BTreeSet<u64>)
        ensures { RetainsOnly (λ n. contains nat_cmp named.now n) self.old self.new }
    {
        self.numbers.retain(|_, number| named.contains(&*number));
    }
}
