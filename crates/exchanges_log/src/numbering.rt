//! Numbers for records.
ghost use Rattle.std.specs.Prelude.{◌≡◌, [], ◌∷◌, ℕ, List, length, IfOk, string_bytes};
ghost use Rattle.std.specs.BTreeMap.{get_by_text};

use std::alloc::{AllocError, Global};
use std::collections::BTreeMap;

/// The number of each record that was met. A record is known by its text.
#[derive(Drop)]
pub struct Numbering {
    numbers: BTreeMap<String, usize>,
}

impl Numbering {
    ghost use Rattle.exchanges_log.specs.Numberings.{GaveNumber, IsNumbering};

    /// The opening has number 0.
    pub fn new(alloc: Global, opening: String) -> Result<Numbering, AllocError>
        ensures { IfOk result (IsNumbering (string_bytes opening ∷ [])) }
    {
        let mut numbers = BTreeMap::new(alloc);
        numbers.insert(opening, 0)?;
        Ok(Numbering { numbers })
    }

    /// The number of a record. One that wasn't met gets the next.
    pub fn number(&mut self, text: String) -> Result<usize, AllocError>
        ensures { IfOk result (λ n. (records : List (List ℕ)) → IsNumbering records self.old →
            GaveNumber records (string_bytes text) n self.new) }
    {
        match self.known(text.as_str()) {
            Some(number) => Ok(number),
            None => {
                let number = self.numbers.len();
                self.numbers.insert(text, number)?;
                Ok(number)
            }
        }
    }

    fn known(&self, text: &str) -> Option<usize>
        ensures { result ≡ get_by_text self.now.numbers text.now }
    {
        self.numbers.get(text).copied()
    }

    /// How many records were met.
    pub fn count(&self) -> usize
        ensures { (records : List (List ℕ)) → IsNumbering records self.now → result ≡ length records }
    {
        self.numbers.len()
    }
}
