//! Numbers for records.
ghost use Rattle.std.specs.Prelude.{◌≡◌, ◌<◌, ◌∷◌, [], ℕ, List, length, IfOk, OnOk};
ghost use Rattle.kept_lines.specs.inner.Linked.{AreLinked};
ghost use Rattle.kept_lines.specs.inner.Texts.{AreTexts};

use crate::links::{Links, find, links_of};
use crate::texts::Texts;
use std::alloc::{AllocError, Global};

/// The number of each record that was met. A record is known by its text.
#[derive(Drop)]
pub struct RecordNumbers {
    alloc: Global,
    texts: Texts,
    links: Links,
}

/// How many buckets there are at first.
const BUCKETS: usize = 15;

impl RecordNumbers {
    ghost use Rattle.kept_lines.specs.Numbered.{AreNumbered, GaveRecord};

    /// The opening has number 0.
    pub fn new(alloc: Global, opening: &[u8]) -> Result<RecordNumbers, AllocError>
        ensures { IfOk result (AreNumbered (opening.now ∷ [])) }
    {
        let mut texts = Texts::new(alloc)?;
        texts.push(opening)?;
        let mut links = Links::new(alloc, BUCKETS)?;
        links.enter(opening)?;
        Ok(RecordNumbers {
            alloc,
            texts,
            links,
        })
    }

    /// The number of a record. One that wasn't met gets the next. On the whole it takes as many steps as the text has
    /// bytes, where few texts share a bucket.
    pub fn number(&mut self, text: &[u8]) -> Result<usize, AllocError>
        requires { (records : List (List ℕ)) × AreNumbered records self.old }
        ensures { IfOk result (λ n. (records : List (List ℕ)) → AreNumbered records self.old →
            GaveRecord records text.now n self.new) }
    {
        match find(&self.texts, &self.links, text) {
            Some(number) => Ok(number),
            None => {
                let number = self.texts.count();
                self.texts.push(text)?;
                self.links.enter(text)?;
                self.make_room()?;
                Ok(number)
            }
        }
    }

    /// More buckets, where there are more records than buckets.
    fn make_room(&mut self) -> Result<(), AllocError>
        requires { (records : List (List ℕ)) × AreTexts records self.old.texts × AreLinked records self.old.links }
        ensures texts { OnOk result (self.new.texts ≡ self.old.texts) }
        ensures links { OnOk result ((records : List (List ℕ)) → AreTexts records self.old.texts →
            AreLinked records self.old.links → AreLinked records self.new.links) }
    {
        let count = self.links.last.len();
        if self.texts.count() <= count {
            return Ok(());
        }
        let links = links_of(self.alloc, &self.texts, more(count)?)?;
        self.links = links;
        Ok(())
    }

    /// How many records were met.
    pub fn count(&self) -> usize
        ensures { (records : List (List ℕ)) → AreNumbered records self.now → result ≡ length records }
    {
        self.texts.count()
    }
}

/// Twice as many buckets and one.
fn more(count: usize) -> Result<usize, AllocError>
    ensures { IfOk result (λ more. 0 < more) }
{
    match count.checked_mul(2) {
        Some(twice) => match twice.checked_add(1) {
            Some(more) => Ok(more),
            None => Err(AllocError),
        },
        None => Err(AllocError),
    }
}
