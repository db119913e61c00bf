//! The links by which a record is looked up.
ghost use Rattle.std.specs.Prelude.{◌≡◌, ◌<◌, ◌+◌, ◌++◌, ◌∷◌, [], ℕ, List, length, slice_get, IfNone, IfOk, IfSome};
ghost use Rattle.std.specs.Prelude.{◌↔◌, IsTrue, OnOk, Some};
ghost use Rattle.kept_lines.specs.inner.Linked.{AreLinked};
ghost use Rattle.kept_lines.specs.inner.Texts.{AreTexts};

use crate::hash::bucket_of;
use crate::texts::Texts;
use std::alloc::{AllocError, Global};

/// Records by the buckets of their texts. A link is one more than the number of a record, and 0 leads to none.
#[derive(Drop)]
pub struct Links {
    /// By bucket, the link to its last record.
    pub last: Vec<u32>,
    /// By number, the link to the record before it in its bucket.
    pub before: Vec<u32>,
}

impl Links {
    /// So many empty buckets.
    pub(crate) fn new(alloc: Global, count: usize) -> Result<Links, AllocError>
        requires { 0 < count }
        ensures { IfOk result (AreLinked []) }
    {
        let mut last = Vec::new(alloc);
        for _ in 0..count {
            last.push(0)?;
        }
        Ok(Links {
            last,
            before: Vec::new(alloc),
        })
    }

    /// Links the next record, which has this text.
    pub(crate) fn enter(&mut self, text: &[u8]) -> Result<(), AllocError>
        requires { 0 < length self.old.last.items }
        ensures { OnOk result ((texts : List (List ℕ)) → AreLinked texts self.old →
            AreLinked (texts ++ text.now ∷ []) self.new) }
    {
        let link = link_to(self.before.len())?;
        let bucket = bucket_of(text, self.last.len());
        self.before.push(self.last[bucket])?;
        self.last[bucket] = link;
        Ok(())
    }
}

/// The link to a record. There is no memory for more records than there are links.
fn link_to(number: usize) -> Result<u32, AllocError>
    ensures { IfOk result (λ link. link ≡ number + 1) }
{
    match u32::try_from(number) {
        Ok(number) => match number.checked_add(1) {
            Some(link) => Ok(link),
            None => Err(AllocError),
        },
        Err(_) => Err(AllocError),
    }
}

/// The links of these texts, in so many buckets.
pub(crate) fn links_of(alloc: Global, texts: &Texts, count: usize) -> Result<Links, AllocError>
    requires some { 0 < count }
    requires known { (all : List (List ℕ)) × AreTexts all texts.now }
    ensures { IfOk result (λ links. (all : List (List ℕ)) → AreTexts all texts.now → AreLinked all links) }
{
    let mut links = Links::new(alloc, count)?;
    for number in 0..texts.count() {
        links.enter(texts.get(number))?;
    }
    Ok(links)
}

/// The number of the record with this text.
pub(crate) fn find(texts: &Texts, links: &Links, text: &[u8]) -> Option<usize>
    requires { (all : List (List ℕ)) × AreTexts all texts.now × AreLinked all links.now }
    ensures some { IfSome result (λ n. (all : List (List ℕ)) → AreTexts all texts.now →
        slice_get all n ≡ Some text.now) }
    ensures none { IfNone result ((all : List (List ℕ)) → AreTexts all texts.now → AreLinked all links.now → (n : ℕ) →
        slice_get all n ≡ Some text.now → ⊥) }
{
    let bucket = bucket_of(text, links.last.len());
    let mut link = links.last[bucket];
    'chain: while link > 0 {
        let number = (link - 1) as usize;
        if is_same(texts.get(number), text) {
            return Some(number);
        }
        link = links.before[number];
    }
    None
}

fn is_same(one: &[u8], other: &[u8]) -> bool
    ensures { IsTrue result ↔ (one.now ≡ other.now) }
{
    one == other
}
