//! Texts in one buffer.
ghost use Rattle.std.specs.Prelude.{◌≡◌, ◌<◌, ◌++◌, ◌∷◌, [], ℕ, List, length, slice_get, IfOk, OnOk, Some};
ghost use Rattle.std.specs.Prelude.{◌≤◌};
ghost use Rattle.std.specs.List.{slice_range};
ghost use Rattle.kept_lines.specs.inner.Texts.{AreTexts};

use std::alloc::{AllocError, Global};

/// Texts, by number.
#[derive(Drop)]
pub struct Texts {
    /// All of them, one behind the other.
    pub bytes: Vec<u8>,
    /// Where each begins, and where the last one ends.
    pub bounds: Vec<usize>,
}

impl Texts {
    pub(crate) fn new(alloc: Global) -> Result<Texts, AllocError>
        ensures { IfOk result (AreTexts []) }
    {
        let mut bounds = Vec::new(alloc);
        bounds.push(0)?;
        Ok(Texts {
            bytes: Vec::new(alloc),
            bounds,
        })
    }

    /// One more text.
    pub(crate) fn push(&mut self, text: &[u8]) -> Result<(), AllocError>
        ensures { OnOk result ((texts : List (List ℕ)) → AreTexts texts self.old →
            AreTexts (texts ++ text.now ∷ []) self.new) }
    {
        self.bytes.extend_from_slice(text)?;
        self.bounds.push(self.bytes.len())?;
        Ok(())
    }

    /// The text with this number.
    pub(crate) fn get(&self, number: usize) -> &[u8]
        requires { (texts : List (List ℕ)) × AreTexts texts self.now × (number < length texts) }
        ensures { (texts : List (List ℕ)) → AreTexts texts self.now → slice_get texts number ≡ Some result.now }
    {
        let from = self.bounds[number];
        let to = self.bounds[number + 1];
        part(self.bytes.as_slice(), from, to)
    }

    /// How many there are.
    pub(crate) fn count(&self) -> usize
        ensures { (texts : List (List ℕ)) → AreTexts texts self.now → result ≡ length texts }
    {
        self.bounds.len().saturating_sub(1)
    }
}

fn part(bytes: &[u8], from: usize, to: usize) -> &[u8]
    requires rises { from ≤ to }
    requires within { to ≤ length bytes.now }
    ensures { result.now ≡ slice_range bytes.now from to }
{
    &bytes[from..to]
}
