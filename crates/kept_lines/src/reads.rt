//! Which records were read.
ghost use Rattle.std.specs.Prelude.{◌≡◌, ◌+◌, ◌++◌, ◌∷◌, [], ◌<◌, ℕ, List, length, Some, IfOk, OnOk};
ghost use Rattle.kept_lines.specs.Reads.{gave, gave_number, GrowsUnread, was_read};
ghost use Rattle.history_core.specs.declared.history.Op.{Op};

use history_core::{Kind, Op};
use std::alloc::{AllocError, Global};

/// The records that finished reads gave, but for the opening.
#[derive(Drop)]
pub struct Reads {
    /// By a record's number whether it was read.
    seen: Vec<bool>,
    /// How many were read.
    count: usize,
}

impl Reads {
    ghost use Rattle.kept_lines.specs.Reads.{WereRead, KnowsReads};

    /// No operation yet.
    pub fn new(alloc: Global) -> Reads
        ensures { KnowsReads [] result }
    {
        Reads {
            seen: Vec::new(alloc),
            count: 0,
        }
    }

    /// Enters the next operation of the log.
    pub fn enter(&mut self, op: &Op<usize>) -> Result<(), AllocError>
        ensures { OnOk result ((log : List (Op ℕ)) → KnowsReads log self.old →
            KnowsReads (log ++ op.now ∷ []) self.new) }
    {
        match gave(op) {
            None => Ok(()),
            Some(number) => self.read(number),
        }
    }

    /// Enters a read that gave this record.
    fn read(&mut self, number: usize) -> Result<(), AllocError>
        ensures { OnOk result ((log : List (Op ℕ)) (op : Op ℕ) → gave op ≡ Some number → KnowsReads log self.old →
            KnowsReads (log ++ op ∷ []) self.new) }
    {
        if was_read(self.seen.as_slice(), number) {
            return Ok(());
        }
        let count = next(self.count)?;
        make_room(&mut self.seen, number)?;
        self.seen[number] = true;
        self.count = count;
        Ok(())
    }

    /// How many records were read.
    pub fn count(&self) -> usize
        ensures { (log : List (Op ℕ)) → KnowsReads log self.now → WereRead log result }
    {
        self.count
    }
}

/// The record that a finished read gave, if it isn't the opening.
fn gave(op: &Op<usize>) -> Option<usize>
    ensures { result ≡ gave op.now }
{
    match op.kind {
        Kind::Read => gave_number(op.ends, op.item),
        Kind::Write | Kind::Refused => None,
    }
}

fn gave_number(end: Option<u64>, item: Option<usize>) -> Option<usize>
    ensures { result ≡ gave_number end item }
{
    end?;
    let number = item?;
    if number == 0 { None } else { Some(number) }
}

fn was_read(seen: &[bool], number: usize) -> bool
    ensures { result ≡ was_read seen.now number }
{
    match seen.get(number) {
        Some(read) => *read,
        None => false,
    }
}

/// One more. No memory holds a log that has more records than there are numbers.
fn next(count: usize) -> Result<usize, AllocError>
    ensures { IfOk result (λ more. more ≡ count + 1) }
{
    match count.checked_add(1) {
        Some(more) => Ok(more),
        None => Err(AllocError),
    }
}

/// Room for a record, of those up to it that have none.
fn make_room(seen: &mut Vec<bool>, number: usize) -> Result<(), AllocError>
    ensures grown { OnOk result (GrowsUnread seen.old.items seen.new.items) }
    ensures room { OnOk result (number < length seen.new.items) }
{
    if number < seen.len() {
        return Ok(());
    }
    for _ in seen.len()..number {
        seen.push(false)?;
    }
    seen.push(false)?;
    Ok(())
}
