//! The turns of tasks.
ghost use Rattle.std.specs.Prelude.{◌≡◌, ◌++◌, ◌∷◌, [], ◌≤◌, ℕ, List, length, IfErr, IfSome, OnOk, Some};
ghost use Rattle.std.specs.BTreeMap.{get, Updates};
ghost use Rattle.std.specs.Ordering.{nat_cmp};
ghost use Rattle.kept_lines.specs.Lasts.{ends_before, last_of, overlapped};
ghost use Rattle.history_core.specs.declared.history.Op.{Op};

use history_core::Op;
use std::alloc::Global;
use std::collections::BTreeMap;

/// The last operation of a task: its place in the log, and its end if it has one.
#[derive(Clone, Copy)]
pub struct Last {
    pub end: Option<u64>,
    pub place: usize,
}

/// Why an operation isn't entered.
#[derive(Clone, Copy)]
pub enum TurnError {
    /// The operation of its task at this place hasn't ended before it begins.
    Overlaps { first: usize },
    NoMemory,
}

/// The last operation of each task.
#[derive(Drop)]
pub struct Turns {
    last: BTreeMap<usize, Last>,
}

impl Turns {
    ghost use Rattle.kept_lines.specs.Tasks.{IsTurnError, KnowsTasks};

    /// No operation yet.
    pub fn new(alloc: Global) -> Turns
        ensures { KnowsTasks {R = ℕ} [] result }
    {
        Turns {
            last: BTreeMap::new(alloc),
        }
    }

    /// Enters the next operation of the log, at this place.
    pub fn enter(&mut self, op: &Op<usize>, place: usize) -> Result<(), TurnError>
        requires { IfSome op.now.ends (λ end. op.now.starts ≤ end) }
        ensures entered { OnOk result ((log : List (Op ℕ)) → length log ≡ place → KnowsTasks log self.old →
            KnowsTasks (log ++ op.now ∷ []) self.new) }
        ensures error { IfErr result (λ error. (log : List (Op ℕ)) → KnowsTasks log self.old →
            IsTurnError log op.now error) }
    {
        let last = self.last_of(op.who);
        match overlapped(last, op.starts) {
            Some(first) => Err(TurnError::Overlaps { first }),
            None => self.put(op, place),
        }
    }

    fn put(&mut self, op: &Op<usize>, place: usize) -> Result<(), TurnError>
        ensures put { OnOk result (Updates nat_cmp self.old.last self.new.last op.now.who
            (Some (last_of op.now place))) }
        ensures error { IfErr result (λ error. error ≡ TurnError.NoMemory) }
    {
        let next = Last {
            end: op.ends,
            place,
        };
        match self.last.insert(op.who, next) {
            Ok(_) => Ok(()),
            Err(_) => Err(TurnError::NoMemory),
        }
    }

    fn last_of(&self, who: usize) -> Option<Last>
        ensures { result ≡ get nat_cmp self.now.last who }
    {
        self.last.get(&who).copied()
    }
}

/// The place of the last operation, where it hasn't ended before this moment.
fn overlapped(last: Option<Last>, begin: u64) -> Option<usize>
    ensures { result ≡ overlapped last begin }
{
    let last = last?;
    if ends_before(last.end, begin) {
        None
    } else {
        Some(last.place)
    }
}

fn ends_before(end: Option<u64>, begin: u64) -> bool
    ensures { result ≡ ends_before end begin }
{
    match end {
        Some(end) => end < begin,
        None => false,
    }
}
