//! What decides before each call of a task whether it goes on, and what is told of each call.
ghost use Rattle.std.specs.Prelude.{ℕ, ◌<◌, IfNone, IfSome};
ghost use Rattle.board_tasks.specs.Tasks.{WasMade};

use crate::lane::Entry;
use board_live::{Posted, RecordLaw};
use cell_contract::Family;
use std::sync::atomic::{AtomicU64, Ordering};

/// What decides before each call of a task whether it goes on. It stands between the calls of running tasks, so here a
/// program measures them. Tasks count from 0 and calls from 1.
pub trait Gate {
    /// The right to one call. Code over any gate can neither make one nor let it go: it gets one from
    /// `before` and owes it to `after`.
    type Permit;

    // Whether the permit is for this call of this task.
    ghost is_for: { Self → ℕ → ℕ → Self.Permit → Type 0 };

    // Whether the task may stop before this call.
    ghost may_stop: { Self → ℕ → ℕ → Type 0 };

    /// The permit for this call, or none where the task is to stop.
    fn before(&self, task: usize, call: usize) -> Option<Self::Permit>
        ensures given { IfSome result (is_for self.now task call) }
        ensures stops { IfNone result (may_stop self.now task call) };

    /// The call was made, with this entry. Takes the permit back.
    fn after<V: RecordLaw, F: Family<Posted<V>>>(
        &self,
        task: usize,
        call: usize,
        entry: &Entry<V>,
        permit: Self::Permit,
    )
        requires permit { is_for self.now task call permit }
        requires made { WasMade ⟦<F as Family<Posted<V>>>⟧ V.obeys entry.now };
}

/// Lets every call through.
#[derive(Clone, Copy, Debug, Drop)]
pub struct OpenGate;

impl Gate for OpenGate {
    type Permit = ();

    ghost is_for = { λ _ _ _ _. Unit {0} };

    ghost may_stop = { λ _ _ _. ⊥ };

    fn before(&self, _task: usize, _call: usize) -> Option<()> {
        Some(())
    }

    fn after<V: RecordLaw, F: Family<Posted<V>>>(
        &self,
        _task: usize,
        _call: usize,
        _entry: &Entry<V>,
        _permit: (),
    ) {}
}

/// Lets every call through, and counts those that were made.
#[derive(Drop)]
pub struct CountingGate {
    made: AtomicU64,
}

impl CountingGate {
    pub fn new() -> CountingGate {
        CountingGate {
            made: AtomicU64::new(0),
        }
    }

    /// The calls that all tasks have made.
    pub fn made(&self) -> u64 {
        self.made.load(Ordering::SeqCst)
    }
}

impl Gate for CountingGate {
    type Permit = ();

    ghost is_for = { λ _ _ _ _. Unit {0} };

    ghost may_stop = { λ _ _ _. ⊥ };

    fn before(&self, _task: usize, _call: usize) -> Option<()> {
        Some(())
    }

    fn after<V: RecordLaw, F: Family<Posted<V>>>(
        &self,
        _task: usize,
        _call: usize,
        _entry: &Entry<V>,
        _permit: (),
    ) {
        self.made.fetch_add(1, Ordering::SeqCst);
    }
}

/// Stops all tasks after a time. Its time is a number of turns: each call of any task takes one, and where
/// none is left the task stops.
#[derive(Drop)]
pub struct TimedGate {
    turns: u64,
    taken: AtomicU64,
}

/// A turn of a timed gate. Turns count from 0.
#[derive(Debug, Drop)]
pub struct Turn {
    number: u64,
}

impl TimedGate {
    pub fn new(turns: u64) -> TimedGate {
        TimedGate {
            turns,
            taken: AtomicU64::new(0),
        }
    }
}

impl Gate for TimedGate {
    type Permit = Turn;

    // The turn is one of those that the gate has.
    ghost is_for = { λ s _ _ turn. turn.number < s.turns };

    ghost may_stop = { λ _ _ _. Unit {0} };

    fn before(&self, _task: usize, _call: usize) -> Option<Turn> {
        let number = self.taken.fetch_add(1, Ordering::SeqCst);
        if number < self.turns {
            Some(Turn { number })
        } else {
            None
        }
    }

    fn after<V: RecordLaw, F: Family<Posted<V>>>(
        &self,
        _task: usize,
        _call: usize,
        _entry: &Entry<V>,
        _turn: Turn,
    ) {}
}
