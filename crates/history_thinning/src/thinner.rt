//! What is kept while a log is read.

ghost use Rattle.std.specs.Prelude.{◌≡◌, ◌++◌, ◌∷◌, [], ℕ, List, true, length, IfErr, IfOk, IsSome, OnErr, OnOk};
ghost use Rattle.history_core.specs.declared.history.Op.{Op};
ghost use Rattle.history_core.specs.Reasons.{counts};
ghost use Rattle.history_thinning.specs.Answers.{IsThinnedFault};
ghost use Rattle.history_thinning.specs.Thinnings.{IsThinnedLog};
ghost use Rattle.history_thinning.specs.inner.Kept.{AreThinned, HasRoles, IsThinning};

use crate::compact::compact;
use crate::enter::{counted_number, entry_fault, join, make_room};
use crate::group::{Placed, Roles};
use crate::rows::{Rows, no_rows};
use history_core::{History, Items, Op, SearchError, Term, Thinned};
use std::alloc::{AllocError, Global};

/// A log of which at most four operations of each record are kept. Its memory grows with the
/// greatest number of a record.
#[derive(Drop)]
pub struct Thinner {
    /// The operations that are kept, in the order of the log. Some may not be needed any more.
    rows: Rows,
    /// What is kept of each record, by its number.
    roles: Vec<Roles>,
    /// The number of rows at which those that aren't needed are dropped.
    room: usize,
}

/// The least number of rows at which some are dropped.
const ROOM: usize = 1024;

impl Thinner {
    /// No operation yet.
    pub fn new(alloc: Global) -> Self
        ensures { IsThinning [] result }
    {
        Thinner {
            rows: no_rows(alloc),
            roles: Vec::new(alloc),
            room: ROOM,
        }
    }

    /// Enters the next operation of the log, whose place is the number of those entered before it. An unfinished read
    /// or refused write isn't kept. An operation with which a search would refuse the log so far isn't entered. On the
    /// whole it takes a constant number of steps, but for numbers that weren't met yet.
    pub fn enter(&mut self, op: Op<usize>, place: usize) -> Result<(), SearchError>
        requires { counts op ≡ true → IsSome op.item }
        ensures entered { OnOk result ((log : List (Op ℕ)) → length log ≡ place → IsThinning log self.old →
            IsThinning (log ++ op ∷ []) self.new) }
        ensures fault { IfErr result (λ error. (log : List (Op ℕ)) → length log ≡ place → IsThinning log self.old →
            IsThinnedFault (log ++ op ∷ []) error) }
        ensures unchanged { OnErr result ((log : List (Op ℕ)) → IsThinning log self.old → IsThinning log self.new) }
    {
        self.drop_unused();
        if let Some(fault) = entry_fault(
            self.rows.places.as_slice(),
            self.roles.as_slice(),
            &op,
            place,
        ) {
            return Err(fault);
        }
        let Some(number) = counted_number(&op) else {
            return Ok(());
        };
        match make_room(&mut self.roles, number) {
            Ok(()) => {}
            Err(_) => return Err(SearchError::NoMemory),
        }
        match join(
            &mut self.rows,
            &mut self.roles,
            number,
            Placed { op, place },
        ) {
            Ok(()) => Ok(()),
            Err(_) => Err(SearchError::NoMemory),
        }
    }

    /// Drops what isn't needed any more, once there is much.
    fn drop_unused(&mut self)
        ensures { (log : List (Op ℕ)) → IsThinning log self.old → IsThinning log self.new }
    {
        if self.rows.ops.len() < self.room {
            return;
        }
        compact(&mut self.rows, &mut self.roles);
        let count = self.rows.ops.len();
        self.room = count.saturating_add(count / 4).saturating_add(ROOM);
    }

    /// The thinned log, under one term with this limit.
    pub fn finish(self, alloc: Global, limit: u64) -> Result<Thinned, AllocError>
        ensures { (log : List (Op ℕ)) → IsThinning log self → IfOk result (IsThinnedLog limit log) }
    {
        let Thinner { rows, roles, .. } = self;
        let Rows { ops, places } = needed(rows, roles);
        let mut terms = Vec::new(alloc);
        terms.push(Term { first: 0, limit })?;
        Ok(Thinned {
            history: History {
                opening: 0,
                terms: Items::new(terms),
                ops: Items::new(ops),
            },
            places: Items::new(places),
        })
    }
}

/// The operations that are needed. The memory of the others and of the roles is given back.
fn needed(rows: Rows, roles: Vec<Roles>) -> Rows
    ensures { (log : List (Op ℕ)) → AreThinned log rows.ops.items rows.places.items roles.items →
        HasRoles log result.ops.items result.places.items }
{
    let mut rows = rows;
    let mut roles = roles;
    compact(&mut rows, &mut roles);
    rows.ops.shrink_to_fit();
    rows.places.shrink_to_fit();
    rows
}
