//! What the registers of a family are: where they lie, the rule that each keeps, and what receipts tell of it.
ghost use Rattle.std.specs.Prelude.{◌≡◌, ◌≤◌, ℕ};
ghost use Rattle.atomic_table.specs.Table.{State};
ghost use Rattle.family_table.specs.Ends.{CellEnds};
ghost use Rattle.family_table.specs.Layouts.{Layout, IsLayout};
ghost use Rattle.family_table.specs.Family.{FamilyRule, CellTells, CellHears, heard_by};
ghost use Rattle.family_table.specs.declared.notes.Process.{Process};
ghost use Rattle.family_table.specs.declared.notes.Receipt.{Receipt};
ghost use Rattle.family_table.specs.declared.notes.View.{View};

use crate::notes::{Opened, View};
use atomic_table::TableRule;
use std::marker::PhantomData;

/// What a process knows of a register, and the rule that the register keeps.
pub trait Mechanism<T, V> {
    // Where the registers of so many processes lie in the table.
    ghost layout: { ℕ → Layout };

    // What a process knows of a register that it neither writes nor reads.
    ghost blank: { V };

    // The rule of a register that opened with a record, up to a time.
    ghost keeps: { T → ℕ → State T V → Type 0 };

    // What the first seat knows of a family of so many processes.
    ghost first: { T → ℕ → View V };

    // What a process may know at any moment: by what the registers opened with, the limit, how many
    // processes there are, and its number.
    ghost plan: { T → ℕ → ℕ → ℕ → Process V → Type 0 };

    // No call of the register is under way.
    ghost idle: { V → Type 0 };

    // What a receipt tells of a register, and what a process knows that hears it.
    ghost receipt: { V → V };

    ghost hears: { V → V → V };

    // The calls of a register by what its two processes know of it.
    ghost done: { T → V → V → Type 0 };

    // Each register has places of its own, and what is so up to a time is so up to a later one.
    ghost laid: { (n : ℕ) → IsLayout (layout n) };

    ghost later: { (o : T) (now t : ℕ) (s : State T V) → now ≤ t → keeps o now s → keeps o t s };

    ghost plain: { receipt blank ≡ blank };

    ghost deaf: { (v : V) → hears v blank ≡ v };

    ghost mute: { (v : V) → hears blank v ≡ blank };

    ghost tells: { (o : T) → CellTells (keeps o) idle receipt };

    ghost learns: { (o : T) → CellHears (keeps o) idle hears };

    ghost ends: { (o : T) → CellEnds (keeps o) (done o) };

    ghost stays: { (o : T) (limit n i : ℕ) (v : Process V) (r : Receipt V) →
        plan o limit n i v → plan o limit n i (heard_by hears v r) };
}

/// The rule of the table.
pub struct FamilyLaw<M> {
    mechanism: PhantomData<M>,
}

impl<T: Copy, V, M: Mechanism<T, V>> TableRule<T, View<V>, Opened<T>> for FamilyLaw<M> {
    ghost holds = { λ key s. FamilyRule M.blank (M.layout key.processes) (M.keeps key.first)
        (M.plan key.first key.limit key.processes) key.processes s };

    ghost first = { λ key. M.first key.first key.processes };
}
