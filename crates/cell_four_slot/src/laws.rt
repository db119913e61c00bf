//! A law over the rule of the table of a four-slot cell: what it says of every state between two steps.
ghost use Rattle.std.specs.Prelude.{◌≡◌, ◌≤◌, ℕ};
ghost use mathlib.Core.Option.{some};
ghost use Rattle.atomic_table.specs.Table.{State};
ghost use Rattle.four_slot_core.specs.Events.{opening_state};
ghost use Rattle.four_slot_core.specs.Interleaving.{Leads};
ghost use Rattle.four_slot_core.specs.Invariant.{IsSound, latest_slot};
ghost use Rattle.cell_contract.specs.Intervals.{AreFirst, At};
ghost use Rattle.history_core.specs.Registers.{intervals, IsReadOf};
ghost use Rattle.cell_four_slot.specs.Rule.{InTable, InViews, UpTo, number_in, control_writes, control_reads};
ghost use Rattle.cell_four_slot.specs.Spread.{gathered};
ghost use Rattle.cell_four_slot.specs.Steps.{FourSlotSight};

use crate::cell::FourSlot;
use crate::notes;
use atomic_table::TableRule;
use cell_contract::Lawful;

/// Where the rule of a four-slot cell holds, words, home slots and views show a state of the four-slot register, with
/// the opening as its noise. This state keeps the register's invariant, and some interleaving of the events of the two
/// passes leads to it from the register's opening. The answers are settled up to the record in the slot that `latest`
/// and its bit name. A pass's count is at most the number of control accesses among its events.
pub fn four_slot_rule_shows<T: Lawful>()
    ensures shown { (o : T) (s : State T (FourSlotSight T))
        (r : ⟦<FourSlot as TableRule<T, notes::FourSlotSight<T>, T>>⟧.holds o s) →
        InTable (gathered s.words) s.homes r.cell.get.at_hand.value r.cell.core
        × InViews r.cell.put r.cell.get r.cell.core × (r.cell.core.noise ≡ o) }
    ensures sound { (o : T) (s : State T (FourSlotSight T))
        (r : ⟦<FourSlot as TableRule<T, notes::FourSlotSight<T>, T>>⟧.holds o s) →
        IsSound r.cell.core r.cell.put.finished.value }
    ensures leads { (o : T) (s : State T (FourSlotSight T))
        (r : ⟦<FourSlot as TableRule<T, notes::FourSlotSight<T>, T>>⟧.holds o s) →
        Leads r.cell.put.events r.cell.get.events (opening_state o o) r.cell.core }
    ensures settled { (o : T) (s : State T (FourSlotSight T))
        (r : ⟦<FourSlot as TableRule<T, notes::FourSlotSight<T>, T>>⟧.holds o s) →
        UpTo o r.cell.put.written r.cell.get.answers r.cell.get.told
        (number_in r.cell.put.slots (latest_slot r.cell.core)) }
    ensures counted { (o : T) (s : State T (FourSlotSight T))
        (r : ⟦<FourSlot as TableRule<T, notes::FourSlotSight<T>, T>>⟧.holds o s) →
        (r.cell.put.accesses ≤ control_writes r.cell.put.events)
        × (r.cell.get.accesses ≤ control_reads r.cell.get.events) }
    ensures timed { (o : T) (s : State T (FourSlotSight T))
        (r : ⟦<FourSlot as TableRule<T, notes::FourSlotSight<T>, T>>⟧.holds o s) (m n : ℕ) →
        At r.cell.get.numbers m n → IsReadOf (intervals r.cell.put.times.begins r.cell.put.times.ends)
        (intervals r.cell.get.times.begins r.cell.get.times.ends) m n }
    ensures rising { (o : T) (s : State T (FourSlotSight T))
        (r : ⟦<FourSlot as TableRule<T, notes::FourSlotSight<T>, T>>⟧.holds o s) (i j a b : ℕ) →
        At r.cell.get.numbers i a → At r.cell.get.numbers j b → i ≤ j → a ≤ b }
    ensures known { (o : T) (s : State T (FourSlotSight T))
        (r : ⟦<FourSlot as TableRule<T, notes::FourSlotSight<T>, T>>⟧.holds o s) →
        AreFirst r.cell.get.known r.cell.put.written r.cell.put.times }
{}
