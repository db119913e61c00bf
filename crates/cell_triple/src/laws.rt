//! A law over the rule of the table of a triple buffer: what it says of every state between two steps.
ghost use Rattle.std.specs.Prelude.{◌≡◌, ◌≤◌, ◌+◌, ℕ, ◌∷◌, length};
ghost use mathlib.Core.Option.{some};
ghost use lib.ListN.{get_elem?};
ghost use Rattle.atomic_table.specs.Table.{State};
ghost use Rattle.cell_contract.specs.Running.{last_or, Settled};
ghost use Rattle.cell_contract.specs.Intervals.{AreFirst, At};
ghost use Rattle.history_core.specs.Registers.{intervals, IsReadOf};
ghost use Rattle.cell_triple.specs.Steps.{TripleSight};

use crate::cell::Triple;
use crate::notes;
use atomic_table::TableRule;
use cell_contract::Lawful;

/// Where the rule of a triple buffer holds, the answers are settled against what was written, and the record written
/// last (the opening where there is none) is in the home slot `middle` where the word has the mark, else in the
/// reader's slot. The writer's swaps are as many as the records written, and the reader's loads as many as its answers,
/// with one more while a mark was found and not taken.
pub fn triple_rule_shows<T: Lawful>()
    ensures settled { (o : T) (s : State T (TripleSight T))
        (r : ⟦<Triple as TableRule<T, notes::TripleSight<T>, T>>⟧.holds o s) →
        Settled (o ∷ r.put.written) r.get.answers }
    ensures marked { (o : T) (s : State T (TripleSight T))
        (r : ⟦<Triple as TableRule<T, notes::TripleSight<T>, T>>⟧.holds o s) →
        r.fresh ≡ 1 → get_elem? s.homes r.middle ≡ some (some (last_or o r.put.written)) }
    ensures unmarked { (o : T) (s : State T (TripleSight T))
        (r : ⟦<Triple as TableRule<T, notes::TripleSight<T>, T>>⟧.holds o s) →
        r.fresh ≡ 0 → r.get.at_hand.value ≡ last_or o r.put.written }
    ensures counted { (o : T) (s : State T (TripleSight T))
        (r : ⟦<Triple as TableRule<T, notes::TripleSight<T>, T>>⟧.holds o s) →
        (r.put.swaps ≡ length r.put.written) × (r.get.loads ≡ length r.get.answers + r.get.asked) }
    ensures timed { (o : T) (s : State T (TripleSight T))
        (r : ⟦<Triple as TableRule<T, notes::TripleSight<T>, T>>⟧.holds o s) (m n : ℕ) →
        At r.get.numbers m n → IsReadOf (intervals r.put.times.begins r.put.times.ends)
        (intervals r.get.times.begins r.get.times.ends) m n }
    ensures rising { (o : T) (s : State T (TripleSight T))
        (r : ⟦<Triple as TableRule<T, notes::TripleSight<T>, T>>⟧.holds o s) (i j a b : ℕ) → At r.get.numbers i a →
        At r.get.numbers j b → i ≤ j → a ≤ b }
    ensures known { (o : T) (s : State T (TripleSight T))
        (r : ⟦<Triple as TableRule<T, notes::TripleSight<T>, T>>⟧.holds o s) →
        AreFirst r.get.known r.put.written r.put.times }
{}
