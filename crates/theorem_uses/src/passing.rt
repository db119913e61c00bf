//! A board whose tasks don't end: what three processes know of each other's calls at once.
ghost use Rattle.std.specs.Prelude.{◌≡◌, true, IfSome, IsTrue};
ghost use Rattle.board_live.specs.Passes.{IsPass};
ghost use Rattle.theorem_uses.specs.Passing.{HasHeard, HasMadeNone};

use board_live::{Board, Pass, Posted, RecordLaw};
use cell_contract::Family;
use matrix_core::Stamp;

/// q writes and tells p, p tells r, and r reads: r's read begins after q's write had ended, though p has read nothing,
/// if its own record was told. Gives the write's stamp and r's answer, or none where the tags have ended.
pub fn pass_on<V: RecordLaw, F: Family<Posted<V>>>(
    board: &Board<V, F>,
    q: &mut Pass<V, F>,
    p: &mut Pass<V, F>,
    r: &mut Pass<V, F>,
    item: V,
) -> Option<(Stamp, Posted<V>)>
    requires q { IsPass ⟦<F as Family<Posted<V>>>⟧ V.obeys board.now q.old }
    requires p { IsPass ⟦<F as Family<Posted<V>>>⟧ V.obeys board.now p.old }
    requires r { IsPass ⟦<F as Family<Posted<V>>>⟧ V.obeys board.now r.old }
    requires item { IsTrue (V.obeys item) }
    ensures q { IsPass ⟦<F as Family<Posted<V>>>⟧ V.obeys board.now q.new × (q.new.process ≡ q.old.process) }
    ensures p { IsPass ⟦<F as Family<Posted<V>>>⟧ V.obeys board.now p.new × (p.new.process ≡ p.old.process) }
    ensures r { IsPass ⟦<F as Family<Posted<V>>>⟧ V.obeys board.now r.new × (r.new.process ≡ r.old.process) }
    ensures silent { p.old.told ≡ true → HasMadeNone ⟦<F as Family<Posted<V>>>⟧ board.now p.old p.new }
    ensures heard { IfSome result
        (λ x. HasHeard ⟦<F as Family<Posted<V>>>⟧ board.now q.old q.new r.old r.new item x.0 x.1) }
{
    let Ok(stamp) = board.write(q, item) else {
        return None;
    };
    let first = board.tell(q);
    board.learn(p, first);
    let second = board.tell(p);
    board.learn(r, second);
    let answer = board.read(r);
    Some((stamp, answer))
}

/// q writes, and its one receipt is doubled: p and r each learn one and read. Both reads begin after q's write had
/// ended. Gives the write's stamp and both answers, or none if the tags have ended.
pub fn pass_twice<V: RecordLaw, F: Family<Posted<V>>>(
    board: &Board<V, F>,
    q: &mut Pass<V, F>,
    p: &mut Pass<V, F>,
    r: &mut Pass<V, F>,
    item: V,
) -> Option<(Stamp, Posted<V>, Posted<V>)>
    requires q { IsPass ⟦<F as Family<Posted<V>>>⟧ V.obeys board.now q.old }
    requires p { IsPass ⟦<F as Family<Posted<V>>>⟧ V.obeys board.now p.old }
    requires r { IsPass ⟦<F as Family<Posted<V>>>⟧ V.obeys board.now r.old }
    requires item { IsTrue (V.obeys item) }
    ensures first { IfSome result
        (λ x. HasHeard ⟦<F as Family<Posted<V>>>⟧ board.now q.old q.new p.old p.new item x.0 x.1) }
    ensures second { IfSome result
        (λ x. HasHeard ⟦<F as Family<Posted<V>>>⟧ board.now q.old q.new r.old r.new item x.0 x.2) }
{
    let Ok(stamp) = board.write(q, item) else {
        return None;
    };
    let mut told = board.tell(q);
    let again = board.duplicate(&mut told);
    board.learn(p, told);
    board.learn(r, again);
    let early = board.read(p);
    let late = board.read(r);
    Some((stamp, early, late))
}
