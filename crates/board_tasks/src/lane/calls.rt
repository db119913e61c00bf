//! Making a lane, and running it.
ghost use Rattle.std.specs.Prelude.{◌≡◌, ◌<◌, ℕ, ◌+◌, ◌++◌, ◌∷◌, [], IfOk, IfErr, All, length};
ghost use Rattle.board_live.specs.Passes.{IsPass};
ghost use Rattle.board_tasks.specs.Lanes.{IsLane};
ghost use Rattle.board_tasks.specs.Logs.{Obeys};
ghost use Rattle.board_tasks.specs.Tasks.{IsEntry, Permitted, Ran, entry};

use super::{Entry, Lane, Reply};
use crate::gate::Gate;
use board_live::{Board, Pass, Posted, RecordLaw};
use cell_contract::Family;
use history_core::Wish;
use std::alloc::{AllocError, Global};

impl<V: RecordLaw, F: Family<Posted<V>>> Lane<V, F> {
    /// A lane that is to make these calls. Its log has room for all of them. A refusal gives the pass back.
    pub fn new(
        alloc: Global,
        pass: Pass<V, F>,
        script: Vec<Wish<V>>,
    ) -> Result<Lane<V, F>, (Pass<V, F>, AllocError)>
        requires { All (Obeys V.obeys) script.items }
        ensures lane { IfOk result (λ l. IsLane V.obeys l) }
        ensures made { IfOk result (λ l. (l.pass ≡ pass) × (l.script.items ≡ script.items) × (l.log.items ≡ [])) }
        ensures refused { IfErr result (λ e. e.0 ≡ pass) }
    {
        match Vec::with_capacity(alloc, script.len()) {
            Ok(log) => Ok(Lane { pass, script, log }),
            Err(e) => Err((pass, e)),
        }
    }

    /// The calls that were made, with their replies.
    pub fn log(&self) -> &[Entry<V>]
        ensures { result.now ≡ self.now.log.items }
    {
        self.log.as_slice()
    }

    /// The pass of the lane.
    pub fn into_pass(self) -> Pass<V, F>
        ensures { result ≡ self.pass }
    {
        self.pass
    }

    /// The pass of the lane, and its log.
    pub(crate) fn into_parts(self) -> (Pass<V, F>, Vec<Entry<V>>)
        ensures { (result.0 ≡ self.pass) × (result.1 ≡ self.log) }
    {
        let Lane {
            pass,
            script: _,
            log,
        } = self;
        (pass, log)
    }

    /// Makes the next call of the script, for which the permit is, notes its reply, and gives
    /// the permit back to the gate.
    fn call<G: Gate>(&mut self, board: &Board<V, F>, gate: &G, task: usize, permit: G::Permit)
        requires pass { IsPass ⟦<F as Family<Posted<V>>>⟧ V.obeys board.now self.old.pass }
        requires lane { IsLane V.obeys self.old }
        requires more { length self.old.log.items < length self.old.script.items }
        requires permit { G.is_for gate.now task (length self.old.log.items + 1) permit }
        ensures pass { IsPass ⟦<F as Family<Posted<V>>>⟧ V.obeys board.now self.new.pass }
        ensures lane { IsLane V.obeys self.new }
        ensures script { self.new.script ≡ self.old.script }
        ensures entry { (e : _) × (self.new.log.items ≡ self.old.log.items ++ e ∷ [])
            × IsEntry ⟦<F as Family<Posted<V>>>⟧ V.obeys board.now self.old.pass e self.new.pass }
    {
        let wish = self.script[self.log.len()];
        let reply = answer(board, &mut self.pass, wish);
        let entry = Entry { wish, reply };
        self.log.push_reserved(entry);
        gate.after::<V, F>(task, self.log.len(), &entry, permit);
    }
}

/// Makes one call.
fn answer<V: RecordLaw, F: Family<Posted<V>>>(
    board: &Board<V, F>,
    pass: &mut Pass<V, F>,
    wish: Wish<V>,
) -> Reply<V>
    requires pass { IsPass ⟦<F as Family<Posted<V>>>⟧ V.obeys board.now pass.old }
    requires lawful { Obeys V.obeys wish }
    ensures pass { IsPass ⟦<F as Family<Posted<V>>>⟧ V.obeys board.now pass.new }
    ensures entry { IsEntry ⟦<F as Family<Posted<V>>>⟧ V.obeys board.now pass.old (entry wish result) pass.new }
{
    match wish {
        Wish::Read => Reply::Seen(board.read(pass)),
        Wish::Write(item) => match board.write(pass, item) {
            Ok(stamp) => Reply::Written(stamp),
            Err(ended) => Reply::Ended(ended.seen),
        },
    }
}

/// Makes the calls that the script has left, until the gate stops them.
pub(crate) fn run_lane<V: RecordLaw, F: Family<Posted<V>>, G: Gate>(
    board: &Board<V, F>,
    gate: &G,
    task: usize,
    lane: &mut Lane<V, F>,
)
    requires pass { IsPass ⟦<F as Family<Posted<V>>>⟧ V.obeys board.now lane.old.pass }
    requires lane { IsLane V.obeys lane.old }
    ensures { Ran ⟦<F as Family<Posted<V>>>⟧ V.obeys (Permitted G.is_for gate.now)
        (G.may_stop gate.now) board.now task lane.old lane.new }
{
    for call in lane.log.len()..lane.script.len() {
        let Some(permit) = gate.before(task, call + 1) else {
            return;
        };
        lane.call(board, gate, task, permit);
    }
}
