//! Lanes for all passes of a board, and the passes of lanes.
ghost use Rattle.std.specs.Prelude.{◌≡◌, All, IfOk, length, map};
ghost use Rattle.board_live.specs.Ends.{IsGreatest};
ghost use Rattle.board_tasks.specs.LogOrders.{LogsInOrder};
ghost use Rattle.board_tasks.specs.Lanes.{AreLanes};
ghost use Rattle.board_tasks.specs.Left.{AreAtomicLogsWith, AreLogsOfAll, SomeHaveWorked};
ghost use Rattle.board_tasks.specs.Logs.{Obeys};
ghost use Rattle.board_tasks.specs.Told.{AreOfRunBeside};
ghost use Rattle.board_tasks.specs.Worked.{AreAtomicLogs, HaveWorked, logs_of};

use crate::lane::{Entry, Lane};
use board_live::{Board, Pass, Posted, RecordLaw};
use cell_contract::Family;
use family_table::left::EndsWithSome;
use history_core::{Items, Wish};
use std::alloc::{AllocError, Global};

/// A lane for each pass, with the script at its place. A refusal drops the passes.
pub fn make_lanes<V: RecordLaw + Drop, F: Family<Posted<V>>>(
    alloc: Global,
    passes: Vec<Pass<V, F>>,
    scripts: Items<Items<Wish<V>>>,
) -> Result<Vec<Lane<V, F>>, AllocError>
    requires counts { length scripts ≡ length passes.items }
    requires lawful { All (λ s. All (Obeys V.obeys) s) scripts }
    ensures { IfOk result (λ lanes. AreLanes V.obeys passes.items scripts lanes.items) }
{
    let mut passes = passes;
    let mut scripts = scripts.into_vec();
    let mut lanes = Vec::with_capacity(alloc, passes.len())?;
    for _ in 0..passes.len() {
        let Some(pass) = passes.pop() else {
            unreachable!();
        };
        let Some(script) = scripts.pop() else {
            unreachable!();
        };
        match Lane::new(alloc, pass, script.into_vec()) {
            Ok(lane) => lanes.push(lane)?,
            Err((_, refused)) => return Err(refused),
        }
    }
    lanes.reverse();
    Ok(lanes)
}

/// The passes of the lanes.
pub fn into_passes<V: RecordLaw + Drop, F: Family<Posted<V>>>(
    alloc: Global,
    lanes: Vec<Lane<V, F>>,
) -> Result<Vec<Pass<V, F>>, AllocError>
    ensures { IfOk result (λ passes. passes.items ≡ map (λ l. l.pass) lanes.items) }
{
    let mut lanes = lanes;
    let mut passes = Vec::with_capacity(alloc, lanes.len())?;
    for _ in 0..lanes.len() {
        let Some(lane) = lanes.pop() else {
            unreachable!();
        };
        passes.push(lane.into_pass())?;
    }
    passes.reverse();
    Ok(passes)
}

/// The passes of the lanes, and their logs.
fn all_parts<V: RecordLaw + Drop, F: Family<Posted<V>>>(
    alloc: Global,
    lanes: Vec<Lane<V, F>>,
) -> Result<(Vec<Pass<V, F>>, Vec<Vec<Entry<V>>>), AllocError>
    ensures passes { IfOk result (λ r. r.0.items ≡ map (λ l. l.pass) lanes.items) }
    ensures logs { IfOk result (λ r. map (λ v. v.items) r.1.items ≡ logs_of lanes.items) }
{
    let mut lanes = lanes;
    let mut passes = Vec::with_capacity(alloc, lanes.len())?;
    let mut logs = Vec::with_capacity(alloc, lanes.len())?;
    for _ in 0..lanes.len() {
        let Some(lane) = lanes.pop() else {
            unreachable!();
        };
        let (pass, log) = lane.into_parts();
        passes.push(pass)?;
        logs.push(log)?;
    }
    passes.reverse();
    logs.reverse();
    Ok((passes, logs))
}

/// Ends the board of these lanes. Gives the log of each task, and the last record. The entries of the logs tell of
/// calls that are atomic by their intervals, so the logs have one order. A refusal drops the board and the lanes.
pub fn finish_lanes<V: RecordLaw + Drop, F: Family<Posted<V>>>(
    alloc: Global,
    board: Board<V, F>,
    lanes: Vec<Lane<V, F>>,
) -> Result<(Vec<Vec<Entry<V>>>, Posted<V>), AllocError>
    requires { HaveWorked ⟦<F as Family<Posted<V>>>⟧ V.obeys board lanes.items }
    ensures logs { IfOk result (λ r. map (λ v. v.items) r.0.items ≡ logs_of lanes.items) }
    ensures last { IfOk result (λ r. IsGreatest (map (λ l. l.pass) lanes.items) r.1) }
    ensures atomic { IfOk result (λ r. AreAtomicLogs ⟦<F as Family<Posted<V>>>⟧ board lanes.items r.1) }
    ensures ordered { IfOk result (λ r. LogsInOrder board.first.item board.limit (logs_of lanes.items) r.1) }
{
    let (passes, logs) = all_parts(alloc, lanes)?;
    Ok((logs, board.finish(passes)))
}

/// Ends the board of the lanes that came back, at least one. Gives the log of each, and the greatest record that one of
/// them has. The entries of the logs tell of calls that are atomic by their intervals, with some calls of the tasks
/// that were lost, of which each may be cut off in its last. So the logs of all, with an empty one for each task that
/// was lost, are sound by `check_origin_beside`. A refusal drops the board and the lanes.
pub fn finish_left<V: RecordLaw + Drop, F: EndsWithSome<Posted<V>>>(
    alloc: Global,
    board: Board<V, F>,
    lanes: Vec<Lane<V, F>>,
) -> Result<(Vec<Vec<Entry<V>>>, Posted<V>), AllocError>
    requires { SomeHaveWorked ⟦<F as Family<Posted<V>>>⟧ V.obeys board lanes.items }
    ensures logs { IfOk result (λ r. map (λ v. v.items) r.0.items ≡ logs_of lanes.items) }
    ensures last { IfOk result (λ r. IsGreatest (map (λ l. l.pass) lanes.items) r.1) }
    ensures atomic { IfOk result (λ r. AreAtomicLogsWith ⟦<F as Family<Posted<V>>>⟧ board lanes.items) }
    ensures beside { IfOk result (λ r. (lost : _) (logs : _) → AreLogsOfAll board lanes.items lost logs →
        AreOfRunBeside board.first.item lost logs) }
{
    let (passes, logs) = all_parts(alloc, lanes)?;
    let last = board.finish_with(alloc, passes)?;
    Ok((logs, last))
}
