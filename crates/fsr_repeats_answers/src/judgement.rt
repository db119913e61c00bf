//! What is known of a log whose records repeat.
ghost use Rattle.std.specs.Prelude.{IfOk, None};
ghost use Rattle.fsr_repeats_answers.specs.Judgements.{IsJudgement, HasLawfulOrder};
ghost use Rattle.object_sweep.specs.Rests.{RunForwards};
ghost use Rattle.object_sweep.specs.Verdicts.{IsSweepVerdict};

use crate::evidence::{Evidence, OPENING, evidence_at};
use object_core::{Object, Operation};
use object_registers::laws::limit_only_forbids;
use object_registers::{Exchange, Exchanging, LimitedExchanging};
use object_sweep::{SweepError, Verdict, sweep};
use std::alloc::{AllocError, Global};

/// What is known of a log.
#[derive(Debug, Drop)]
pub enum Judgement {
    /// It has a lawful order.
    Lawful,
    /// It has none, with a limit or without: it is lost at the end of the operation at this place, and this shows it.
    Lost { place: usize, evidence: Evidence },
    /// With this limit it has none, and is lost at the end of the operation at this place. Without it, it has one.
    Limited { place: usize, limit: u64 },
    /// At the end of the operation at this place there are more configurations than the budget.
    TooMany { place: usize },
}

/// Whether the operations have a lawful order, or what shows that they have none. A limit only forbids orders, so it is
/// asked for last.
pub(crate) fn judge(
    alloc: Global,
    budget: usize,
    limit: Option<u64>,
    ops: &[Operation<Exchange>],
) -> Result<Judgement, AllocError>
    requires { RunForwards ops.now }
    ensures { IfOk result (IsJudgement limit ops.now budget) }
{
    let opening = Exchanging { held: OPENING };
    limit_only_forbids();
    match verdict_from(alloc, budget, opening, ops)? {
        Verdict::Lawful => judge_limit(alloc, budget, limit, ops),
        Verdict::Unlawful { place } => {
            let evidence = evidence_at(alloc, ops, place)?;
            Ok(Judgement::Lost { place, evidence })
        }
        Verdict::TooMany { place } => Ok(Judgement::TooMany { place }),
    }
}

/// The same of operations that have a lawful order without a limit.
fn judge_limit(
    alloc: Global,
    budget: usize,
    limit: Option<u64>,
    ops: &[Operation<Exchange>],
) -> Result<Judgement, AllocError>
    requires forwards { RunForwards ops.now }
    requires lawful { HasLawfulOrder None ops.now }
    ensures { IfOk result (IsJudgement limit ops.now budget) }
{
    let Some(limit) = limit else {
        return Ok(Judgement::Lawful);
    };
    let opening = LimitedExchanging {
        held: OPENING,
        due: limit,
    };
    match verdict_from(alloc, budget, opening, ops)? {
        Verdict::Lawful => Ok(Judgement::Lawful),
        Verdict::Unlawful { place } => Ok(Judgement::Limited { place, limit }),
        Verdict::TooMany { place } => Ok(Judgement::TooMany { place }),
    }
}

/// The verdict of the sweep.
fn verdict_from<O: Object>(
    alloc: Global,
    budget: usize,
    opening: O,
    ops: &[Operation<O::What>],
) -> Result<Verdict, AllocError>
    requires { RunForwards ops.now }
    ensures { IfOk result (IsSweepVerdict O.after opening ops.now budget) }
{
    match sweep(alloc, opening, ops, budget) {
        Ok(verdict) => Ok(verdict),
        Err(SweepError::NoMemory) => Err(AllocError),
        Err(SweepError::Backwards { place: _ }) => unreachable!(),
    }
}
