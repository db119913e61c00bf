//! The moments of a history, and its operations by the ranks of theirs.

ghost use Rattle.std.specs.Prelude.{◌≡◌, ◌++◌, ◌∷◌, [], ℕ, map, option_map, IfOk, OnOk};
ghost use Rattle.std.specs.List.{Contains};
ghost use Rattle.std.specs.List.Sorted.{IsStrictlyIncreasing};
ghost use Rattle.picture_answers.specs.Moments.{all_moments, AreMoments, end_moments, op_moments};
ghost use Rattle.picture_answers.specs.Moments.{rank_in, ranked_history, ranked_op};

use history_core::{Band, History, Items, Op};
use std::alloc::{AllocError, Global};

/// The moments at which operations begin or end, rising, each once.
pub(crate) fn moments_of(alloc: Global, ops: &[Op<Band>]) -> Result<Vec<u64>, AllocError>
    ensures { IfOk result (λ moments. AreMoments ops.now moments.items) }
{
    let mut moments = all_moments(alloc, ops)?;
    put_in_order(&mut moments);
    Ok(moments)
}

fn all_moments(alloc: Global, ops: &[Op<Band>]) -> Result<Vec<u64>, AllocError>
    ensures { IfOk result (λ moments. moments.items ≡ all_moments ops.now) }
{
    let mut moments = Vec::new(alloc);
    for op in ops {
        push_moments(&mut moments, op)?;
    }
    Ok(moments)
}

#[tactic(auto, using(std::proofs::Common::append_assoc))]
fn push_moments(moments: &mut Vec<u64>, op: &Op<Band>) -> Result<(), AllocError>
    ensures { OnOk result (moments.new.items ≡ moments.old.items ++ op_moments op.now) }
{
    moments.push(op.starts)?;
    push_end(moments, op.ends)
}

fn push_end(moments: &mut Vec<u64>, end: Option<u64>) -> Result<(), AllocError>
    ensures { OnOk result (moments.new.items ≡ moments.old.items ++ end_moments end) }
{
    if let Some(end) = end {
        moments.push(end)?;
    }
    Ok(())
}

/// Each moment once, rising.
fn put_in_order(moments: &mut Vec<u64>)
    ensures rise { IsStrictlyIncreasing moments.new.items }
    ensures all { (moment : ℕ) → Contains moments.old.items moment → Contains moments.new.items moment }
    ensures only { (moment : ℕ) → Contains moments.new.items moment → Contains moments.old.items moment }
{
    moments.sort_unstable();
    moments.dedup();
}

/// The same history, each moment of which is its rank among these.
pub(crate) fn ranked_history(
    alloc: Global,
    moments: &[u64],
    history: History<Band>,
) -> Result<History<Band>, AllocError>
    requires { IsStrictlyIncreasing moments.now }
    ensures { IfOk result (λ ranked. ranked ≡ ranked_history moments.now history) }
{
    let History {
        opening,
        terms,
        ops,
    } = history;
    let ranked = ranked_ops(alloc, moments, ops.as_slice())?;
    Ok(History {
        opening,
        terms,
        ops: Items::new(ranked),
    })
}

fn ranked_ops(alloc: Global, moments: &[u64], ops: &[Op<Band>]) -> Result<Vec<Op<Band>>, AllocError>
    requires { IsStrictlyIncreasing moments.now }
    ensures { IfOk result (λ ranked. ranked.items ≡ map (ranked_op moments.now) ops.now) }
{
    let mut ranked = Vec::new(alloc);
    for op in ops {
        push_ranked(&mut ranked, moments, op)?;
    }
    Ok(ranked)
}

fn push_ranked(ranked: &mut Vec<Op<Band>>, moments: &[u64], op: &Op<Band>) -> Result<(), AllocError>
    requires { IsStrictlyIncreasing moments.now }
    ensures { OnOk result (ranked.new.items ≡ ranked.old.items ++ ranked_op moments.now op.now ∷ []) }
{
    ranked.push(ranked_op(moments, op))?;
    Ok(())
}

fn ranked_op(moments: &[u64], op: &Op<Band>) -> Op<Band>
    requires { IsStrictlyIncreasing moments.now }
    ensures { result ≡ ranked_op moments.now op.now }
{
    Op {
        who: op.who,
        kind: op.kind,
        starts: rank_of(moments, op.starts),
        ends: ranked_end(moments, op.ends),
        item: op.item,
    }
}

fn ranked_end(moments: &[u64], end: Option<u64>) -> Option<u64>
    requires { IsStrictlyIncreasing moments.now }
    ensures { result ≡ option_map (rank_in moments.now) end }
{
    match end {
        Some(end) => Some(rank_of(moments, end)),
        None => None,
    }
}

/// How many of these moments come before one.
fn rank_of(moments: &[u64], moment: u64) -> u64
    requires { IsStrictlyIncreasing moments.now }
    ensures { result ≡ rank_in moments.now moment }
{
    match moments.binary_search(&moment) {
        Ok(rank) => rank as u64,
        Err(rank) => rank as u64,
    }
}
