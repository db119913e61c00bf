//! Boards and tasks over both families.
use crate::gates::wrong_gate;
use crate::lanes::{passes_know, write_to_limit};
use crate::meeting::all_met;
use crate::orders::{two_meet_the_limit, two_write_and_read, wears_out};
use crate::teams::lost::{late_receipt, lost_pass};
use crate::teams::outside::told_from_outside;
use crate::teams::rows::wrong_board;
use board_live::{BoardError, Posted};
use cell_contract::{SharedFamily, SoFar};
use family_four_slot::FourSlotFamily;
use family_triple::TripleFamily;
use history_core::Band;
use std::alloc::{AllocError, Global};
use std::test::Fail;
use std::thread::Threads;

/// What boards over this family don't keep that are called in one thread.
fn wrong_alone<F: SoFar<Posted<Band>>>(alloc: Global) -> Result<Option<&'static str>, BoardError> {
    if !late_receipt::<F>(alloc)? {
        return Ok(Some("a late receipt of a lost pass"));
    }
    if !lost_pass::<F>(alloc)? {
        return Ok(Some("the record of a lost pass"));
    }
    wrong_board::<F>(alloc)
}

/// What tasks over this family don't keep.
fn wrong_tasks<R: Threads + Sync, F: SharedFamily<Posted<Band>>>(
    rt: &R,
    alloc: Global,
) -> Result<Option<&'static str>, AllocError>
where
    F::Seat: Send,
    F::Receipt: Send,
{
    if !write_to_limit::<R, F>(rt, alloc)? {
        return Ok(Some("one task writes up to the limit and beyond, the other reads"));
    }
    if !passes_know::<R, F>(rt, alloc)? {
        return Ok(Some("the passes of lanes that ran"));
    }
    if !wears_out::<R, F>(rt, alloc)? {
        return Ok(Some("tags that ended long ago"));
    }
    if !two_write_and_read::<R, F>(rt, alloc)? {
        return Ok(Some("two tasks write and read"));
    }
    if !two_meet_the_limit::<R, F>(rt, alloc)? {
        return Ok(Some("two tasks meet the limit"));
    }
    if !told_from_outside::<R, F>(rt, alloc)? {
        return Ok(Some("a record from outside any lane"));
    }
    if !all_met::<R, F>(rt, alloc)? {
        return Ok(Some("all tasks meet"));
    }
    Ok(None)
}

/// What boards and tasks over this family don't keep.
fn wrong<R: Threads + Sync, F: SharedFamily<Posted<Band>> + SoFar<Posted<Band>>>(
    rt: &R,
    alloc: Global,
) -> Result<Option<&'static str>, AllocError>
where
    F::Seat: Send,
    F::Receipt: Send,
{
    if let Some(shown) = wrong_tasks::<R, F>(rt, alloc)? {
        return Ok(Some(shown));
    }
    if let Some(shown) = wrong_gate::<R, F>(rt, alloc)? {
        return Ok(Some(shown));
    }
    wrong_alone::<F>(alloc).map_err(|_| AllocError)
}

#[test]
fn all_on_four_slots(rt: HostRuntime) -> Result<(), Fail> {
    assert_eq!(rt;
        wrong::<_, FourSlotFamily<Posted<Band>>>(&rt, rt.alloc())?,
        None
    );
    Ok(())
}

#[test]
fn all_on_triple_buffers(rt: HostRuntime) -> Result<(), Fail> {
    assert_eq!(rt;
        wrong::<_, TripleFamily<Posted<Band>>>(&rt, rt.alloc())?,
        None
    );
    Ok(())
}
