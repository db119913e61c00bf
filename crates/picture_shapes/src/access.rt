//! One access of an operation to a slot, by the steps of its process.

ghost use Rattle.std.specs.Prelude.{◌≡◌, ◌≤◌, ◌<◌, ◌+◌, ◌*◌, ◌++◌, ◌^◌, [], ◌∷◌, OnOk, if◌then◌else◌};
ghost use Rattle.history_core.specs.Schedules.{positions};
ghost use Rattle.picture_shapes.specs.Visits.{access_visits, enters, events_in, kind_by, made_after, visit_of};

use crate::visit::Visit;
use four_slot_core::Turn;
use history_core::{Band, Items, Kind, Op};
use std::alloc::AllocError;

/// The steps of one process, by their positions, and how many of them an operation has.
#[derive(Drop)]
pub struct Steps {
    pub positions: Items<u64>,
    pub events: usize,
}

impl Steps {
    /// The position of an event of an access of operation `k`.
    pub fn at(&self, k: usize, access: usize, event: usize) -> Option<u64>
        ensures { result ≡ events_in self.now.positions self.now.events k (5 * access + event) }
    {
        let first = k.saturating_mul(self.events);
        let number = access.saturating_mul(5).saturating_add(event);
        self.positions
            .as_slice()
            .get(first.saturating_add(number))
            .copied()
    }
}

/// An access of an operation: the number of the operation among those of its process, its own number in the operation,
/// whose step of its cell it is, and the lane.
#[derive(Clone, Copy)]
pub struct Access {
    pub operation: usize,
    pub number: usize,
    pub lane: usize,
    pub turn: Turn,
}

pub fn push_access(
    visits: &mut Vec<Visit>,
    steps: &Steps,
    access: Access,
    slot: Option<u8>,
) -> Result<(), AllocError>
    ensures { OnOk result (visits.new.items ≡ visits.old.items ++ access_visits (events_in steps.now.positions
        steps.now.events) access.operation access.number access.lane access.turn slot) }
{
    let enters = enters(access.turn);
    let starts = steps.at(access.operation, access.number, enters);
    let ends = steps.at(access.operation, access.number, enters + 1);
    push_visit(visits, access.turn, access.lane, slot, starts, ends)
}

fn push_visit(
    visits: &mut Vec<Visit>,
    turn: Turn,
    lane: usize,
    slot: Option<u8>,
    starts: Option<u64>,
    ends: Option<u64>,
) -> Result<(), AllocError>
    ensures { OnOk result (visits.new.items ≡ visits.old.items ++ visit_of turn lane slot starts ends) }
{
    let Some(slot) = slot else {
        return Ok(());
    };
    let Some(starts) = starts else {
        return Ok(());
    };
    visits.push(Visit {
        lane,
        slot,
        kind: kind_by(turn),
        starts,
        ends,
    })?;
    Ok(())
}

/// The event of an access at which it enters its slot.
fn enters(turn: Turn) -> usize
    ensures enters { result ≡ enters turn }
    ensures most { result ≤ 3 }
{
    match turn {
        Turn::Writer => 1,
        Turn::Reader => 3,
    }
}

fn kind_by(turn: Turn) -> Kind
    ensures { result ≡ kind_by turn }
{
    match turn {
        Turn::Writer => Kind::Write,
        Turn::Reader => Kind::Read,
    }
}

pub fn push_if(made: &mut Vec<u64>, mine: bool, position: u64) -> Result<(), AllocError>
    ensures { OnOk result (made.new.items ≡ made.old.items ++ (if mine then position ∷ [] else [])) }
{
    if mine {
        made.push(position)?;
    }
    Ok(())
}

pub fn made_after(who: usize, k: usize, op: &Op<Band>) -> usize
    requires { k < 2 ^ 63 }
    ensures made { result ≡ made_after who k op.now }
    ensures more { result ≤ k + 1 }
{
    if op.who == who { k + 1 } else { k }
}
