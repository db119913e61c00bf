//! The order of a report: the places of the listed writes and of the finished reads, woven by the numbers of the
//! answers.

ghost use Rattle.std.specs.Prelude.{◌≡◌, ◌<◌, ◌++◌, length, nat_eq, IfOk, IsTrue, OnOk, ◌↔◌};
ghost use Rattle.four_slot_core.specs.Play.{actor};
ghost use Rattle.four_slot_play.specs.inner.Parts.{noted};
ghost use Rattle.four_slot_play.specs.inner.Weaves.{SidesInTurn, IsPlacesOf, IsWeave, NumbersBelow, NumbersRise};

use super::run::Numbered;
use super::steps::Started;
use four_slot_core::Turn;
use std::alloc::{AllocError, Global};

fn is_by(turn: Turn, side: Turn) -> bool
    ensures { result ≡ nat_eq (actor turn) (actor side) }
{
    turn == side
}

/// Adds an item to a list where it is to stand there.
fn note<T: Copy>(list: &mut Vec<T>, here: bool, item: T) -> Result<(), AllocError>
    ensures { OnOk result (list.new.items ≡ list.old.items ++ noted here item) }
{
    if here {
        list.push(item)?;
    }
    Ok(())
}

/// The places of the first operations of a side, so many of them.
pub(super) fn places(
    alloc: Global,
    parts: &[Started],
    side: Turn,
    count: usize,
) -> Result<Vec<usize>, AllocError>
    requires { SidesInTurn parts.now }
    ensures { IfOk result (λ places. IsPlacesOf side count parts.now places.items) }
{
    let mut places = Vec::new(alloc);
    for (place, part) in parts.iter().enumerate() {
        note(&mut places, is_among(part, side, count), place)?;
    }
    Ok(places)
}

fn is_among(part: &Started, side: Turn, count: usize) -> bool
    ensures { IsTrue result ↔ ((actor part.now.turn ≡ actor side) × (part.now.number < count)) }
{
    is_by(part.turn, side) && part.number < count
}

/// Puts each read after the writes whose numbers are not above its own; write k has the number k + 1.
pub(super) fn weave<R: Copy>(
    alloc: Global,
    writes: &[usize],
    reads: &[usize],
    answers: &[Numbered<R>],
) -> Result<Vec<usize>, AllocError>
    requires same { length reads.now ≡ length answers.now }
    requires rising { NumbersRise answers.now }
    requires below { NumbersBelow (length writes.now) answers.now }
    ensures { IfOk result
        (λ order. IsWeave writes.now reads.now answers.now (length writes.now) (length reads.now) order.items) }
{
    let mut order = Vec::new(alloc);
    let mut next = 0;
    for (number, read) in reads.iter().enumerate() {
        let upto = answers[number].number;
        order.extend_from_slice(&writes[next..upto])?;
        order.push(*read)?;
        next = upto;
    }
    order.extend_from_slice(&writes[next..])?;
    Ok(order)
}
