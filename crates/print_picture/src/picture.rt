//! The text of a picture.

ghost use Rattle.std.specs.Prelude.{◌≡◌, [], IfOk};
ghost use Rattle.std.specs.List.{list_any};
ghost use Rattle.history_core.specs.declared.band.Band.{Band};
ghost use Rattle.history_core.specs.declared.history.Op.{Op};
ghost use Rattle.print_picture.specs.Picture.{high_of, is_refused, picture_of, room_of, shown_terms, told_terms};

use crate::finding::{push_arrows, push_end, push_finding};
use crate::frame::push_frame;
use crate::lanes::lanes_of;
use crate::marks::{push_ops, push_order, push_visits};
use crate::scene::{Finding, Scene};
use history_core::{Band, Kind, Op, Reason, Term};
use picture_shapes::{Lanes, Scale, y_of};
use std::alloc::{AllocError, Global};

/// The greatest number of operations for which room is made before they are drawn.
const MOST_ROOM: usize = 10_000;

/// The picture of a scene as SVG text, which a browser shows with no script and no font of its own.
#[tactic(auto, unfolding(crate::specs::Picture::picture_of), using(std::proofs::Common::append_assoc))]
pub fn picture_text(alloc: Global, scene: &Scene) -> Result<Vec<u8>, AllocError>
    ensures { IfOk result (λ v. v.items ≡ picture_of scene.now) }
{
    let ops = scene.history.ops.as_slice();
    let lines = scene.lines.as_slice();
    let order = scene.order.as_slice();
    let points = scene.points.as_slice();
    let terms = shown_terms(scene.lanes, ops, scene.history.terms.as_slice());
    let scale = Scale::of(ops, lines, room_of(scene.finding));
    let count = lanes_of(scene.lanes, ops);
    let mut text = with_room(alloc, ops.len())?;
    push_frame(
        &mut text,
        scene.lanes,
        scene.moments.as_slice(),
        &scale,
        count,
        high_of(count),
        ops,
        terms,
    )?;
    push_arrows(&mut text, &scale, ops, scene.finding)?;
    push_ops(&mut text, &scale, scene.stamps.as_slice(), lines, ops)?;
    push_visits(&mut text, scene.lanes, &scale, scene.visits.as_slice())?;
    push_finding(&mut text, &scale, lines, ops, order, points, scene.finding)?;
    push_order(&mut text, &scale, ops, order, points)?;
    push_end(&mut text, lines, scene.finding)?;
    Ok(text)
}

/// No text yet, with room for the shapes of most scenes of this size.
fn with_room(alloc: Global, operations: usize) -> Result<Vec<u8>, AllocError>
    ensures { IfOk result (λ v. v.items ≡ []) }
{
    Vec::with_capacity(alloc, 2048 + 400 * operations.min(MOST_ROOM))
}

fn shown_terms<'a>(lanes: Lanes, ops: &[Op<Band>], terms: &'a [Term]) -> &'a [Term]
    ensures { result.now ≡ shown_terms lanes ops.now terms.now }
{
    match lanes {
        Lanes::Actors => told_terms(ops, terms),
        Lanes::Cell => &[],
        Lanes::Board { .. } => terms,
    }
}

/// A single term says nothing where no write was refused.
fn told_terms<'a>(ops: &[Op<Band>], terms: &'a [Term]) -> &'a [Term]
    ensures { result.now ≡ told_terms ops.now terms.now }
{
    if terms.len() <= 1 && !has_refused(ops) {
        &[]
    } else {
        terms
    }
}

fn has_refused(ops: &[Op<Band>]) -> bool
    ensures { result ≡ list_any (λ (o : Op Band). is_refused o.kind) ops.now }
{
    ops.iter().any(|op| is_refused(op.kind))
}

fn is_refused(kind: Kind) -> bool
    ensures { result ≡ is_refused kind }
{
    kind == Kind::Refused
}

/// The least width, with room for the line at the top.
fn room_of(finding: Finding) -> u16
    ensures { result ≡ room_of finding }
{
    match finding {
        Finding::NoOrder(Reason::Crossed { .. }) => 1024,
        _ => 800,
    }
}

fn high_of(lanes: usize) -> u64
    ensures { result ≡ high_of lanes }
{
    y_of(lanes) + 24
}
