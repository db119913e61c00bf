//! A walk from each record back along the edges, by depth-first search, after R. Tarjan, Depth-First Search and Linear
//! Graph Algorithms, 1972.

ghost use Rattle.std.specs.Prelude.{◌≡◌, ◌-◌, ◌<◌, ℕ, [], length, IfNone, IfOk, IfSome, OnOk, slice_get, Some};
ghost use Rattle.history_coherence.specs.declared.walk.Mark.TheVariants.{Placed};
ghost use Rattle.history_coherence.specs.inner.Keys.{ArePrevious, number_at};
ghost use Rattle.history_coherence.specs.inner.Walks.{AreAllPlaced, AreFurther, HasEntered, HasMetOn, HasPassed};
ghost use Rattle.history_coherence.specs.inner.Walks.{HasPlaced, is_new, IsWalking, left_of, turn_along, turn_by};
ghost use Rattle.history_coherence.specs.inner.Walks.{turn_of};

use crate::edge::{Edge, Tables, edge_at, number_at};
use std::alloc::AllocError;

/// How far a walk is at a record.
#[derive(Clone, Copy)]
pub enum Mark {
    New,
    /// It stands on the path.
    Open,
    /// All edges to it come from records that were placed before. This is how many those are.
    Placed(usize),
}

/// A walk in progress.
#[derive(Drop)]
pub struct Walk {
    /// A mark for each record.
    pub marks: Vec<Mark>,
    /// Of each record the place of the operation that is to be looked at next.
    pub cursors: Vec<Option<usize>>,
    /// Open records. To each an edge leads from the next.
    pub path: Vec<usize>,
    /// Placed records, in their order.
    pub placed: Vec<usize>,
}

/// What is to be done at a record.
#[derive(Clone, Copy)]
pub enum Turn {
    /// All edges to it have been looked at.
    Place,
    /// The edge at this place, if there is one, says no more.
    Pass(usize),
    /// The edge comes from this new record.
    Enter(usize),
    /// The edge comes from this record, which stands on the path.
    Meet(usize),
}

/// Places all records, or finds one that stands on the path and from which an edge leads to the last on it.
pub(crate) fn place_all(tables: &Tables, walk: &mut Walk) -> Result<Option<usize>, AllocError>
    requires walking { IsWalking tables.now walk.old }
    requires mates { ArePrevious tables.now.keys.items (length tables.now.keys.items) tables.now.mates.items }
    requires empty { walk.old.path.items ≡ [] }
    ensures walking { OnOk result (IsWalking tables.now walk.new) }
    ensures placed { IfOk result (λ found. IfNone found (AreAllPlaced tables.now walk.new)) }
    ensures met { IfOk result (λ found. IfSome found (HasMetOn tables.now walk.new)) }
{
    for number in 0..walk.marks.len() {
        let found = place_one(tables, walk, number)?;
        if found.is_some() {
            return Ok(found);
        }
    }
    Ok(None)
}

/// Places a record, and those before it.
fn place_one(tables: &Tables, walk: &mut Walk, number: usize) -> Result<Option<usize>, AllocError>
    requires walking { IsWalking tables.now walk.old }
    requires mates { ArePrevious tables.now.keys.items (length tables.now.keys.items) tables.now.mates.items }
    requires empty { walk.old.path.items ≡ [] }
    requires within { number < length walk.old.marks.items }
    ensures walking { OnOk result (IsWalking tables.now walk.new) }
    ensures further { OnOk result (AreFurther walk.old.marks.items walk.new.marks.items) }
    ensures empty { IfOk result (λ found. IfNone found (walk.new.path.items ≡ [])) }
    ensures placed { IfOk result (λ found. IfNone found ((rank : ℕ)
        × (slice_get walk.new.marks.items number ≡ Some (Placed rank)))) }
    ensures met { IfOk result (λ found. IfSome found (HasMetOn tables.now walk.new)) }
{
    if !is_new(walk.marks.as_slice(), number) {
        return Ok(None);
    }
    enter(walk, number)?;
    let found = place_path(tables, walk)?;
    Ok(found)
}

/// Places all on the path.
fn place_path(tables: &Tables, walk: &mut Walk) -> Result<Option<usize>, AllocError>
    requires walking { IsWalking tables.now walk.old }
    requires mates { ArePrevious tables.now.keys.items (length tables.now.keys.items) tables.now.mates.items }
    ensures walking { OnOk result (IsWalking tables.now walk.new) }
    ensures further { OnOk result (AreFurther walk.old.marks.items walk.new.marks.items) }
    ensures empty { IfOk result (λ found. IfNone found (walk.new.path.items ≡ [])) }
    ensures met { IfOk result (λ found. IfSome found (HasMetOn tables.now walk.new)) }
{
    'records: while let Some(number) = top(walk.path.as_slice()) {
        let found = step(tables, walk, number)?;
        if found.is_some() {
            return Ok(found);
        }
    }
    Ok(None)
}

/// One step at the last record on the path.
fn step(tables: &Tables, walk: &mut Walk, number: usize) -> Result<Option<usize>, AllocError>
    requires walking { IsWalking tables.now walk.old }
    requires mates { ArePrevious tables.now.keys.items (length tables.now.keys.items) tables.now.mates.items }
    requires top { slice_get walk.old.path.items (length walk.old.path.items - 1) ≡ Some number }
    ensures walking { OnOk result (IsWalking tables.now walk.new) }
    ensures further { OnOk result (AreFurther walk.old.marks.items walk.new.marks.items) }
    ensures less { IfOk result (λ found. IfNone found (left_of walk.new < left_of walk.old)) }
    ensures met { IfOk result (λ found. IfSome found (HasMetOn tables.now walk.new)) }
{
    let cursor = number_at(walk.cursors.as_slice(), number);
    match next_turn(tables, walk.marks.as_slice(), cursor) {
        Turn::Place => {
            place(walk, number)?;
            Ok(None)
        }
        Turn::Pass(later) => {
            pass(tables, walk, number, later);
            Ok(None)
        }
        Turn::Enter(from) => {
            enter(walk, from)?;
            Ok(None)
        }
        Turn::Meet(from) => Ok(Some(from)),
    }
}

fn top(path: &[usize]) -> Option<usize>
    ensures { result ≡ slice_get path.now (length path.now - 1) }
{
    path.last().copied()
}

fn is_new(marks: &[Mark], number: usize) -> bool
    ensures { result ≡ is_new (slice_get marks.now number) }
{
    match mark_at(marks, number) {
        Some(Mark::New) => true,
        Some(Mark::Open) | Some(Mark::Placed(_)) | None => false,
    }
}

pub(crate) fn mark_at(marks: &[Mark], number: usize) -> Option<Mark>
    ensures { result ≡ slice_get marks.now number }
{
    marks.get(number).copied()
}

/// What is to be done where the cursor stands so.
fn next_turn(tables: &Tables, marks: &[Mark], cursor: Option<usize>) -> Turn
    ensures { result ≡ turn_of tables.now.keys.items tables.now.earlier.items marks.now cursor }
{
    match cursor {
        None => Turn::Place,
        Some(later) => turn_along(marks, later, edge_at(tables, later)),
    }
}

fn turn_along(marks: &[Mark], later: usize, edge: Option<Edge>) -> Turn
    ensures { result ≡ turn_along marks.now later edge }
{
    let Some(edge) = edge else {
        return Turn::Pass(later);
    };
    if edge.from == edge.to {
        return Turn::Pass(later);
    }
    turn_by(later, edge.from, mark_at(marks, edge.from))
}

fn turn_by(later: usize, from: usize, mark: Option<Mark>) -> Turn
    ensures { result ≡ turn_by later from mark }
{
    match mark {
        None => Turn::Pass(later),
        Some(Mark::New) => Turn::Enter(from),
        Some(Mark::Open) => Turn::Meet(from),
        Some(Mark::Placed(_)) => Turn::Pass(later),
    }
}

fn enter(walk: &mut Walk, number: usize) -> Result<(), AllocError>
    requires { number < length walk.old.marks.items }
    ensures { OnOk result (HasEntered walk.old walk.new number) }
{
    walk.path.push(number)?;
    walk.marks[number] = Mark::Open;
    Ok(())
}

fn place(walk: &mut Walk, number: usize) -> Result<(), AllocError>
    requires { number < length walk.old.marks.items }
    ensures { OnOk result (HasPlaced walk.old walk.new number) }
{
    let rank = walk.placed.len();
    walk.placed.push(number)?;
    walk.path.pop();
    walk.marks[number] = Mark::Placed(rank);
    Ok(())
}

fn pass(tables: &Tables, walk: &mut Walk, number: usize, later: usize)
    requires { number < length walk.old.cursors.items }
    ensures { HasPassed walk.old walk.new number (number_at tables.now.mates.items later) }
{
    walk.cursors[number] = number_at(tables.mates.as_slice(), later);
}
