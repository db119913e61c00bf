//! A small log that has no lawful order, as a document of kind `log`.
ghost use Rattle.std.specs.Prelude.{◌≡◌, ◌++◌, ◌==◌, ℕ, IfOk, OnOk, codes, length, map};
ghost use Rattle.std.specs.List.{flat_map, position};
ghost use Rattle.history_core.specs.declared.history.Op.{Op};
ghost use Rattle.small_log.specs.Small.{band_text, begin_text, end_text, has_actors, kind_text, small_document};
ghost use Rattle.reason_sentences.specs.Numbers.{number_text};
ghost use Rattle.text_lines.specs.Places.{line_at};
ghost use Rattle.small_log.specs.Small.{lines_of, lines_text, named_of, next_text, one_line, one_named};
ghost use Rattle.small_log.specs.Small.{one_or_none, op_text, ops_text, outcome_text, record_text};
ghost use Rattle.small_log.specs.Small.{small_lines, small_ops, small_text, task_of};

use crate::told::told_ops;
use history_core::{Kind, LogAnswer, Op, Reason, Thinned};
use reason_sentences::{in_kept, is_named, push_u64, push_words, shown_of};
use std::alloc::{AllocError, Global};
use text_lines::line_of;

/// The small log of an unlawful one, and of a lawful one nothing.
pub fn small_text(
    alloc: Global,
    thinned: &Thinned,
    found: &LogAnswer,
) -> Result<Vec<u8>, AllocError>
    ensures { IfOk result (λ text. text.items ≡ small_text thinned.now found.now) }
{
    match found {
        LogAnswer::Lawful { .. } => Ok(Vec::new(alloc)),
        LogAnswer::Unlawful { reason } => {
            let lines = small_lines(alloc, thinned, *reason)?;
            let ops = small_ops(alloc, thinned, *reason)?;
            small_document(alloc, thinned.limit(), lines.as_slice(), ops.as_slice())
        }
    }
}

/// The operations that are shown of a reason, with the writes of their records.
fn small_ops(alloc: Global, thinned: &Thinned, reason: Reason) -> Result<Vec<Op<usize>>, AllocError>
    ensures { IfOk result (λ ops. ops.items ≡ small_ops thinned.now reason) }
{
    let ops = thinned.history.ops.as_slice();
    let shown = shown_of(alloc, ops, in_kept(thinned.places.as_slice(), reason))?;
    named_of(alloc, ops, shown.as_slice())
}

fn named_of(alloc: Global, ops: &[Op<usize>], named: &[usize]) -> Result<Vec<Op<usize>>, AllocError>
    ensures { IfOk result (λ found. found.items ≡ named_of ops.now named.now (length ops.now)) }
{
    let mut found = Vec::new(alloc);
    for place in 0..ops.len() {
        push_named(&mut found, ops, named, place)?;
    }
    Ok(found)
}

fn push_named(
    found: &mut Vec<Op<usize>>,
    ops: &[Op<usize>],
    named: &[usize],
    place: usize,
) -> Result<(), AllocError>
    ensures { OnOk result (found.new.items ≡ found.old.items ++ one_named ops.now named.now place) }
{
    if is_named(ops, named, place) {
        push_one(found, ops.get(place).copied())?;
    }
    Ok(())
}

pub(crate) fn push_one(found: &mut Vec<Op<usize>>, op: Option<Op<usize>>) -> Result<(), AllocError>
    ensures { OnOk result (found.new.items ≡ found.old.items ++ one_or_none op) }
{
    if let Some(op) = op {
        found.push(op)?;
    }
    Ok(())
}

/// The lines on which these stand.
fn small_lines(alloc: Global, thinned: &Thinned, reason: Reason) -> Result<Vec<usize>, AllocError>
    ensures { IfOk result (λ lines. lines.items ≡ small_lines thinned.now reason) }
{
    let ops = thinned.history.ops.as_slice();
    let places = thinned.places.as_slice();
    let shown = shown_of(alloc, ops, in_kept(places, reason))?;
    lines_of(alloc, ops, shown.as_slice(), places)
}

fn lines_of(
    alloc: Global,
    ops: &[Op<usize>],
    named: &[usize],
    places: &[usize],
) -> Result<Vec<usize>, AllocError>
    ensures { IfOk result (λ lines. lines.items ≡ lines_of ops.now named.now places.now (length ops.now)) }
{
    let mut lines = Vec::new(alloc);
    for place in 0..ops.len() {
        push_line(&mut lines, ops, named, places, place)?;
    }
    Ok(lines)
}

fn push_line(
    lines: &mut Vec<usize>,
    ops: &[Op<usize>],
    named: &[usize],
    places: &[usize],
    place: usize,
) -> Result<(), AllocError>
    ensures { OnOk result (lines.new.items ≡ lines.old.items ++ one_line ops.now named.now places.now place) }
{
    if is_named(ops, named, place) {
        push_line_of(lines, places.get(place).copied())?;
    }
    Ok(())
}

fn push_line_of(lines: &mut Vec<usize>, place: Option<usize>) -> Result<(), AllocError>
    ensures { OnOk result (lines.new.items ≡ lines.old.items ++ map line_at (one_or_none place)) }
{
    if let Some(place) = place {
        lines.push(line_of(place)?)?;
    }
    Ok(())
}

#[tactic(auto, using(std::proofs::Common::append_assoc))]
fn small_document(
    alloc: Global,
    limit: u64,
    lines: &[usize],
    ops: &[Op<usize>],
) -> Result<Vec<u8>, AllocError>
    ensures { IfOk result (λ text. text.items ≡ small_document limit lines.now ops.now) }
{
    let mut text = Vec::new(alloc);
    push_u64(&mut text, HEAD, limit)?;
    push_words(&mut text, ",\"lines\":[")?;
    push_lines(&mut text, lines)?;
    push_words(&mut text, "],\"ops\":[\n")?;
    let told = told_ops(alloc, lines, ops)?;
    push_ops(&mut text, told.as_slice())?;
    push_words(&mut text, "]}\n")?;
    Ok(text)
}

/// What stands before the limit.
const HEAD: &str = "{\"kind\":\"log\",\"opening\":[0,0,0],\"limit\":";

#[tactic(auto, using(std::proofs::Common::append_assoc))]
fn push_lines(text: &mut Vec<u8>, lines: &[usize]) -> Result<(), AllocError>
    ensures { OnOk result (text.new.items ≡ text.old.items ++ lines_text lines.now) }
{
    match lines.split_first() {
        Some((first, rest)) => {
            push_u64(text, "", *first as u64)?;
            push_more_lines(text, rest)
        }
        None => Ok(()),
    }
}

fn push_more_lines(text: &mut Vec<u8>, lines: &[usize]) -> Result<(), AllocError>
    ensures { OnOk result (text.new.items ≡ text.old.items ++ flat_map (number_text (codes ",")) lines.now) }
{
    for line in lines {
        push_u64(text, ",", *line as u64)?;
    }
    Ok(())
}

fn push_ops(text: &mut Vec<u8>, ops: &[Op<usize>]) -> Result<(), AllocError>
    ensures { OnOk result (text.new.items ≡ text.old.items ++ ops_text ops.now ops.now) }
{
    match ops.split_first() {
        Some((first, rest)) => {
            push_op(text, ops, *first)?;
            push_rest(text, ops, rest)
        }
        None => Ok(()),
    }
}

fn push_rest(text: &mut Vec<u8>, ops: &[Op<usize>], rest: &[Op<usize>]) -> Result<(), AllocError>
    ensures { OnOk result (text.new.items ≡ text.old.items ++ flat_map (next_text ops.now) rest.now) }
{
    for op in rest {
        push_next(text, ops, *op)?;
    }
    Ok(())
}

#[tactic(auto, using(std::proofs::Common::append_assoc))]
fn push_next(text: &mut Vec<u8>, ops: &[Op<usize>], op: Op<usize>) -> Result<(), AllocError>
    ensures { OnOk result (text.new.items ≡ text.old.items ++ next_text ops.now op) }
{
    push_words(text, ",\n")?;
    push_op(text, ops, op)
}

fn push_op(text: &mut Vec<u8>, ops: &[Op<usize>], op: Op<usize>) -> Result<(), AllocError>
    ensures { OnOk result (text.new.items ≡ text.old.items ++ op_text ops.now op) }
{
    push_begin(text, ops, op)?;
    push_outcome(text, op)
}

/// Who did what, and from when on.
#[tactic(auto, using(std::proofs::Common::append_assoc))]
fn push_begin(text: &mut Vec<u8>, ops: &[Op<usize>], op: Op<usize>) -> Result<(), AllocError>
    ensures { OnOk result (text.new.items ≡ text.old.items ++ begin_text ops.now op) }
{
    push_u64(text, " {\"who\":", task_of(ops, op.who) as u64)?;
    push_words(text, ",\"kind\":\"")?;
    push_kind(text, op.kind)?;
    push_u64(text, "\",\"begin\":", op.starts)
}

/// Until when, and with which record.
#[tactic(auto, using(std::proofs::Common::append_assoc))]
fn push_outcome(text: &mut Vec<u8>, op: Op<usize>) -> Result<(), AllocError>
    ensures { OnOk result (text.new.items ≡ text.old.items ++ outcome_text op) }
{
    push_words(text, ",\"end\":")?;
    push_end(text, op.ends)?;
    push_words(text, ",\"record\":")?;
    push_record(text, op.item)?;
    push_words(text, "}")
}

/// The greatest number of an actor in a document.
const MOST_ACTOR: usize = 15;

/// The number of a task: that of the log if a document takes those of all, and else that of its first operation.
fn task_of(ops: &[Op<usize>], who: usize) -> usize
    ensures { result ≡ task_of ops.now who }
{
    if has_actors(ops) {
        return who;
    }
    match first_of(ops, who) {
        Some(place) => place,
        None => 0,
    }
}

fn has_actors(ops: &[Op<usize>]) -> bool
    ensures { result ≡ has_actors ops.now }
{
    ops.iter().all(|op| op.who <= MOST_ACTOR)
}

fn first_of(ops: &[Op<usize>], who: usize) -> Option<usize>
    ensures { result ≡ position (λ (o : Op ℕ). o.who == who) ops.now }
{
    ops.iter().position(|op| op.who == who)
}

fn push_kind(text: &mut Vec<u8>, kind: Kind) -> Result<(), AllocError>
    ensures { OnOk result (text.new.items ≡ text.old.items ++ kind_text kind) }
{
    match kind {
        Kind::Write => push_words(text, "write"),
        Kind::Read => push_words(text, "read"),
        Kind::Refused => push_words(text, "refused"),
    }
}

fn push_end(text: &mut Vec<u8>, end: Option<u64>) -> Result<(), AllocError>
    ensures { OnOk result (text.new.items ≡ text.old.items ++ end_text end) }
{
    match end {
        Some(end) => push_u64(text, "", end),
        None => push_words(text, "null"),
    }
}

fn push_record(text: &mut Vec<u8>, item: Option<usize>) -> Result<(), AllocError>
    ensures { OnOk result (text.new.items ≡ text.old.items ++ record_text item) }
{
    match item {
        Some(number) => push_band(text, number as u64),
        None => push_words(text, "null"),
    }
}

#[tactic(auto, using(std::proofs::Common::append_assoc))]
fn push_band(text: &mut Vec<u8>, number: u64) -> Result<(), AllocError>
    ensures { OnOk result (text.new.items ≡ text.old.items ++ band_text number) }
{
    push_u64(text, "[", number)?;
    push_u64(text, ",", number)?;
    push_u64(text, ",", number)?;
    push_words(text, "]")
}
