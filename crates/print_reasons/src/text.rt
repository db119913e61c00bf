//! The printed lines.
ghost use Rattle.std.specs.Prelude.{◌≡◌, ◌++◌, ◌∷◌, [], map, IfOk, OnOk};
ghost use Rattle.text_lines.specs.Words.{text_in, told};
ghost use Rattle.print_reasons.specs.Text.{body_of, head_text, is_of_opening, lawful_text, line_text};
ghost use Rattle.print_reasons.specs.Text.{named_text, opening_text, shown_text, unlawful_text, verdict_text};
ghost use Rattle.print_reasons.specs.Text.{place_lines, reason_text, rule_text, torn_text, words_text, writes_text};
ghost use Rattle.reason_sentences.specs.Beside.{place_at};
ghost use Rattle.text_lines.specs.Splits.{lines_of};

use history_core::{LogAnswer, Op, Reason, Thinned};
use reason_sentences::{
    MOST_SEEN, Piece, could_see, in_kept, is_named_next, kept_at, next_of, place_at, push_line_of,
    push_pieces, push_sentence, sees_opening, shown_of,
};
use record_words::push_origins;
use std::alloc::{AllocError, Global};
use text_lines::{PackedText, split_line};

/// The verdict, and of an unlawful log what shows it.
pub fn verdict_text(
    alloc: Global,
    order: bool,
    log: &PackedText,
    thinned: &Thinned,
    most: u64,
    found: &LogAnswer,
) -> Result<Vec<u8>, AllocError>
    ensures { IfOk result (λ text. text.items ≡ verdict_text order (text_in log.now) thinned.now most found.now) }
{
    match found {
        LogAnswer::Lawful { writes } => lawful_text(alloc, order, writes.as_slice()),
        LogAnswer::Unlawful { reason } => unlawful_text(alloc, log, thinned, most, *reason),
    }
}

fn lawful_text(alloc: Global, order: bool, writes: &[usize]) -> Result<Vec<u8>, AllocError>
    ensures { IfOk result (λ text. text.items ≡ lawful_text order writes.now) }
{
    let mut text = Vec::from_slice(alloc, b"lawful\n")?;
    if order {
        push_writes(&mut text, writes)?;
    }
    Ok(text)
}

/// The lines of the writes, in the order that was found.
pub fn push_writes(text: &mut Vec<u8>, writes: &[usize]) -> Result<(), AllocError>
    ensures { OnOk result (text.new.items ≡ text.old.items ++ writes_text writes.now) }
{
    push_rule(text, "writes:", writes)
}

/// Words, and the lines of the operations at these places.
#[tactic(auto, using(std::proofs::Common::append_assoc))]
fn push_rule(text: &mut Vec<u8>, words: &str, places: &[usize]) -> Result<(), AllocError>
    ensures { OnOk result (text.new.items ≡ text.old.items ++ rule_text words.now places.now) }
{
    text.extend_from_slice(words.as_bytes())?;
    push_place_lines(text, places)?;
    text.extend_from_slice(b"\n")
}

pub fn push_place_lines(text: &mut Vec<u8>, places: &[usize]) -> Result<(), AllocError>
    ensures { OnOk result (text.new.items ≡ text.old.items ++ place_lines places.now) }
{
    for place in places {
        push_line_of(text, " ", *place)?;
    }
    Ok(())
}

#[tactic(auto, using(std::proofs::Common::append_assoc))]
fn unlawful_text(
    alloc: Global,
    log: &PackedText,
    thinned: &Thinned,
    most: u64,
    reason: Reason,
) -> Result<Vec<u8>, AllocError>
    ensures { IfOk result (λ text. text.items ≡ unlawful_text (text_in log.now) thinned.now most reason) }
{
    let mut text = reason_text(alloc, reason)?;
    push_opening(alloc, &mut text, log, is_of_opening(reason))?;
    push_shown(alloc, &mut text, log, thinned, reason)?;
    push_sentence(alloc, &mut text, thinned, most, reason)?;
    push_words_of(alloc, &mut text, log, thinned, reason)?;
    Ok(text)
}

/// Of which lines the words of a record are that nobody wrote.
fn push_words_of(
    alloc: Global,
    text: &mut Vec<u8>,
    log: &PackedText,
    thinned: &Thinned,
    reason: Reason,
) -> Result<(), AllocError>
    ensures { OnOk result (text.new.items ≡ text.old.items ++ words_text (text_in log.now) thinned.now reason) }
{
    match reason {
        Reason::Unwritten { read } => push_torn_words(alloc, text, log, thinned, read),
        _ => Ok(()),
    }
}

/// The same by the writes that an operation could see.
fn push_torn_words(
    alloc: Global,
    text: &mut Vec<u8>,
    log: &PackedText,
    thinned: &Thinned,
    read: usize,
) -> Result<(), AllocError>
    ensures { OnOk result (text.new.items
        ≡ text.old.items ++ torn_text (text_in log.now) thinned.now read) }
{
    let places = thinned.places.as_slice();
    let ops = thinned.history.ops.as_slice();
    let kept = kept_at(places, read);
    let seen = could_see(alloc, ops, kept)?;
    if MOST_SEEN < seen.len() {
        return Ok(());
    }
    let writes = places_of(alloc, places, seen.as_slice())?;
    let opening = sees_opening(ops, kept);
    push_origins(alloc, text, log, opening, read, writes.as_slice())
}

/// The places of kept operations.
fn places_of(alloc: Global, places: &[usize], kept: &[usize]) -> Result<Vec<usize>, AllocError>
    ensures { IfOk result (λ found. found.items ≡ map (place_at places.now) kept.now) }
{
    let mut found = Vec::new(alloc);
    for one in kept {
        found.push(place_at(places, *one))?;
    }
    Ok(found)
}

/// Whether a reason speaks of the opening.
const fn is_of_opening(reason: Reason) -> bool
    ensures { result ≡ is_of_opening reason }
{
    matches!(reason, Reason::Unwritten { .. } | Reason::Stale { .. })
}

fn push_opening(
    alloc: Global,
    text: &mut Vec<u8>,
    log: &PackedText,
    shown: bool,
) -> Result<(), AllocError>
    ensures { OnOk result (text.new.items ≡ text.old.items ++ opening_text shown (text_in log.now)) }
{
    if shown {
        push_head(alloc, text, log)?;
    }
    Ok(())
}

/// The header of a log.
fn push_head(alloc: Global, text: &mut Vec<u8>, log: &PackedText) -> Result<(), AllocError>
    ensures { OnOk result (text.new.items ≡ text.old.items ++ head_text (lines_of (text_in log.now))) }
{
    push_first(alloc, text, log, log.codes.as_slice())
}

/// The first of the lines for which these codes stand.
fn push_first(
    alloc: Global,
    text: &mut Vec<u8>,
    log: &PackedText,
    codes: &[u8],
) -> Result<(), AllocError>
    ensures { OnOk result (text.new.items ≡ text.old.items
        ++ head_text (map (told log.now.packed) (lines_of codes.now))) }
{
    if let Some((own, _)) = split_line(codes) {
        let mut line = Vec::new(alloc);
        log.tell(&mut line, own)?;
        push_first_line(text, line.as_slice())?;
    }
    Ok(())
}

fn push_first_line(text: &mut Vec<u8>, line: &[u8]) -> Result<(), AllocError>
    ensures { OnOk result (text.new.items ≡ text.old.items ++ head_text (line.now ∷ [])) }
{
    let pieces = [
        Piece::Words("line 1: "),
        Piece::Bytes(line),
        Piece::Words("\n"),
    ];
    push_pieces(text, &pieces)
}

/// A reason by the lines of the operations that show it.
pub fn reason_text(alloc: Global, reason: Reason) -> Result<Vec<u8>, AllocError>
    ensures { IfOk result (λ text. text.items ≡ reason_text reason) }
{
    match reason {
        Reason::Unwritten { read } => rule_text(alloc, "unlawful unwritten", &[read]),
        Reason::Early { read, write } => rule_text(alloc, "unlawful early", &[read, write]),
        Reason::Stale { before, read } => rule_text(alloc, "unlawful stale", &[before, read]),
        Reason::Crossed { a, b, c, d } => rule_text(alloc, "unlawful crossed", &[a, b, c, d]),
        Reason::Limit { refused } => rule_text(alloc, "unlawful limit", &[refused]),
    }
}

fn rule_text(alloc: Global, words: &str, places: &[usize]) -> Result<Vec<u8>, AllocError>
    ensures { IfOk result (λ text. text.items ≡ rule_text words.now places.now) }
{
    let mut text = Vec::new(alloc);
    push_rule(&mut text, words, places)?;
    Ok(text)
}

/// The lines behind the first one.
pub fn body_of(bytes: &[u8]) -> &[u8]
    ensures { lines_of result.now ≡ body_of bytes.now }
{
    match split_line(bytes) {
        Some((_, body)) => body,
        None => bytes,
    }
}

/// The lines of a log of the operations that are shown of a reason.
fn push_shown(
    alloc: Global,
    text: &mut Vec<u8>,
    log: &PackedText,
    thinned: &Thinned,
    reason: Reason,
) -> Result<(), AllocError>
    ensures { OnOk result (text.new.items ≡ text.old.items ++ shown_text (text_in log.now) thinned.now reason) }
{
    let ops = thinned.history.ops.as_slice();
    let places = thinned.places.as_slice();
    let named = shown_of(alloc, ops, in_kept(places, reason))?;
    push_body(alloc, text, log, ops, places, named.as_slice())
}

/// The lines of a log of the operations that are named, of those that are kept.
fn push_body(
    alloc: Global,
    text: &mut Vec<u8>,
    log: &PackedText,
    ops: &[Op<usize>],
    places: &[usize],
    named: &[usize],
) -> Result<(), AllocError>
    ensures { OnOk result (text.new.items
        ≡ text.old.items ++ named_text ops.now places.now named.now 0 0 (body_of (text_in log.now))) }
{
    let body = body_of(log.codes.as_slice());
    push_named(alloc, text, log, body, ops, places, named)
}

/// The same, of the lines for which these codes of the log stand.
fn push_named(
    alloc: Global,
    text: &mut Vec<u8>,
    log: &PackedText,
    body: &[u8],
    ops: &[Op<usize>],
    places: &[usize],
    named: &[usize],
) -> Result<(), AllocError>
    ensures { OnOk result (text.new.items ≡ text.old.items
        ++ named_text ops.now places.now named.now 0 0 (map (told log.now.packed) (lines_of body.now))) }
{
    let mut line = Vec::new(alloc);
    let mut rest = body;
    let mut place = 0;
    let mut next = 0;
    'lines: while let Some((own, behind)) = split_line(rest) {
        if is_named_next(ops, places, named, next, place) {
            log.tell(&mut line, own)?;
            push_line(text, place, line.as_slice())?;
        }
        next = next_of(places, next, place);
        rest = behind;
        place += 1;
    }
    Ok(())
}

pub fn push_line(text: &mut Vec<u8>, place: usize, line: &[u8]) -> Result<(), AllocError>
    ensures { OnOk result (text.new.items ≡ text.old.items ++ line_text place line.now) }
{
    let pieces = [
        Piece::Line("line ", place),
        Piece::Words(": "),
        Piece::Bytes(line),
        Piece::Words("\n"),
    ];
    push_pieces(text, &pieces)
}
