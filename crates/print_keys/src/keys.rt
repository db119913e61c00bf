//! All that is printed of a log whose operations have several keys.
ghost use Rattle.std.specs.Prelude.{◌≡◌, ◌+◌, ◌++◌, IfOk, OnOk, length, option_map, slice_get, string_bytes, Some};
ghost use Rattle.print_keys.specs.KeysText.{added, key_line, key_text, keys_counts, keys_little};
ghost use Rattle.print_keys.specs.KeysText.{keys_show_little, keys_text};
ghost use Rattle.print_keys.specs.KeysText.{lawful_keys, order_text, orders_text};
ghost use Rattle.print_keys.specs.KeysText.{totals, totals_text, unjudged_line, unlawful_key};
ghost use Rattle.print_reasons.specs.Text.{writes_text};
ghost use Rattle.text_lines.specs.Words.{text_in};

use crate::keys_verdict::KeysVerdict;
use crate::whole::{whole_places, whole_reason, whole_thinned};
use history_core::{LogAnswer, Reason};
use kept_lines::{KeyLog, KeysLog, LinesLog};
use print_reasons::{are_few, push_count, push_end, push_little, push_writes, verdict_text};
use reason_sentences::push_words;
use std::alloc::{AllocError, Global};
use text_lines::PackedText;

/// The counts of all keys together.
#[derive(Clone, Copy)]
pub struct Totals {
    pub ops: usize,
    pub unfinished: usize,
    pub records: usize,
    pub read: usize,
}

/// The verdict, with the writes of each key in order if that is asked for, how little is shown, if so, and the counts.
pub fn keys_text(
    alloc: Global,
    order: bool,
    packed: &PackedText,
    log: &KeysLog,
    verdict: &KeysVerdict,
) -> Result<Vec<u8>, AllocError>
    ensures { IfOk result (λ text. text.items ≡ keys_text order (text_in packed.now) log.now verdict.now) }
{
    let sums = added_up(log.logs.as_slice())?;
    match verdict {
        KeysVerdict::Lawful { orders } => {
            let mut text = lawful_keys(alloc, order, log, orders.as_slice())?;
            push_keys_little(&mut text, sums)?;
            push_keys_counts(&mut text, log, sums)?;
            Ok(text)
        }
        KeysVerdict::Unlawful {
            number,
            reason,
            most,
        } => {
            let logs = log.logs.as_slice();
            let mut text = unlawful_key(alloc, packed, logs, *number, *reason, *most)?;
            push_keys_counts(&mut text, log, sums)?;
            Ok(text)
        }
    }
}

/// Whether few of the records of a lawful log were read, or there is no operation.
pub fn keys_show_little(sums: Totals) -> bool
    ensures { result ≡ keys_show_little sums }
{
    sums.ops == 0 || are_few(sums.read, sums.records)
}

/// The counts of all keys together. No memory holds a log that they are too large for.
pub fn added_up(logs: &[KeyLog]) -> Result<Totals, AllocError>
    ensures { IfOk result (λ sums. sums ≡ totals logs.now) }
{
    let mut sums = Totals {
        ops: 0,
        unfinished: 0,
        records: 0,
        read: 0,
    };
    for one in logs {
        sums = added(sums, &one.log)?;
    }
    Ok(sums)
}

fn added(sums: Totals, log: &LinesLog) -> Result<Totals, AllocError>
    ensures { IfOk result (λ after. after ≡ added sums log.now) }
{
    Ok(Totals {
        ops: sum(sums.ops, log.ops)?,
        unfinished: sum(sums.unfinished, log.unfinished)?,
        records: sum(sums.records, log.records)?,
        read: sum(sums.read, log.read)?,
    })
}

fn sum(a: usize, b: usize) -> Result<usize, AllocError>
    ensures { IfOk result (λ sum. sum ≡ a + b) }
{
    match a.checked_add(b) {
        Some(sum) => Ok(sum),
        None => Err(AllocError),
    }
}

fn lawful_keys(
    alloc: Global,
    order: bool,
    log: &KeysLog,
    orders: &[LogAnswer],
) -> Result<Vec<u8>, AllocError>
    ensures { IfOk result (λ text. text.items ≡ lawful_keys order log.now orders.now) }
{
    let mut text = Vec::from_slice(alloc, b"lawful\n")?;
    if order {
        push_orders(alloc, &mut text, log.logs.as_slice(), orders)?;
    }
    Ok(text)
}

/// Each key, and the writes of its lawful order.
fn push_orders(
    alloc: Global,
    text: &mut Vec<u8>,
    logs: &[KeyLog],
    orders: &[LogAnswer],
) -> Result<(), AllocError>
    ensures { OnOk result (text.new.items ≡ text.old.items ++ orders_text logs.now orders.now (length logs.now)) }
{
    for number in 0..logs.len() {
        push_order(alloc, text, logs, orders, number)?;
    }
    Ok(())
}

fn push_order(
    alloc: Global,
    text: &mut Vec<u8>,
    logs: &[KeyLog],
    orders: &[LogAnswer],
    number: usize,
) -> Result<(), AllocError>
    ensures { OnOk result (text.new.items
        ≡ text.old.items ++ order_text (slice_get logs.now number) (slice_get orders.now number)) }
{
    match logs.get(number) {
        Some(one) => match orders.get(number) {
            Some(found) => push_found(alloc, text, one, found),
            None => Ok(()),
        },
        None => Ok(()),
    }
}

fn push_found(
    alloc: Global,
    text: &mut Vec<u8>,
    one: &KeyLog,
    found: &LogAnswer,
) -> Result<(), AllocError>
    ensures { OnOk result (text.new.items ≡ text.old.items ++ order_text (Some one.now) (Some found.now)) }
{
    match found {
        LogAnswer::Lawful { writes } => {
            let whole = whole_places(alloc, one.places.as_slice(), writes.as_slice())?;
            push_key_writes(text, one, whole.as_slice())
        }
        LogAnswer::Unlawful { .. } => Ok(()),
    }
}

#[tactic(auto, using(std::proofs::Common::append_assoc))]
fn push_key_writes(text: &mut Vec<u8>, one: &KeyLog, writes: &[usize]) -> Result<(), AllocError>
    ensures { OnOk result (text.new.items ≡ text.old.items ++ (key_line one.now ++ writes_text writes.now)) }
{
    push_key(text, one)?;
    push_writes(text, writes)
}

/// Why a key has no lawful order, by the lines of the whole text, and the key.
fn unlawful_key(
    alloc: Global,
    packed: &PackedText,
    logs: &[KeyLog],
    number: usize,
    reason: Reason,
    most: u64,
) -> Result<Vec<u8>, AllocError>
    ensures { IfOk result (λ text. text.items
        ≡ unlawful_key (text_in packed.now) (slice_get logs.now number) reason most) }
{
    match logs.get(number) {
        Some(one) => unlawful_one(alloc, packed, one, reason, most),
        None => Ok(Vec::new(alloc)),
    }
}

fn unlawful_one(
    alloc: Global,
    packed: &PackedText,
    one: &KeyLog,
    reason: Reason,
    most: u64,
) -> Result<Vec<u8>, AllocError>
    ensures { IfOk result (λ text. text.items ≡ unlawful_key (text_in packed.now) (Some one.now) reason most) }
{
    let thinned = whole_thinned(alloc, one.places.as_slice(), &one.log.thinned)?;
    let reason = whole_reason(one.places.as_slice(), reason);
    let found = LogAnswer::Unlawful { reason };
    let mut text = verdict_text(alloc, false, packed, &thinned, most, &found)?;
    push_unlawful(&mut text, one)?;
    Ok(text)
}

/// The key that has no lawful order, and that none behind it was judged.
#[tactic(auto, using(std::proofs::Common::append_assoc))]
fn push_unlawful(text: &mut Vec<u8>, one: &KeyLog) -> Result<(), AllocError>
    ensures { OnOk result (text.new.items ≡ text.old.items ++ (key_line one.now ++ unjudged_line)) }
{
    push_key(text, one)?;
    push_words(text, "No key that comes later was judged.\n")
}

#[tactic(auto, using(std::proofs::Common::append_assoc))]
fn push_key(text: &mut Vec<u8>, one: &KeyLog) -> Result<(), AllocError>
    ensures { OnOk result (text.new.items ≡ text.old.items ++ key_line one.now) }
{
    push_words(text, "key: ")?;
    push_words(text, key_text(&one.key))?;
    push_words(text, "\n")
}

fn key_text(key: &Option<String>) -> &str
    ensures { result.now ≡ key_text (option_map string_bytes key.now) }
{
    match key {
        Some(text) => text.as_str(),
        None => "null",
    }
}

fn push_keys_little(text: &mut Vec<u8>, sums: Totals) -> Result<(), AllocError>
    ensures { OnOk result (text.new.items ≡ text.old.items ++ keys_little sums) }
{
    push_little(text, sums.ops, sums.records, sums.read)
}

#[tactic(auto, using(std::proofs::Common::append_assoc))]
fn push_keys_counts(text: &mut Vec<u8>, log: &KeysLog, sums: Totals) -> Result<(), AllocError>
    ensures { OnOk result (text.new.items ≡ text.old.items ++ keys_counts sums log.now) }
{
    push_totals(text, sums)?;
    push_count(text, log.logs.len(), " keys")?;
    push_end(text, log.ended)
}

fn push_totals(text: &mut Vec<u8>, sums: Totals) -> Result<(), AllocError>
    ensures { OnOk result (text.new.items ≡ text.old.items ++ totals_text sums) }
{
    push_count(text, sums.ops, " operations, ")?;
    push_count(text, sums.unfinished, " unfinished, ")?;
    push_count(text, sums.records, " records, ")?;
    push_count(text, sums.read, " of them read, ")
}
