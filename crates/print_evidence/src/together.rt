//! The operations of a window in which a log is lost.
ghost use Rattle.std.specs.Prelude.{◌≡◌, ◌++◌, IfOk, OnOk};
ghost use Rattle.print_evidence.specs.Together.{named_lines, shown_lines, together_text, window_text};
ghost use Rattle.text_lines.specs.Words.{text_in};

use crate::lost::push_line_in;
use print_reasons::push_place_lines;
use reason_sentences::{push_u64, push_words};
use std::alloc::{AllocError, Global};
use text_lines::PackedText;

/// That no order of the operations at these places is lawful, as they are seen from the first moment to the last one,
/// whatever the register held before.
#[tactic(auto, using(std::proofs::Common::append_assoc))]
pub fn together_text(
    alloc: Global,
    log: &PackedText,
    first: u64,
    last: u64,
    places: &[usize],
) -> Result<Vec<u8>, AllocError>
    ensures { IfOk result (λ text. text.items ≡ together_text (text_in log.now) first last places.now) }
{
    let mut text = Vec::new(alloc);
    push_named_lines(&mut text, places)?;
    push_shown_lines(alloc, &mut text, log, places)?;
    push_window(&mut text, first, last)?;
    Ok(text)
}

fn push_named_lines(text: &mut Vec<u8>, places: &[usize]) -> Result<(), AllocError>
    ensures { OnOk result (text.new.items ≡ text.old.items ++ named_lines places.now) }
{
    push_words(text, "unlawful together")?;
    push_place_lines(text, places)?;
    push_words(text, "\n")
}

fn push_shown_lines(
    alloc: Global,
    text: &mut Vec<u8>,
    log: &PackedText,
    places: &[usize],
) -> Result<(), AllocError>
    ensures { OnOk result (text.new.items ≡ text.old.items ++ shown_lines (text_in log.now) places.now) }
{
    for place in places {
        push_line_in(alloc, text, log, *place)?;
    }
    Ok(())
}

#[tactic(auto, using(std::proofs::Common::append_assoc))]
fn push_window(text: &mut Vec<u8>, first: u64, last: u64) -> Result<(), AllocError>
    ensures { OnOk result (text.new.items ≡ text.old.items ++ window_text first last) }
{
    push_u64(text, "From time ", first)?;
    push_u64(text, " to time ", last)?;
    push_words(
        text,
        " no order of these is lawful, whatever the register held before.\n",
    )?;
    push_words(
        text,
        "Each other operation ended before, began after, or leaves no record that these ask for.\n",
    )
}
