//! A reason in one sentence.
ghost use Rattle.std.specs.Prelude.{◌≡◌, ◌++◌, OnOk};
ghost use Rattle.reason_sentences.specs.Beside.{beside_text};
ghost use Rattle.reason_sentences.specs.Sentences.{gave_text, limit_text, sentence_text, stale_text, unwritten_text};

use crate::beside::push_beside;
use crate::crossed::push_crossed;
use crate::pieces::{Piece, push_pieces};
use crate::times::push_apart;
use history_core::{Reason, Thinned};
use std::alloc::{AllocError, Global};

const EARLY: &str = " gave a record before the write of it began: ";

const OLD_OPENING: &str = " gave an old record, the opening: ";

/// A reason in a sentence. Under a limit so many writes can stand before the first refused one.
pub fn push_sentence(
    alloc: Global,
    text: &mut Vec<u8>,
    thinned: &Thinned,
    most: u64,
    reason: Reason,
) -> Result<(), AllocError>
    ensures { OnOk result (text.new.items ≡ text.old.items ++ sentence_text thinned.now most reason) }
{
    match reason {
        Reason::Unwritten { read } => push_torn(alloc, text, thinned, read),
        Reason::Early { read, write } => push_gave(text, thinned, read, EARLY, read, write),
        Reason::Stale { before, read } => push_late(alloc, text, thinned, before, read),
        Reason::Crossed { a, b, c, d } => push_crossed(alloc, text, thinned, a, b, c, d),
        Reason::Limit { refused } => push_limit(text, thinned, most, refused),
    }
}

/// That a read gave a record that nobody had written.
pub fn push_unwritten(text: &mut Vec<u8>, read: usize) -> Result<(), AllocError>
    ensures { OnOk result (text.new.items ≡ text.old.items ++ unwritten_text read) }
{
    let pieces = [
        Piece::Line("Line ", read),
        Piece::Words(" gave a record that is neither the opening nor written.\n"),
    ];
    push_pieces(text, &pieces)
}

/// The same, and which writes it could see: a torn record has words of several.
#[tactic(auto, using(std::proofs::Common::append_assoc))]
fn push_torn(
    alloc: Global,
    text: &mut Vec<u8>,
    thinned: &Thinned,
    read: usize,
) -> Result<(), AllocError>
    ensures { OnOk result (text.new.items
        ≡ text.old.items ++ (unwritten_text read ++ beside_text thinned.now read)) }
{
    push_unwritten(text, read)?;
    push_beside(alloc, text, thinned, read)
}

/// That a read gave the opening too late, and which writes it could see.
fn push_late(
    alloc: Global,
    text: &mut Vec<u8>,
    thinned: &Thinned,
    before: usize,
    read: usize,
) -> Result<(), AllocError>
    ensures { OnOk result (text.new.items
        ≡ text.old.items ++ (stale_text thinned.now before read ++ beside_text thinned.now read)) }
{
    push_gave(text, thinned, read, OLD_OPENING, before, read)?;
    push_beside(alloc, text, thinned, read)
}

/// That an operation gave a record that it should not have given, in these words, and the times that show it.
fn push_gave(
    text: &mut Vec<u8>,
    thinned: &Thinned,
    read: usize,
    words: &str,
    a: usize,
    b: usize,
) -> Result<(), AllocError>
    ensures { OnOk result (text.new.items ≡ text.old.items ++ gave_text thinned.now read words.now a b) }
{
    let pieces = [Piece::Line("Line ", read), Piece::Words(words)];
    push_pieces(text, &pieces)?;
    push_apart(text, thinned, a, b, ".\n")
}

fn push_limit(
    text: &mut Vec<u8>,
    thinned: &Thinned,
    most: u64,
    refused: usize,
) -> Result<(), AllocError>
    ensures { OnOk result (text.new.items ≡ text.old.items ++ limit_text thinned.now most refused) }
{
    let pieces = [
        Piece::Number("Of the writes at most ", most),
        Piece::Line(" can stand before line ", refused),
        Piece::Number(
            " or a refused write in front of it, and the limit is ",
            thinned.limit(),
        ),
        Piece::Words(".\n"),
    ];
    push_pieces(text, &pieces)
}
