//! Sentences in pieces.
ghost use Rattle.std.specs.Prelude.{◌≡◌, ◌++◌, OnOk};
ghost use Rattle.reason_sentences.specs.Pieces.{piece_text, pieces_text};

use crate::text::{push_line_of, push_u64, push_words};
use std::alloc::AllocError;

/// A piece of a sentence.
#[derive(Drop)]
pub enum Piece<'a> {
    Words(&'a str),
    /// Bytes of a line.
    Bytes(&'a [u8]),
    /// Words, and the number of the line of the operation at a place.
    Line(&'a str, usize),
    /// Words, and a number behind them.
    Number(&'a str, u64),
}

/// Adds pieces, one behind the other.
pub fn push_pieces(text: &mut Vec<u8>, pieces: &[Piece]) -> Result<(), AllocError>
    ensures { OnOk result (text.new.items ≡ text.old.items ++ pieces_text pieces.now) }
{
    for piece in pieces {
        push_piece(text, piece)?;
    }
    Ok(())
}

fn push_piece(text: &mut Vec<u8>, piece: &Piece) -> Result<(), AllocError>
    ensures { OnOk result (text.new.items ≡ text.old.items ++ piece_text piece.now) }
{
    match piece {
        Piece::Words(words) => push_words(text, words),
        Piece::Bytes(bytes) => text.extend_from_slice(bytes),
        Piece::Line(words, place) => push_line_of(text, words, *place),
        Piece::Number(words, number) => push_u64(text, words, *number),
    }
}
