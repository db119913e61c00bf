//! The lines of a history whose terms are told.
ghost use Rattle.std.specs.Prelude.{◌≡◌, ◌++◌, OnOk, take};
ghost use Rattle.print_report.specs.Text.{history_lines, term_line, titled_lines};

use crate::{Line, Marks, push_lines_from};
use history_core::{Band, History, Op, Term};
use std::alloc::AllocError;

/// A line for each operation of a history; titled, with the lines of its terms between them.
pub fn push_history<M: Marks>(
    text: &mut Vec<u8>,
    marks: &M,
    history: &History<Band>,
    titled: bool,
) -> Result<(), AllocError>
    ensures { OnOk result (text.new.items ≡ text.old.items ++ history_lines (M.mark marks.now) history.now titled) }
{
    let ops = history.ops.as_slice();
    if titled {
        push_titled_lines(text, marks, ops, history.terms.as_slice())
    } else {
        push_lines_from(text, marks, ops, 0)
    }
}

/// A line for each operation, and before the first operation of each term the term's line.
fn push_titled_lines<M: Marks>(
    text: &mut Vec<u8>,
    marks: &M,
    ops: &[Op<Band>],
    terms: &[Term],
) -> Result<(), AllocError>
    ensures { OnOk result (text.new.items ≡ text.old.items ++ titled_lines (M.mark marks.now) ops.now 1 0 terms.now) }
{
    let mut place = 0;
    for k in 0..terms.len() {
        push_lines_from(text, marks, below(ops, terms[k].first), place)?;
        push_term_line(text, k + 1)?;
        place = terms[k].first;
    }
    push_lines_from(text, marks, ops, place)
}

fn push_term_line(text: &mut Vec<u8>, number: usize) -> Result<(), AllocError>
    ensures { OnOk result (text.new.items ≡ text.old.items ++ term_line number) }
{
    let mut line = Line::new();
    line.put(b"\n");
    line.put_number(number as u64);
    line.put(b"term ");
    text.extend_from_slice(line.as_bytes())
}

/// The operations at places below `end`.
fn below(ops: &[Op<Band>], end: usize) -> &[Op<Band>]
    ensures { result.now ≡ take end ops.now }
{
    if end < ops.len() { &ops[..end] } else { ops }
}
