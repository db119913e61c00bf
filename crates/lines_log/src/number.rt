//! Numbers in place of records.
ghost use Rattle.std.specs.Prelude.{◌≡◌, ℕ, List, option_map, IfOk, string_bytes};
ghost use Rattle.kept_lines.specs.Numbered.{AreNumbered};
ghost use Rattle.lines_log.specs.inner.Numbers.{IsNumberedNow, IsRecordNow};
ghost use Rattle.read_line.specs.Lines.{op_seen};

use history_core::Op;
use kept_lines::RecordNumbers;
use read_line::LineOp;
use std::alloc::AllocError;

/// An operation with the number of its record.
pub fn number_op(numbers: &mut RecordNumbers, op: LineOp) -> Result<Op<usize>, AllocError>
    requires { (records : List (List ℕ)) × AreNumbered records numbers.old }
    ensures { IfOk result (λ next. (records : List (List ℕ)) → AreNumbered records numbers.old →
        IsNumberedNow records (op_seen op) numbers.new next) }
{
    let LineOp {
        who,
        kind,
        begin,
        end,
        record,
        ..
    } = op;
    let item = number_record(numbers, record)?;
    Ok(Op {
        who,
        kind,
        starts: begin,
        ends: end,
        item,
    })
}

fn number_record(
    numbers: &mut RecordNumbers,
    text: Option<String>,
) -> Result<Option<usize>, AllocError>
    requires { (records : List (List ℕ)) × AreNumbered records numbers.old }
    ensures { IfOk result (λ item. (records : List (List ℕ)) → AreNumbered records numbers.old →
        IsRecordNow records (option_map string_bytes text) numbers.new item) }
{
    match text {
        Some(text) => {
            let number = numbers.number(text.as_bytes())?;
            Ok(Some(number))
        }
        None => Ok(None),
    }
}

/// The same text without room for more.
pub fn fitted(text: String) -> String
    ensures { string_bytes result ≡ string_bytes text }
{
    let mut fitted = text;
    fitted.shrink_to_fit();
    fitted
}
