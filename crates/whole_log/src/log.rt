//! From a text to the log that it stands for.
ghost use Rattle.std.specs.Prelude.{◌≡◌, ℕ, List, [], option_map, string_bytes, IfOk, OnOk};
ghost use Rattle.lines_log.specs.Logs.{first_key, key_said, unfinished_in};
ghost use Rattle.text_lines.specs.Words.{text_in, told};
ghost use Rattle.read_line.specs.Lines.{entry_of};
ghost use Rattle.text_lines.specs.Splits.{lines_of};
ghost use Rattle.whole_log.specs.WholeLogs.{IsWholeLog};
ghost use Rattle.whole_log.specs.inner.WholeReadings.{AreWholeRead, IsWholeBody, IsWholeGiven, whole_rule};

use crate::reader::Reader;
use crate::unread::Unread;
use crate::whole_log::WholeLog;
use history_core::Op;
use lines_log::{is_end, text_of};
use read_document::DocError;
use read_line::{LineOp, LogLine, read_header, read_line};
use std::alloc::{AllocError, Global};
use text_lines::PackedText;

/// The log that the text stands for.
pub fn read_whole(alloc: Global, text: &PackedText) -> Result<WholeLog, Unread>
    ensures { IfOk result (IsWholeLog (text_in text.now)) }
{
    let codes = text_of(text.codes.as_slice());
    if is_end(codes) {
        return Err(Unread);
    }
    let mut first = Vec::new(alloc);
    let body = text.next_line(&mut first, codes)?;
    let header = read_header(alloc, first.as_slice())?;
    let key = first_key(alloc, text, body)?;
    let mut reader = Reader::new(alloc, header, key)?;
    let ended = read_body(alloc, &mut reader, text, body)?;
    Ok(finish(ended, reader))
}

/// The key of the operation on the first of these lines of a text, if it has one.
fn first_key(alloc: Global, text: &PackedText, body: &[u8]) -> Result<Option<String>, AllocError>
    ensures { IfOk result (λ key.
        option_map string_bytes key ≡ first_key (lines_of (told text.now.packed body.now))) }
{
    if is_end(body) {
        return Ok(None);
    }
    let mut line = Vec::new(alloc);
    text.next_line(&mut line, body)?;
    key_on(alloc, line.as_slice())
}

/// The key of the operation on a line, if it has one.
fn key_on(alloc: Global, line: &[u8]) -> Result<Option<String>, AllocError>
    ensures { IfOk result (λ key. option_map string_bytes key ≡ key_said (entry_of line.now)) }
{
    match read_line(alloc, line) {
        Ok(LogLine::Operation(op)) => Ok(key_of(op)),
        Ok(LogLine::Done(_)) => Ok(None),
        Err(DocError::NoMemory) => Err(AllocError),
        Err(_) => Ok(None),
    }
}

fn key_of(op: LineOp) -> Option<String>
    ensures { result ≡ op.key }
{
    let LineOp { key, .. } = op;
    key
}

/// Reads the lines of a text behind the header, and says whether the last one is the end.
fn read_body(
    alloc: Global,
    reader: &mut Reader,
    text: &PackedText,
    body: &[u8],
) -> Result<bool, Unread>
    requires { (opening : List ℕ) × AreWholeRead opening [] reader.old }
    ensures read { IfOk result (λ ended. (opening : List ℕ) → AreWholeRead opening [] reader.old →
        IsWholeBody opening (lines_of (told text.now.packed body.now)) reader.new ended) }
    ensures rule { OnOk result (whole_rule reader.new ≡ whole_rule reader.old) }
{
    let mut line = Vec::new(alloc);
    let mut rest = body;
    let mut ended = false;
    'lines: while !is_end(rest) {
        let behind = text.next_line(&mut line, rest)?;
        let last = is_end(behind);
        ended = match reader.read(alloc, line.as_slice(), last) {
            Ok(ended) => ended,
            Err(unread) => return Err(unread),
        };
        rest = behind;
    }
    Ok(ended)
}

fn finish(ended: bool, reader: Reader) -> WholeLog
    ensures { IsWholeGiven ended reader result }
{
    let Reader {
        numbers,
        reads,
        ops,
        ..
    } = reader;
    let unfinished = unfinished_in(ops.as_slice());
    WholeLog {
        ops,
        unfinished,
        records: numbers.count(),
        read: reads.count(),
        ended,
    }
}

fn unfinished_in(ops: &[Op<usize>]) -> usize
    ensures { result ≡ unfinished_in ops.now }
{
    ops.iter().filter(|o| o.ends.is_none()).count()
}
