//! From bytes to the log that they stand for.
ghost use Rattle.std.specs.Prelude.{◌≡◌, ◌<◌, ◌+◌, ◌^◌, ℕ, List, [], length, option_map};
ghost use Rattle.std.specs.Prelude.{string_bytes, IfErr, IfOk, OnOk};
ghost use Rattle.history_core.specs.declared.history.Op.{Op};
ghost use Rattle.lines_log.specs.Faults.{IsBodyFault, is_end, IsLinesFault};
ghost use Rattle.lines_log.specs.Logs.{first_key, IsLinesLog, key_said, text_of};
ghost use Rattle.lines_log.specs.inner.Readings.{IsFinished, AreRead, IsReadWhole, rule_of};
ghost use Rattle.text_lines.specs.Words.{text_in, told};
ghost use Rattle.kept_lines.specs.Numbered.{AreNumbered};
ghost use Rattle.read_line.specs.Lines.{entry_of};
ghost use Rattle.text_lines.specs.Splits.{lines_of};

use crate::faults::refused_at;
use crate::reader::Reader;
use kept_lines::{LinesLog, RecordNumbers};
use program_runs::Fault;
use program_streams::ends_in_space;
use read_document::DocError;
use read_line::{LineOp, LogLine, read_header, read_line};
use std::alloc::{AllocError, Global};
use text_lines::PackedText;

/// The line of the header.
pub const HEADER: usize = 1;

/// What is kept of the log that the text stands for, or the first line at fault.
pub fn read_lines(alloc: Global, text: &PackedText) -> Result<LinesLog, Fault>
    ensures log { IfOk result (λ read. (log : List (Op ℕ)) × IsLinesLog (text_in text.now) log read) }
    ensures fault { IfErr result (IsLinesFault (text_in text.now)) }
{
    let codes = text_of(text.codes.as_slice());
    if is_end(codes) {
        return Err(refused_at(HEADER, DocError::NotJson));
    }
    let mut first = Vec::new(alloc);
    let body = match text.next_line(&mut first, codes) {
        Ok(body) => body,
        Err(_) => return Err(Fault::NoMemory),
    };
    let header = match read_header(alloc, first.as_slice()) {
        Ok(header) => header,
        Err(why) => return Err(refused_at(HEADER, why)),
    };
    let limit = header.limit.unwrap_or(1);
    let key = match first_key(alloc, text, body) {
        Ok(key) => key,
        Err(_) => return Err(Fault::NoMemory),
    };
    let mut reader = match Reader::new(alloc, header, key) {
        Ok(reader) => reader,
        Err(_) => return Err(Fault::NoMemory),
    };
    let ended = match read_body(alloc, &mut reader, text, body) {
        Ok(ended) => ended,
        Err(fault) => return Err(fault),
    };
    match finish(alloc, limit, ended, reader) {
        Ok(log) => Ok(log),
        Err(_) => Err(Fault::NoMemory),
    }
}

/// The text of a log, without the white space behind its last line, if that isn't too much.
pub fn text_of(bytes: &[u8]) -> &[u8]
    ensures { result.now ≡ text_of bytes.now }
{
    if ends_in_space(bytes) {
        bytes
    } else {
        bytes.trim_ascii_end()
    }
}

/// The key of the operation on the first of these lines of a text, if it has one.
pub fn first_key(
    alloc: Global,
    text: &PackedText,
    body: &[u8],
) -> Result<Option<String>, AllocError>
    ensures { IfOk result (λ key.
        option_map string_bytes key ≡ first_key (lines_of (told text.now.packed body.now))) }
{
    if is_end(body) {
        return Ok(None);
    }
    let mut line = Vec::new(alloc);
    text.next_line(&mut line, body)?;
    match read_line(alloc, line.as_slice()) {
        Ok(LogLine::Operation(op)) => Ok(key_of(op)),
        Ok(LogLine::Done(_)) => Ok(None),
        Err(DocError::NoMemory) => Err(AllocError),
        Err(_) => Ok(None),
    }
}

fn key_of(op: LineOp) -> Option<String>
    ensures { result ≡ op.key }
{
    let LineOp { key, .. } = op;
    key
}

/// Reads the lines of a text behind the header, and says whether the last one is the end.
fn read_body(
    alloc: Global,
    reader: &mut Reader,
    text: &PackedText,
    body: &[u8],
) -> Result<bool, Fault>
    requires room { reader.old.count + length body.now + 1 < 2 ^ 64 }
    requires known { (opening : List ℕ) × AreRead opening [] reader.old }
    ensures read { IfOk result (λ ended. (opening : List ℕ) → AreRead opening [] reader.old →
        IsReadWhole opening (lines_of (told text.now.packed body.now)) reader.new ended) }
    ensures rule { OnOk result (rule_of reader.new ≡ rule_of reader.old) }
    ensures fault { IfErr result (λ fault. (opening : List ℕ) → AreRead opening [] reader.old →
        IsBodyFault opening (rule_of reader.old) (lines_of (told text.now.packed body.now)) fault) }
{
    let mut line = Vec::new(alloc);
    let mut rest = body;
    let mut ended = false;
    'lines: while !is_end(rest) {
        let behind = match text.next_line(&mut line, rest) {
            Ok(behind) => behind,
            Err(_) => return Err(Fault::NoMemory),
        };
        let last = is_end(behind);
        ended = match reader.read(alloc, line.as_slice(), last) {
            Ok(ended) => ended,
            Err(fault) => return Err(fault),
        };
        rest = behind;
    }
    Ok(ended)
}

/// Whether nothing is left.
pub fn is_end(rest: &[u8]) -> bool
    ensures { result ≡ is_end rest.now }
{
    rest.is_empty()
}

/// What is kept. The numbers' memory is given back first.
pub fn finish(
    alloc: Global,
    limit: u64,
    ended: bool,
    reader: Reader,
) -> Result<LinesLog, AllocError>
    ensures { IfOk result (IsFinished limit ended reader) }
{
    let Reader {
        numbers,
        thinner,
        count,
        unfinished,
        reads,
        ..
    } = reader;
    let records = counted(numbers);
    let read = reads.count();
    let thinned = thinner.finish(alloc, limit)?;
    Ok(LinesLog {
        thinned,
        ops: count,
        unfinished,
        records,
        read,
        ended,
    })
}

/// How many records there are.
fn counted(numbers: RecordNumbers) -> usize
    ensures { (records : List (List ℕ)) → AreNumbered records numbers → result ≡ length records }
{
    numbers.count()
}
