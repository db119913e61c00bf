//! From bytes to the log that they stand for.
ghost use Rattle.std.specs.Prelude.{◌≡◌, ◌<◌, ◌+◌, ◌^◌, ℕ, List, [], length, option_map, string_bytes};
ghost use Rattle.std.specs.Prelude.{IfErr, IfOk, OnOk};
ghost use Rattle.exchanges_log.specs.ExchangeFaults.{IsExchangesBodyFault, IsExchangesFault};
ghost use Rattle.exchanges_log.specs.ExchangeLogs.{first_key, IsExchangesLog, key_said};
ghost use Rattle.exchanges_log.specs.inner.ExchangeReadings.{AreExchangesFinished, AreExchangesRead, IsBodyRead};
ghost use Rattle.exchanges_log.specs.inner.ExchangeReadings.{rule_of};
ghost use Rattle.text_lines.specs.Words.{text_in, told};
ghost use Rattle.read_exchange.specs.Exchanges.{entry_of};
ghost use Rattle.text_lines.specs.Splits.{lines_of};

use crate::counts::{uncertain_in, unfinished_in};
use crate::exchanges_log::ExchangesLog;
use crate::reader::Reader;
use lines_log::{is_end, refused_at, text_of};
use program_runs::Fault;
use read_document::DocError;
use read_exchange::{ExchangeLine, ExchangeOp, read_exchange};
use read_line::read_header;
use std::alloc::{AllocError, Global};
use text_lines::PackedText;

/// The line of the header.
const HEADER: usize = 1;

/// The log that the text stands for, whose records repeat, or the first line at fault.
pub fn read_exchanges(alloc: Global, text: &PackedText) -> Result<ExchangesLog, Fault>
    ensures log { IfOk result (IsExchangesLog (text_in text.now)) }
    ensures fault { IfErr result (IsExchangesFault (text_in text.now)) }
{
    let codes = text_of(text.codes.as_slice());
    if is_end(codes) {
        return Err(refused_at(HEADER, DocError::NotJson));
    }
    let mut first = Vec::new(alloc);
    let body = match text.next_line(&mut first, codes) {
        Ok(body) => body,
        Err(_) => return Err(Fault::NoMemory),
    };
    let header = match read_header(alloc, first.as_slice()) {
        Ok(header) => header,
        Err(why) => return Err(refused_at(HEADER, why)),
    };
    let key = match first_key(alloc, text, body) {
        Ok(key) => key,
        Err(_) => return Err(Fault::NoMemory),
    };
    let limit = header.limit;
    let mut reader = match Reader::new(alloc, header, key) {
        Ok(reader) => reader,
        Err(_) => return Err(Fault::NoMemory),
    };
    match read_body(alloc, &mut reader, text, body) {
        Ok(ended) => Ok(finish(limit, ended, reader)),
        Err(fault) => Err(fault),
    }
}

/// The key of the operation on the first of these lines of a text, if it has one.
fn first_key(alloc: Global, text: &PackedText, body: &[u8]) -> Result<Option<String>, AllocError>
    ensures { IfOk result (λ key.
        option_map string_bytes key ≡ first_key (lines_of (told text.now.packed body.now))) }
{
    if is_end(body) {
        return Ok(None);
    }
    let mut line = Vec::new(alloc);
    text.next_line(&mut line, body)?;
    key_on(alloc, line.as_slice())
}

/// The key of the operation on a line, if it has one.
fn key_on(alloc: Global, line: &[u8]) -> Result<Option<String>, AllocError>
    ensures { IfOk result (λ key. option_map string_bytes key ≡ key_said (entry_of line.now)) }
{
    match read_exchange(alloc, line) {
        Ok(ExchangeLine::Operation(op)) => Ok(key_of(op)),
        Ok(ExchangeLine::Done(_)) => Ok(None),
        Err(DocError::NoMemory) => Err(AllocError),
        Err(_) => Ok(None),
    }
}

fn key_of(op: ExchangeOp) -> Option<String>
    ensures { result ≡ op.key }
{
    let ExchangeOp { key, .. } = op;
    key
}

/// Reads the lines of a text behind the header, and says whether the last one is the end.
fn read_body(
    alloc: Global,
    reader: &mut Reader,
    text: &PackedText,
    body: &[u8],
) -> Result<bool, Fault>
    requires room { length reader.old.ops.items + length body.now + 1 < 2 ^ 64 }
    requires known { (opening : List ℕ) × AreExchangesRead opening [] reader.old }
    ensures read { IfOk result (λ ended. (opening : List ℕ) → AreExchangesRead opening [] reader.old →
        IsBodyRead opening (lines_of (told text.now.packed body.now)) reader.new ended) }
    ensures rule { OnOk result (rule_of reader.new ≡ rule_of reader.old) }
    ensures fault { IfErr result (λ fault. (opening : List ℕ) → AreExchangesRead opening [] reader.old →
        IsExchangesBodyFault opening (rule_of reader.old) (lines_of (told text.now.packed body.now)) fault) }
{
    let mut line = Vec::new(alloc);
    let mut rest = body;
    let mut ended = false;
    'lines: while !is_end(rest) {
        let behind = match text.next_line(&mut line, rest) {
            Ok(behind) => behind,
            Err(_) => return Err(Fault::NoMemory),
        };
        let last = is_end(behind);
        ended = match reader.read(alloc, line.as_slice(), last) {
            Ok(ended) => ended,
            Err(fault) => return Err(fault),
        };
        rest = behind;
    }
    Ok(ended)
}

fn finish(limit: Option<u64>, ended: bool, reader: Reader) -> ExchangesLog
    ensures { AreExchangesFinished limit ended reader result }
{
    let Reader { numbering, ops, .. } = reader;
    let unfinished = unfinished_in(ops.as_slice());
    let uncertain = uncertain_in(ops.as_slice());
    ExchangesLog {
        ops,
        limit,
        unfinished,
        uncertain,
        records: numbering.count(),
        ended,
    }
}
