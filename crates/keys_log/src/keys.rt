//! From bytes to the log of each key.
ghost use Rattle.std.specs.Prelude.{◌≡◌, ◌<◌, ◌+◌, ◌^◌, [], length, option_map, string_bytes, unwrap_or, IfErr, IfOk};
ghost use Rattle.keys_log.specs.KeyFaults.{IsKeysBodyFault, IsKeysFault};
ghost use Rattle.keys_log.specs.Keys.{IsKeysLog};
ghost use Rattle.lines_log.specs.Logs.{first_key};
ghost use Rattle.keys_log.specs.inner.KeyReadings.{AreFinished, AreKeysRead, AreReadWhole, IsKeyFinished};
ghost use Rattle.text_lines.specs.Words.{text_in, told};
ghost use Rattle.text_lines.specs.Splits.{lines_of};
ghost use Rattle.read_line.specs.Lines.{Head};

use crate::key_name::copied;
use crate::key_reader::KeyReader;
use crate::keys_reader::KeysReader;
use kept_lines::{KeyLog, KeysLog};
use lines_log::{HEADER, finish, first_key, is_end, refused_at, text_of};
use program_runs::Fault;
use read_document::DocError;
use read_line::read_header;
use std::alloc::{AllocError, Global};
use text_lines::PackedText;

/// What is kept of the log of each key of the operations that the text stands for, or the first line at fault.
pub fn read_keys(alloc: Global, text: &PackedText) -> Result<KeysLog, Fault>
    ensures logs { IfOk result (IsKeysLog (text_in text.now)) }
    ensures fault { IfErr result (IsKeysFault (text_in text.now)) }
{
    let codes = text_of(text.codes.as_slice());
    if is_end(codes) {
        return Err(refused_at(HEADER, DocError::NotJson));
    }
    let mut first = Vec::new(alloc);
    let body = match text.next_line(&mut first, codes) {
        Ok(body) => body,
        Err(_) => return Err(Fault::NoMemory),
    };
    let header = match read_header(alloc, first.as_slice()) {
        Ok(header) => header,
        Err(why) => return Err(refused_at(HEADER, why)),
    };
    let key = match first_key(alloc, text, body) {
        Ok(key) => key,
        Err(_) => return Err(Fault::NoMemory),
    };
    let limit = header.limit.unwrap_or(1);
    let mut reader = match KeysReader::new(alloc, header, key) {
        Ok(reader) => reader,
        Err(_) => return Err(Fault::NoMemory),
    };
    let ended = match read_body(alloc, &mut reader, text, body) {
        Ok(ended) => ended,
        Err(fault) => return Err(fault),
    };
    match finish_all(alloc, limit, ended, reader) {
        Ok(logs) => Ok(KeysLog { logs, ended }),
        Err(_) => Err(Fault::NoMemory),
    }
}

/// Reads the lines of a text behind the header, and says whether the last one is the end.
fn read_body(
    alloc: Global,
    reader: &mut KeysReader,
    text: &PackedText,
    body: &[u8],
) -> Result<bool, Fault>
    requires room { reader.old.count + length body.now + 1 < 2 ^ 64 }
    requires known { (head : Head)
        × AreKeysRead head (first_key (lines_of (told text.now.packed body.now))) [] reader.old }
    ensures read { IfOk result (λ ended. (head : Head) →
        AreKeysRead head (first_key (lines_of (told text.now.packed body.now))) [] reader.old →
        AreReadWhole head (lines_of (told text.now.packed body.now)) reader.new ended) }
    ensures fault { IfErr result (λ fault. (head : Head) →
        AreKeysRead head (first_key (lines_of (told text.now.packed body.now))) [] reader.old →
        IsKeysBodyFault head (lines_of (told text.now.packed body.now)) fault) }
{
    let mut line = Vec::new(alloc);
    let mut rest = body;
    let mut ended = false;
    'lines: while !is_end(rest) {
        let behind = match text.next_line(&mut line, rest) {
            Ok(behind) => behind,
            Err(_) => return Err(Fault::NoMemory),
        };
        let last = is_end(behind);
        ended = match reader.read(alloc, line.as_slice(), last) {
            Ok(ended) => ended,
            Err(fault) => return Err(fault),
        };
        rest = behind;
    }
    Ok(ended)
}

/// What is kept of each key. The keys' memory is given back first.
fn finish_all(
    alloc: Global,
    limit: u64,
    ended: bool,
    reader: KeysReader,
) -> Result<Vec<KeyLog>, AllocError>
    ensures { IfOk result (λ logs. AreFinished limit ended reader.readers.items logs.items) }
{
    let KeysReader { readers, .. } = reader;
    let mut logs = Vec::new(alloc);
    'readers: for one in readers {
        let log = finish_one(alloc, limit, ended, one)?;
        logs.push(log)?;
    }
    Ok(logs)
}

fn finish_one(
    alloc: Global,
    limit: u64,
    ended: bool,
    reader: KeyReader,
) -> Result<KeyLog, AllocError>
    ensures { IfOk result (IsKeyFinished limit ended reader) }
{
    let KeyReader { reader, places } = reader;
    let key = copied(alloc, &reader.key)?;
    let log = finish(alloc, limit, ended, reader)?;
    Ok(KeyLog { key, places, log })
}
