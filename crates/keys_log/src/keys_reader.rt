//! The reader of the operations of several keys.
ghost use Rattle.std.specs.Prelude.{◌≡◌, ◌<◌, ◌≤◌, ◌+◌, ◌^◌, ◌++◌, ◌∷◌, [], ℕ, List, Option, Some, length};
ghost use Rattle.std.specs.Prelude.{IfErr, IfOk, OnOk, option_map, slice_get, string_bytes};
ghost use Rattle.keys_log.specs.inner.KeyReadings.{IsKeyBegun, IsEnteredAt, IsKeyFault, IsOfKey, IsReadAt};
ghost use Rattle.lines_log.specs.inner.Readings.{HasReadLines};
ghost use Rattle.keys_log.specs.declared.key_reader.KeyReader.{KeyReader};
ghost use Rattle.read_line.specs.Lines.{Head, head_seen, IsAllowed, op_seen};

use crate::key_name::{copied, name_of};
use crate::key_reader::KeyReader;
use crate::own_line::read_own;
use kept_lines::RecordNumbers;
use lines_log::{Reader, refused_at};
use program_runs::Fault;
use read_line::{LineOp, LogHeader};
use std::alloc::{AllocError, Global};
use text_lines::line_at;

/// What was read of a log whose operations have several keys.
#[derive(Drop)]
pub(crate) struct KeysReader {
    pub header: LogHeader,
    /// The number of each key that was met, by its name.
    pub numbering: RecordNumbers,
    /// What was read of each of them, by its number.
    pub readers: Vec<KeyReader>,
    /// How many operations there were.
    pub count: usize,
}

impl KeysReader {
    ghost use Rattle.std.specs.Prelude.{◌≡◌, ◌++◌, ◌∷◌, [], false, Bool};
    ghost use Rattle.keys_log.specs.KeyFaults.{IsKeyedFault};
    ghost use Rattle.keys_log.specs.Keys.{key_on, with_key};
    ghost use Rattle.keys_log.specs.inner.KeyReadings.{AreKeysRead, AreOthers, HasReadKeys, HaveKeys, ReadsKeyedLine};

    /// No line yet, but the key of the first one.
    pub fn new(
        alloc: Global,
        header: LogHeader,
        key: Option<String>,
    ) -> Result<KeysReader, AllocError>
        ensures read { IfOk result (AreKeysRead (head_seen header) (option_map string_bytes key) []) }
    {
        let name = name_of(alloc, &key)?;
        let numbering = RecordNumbers::new(alloc, name.as_bytes())?;
        let first = begun(alloc, &header, &key)?;
        let mut readers = Vec::new(alloc);
        readers.push(first)?;
        Ok(KeysReader {
            header,
            numbering,
            readers,
            count: 0,
        })
    }

    /// Reads the next line, behind which another one stands or not, and says whether it is the end.
    pub fn read(&mut self, alloc: Global, bytes: &[u8], last: bool) -> Result<bool, Fault>
        requires room { self.old.count + 2 < 2 ^ 64 }
        requires known { HasReadKeys self.old }
        ensures read { IfOk result (λ ended. (head : Head) (first : Option (List ℕ)) (lines : List (List ℕ)) →
            AreKeysRead head first lines self.old →
            ReadsKeyedLine head first lines bytes.now last self.new ended) }
        ensures grows { OnOk result (self.new.count ≤ self.old.count + 1) }
        ensures fault { IfErr result (λ fault. (head : Head) (first : Option (List ℕ)) (lines : List (List ℕ)) →
            AreKeysRead head first lines self.old → IsKeyedFault head lines bytes.now last fault) }
    {
        let place = self.count;
        let limited = self.header.limit.is_some();
        match read_own(alloc, limited, place, last, bytes) {
            Ok(Some(op)) => match self.enter(alloc, op) {
                Ok(()) => Ok(false),
                Err(fault) => Err(fault),
            },
            Ok(None) => Ok(true),
            Err(why) => Err(refused_at(line_at(place), why)),
        }
    }

    /// Enters the operation of the next line.
    fn enter(&mut self, alloc: Global, op: LineOp) -> Result<(), Fault>
        requires allowed { IsAllowed op }
        requires room { self.old.count + 2 < 2 ^ 64 }
        requires known { HasReadKeys self.old }
        ensures entered { OnOk result ((head : Head) (first : Option (List ℕ)) (lines : List (List ℕ)) (line : List ℕ) →
            AreKeysRead head first lines self.old → option_map string_bytes op.key ≡ key_on line →
            IsOfKey head lines (key_on line) line (op_seen op) → AreKeysRead head first (lines ++ line ∷ []) self.new) }
        ensures grows { OnOk result (self.new.count ≤ self.old.count + 1) }
        ensures fault { IfErr result
            (λ fault. (head : Head) (first : Option (List ℕ)) (lines : List (List ℕ)) (line : List ℕ) →
            AreKeysRead head first lines self.old → option_map string_bytes op.key ≡ key_on line →
            IsOfKey head lines (key_on line) line (op_seen op) → IsKeyFault head lines (key_on line) line fault) }
    {
        let place = self.count;
        let number = match self.number_of(alloc, &op.key) {
            Ok(number) => number,
            Err(_) => return Err(Fault::NoMemory),
        };
        match enter_at(&mut self.readers, number, op, place) {
            Ok(()) => {
                self.count = place + 1;
                Ok(())
            }
            Err(fault) => Err(fault),
        }
    }

    /// The number of a key. One that wasn't met gets the next.
    fn number_of(&mut self, alloc: Global, key: &Option<String>) -> Result<usize, AllocError>
        requires { HasReadKeys self.old }
        ensures known { IfOk result (λ number. (head : Head) (lines : List (List ℕ)) (keys : List (Option (List ℕ))) →
            HaveKeys head lines keys self.old → AreOthers keys lines →
            HaveKeys head lines (with_key keys (option_map string_bytes key.now)) self.new
            × (slice_get (with_key keys (option_map string_bytes key.now)) number
            ≡ Some (option_map string_bytes key.now))) }
        ensures same { OnOk result (self.new.count ≡ self.old.count) }
    {
        let name = name_of(alloc, key)?;
        let number = self.numbering.number(name.as_bytes())?;
        if number == self.readers.len() {
            let next = begun(alloc, &self.header, key)?;
            self.readers.push(next)?;
        }
        Ok(number)
    }
}

/// No line of a key yet.
fn begun(alloc: Global, header: &LogHeader, key: &Option<String>) -> Result<KeyReader, AllocError>
    ensures { IfOk result (IsKeyBegun (head_seen header.now) (option_map string_bytes key.now)) }
{
    let header = LogHeader {
        opening: String::from_str(alloc, header.opening.as_str())?,
        limit: header.limit,
    };
    let key = copied(alloc, key)?;
    let reader = Reader::new(alloc, header, key)?;
    Ok(KeyReader {
        reader,
        places: Vec::new(alloc),
    })
}

/// Enters the operation of a line in the log of the key with this number.
fn enter_at(
    readers: &mut Vec<KeyReader>,
    number: usize,
    op: LineOp,
    place: usize,
) -> Result<(), Fault>
    requires allowed { IsAllowed op }
    requires inside { number < length readers.old.items }
    requires known { (one : KeyReader) → slice_get readers.old.items number ≡ Some one →
        (one.reader.count + 2 < 2 ^ 64) × HasReadLines one.reader }
    ensures entered { OnOk result ((head : Head) (lines : List (List ℕ)) (key : Option (List ℕ)) (line : List ℕ) →
        IsReadAt head lines key readers.old.items number → IsOfKey head lines key line (op_seen op) →
        place ≡ length lines → IsEnteredAt head lines key line readers.old.items readers.new.items number) }
    ensures fault { IfErr result
        (λ fault. (head : Head) (lines : List (List ℕ)) (key : Option (List ℕ)) (line : List ℕ) →
        IsReadAt head lines key readers.old.items number → IsOfKey head lines key line (op_seen op) →
        place ≡ length lines → IsKeyFault head lines key line fault) }
{
    let one = &mut readers[number];
    one.enter(op, place)
}
