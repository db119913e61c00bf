//! The reader.
ghost use Rattle.std.specs.Prelude.{◌≡◌, ◌<◌, ◌≤◌, Bool, Ok, Some, option_map, ◌+◌, ◌^◌, ◌++◌, ◌∷◌, [], ℕ};
ghost use Rattle.std.specs.Prelude.{List, true, length, is_some};
ghost use Rattle.std.specs.Prelude.{IfErr, IfOk, OnOk, string_bytes};
ghost use Rattle.lines_log.specs.Faults.{IsLineFault};
ghost use Rattle.lines_log.specs.Logs.{judged_line};
ghost use Rattle.read_line.specs.Lines.{IsAllowed, op_seen};

use crate::faults::refused_at;
use crate::line::read_op;
use crate::number::number_op;
use crate::thin::{thin, with_unfinished};
use history_thinning::Thinner;
use kept_lines::{Reads, RecordNumbers, TurnError, Turns};
use program_runs::{Fault, LinesFault};
use read_line::{LineOp, LogHeader};
use std::alloc::{AllocError, Global};
use text_lines::line_at;

/// What was read of a log.
#[derive(Drop)]
pub struct Reader {
    /// Whether the header has a limit.
    pub limited: bool,
    /// The key of each operation, if it has one.
    pub key: Option<String>,
    pub numbers: RecordNumbers,
    pub turns: Turns,
    pub thinner: Thinner,
    /// How many operations there were.
    pub count: usize,
    /// How many of them are unfinished.
    pub unfinished: usize,
    pub reads: Reads,
}

impl Reader {
    ghost use Rattle.lines_log.specs.inner.Readings.{HasReadLines, AreRead, ReadsLine, rule_of};

    /// No line yet.
    pub fn new(alloc: Global, header: LogHeader, key: Option<String>) -> Result<Reader, AllocError>
        ensures read { IfOk result (AreRead (string_bytes header.opening) []) }
        ensures rule { IfOk result (λ reader. rule_of reader ≡
            record { limited = is_some header.limit; key = option_map string_bytes key }) }
        ensures none { IfOk result (λ reader. reader.count ≡ 0) }
    {
        let limited = header.limit.is_some();
        let numbers = RecordNumbers::new(alloc, header.opening.as_bytes())?;
        Ok(Reader {
            limited,
            key,
            numbers,
            turns: Turns::new(alloc),
            thinner: Thinner::new(alloc),
            count: 0,
            unfinished: 0,
            reads: Reads::new(alloc),
        })
    }

    /// Reads the next line, behind which another one stands or not, and says whether it is the end.
    pub fn read(&mut self, alloc: Global, bytes: &[u8], last: bool) -> Result<bool, Fault>
        requires room { self.old.count + 2 < 2 ^ 64 }
        requires known { HasReadLines self.old }
        ensures read { IfOk result (λ ended. (opening : List ℕ) (lines : List (List ℕ)) →
            AreRead opening lines self.old → ReadsLine opening lines bytes.now last self.old self.new ended) }
        ensures rule { OnOk result (rule_of self.new ≡ rule_of self.old) }
        ensures grows { OnOk result (self.new.count ≤ self.old.count + 1) }
        ensures fault { IfErr result (λ fault. (opening : List ℕ) (lines : List (List ℕ)) →
            AreRead opening lines self.old → IsLineFault opening (rule_of self.old) lines bytes.now last fault) }
    {
        let place = self.count;
        match read_op(alloc, self.limited, &self.key, place, last, bytes) {
            Ok(Some(op)) => match self.enter(op) {
                Ok(()) => Ok(false),
                Err(fault) => Err(fault),
            },
            Ok(None) => Ok(true),
            Err(why) => Err(refused_at(line_at(place), why)),
        }
    }

    /// Enters the operation of the next line.
    pub fn enter(&mut self, op: LineOp) -> Result<(), Fault>
        requires allowed { IsAllowed op }
        requires room { self.old.count + 2 < 2 ^ 64 }
        requires known { HasReadLines self.old }
        ensures entered { OnOk result ((opening : List ℕ) (lines : List (List ℕ)) (line : List ℕ) (last : Bool) →
            AreRead opening lines self.old →
            judged_line (rule_of self.old) (length lines) last line ≡ Ok (Some (op_seen op)) →
            AreRead opening (lines ++ line ∷ []) self.new) }
        ensures rule { OnOk result (rule_of self.new ≡ rule_of self.old) }
        ensures grows { OnOk result (self.new.count ≤ self.old.count + 1) }
        ensures fault { IfErr result
            (λ fault. (opening : List ℕ) (lines : List (List ℕ)) (line : List ℕ) (last : Bool) →
            AreRead opening lines self.old →
            judged_line (rule_of self.old) (length lines) last line ≡ Ok (Some (op_seen op)) →
            IsLineFault opening (rule_of self.old) lines line last fault) }
    {
        let place = self.count;
        let next = match number_op(&mut self.numbers, op) {
            Ok(next) => next,
            Err(_) => return Err(Fault::NoMemory),
        };
        match self.turns.enter(&next, place) {
            Ok(()) => match thin(&mut self.thinner, next, place) {
                Ok(()) => match self.reads.enter(&next) {
                    Ok(()) => {
                        self.count = place + 1;
                        self.unfinished = with_unfinished(self.unfinished, next.ends);
                        Ok(())
                    }
                    Err(_) => Err(Fault::NoMemory),
                },
                Err(fault) => Err(fault),
            },
            Err(TurnError::Overlaps { first }) => Err(Fault::Lines(LinesFault::Overlaps {
                who: next.who,
                first: line_at(first),
                second: line_at(place),
            })),
            Err(TurnError::NoMemory) => Err(Fault::NoMemory),
        }
    }
}
