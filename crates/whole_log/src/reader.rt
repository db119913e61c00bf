//! The reader.
ghost use Rattle.std.specs.Prelude.{◌≡◌, ◌++◌, ◌∷◌, [], ℕ, List, length, Bool, Ok, Some, is_some, option_map};
ghost use Rattle.std.specs.Prelude.{IfOk, OnOk, string_bytes};
ghost use Rattle.lines_log.specs.Logs.{judged_line};
ghost use Rattle.read_line.specs.Lines.{IsAllowed, op_seen};

use crate::line::read_op;
use crate::unread::Unread;
use history_core::Op;
use kept_lines::{Reads, RecordNumbers, Turns};
use lines_log::number_op;
use read_line::{LineOp, LogHeader};
use std::alloc::{AllocError, Global};

/// What was read of a log.
#[derive(Drop)]
pub(crate) struct Reader {
    /// Whether the header has a limit.
    pub limited: bool,
    /// The key of each operation, if it has one.
    pub key: Option<String>,
    pub numbers: RecordNumbers,
    pub turns: Turns,
    pub reads: Reads,
    pub ops: Vec<Op<usize>>,
}

impl Reader {
    ghost use Rattle.whole_log.specs.inner.WholeReadings.{AreWholeRead, HasWholeRead, ReadsWholeLine, whole_rule};

    /// No line yet.
    pub fn new(alloc: Global, header: LogHeader, key: Option<String>) -> Result<Reader, AllocError>
        ensures read { IfOk result (AreWholeRead (string_bytes header.opening) []) }
        ensures rule { IfOk result (λ reader. whole_rule reader ≡
            record { limited = is_some header.limit; key = option_map string_bytes key }) }
    {
        let limited = header.limit.is_some();
        let numbers = RecordNumbers::new(alloc, header.opening.as_bytes())?;
        Ok(Reader {
            limited,
            key,
            numbers,
            turns: Turns::new(alloc),
            reads: Reads::new(alloc),
            ops: Vec::new(alloc),
        })
    }

    /// Reads the next line, behind which another one stands or not, and says whether it is the end.
    pub fn read(&mut self, alloc: Global, bytes: &[u8], last: bool) -> Result<bool, Unread>
        requires { HasWholeRead self.old }
        ensures read { IfOk result (λ ended. (opening : List ℕ) (lines : List (List ℕ)) →
            AreWholeRead opening lines self.old → ReadsWholeLine opening lines bytes.now last self.old self.new ended) }
        ensures rule { OnOk result (whole_rule self.new ≡ whole_rule self.old) }
    {
        match read_op(alloc, self.limited, &self.key, self.ops.len(), last, bytes) {
            Ok(Some(op)) => match self.enter(op) {
                Ok(()) => Ok(false),
                Err(unread) => Err(unread),
            },
            Ok(None) => Ok(true),
            Err(unread) => Err(unread),
        }
    }

    /// Enters the operation of the next line.
    fn enter(&mut self, op: LineOp) -> Result<(), Unread>
        requires allowed { IsAllowed op }
        requires known { HasWholeRead self.old }
        ensures entered { OnOk result ((opening : List ℕ) (lines : List (List ℕ)) (line : List ℕ) (last : Bool) →
            AreWholeRead opening lines self.old →
            judged_line (whole_rule self.old) (length lines) last line ≡ Ok (Some (op_seen op)) →
            AreWholeRead opening (lines ++ line ∷ []) self.new) }
        ensures rule { OnOk result (whole_rule self.new ≡ whole_rule self.old) }
    {
        let next = number_op(&mut self.numbers, op)?;
        self.turns.enter(&next, self.ops.len())?;
        self.reads.enter(&next)?;
        match self.ops.push(next) {
            Ok(()) => Ok(()),
            Err(_) => Err(Unread),
        }
    }
}
