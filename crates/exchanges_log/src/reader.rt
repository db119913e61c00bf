//! The reader.
ghost use Rattle.std.specs.Prelude.{◌≡◌, ◌<◌, ◌≤◌, ◌+◌, ◌^◌, ◌++◌, ◌∷◌, [], ℕ, List, length, Bool, Ok, Some};
ghost use Rattle.std.specs.Prelude.{is_some, option_map, IfErr, IfOk, OnOk, string_bytes};
ghost use Rattle.exchanges_log.specs.ExchangeFaults.{IsExchangeFault};
ghost use Rattle.exchanges_log.specs.ExchangeLogs.{judged_line};
ghost use Rattle.read_exchange.specs.Exchanges.{exchange_seen};

use crate::line::read_op;
use crate::number::number_op;
use crate::numbering::Numbering;
use lines_log::refused_at;
use object_core::Operation;
use object_registers::Exchange;
use program_runs::Fault;
use read_exchange::ExchangeOp;
use read_line::LogHeader;
use std::alloc::{AllocError, Global};
use text_lines::line_at;

/// What was read of a log.
#[derive(Drop)]
pub(crate) struct Reader {
    /// Whether the header has a limit.
    pub limited: bool,
    /// The key of each operation, if it has one.
    pub key: Option<String>,
    pub numbering: Numbering,
    pub ops: Vec<Operation<Exchange>>,
}

impl Reader {
    ghost use Rattle.exchanges_log.specs.inner.ExchangeReadings.{AreExchangesRead, HasReadExchanges, rule_of};
    ghost use Rattle.exchanges_log.specs.inner.ExchangeReadings.{ReadsExchange};

    /// No line yet.
    pub fn new(alloc: Global, header: LogHeader, key: Option<String>) -> Result<Reader, AllocError>
        ensures read { IfOk result (AreExchangesRead (string_bytes header.opening) []) }
        ensures rule { IfOk result (λ reader. rule_of reader ≡
            record { limited = is_some header.limit; key = option_map string_bytes key }) }
        ensures none { IfOk result (λ reader. reader.ops.items ≡ []) }
    {
        let limited = header.limit.is_some();
        let numbering = Numbering::new(alloc, header.opening)?;
        Ok(Reader {
            limited,
            key,
            numbering,
            ops: Vec::new(alloc),
        })
    }

    /// Reads the next line, behind which another one stands or not, and says whether it is the end.
    pub fn read(&mut self, alloc: Global, bytes: &[u8], last: bool) -> Result<bool, Fault>
        requires room { length self.old.ops.items + 2 < 2 ^ 64 }
        requires known { HasReadExchanges self.old }
        ensures read { IfOk result (λ ended. (opening : List ℕ) (lines : List (List ℕ)) →
            AreExchangesRead opening lines self.old →
            ReadsExchange opening lines bytes.now last self.old self.new ended) }
        ensures rule { OnOk result (rule_of self.new ≡ rule_of self.old) }
        ensures grows { OnOk result (length self.new.ops.items ≤ length self.old.ops.items + 1) }
        ensures fault { IfErr result (λ fault. (opening : List ℕ) (lines : List (List ℕ)) →
            AreExchangesRead opening lines self.old →
            IsExchangeFault (rule_of self.old) lines bytes.now last fault) }
    {
        let place = self.ops.len();
        match read_op(alloc, self.limited, &self.key, place, last, bytes) {
            Ok(Some(op)) => match self.enter(op) {
                Ok(()) => Ok(false),
                Err(_) => Err(Fault::NoMemory),
            },
            Ok(None) => Ok(true),
            Err(why) => Err(refused_at(line_at(place), why)),
        }
    }

    /// Enters the operation of the next line.
    fn enter(&mut self, op: ExchangeOp) -> Result<(), AllocError>
        ensures entered { OnOk result ((opening : List ℕ) (lines : List (List ℕ)) (line : List ℕ) (last : Bool) →
            AreExchangesRead opening lines self.old →
            judged_line (rule_of self.old) (length lines) last line ≡ Ok (Some (exchange_seen op)) →
            AreExchangesRead opening (lines ++ line ∷ []) self.new) }
        ensures rule { OnOk result (rule_of self.new ≡ rule_of self.old) }
        ensures grows { OnOk result (length self.new.ops.items ≡ length self.old.ops.items + 1) }
    {
        let next = number_op(&mut self.numbering, op)?;
        self.ops.push(next)?;
        Ok(())
    }
}
