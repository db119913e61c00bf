//! Numbers in place of records.
ghost use Rattle.std.specs.Prelude.{[], ◌∷◌, ℕ, List, IfOk, string_bytes};
ghost use Rattle.read_exchange.specs.Exchanges.{exchange_seen, what_seen};
ghost use Rattle.exchanges_log.specs.ExchangeNumbers.{GaveNumbers, IsExchangeNow, IsOperationNow};
ghost use Rattle.exchanges_log.specs.Numberings.{IsNumbering};

use crate::numbering::Numbering;
use lines_log::fitted;
use object_core::Operation;
use object_registers::Exchange;
use read_exchange::{ExchangeOp, TextExchange};
use std::alloc::AllocError;

/// An operation with the numbers of its records.
pub fn number_op(
    numbering: &mut Numbering,
    op: ExchangeOp,
) -> Result<Operation<Exchange>, AllocError>
    ensures { IfOk result (λ next. (records : List (List ℕ)) → IsNumbering records numbering.old →
        IsOperationNow records (exchange_seen op) numbering.new next) }
{
    let ExchangeOp {
        begin,
        end,
        maybe,
        what,
        ..
    } = op;
    let what = number_what(numbering, what)?;
    Ok(Operation {
        starts: begin,
        ends: end,
        maybe,
        what,
    })
}

fn number_what(numbering: &mut Numbering, what: TextExchange) -> Result<Exchange, AllocError>
    ensures { IfOk result (λ next. (records : List (List ℕ)) → IsNumbering records numbering.old →
        IsExchangeNow records (what_seen what) numbering.new next) }
{
    match what {
        TextExchange::Sets(text) => {
            let number = number(numbering, text)?;
            Ok(Exchange::Sets(number))
        }
        TextExchange::Gets(None) => Ok(Exchange::Gets(0)),
        TextExchange::Gets(Some(text)) => {
            let number = number(numbering, text)?;
            Ok(Exchange::Gets(number))
        }
        TextExchange::Swaps { from, to } => {
            let (from, to) = number_two(numbering, from, to)?;
            Ok(Exchange::Swaps(from, to))
        }
        TextExchange::Misses { from, to } => {
            let (from, _) = number_two(numbering, from, to)?;
            Ok(Exchange::Misses(from))
        }
        TextExchange::Finds { from, to, found } => {
            let (from, _, found) = number_three(numbering, from, to, found)?;
            Ok(Exchange::Finds(from, found))
        }
        TextExchange::Tries { from, to } => {
            let (from, to) = number_two(numbering, from, to)?;
            Ok(Exchange::Tries(from, to))
        }
        TextExchange::Refuses(text) => {
            let number = number(numbering, text)?;
            Ok(Exchange::Refuses(number))
        }
    }
}

fn number(numbering: &mut Numbering, text: String) -> Result<u64, AllocError>
    ensures { IfOk result (λ n. (records : List (List ℕ)) → IsNumbering records numbering.old →
        GaveNumbers records (string_bytes text ∷ []) (n ∷ []) numbering.new) }
{
    let number = numbering.number(fitted(text))?;
    Ok(number as u64)
}

fn number_two(
    numbering: &mut Numbering,
    first: String,
    second: String,
) -> Result<(u64, u64), AllocError>
    ensures { IfOk result (λ two. (records : List (List ℕ)) → IsNumbering records numbering.old →
        GaveNumbers records (string_bytes first ∷ string_bytes second ∷ []) (two.0 ∷ two.1 ∷ []) numbering.new) }
{
    let first = number(numbering, first)?;
    let second = number(numbering, second)?;
    Ok((first, second))
}

fn number_three(
    numbering: &mut Numbering,
    first: String,
    second: String,
    third: String,
) -> Result<(u64, u64, u64), AllocError>
    ensures { IfOk result (λ three. (records : List (List ℕ)) → IsNumbering records numbering.old →
        GaveNumbers records (string_bytes first ∷ string_bytes second ∷ string_bytes third ∷ [])
        (three.0 ∷ three.1 ∷ three.2 ∷ []) numbering.new) }
{
    let (first, second) = number_two(numbering, first, second)?;
    let third = number(numbering, third)?;
    Ok((first, second, third))
}
