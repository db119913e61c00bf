//! The numbers of the records that an operation names.
ghost use Rattle.std.specs.Prelude.{◌≡◌, ◌∷◌, [], ℕ, List, IfOk, option_map, string_bytes};
ghost use Rattle.read_exchange.specs.Exchanges.{exchange_seen, what_seen};
ghost use Rattle.watch_lines.specs.Namings.{AreKeptNumbers, GotNumbers, IsNamedExchange, IsNamedWhat, Naming};

use crate::records::Records;
use lines_log::fitted;
use object_core::Operation;
use object_registers::Exchange;
use read_exchange::{ExchangeOp, TextExchange};
use std::alloc::AllocError;

/// An operation with the numbers of its records.
pub(crate) fn number_op(
    records: &mut Records,
    op: ExchangeOp,
) -> Result<Operation<Exchange>, AllocError>
    ensures times { IfOk result (λ next. (next.starts ≡ op.begin) × (next.ends ≡ op.end)) }
    ensures named { IfOk result (λ next. (all : List (List ℕ)) (naming : Naming) →
        AreKeptNumbers all naming records.old →
        IsNamedExchange all naming records.old (exchange_seen op) records.new next) }
{
    let ExchangeOp {
        begin,
        end,
        maybe,
        what,
        ..
    } = op;
    let what = number_what(records, what)?;
    Ok(Operation {
        starts: begin,
        ends: end,
        maybe,
        what,
    })
}

fn number_what(records: &mut Records, what: TextExchange) -> Result<Exchange, AllocError>
    ensures { IfOk result (λ next. (all : List (List ℕ)) (naming : Naming) → AreKeptNumbers all naming records.old →
        IsNamedWhat all naming records.old (what_seen what) records.new next) }
{
    match what {
        TextExchange::Sets(text) => {
            let number = number(records, text)?;
            Ok(Exchange::Sets(number))
        }
        TextExchange::Gets(None) => Ok(Exchange::Gets(0)),
        TextExchange::Gets(Some(text)) => {
            let number = number(records, text)?;
            Ok(Exchange::Gets(number))
        }
        TextExchange::Swaps { from, to } => {
            let (from, to) = number_two(records, from, to)?;
            Ok(Exchange::Swaps(from, to))
        }
        TextExchange::Misses { from, to } => {
            let (from, _) = number_two(records, from, to)?;
            Ok(Exchange::Misses(from))
        }
        TextExchange::Finds { from, to, found } => {
            let (from, _, found) = number_three(records, from, to, found)?;
            Ok(Exchange::Finds(from, found))
        }
        TextExchange::Tries { from, to } => {
            let (from, to) = number_two(records, from, to)?;
            Ok(Exchange::Tries(from, to))
        }
        TextExchange::Refuses(text) => {
            let number = number(records, text)?;
            Ok(Exchange::Refuses(number))
        }
    }
}

fn number(records: &mut Records, text: String) -> Result<u64, AllocError>
    ensures { IfOk result (λ n. (all : List (List ℕ)) (naming : Naming) → AreKeptNumbers all naming records.old →
        GotNumbers all naming records.old (string_bytes text ∷ []) (n ∷ []) records.new) }
{
    let number = records.number(fitted(text))?;
    Ok(number)
}

fn number_two(
    records: &mut Records,
    first: String,
    second: String,
) -> Result<(u64, u64), AllocError>
    ensures { IfOk result (λ two. (all : List (List ℕ)) (naming : Naming) → AreKeptNumbers all naming records.old →
        GotNumbers all naming records.old (string_bytes first ∷ string_bytes second ∷ []) (two.0 ∷ two.1 ∷ [])
        records.new) }
{
    let first = number(records, first)?;
    let second = number(records, second)?;
    Ok((first, second))
}

fn number_three(
    records: &mut Records,
    first: String,
    second: String,
    third: String,
) -> Result<(u64, u64, u64), AllocError>
    ensures { IfOk result (λ three. (all : List (List ℕ)) (naming : Naming) → AreKeptNumbers all naming records.old →
        GotNumbers all naming records.old (string_bytes first ∷ string_bytes second ∷ string_bytes third ∷ [])
        (three.0 ∷ three.1 ∷ three.2 ∷ []) records.new) }
{
    let (first, second) = number_two(records, first, second)?;
    let third = number(records, third)?;
    Ok((first, second, third))
}
