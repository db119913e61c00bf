//! The search.

ghost use Rattle.std.specs.Prelude.{◌≡◌, IfOk, length, map};
ghost use Rattle.history_coherence.specs.Answers.{AreWrittenOnce, IsCoherence};
ghost use Rattle.history_coherence.specs.inner.Keys.{AreMet, AreUpTo, HaveSources, IsTabled};
ghost use Rattle.history_coherence.specs.inner.Keys.{NoneAhead, NumbersUpTo, written_record};
ghost use Rattle.history_coherence.specs.inner.Sortings.{ahead_at, circle_of, HaveKnownRecords, links_at};

use crate::check::{first_ahead, first_back, first_unwritten};
use crate::coherence::{Coherence, Incoherence, Link};
use crate::edge::{Tables, edge_at};
use crate::key::{
    finished_records, greatest_record, keys_of, met_numbers, tasks_of, written_records,
};
use crate::order::{Sorting, sort_log};
use crate::previous::previous_places;
use history_core::{Items, Op};
use std::alloc::{AllocError, Global};

/// A coherent order of a log, or a reason why there is none. Records are numbers: each is written at most once, and 0,
/// the opening, never, as `check_written` tells. It takes n log n steps for n operations, and its memory grows with the
/// greatest number of a record.
pub fn search_coherent(alloc: Global, log: &[Op<usize>]) -> Result<Coherence, AllocError>
    requires { AreWrittenOnce log.now }
    ensures { IfOk result (IsCoherence log.now) }
{
    let greatest = greatest_record(log);
    let records = written_records(alloc, log)?;
    let written = met_numbers(alloc, records.as_slice(), greatest)?;
    match first_unwritten(log, written.as_slice()) {
        Some(read) => Ok(Coherence::Incoherent {
            reason: Incoherence::Unwritten { read },
        }),
        None => search_written(alloc, log, written.as_slice(), greatest),
    }
}

/// The answer where each record that a finished operation has is written.
fn search_written(
    alloc: Global,
    log: &[Op<usize>],
    written: &[bool],
    greatest: usize,
) -> Result<Coherence, AllocError>
    requires once { AreWrittenOnce log.now }
    requires up_to { AreUpTo log.now greatest }
    requires met { AreMet (map written_record log.now) (length (map written_record log.now)) written.now }
    requires sources { HaveSources log.now written.now }
    ensures { IfOk result (IsCoherence log.now) }
{
    let tables = tables_of(alloc, log, greatest)?;
    if let Some(write) = first_ahead(log, &tables) {
        return Ok(Coherence::Incoherent {
            reason: ahead_at(&tables, write),
        });
    }
    search_circle(alloc, log, &tables, greatest)
}

/// What is known of the operations that have to stand.
fn tables_of(alloc: Global, log: &[Op<usize>], greatest: usize) -> Result<Tables, AllocError>
    requires { AreUpTo log.now greatest }
    ensures tabled { IfOk result (IsTabled log.now) }
    ensures within { IfOk result (λ tables. NumbersUpTo tables.keys.items greatest) }
{
    let records = finished_records(alloc, log)?;
    let asked = met_numbers(alloc, records.as_slice(), greatest)?;
    let keys = keys_of(alloc, log, asked.as_slice())?;
    let tasks = tasks_of(alloc, log, asked.as_slice())?;
    let earlier = previous_places(alloc, tasks.as_slice())?;
    let mates = previous_places(alloc, keys.as_slice())?;
    Ok(Tables {
        keys,
        earlier,
        mates,
    })
}

/// The operation before this write, of the same task and record.
fn ahead_at(tables: &Tables, write: usize) -> Incoherence
    ensures { result ≡ ahead_at tables.now write }
{
    let read = match edge_at(tables, write) {
        Some(edge) => edge.link.earlier,
        None => write,
    };
    Incoherence::Ahead { read, write }
}

/// The answer where no task has a record before it writes it.
fn search_circle(
    alloc: Global,
    log: &[Op<usize>],
    tables: &Tables,
    greatest: usize,
) -> Result<Coherence, AllocError>
    requires once { AreWrittenOnce log.now }
    requires within { NumbersUpTo tables.now.keys.items greatest }
    requires tabled { IsTabled log.now tables.now }
    requires sources { HaveKnownRecords log.now tables.now.keys.items }
    requires none { NoneAhead log.now tables.now }
    ensures { IfOk result (IsCoherence log.now) }
{
    if let Some(later) = first_back(tables, tables.keys.len()) {
        let links = one_link(alloc, tables, later)?;
        return Ok(circle(links));
    }
    match sort_log(alloc, log, tables, greatest)? {
        Sorting::Order(order) => Ok(Coherence::Coherent {
            order: Items::new(order),
        }),
        Sorting::Circle(links) => Ok(circle(links)),
    }
}

fn circle(links: Vec<Link>) -> Coherence
    ensures { result ≡ circle_of links.items }
{
    Coherence::Incoherent {
        reason: Incoherence::Circle {
            links: Items::new(links),
        },
    }
}

/// The link that ends at this place, alone.
fn one_link(alloc: Global, tables: &Tables, later: usize) -> Result<Vec<Link>, AllocError>
    ensures { IfOk result (λ v. v.items ≡ links_at tables.now later) }
{
    let mut links = Vec::new(alloc);
    if let Some(edge) = edge_at(tables, later) {
        links.push(edge.link)?;
    }
    Ok(links)
}
