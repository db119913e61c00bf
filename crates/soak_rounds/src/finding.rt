//! What a soak found.
ghost use Rattle.std.specs.Prelude.{◌≡◌, ℕ};
ghost use Rattle.soak_rounds.specs.Findings.{exit_of, last_read, no_tally, stop_of, with_end};
ghost use Rattle.soak_rounds.specs.Findings.{with_read, with_tally, with_write};
ghost use Rattle.soak_rounds.specs.Findings.{wrong_end, wrong_read};

use program_streams::Exit;
use std::{fmt, io};

/// A record that no reader may see.
#[derive(Clone, Copy, Debug, PartialEq, Eq)]
pub enum Finding {
    /// Its words are of several writes.
    Torn,
    /// Its write is before one that the reader saw.
    Older,
    /// No such write was made.
    Foreign,
}

impl fmt::Display for Finding {
    fn fmt<W: fmt::Write>(&self, f: &mut fmt::Formatter<W>) -> fmt::Result {
        f.write_str(match self {
            Finding::Torn => "a torn record",
            Finding::Older => "an older record",
            Finding::Foreign => "a foreign record",
        })
    }
}

/// The writes and reads that were made, and the first wrong record among those read. The
/// counts stand still at their end.
#[derive(Clone, Copy)]
pub struct Tally {
    pub writes: u64,
    pub reads: u64,
    pub found: Option<Finding>,
}

impl Tally {
    pub fn none() -> Tally
        ensures { result ≡ no_tally }
    {
        Tally {
            writes: 0,
            reads: 0,
            found: None,
        }
    }

    /// Counts one more write.
    pub fn write(&mut self)
        ensures { self.new ≡ with_write self.old }
    {
        self.writes = self.writes.saturating_add(1);
    }

    /// Counts one more read, of a record of the write `number`, after one of the write
    /// `last`. What was found first stays.
    pub fn note(&mut self, last: u64, number: Option<u64>)
        ensures { self.new ≡ with_read self.old last number }
    {
        self.reads = self.reads.saturating_add(1);
        self.found = self.found.or(wrong_read(last, number));
    }

    /// Adds what another counted after this.
    pub fn add(&mut self, other: Tally)
        ensures { self.new ≡ with_tally self.old other }
    {
        self.writes = self.writes.saturating_add(other.writes);
        self.reads = self.reads.saturating_add(other.reads);
        self.found = self.found.or(other.found);
    }

    /// Sees at a round's end that the last record read has a write.
    pub fn end(&mut self, written: u64, read: u64)
        ensures { self.new ≡ with_end self.old written read }
    {
        self.found = self.found.or(wrong_end(written, read));
    }
}

/// What is wrong with a record of the write `number` that was read after one of the write `last`.
fn wrong_read(last: u64, number: Option<u64>) -> Option<Finding>
    ensures { result ≡ wrong_read last number }
{
    match number {
        None => Some(Finding::Torn),
        Some(number) if number < last => Some(Finding::Older),
        Some(_) => None,
    }
}

/// The last write of which a record was read.
pub fn last_read(last: u64, number: Option<u64>) -> u64
    ensures { result ≡ last_read last number }
{
    match number {
        None => last,
        Some(number) => number,
    }
}

/// What is wrong at the end of a round that wrote and read up to these numbers.
fn wrong_end(written: u64, read: u64) -> Option<Finding>
    ensures { result ≡ wrong_end written read }
{
    if written < read {
        Some(Finding::Foreign)
    } else {
        None
    }
}

/// How a soak that ended so ends: as one that is sound only where nothing was found.
pub fn exit(ended: &io::Result<Option<Finding>>) -> Exit
    ensures { result ≡ exit_of ended.now }
{
    match ended {
        Ok(None) => Exit::Sound,
        Ok(Some(_)) => Exit::Unsound,
        Err(error) => stop(error.kind()),
    }
}

/// How a soak ends that an error of this kind stops.
fn stop(kind: io::ErrorKind) -> Exit
    ensures { result ≡ stop_of kind }
{
    match kind {
        io::ErrorKind::OutOfMemory => Exit::NoMemory,
        io::ErrorKind::WouldBlock => Exit::NoThread,
        _ => Exit::Stream,
    }
}
