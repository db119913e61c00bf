ghost use Rattle.std.specs.Prelude.{◌≡◌};
ghost use Rattle.program_runs.specs.Faults.{play_fault, refusal_fault};
ghost use Rattle.program_runs.specs.declared.fault.Fault.TheVariants.{NoMemory};

use history_core::{Items, PlayError};
use program_streams::Exit;
use read_document::{DocError, Key};
use std::alloc::AllocError;
use std::fmt;

/// What goes to standard output, and the status that the program ends with.
#[derive(Drop)]
pub struct Answer {
    pub text: Items<u8>,
    pub status: u8,
}

/// Why no order is looked for of a history. Places are those of its operations, counted from 0.
#[derive(Clone, Copy)]
pub enum HistoryFault {
    WritesTwice { first: usize, second: usize },
    WritesOpening { place: usize },
}

impl fmt::Display for HistoryFault {
    fn fmt<W: fmt::Write>(&self, f: &mut fmt::Formatter<W>) -> fmt::Result {
        match self {
            HistoryFault::WritesTwice { first, second } => {
                write!(f, "operations {first} and {second} write one record")
            }
            HistoryFault::WritesOpening { place } => {
                write!(f, "operation {place} writes the opening")
            }
        }
    }
}

/// Why a log in lines has no answer. Lines are counted from 1, the header's.
#[derive(Clone, Copy)]
pub enum LinesFault {
    /// Neither is the first line a header nor the whole a document.
    Headless {
        why: DocError,
    },
    Refused {
        line: usize,
        why: DocError,
    },
    Backwards {
        line: usize,
    },
    /// The operation on the second line began before the one of the same task on the first line had ended.
    Overlaps {
        who: usize,
        first: usize,
        second: usize,
    },
    WritesTwice {
        first: usize,
        second: usize,
    },
    WritesOpening {
        line: usize,
    },
}

impl fmt::Display for LinesFault {
    fn fmt<W: fmt::Write>(&self, f: &mut fmt::Formatter<W>) -> fmt::Result {
        match self {
            LinesFault::Headless { why } => {
                write!(
                    f,
                    "line 1: no header of kind `lines`, and no document: {why}"
                )
            }
            LinesFault::Refused { line, why } => { write!(f, "line {line}: {why}{}", hint(*why)) }
            LinesFault::Backwards { line } => write!(f, "line {line}: end before begin"),
            LinesFault::Overlaps { who, first, second } => {
                write!(f, "lines {first} and {second}: who {who} overlaps itself")
            }
            LinesFault::WritesTwice { first, second } => {
                write!(f, "line {second}: writes the record of line {first}")
            }
            LinesFault::WritesOpening { line } => write!(f, "line {line}: writes the opening"),
        }
    }
}

/// What to do about the refusal of a line, where its words don't say it.
fn hint(why: DocError) -> &'static str {
    match why {
        DocError::Missing(Key::Who) => "; only `fsr watch` takes a floor",
        DocError::Missing(Key::End) => {
            "; an unfinished operation has null, and only `fsr watch` takes a floor"
        }
        DocError::Shape(Key::Kind) => {
            "; a `cas` needs `repeats` in the header, and `done` is the last line"
        }
        DocError::Law(Key::Key) => "; such a log has one key, that of its first operation",
        DocError::Law(Key::Repeats) => "; `fsr order` without `--coherent` takes it",
        _ => "",
    }
}

/// Why a document has no answer.
#[derive(Clone, Copy)]
pub enum Fault {
    Document(DocError),
    History(HistoryFault),
    Lines(LinesFault),
    /// The step at this position of the schedule is of an actor that has no operation left.
    Schedule { position: u64 },
    NoMemory,
    /// Nothing was run, since a thread can't start.
    NoThread,
    /// There is no verdict on a log: at the end of the operation on this line are more configurations than the budget.
    Undecided { line: usize },
}

impl fmt::Display for Fault {
    fn fmt<W: fmt::Write>(&self, f: &mut fmt::Formatter<W>) -> fmt::Result {
        match self {
            Fault::Document(why) => write!(f, "document: {why}"),
            Fault::History(why) => write!(f, "history: {why}"),
            Fault::Lines(why) => why.fmt(f),
            Fault::Schedule { position } => {
                write!(f, "schedule: no operation left at step {position}")
            }
            Fault::NoMemory => f.write_str("out of memory"),
            Fault::NoThread => f.write_str("a thread can't start"),
            Fault::Undecided { line } => write!(f, "line {line}: too many configurations"),
        }
    }
}

impl Fault {
    ghost use Rattle.std.specs.Prelude.{◌≡◌};
    ghost use Rattle.program_runs.specs.Run.{exit_of};

    /// How a run with this fault ends.
    pub fn exit(&self) -> Exit
        ensures { result ≡ exit_of self.now }
    {
        match self {
            Fault::Document(_) | Fault::History(_) | Fault::Lines(_) | Fault::Schedule { .. } => {
                Exit::Refused
            }
            Fault::NoMemory => Exit::NoMemory,
            Fault::NoThread => Exit::NoThread,
            Fault::Undecided { .. } => Exit::Undecided,
        }
    }
}

impl From<AllocError> for Fault {
    ghost from_gives = { λ _ fault. fault ≡ NoMemory };

    fn from(_e: AllocError) -> Fault {
        Fault::NoMemory
    }
}

impl From<DocError> for Fault {
    ghost from_gives = { λ refusal fault. fault ≡ refusal_fault refusal };

    fn from(refusal: DocError) -> Fault {
        match refusal {
            DocError::NoMemory => Fault::NoMemory,
            _ => Fault::Document(refusal),
        }
    }
}

impl From<PlayError> for Fault {
    ghost from_gives = { λ error fault. fault ≡ play_fault error };

    fn from(error: PlayError) -> Fault {
        match error {
            PlayError::NoMemory => Fault::NoMemory,
            PlayError::TooManySteps { position } => Fault::Schedule { position },
        }
    }
}
