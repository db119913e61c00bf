//! Races: the scripts of a document, each run by a task of its own over one board.
ghost use Rattle.std.specs.Prelude.{◌≡◌, ℕ, IfErr, IfOk, map};
ghost use Rattle.read_schedule.specs.Players.{CanRace};
ghost use Rattle.program_runs.specs.Answers.{GivesReply};
ghost use Rattle.fsr_answers.specs.RaceAnswers.{AnswersRace, IsRaceAnswer, exit_of};
ghost use Rattle.fsr_answers.specs.Races.{CountsAll, IsRace, broken_at, counts_of, is_refused};
ghost use Rattle.fsr_answers.specs.Races.{is_seen, is_written, replies};
ghost use Rattle.board_tasks.specs.Tasks.{Permitted};
ghost use Rattle.read_document.specs.Refusals.{Gives as Reads};
ghost use Rattle.read_schedule.specs.Document.{race_of};
ghost use Rattle.program_runs.specs.declared.fault.Fault.TheVariants.{NoMemory};

use board_live::{Board, BoardError, Posted};
use board_tasks::{
    Entry, Gate, OpenGate, Origin, Reply, check_origin, finish_lanes, make_lanes, run_tasks,
};
use cell_contract::{Family, SharedFamily};
use history_core::{Band, Items, Wish};
use print_report::{Counts, Report, report_text_leaking};
use program_runs::{Answer, Fault};
use program_streams::Exit;
use read_document::{DocError, read_value};
use read_schedule::{RaceDocument, race_document};
use std::alloc::{AllocError, Global};
use std::mem::forget;
use std::thread::Threads;

/// The answer of the command `race` to the bytes of a document: what a race of its scripts tells, whose gate lets every
/// call through, over a board of the family that the caller names.
pub fn run_race<R: Threads + Sync, F: SharedFamily<Posted<Band>>>(
    rt: &R,
    alloc: Global,
    bytes: &[u8],
) -> Result<Answer, Fault>
where
    F::Seat: Send,
    F::Receipt: Send,
    ensures { GivesReply (IsRaceAnswer ⟦<F as Family<Posted<Band>>>⟧ bytes.now) result }
{
    let document = read(alloc, bytes)?;
    race_to_the_end::<R, F>(rt, alloc, document)
}

/// The race that the bytes stand for. The JSON value that they are is left unfreed, as that of a schedule.
#[tactic(auto, unfolding(read_schedule::specs::Document::race_of))]
fn read(alloc: Global, bytes: &[u8]) -> Result<RaceDocument, DocError>
    ensures document { Reads (λ d. d) result (race_of bytes.now) }
    ensures playable { IfOk result (λ d. CanRace d.opening d.limit d.scripts) }
{
    let value = read_value(alloc, bytes)?;
    let document = race_document(alloc, &value);
    forget(value);
    document
}

/// The report of a race whose gate lets every call through.
fn race_to_the_end<R: Threads + Sync, F: SharedFamily<Posted<Band>>>(
    rt: &R,
    alloc: Global,
    document: RaceDocument,
) -> Result<Answer, Fault>
where
    F::Seat: Send,
    F::Receipt: Send,
    requires { CanRace document.opening document.limit document.scripts }
    ensures { GivesReply (AnswersRace ⟦<F as Family<Posted<Band>>>⟧ document) result }
{
    let RaceDocument {
        opening,
        limit,
        scripts,
    } = document;
    let report = race::<R, OpenGate, F>(rt, alloc, opening, limit, scripts, &OpenGate)?;
    let status = exit_of(&report).status();
    let text = report_text_leaking(alloc, report)?;
    Ok(Answer { text, status })
}

fn exit_of(report: &Report) -> Exit
    ensures { result ≡ exit_of report.now }
{
    match report {
        Report::Race {
            broken: Some(_),
            ..
        } => Exit::Unsound,
        _ => Exit::Sound,
    }
}

/// Runs each script as a task of its own, in threads, over a board of this family, ends the board, and tells what the
/// logs say: they tell of calls that are atomic by their intervals, so that no origin is broken.
pub fn race<R: Threads + Sync, G: Gate + Sync, F: SharedFamily<Posted<Band>>>(
    rt: &R,
    alloc: Global,
    opening: Band,
    limit: u64,
    scripts: Items<Items<Wish<Band>>>,
    gate: &G,
) -> Result<Report, Fault>
where
    F::Seat: Send,
    F::Receipt: Send,
    requires { CanRace opening limit scripts }
    ensures report { IfOk result
        (IsRace ⟦<F as Family<Posted<Band>>>⟧ (Permitted G.is_for gate.now)
        (G.may_stop gate.now) opening limit scripts) }
    ensures counted { ((task call : ℕ) → G.may_stop gate.now task call → ⊥) → IfOk result (CountsAll scripts) }
    ensures refused { IfErr result (λ e. e ≡ NoMemory) }
{
    let processes = scripts.as_slice().len();
    let (board, passes) = match Board::<Band, F>::new(alloc, processes, limit, opening) {
        Ok(made) => made,
        Err(BoardError::NoMemory) => return Err(Fault::NoMemory),
        Err(BoardError::Processes | BoardError::Limit | BoardError::Opening) => unreachable!(),
    };
    let mut lanes = make_lanes(alloc, passes, scripts)?;
    run_tasks(rt, &board, lanes.as_mut_slice(), gate);
    let (logs, _last) = finish_lanes(alloc, board, lanes)?;
    let tasks = Items::new(counts(alloc, logs.as_slice())?);
    let broken = broken_at(check_origin(opening, logs.as_slice()));
    Ok(Report::Race { tasks, broken })
}

/// Where the check of the logs found an entry without its origin.
fn broken_at(origin: Origin) -> Option<(usize, usize)>
    ensures { result ≡ broken_at origin }
{
    match origin {
        Origin::Sound => None,
        Origin::Broken { task, call } => Some((task, call)),
    }
}

/// The counts of each log.
fn counts(alloc: Global, logs: &[Vec<Entry<Band>>]) -> Result<Vec<Counts>, AllocError>
    ensures { IfOk result (λ counts. counts.items ≡ map (λ log. counts_of log.items) logs.now) }
{
    let mut counts = Vec::new(alloc);
    for log in logs {
        counts.push(counts_of(log.as_slice()))?;
    }
    Ok(counts)
}

/// How many entries of the log were answered in each way.
fn counts_of(log: &[Entry<Band>]) -> Counts
    ensures { result ≡ counts_of log.now }
{
    Counts {
        writes: written(log),
        reads: seen(log),
        refused: refused(log),
    }
}

fn written(log: &[Entry<Band>]) -> u64
    ensures { result ≡ replies is_written log.now }
{
    log.iter().filter(|entry| is_written(&entry.reply)).count() as u64
}

fn seen(log: &[Entry<Band>]) -> u64
    ensures { result ≡ replies is_seen log.now }
{
    log.iter().filter(|entry| is_seen(&entry.reply)).count() as u64
}

fn refused(log: &[Entry<Band>]) -> u64
    ensures { result ≡ replies is_refused log.now }
{
    log.iter().filter(|entry| is_refused(&entry.reply)).count() as u64
}

fn is_written(reply: &Reply<Band>) -> bool
    ensures { result ≡ is_written reply.now }
{
    matches!(reply, Reply::Written(_))
}

fn is_seen(reply: &Reply<Band>) -> bool
    ensures { result ≡ is_seen reply.now }
{
    matches!(reply, Reply::Seen(_))
}

fn is_refused(reply: &Reply<Band>) -> bool
    ensures { result ≡ is_refused reply.now }
{
    matches!(reply, Reply::Ended(_))
}
