ghost use Rattle.std.specs.Prelude.{◌≡◌, ◌≢◌, None, Some, codes, false, is_some, map, option_map, unwrap_or};
ghost use Rattle.std.specs.Prelude.{IfOk, IfErr};
ghost use Rattle.clap.specs.Words.{app_of, first_of, found_of, rows_of, rule_of, subcommand_rows_of, with_subcommand};
ghost use Rattle.fsr_words.specs.Command.{fsr, budget, budget_in, command_of, file_in, file_of, flag, is_told};
ghost use Rattle.fsr_words.specs.Command.{over_a_coming_log, over_a_document, over_a_log, request_in, request_named};
ghost use Rattle.fsr_words.specs.Command.{has_others, order_in};
ghost use Rattle.fsr_words.specs.Command.{show_in, with_documents};
ghost use Rattle.fsr_words.specs.Command.{budget_named, Refuses};
ghost use Rattle.program_runs.specs.Shows.{usual_budget};

use clap::builder::ValueParser;
use clap::error::ErrorKind;
use clap::{Arg, ArgAction, ArgMatches, Command, Error};
use program_runs::{MOST_BUDGET, Show, budget_of};
use std::alloc::{AllocError, Global};
use std::convert::AsStr;

/// A command of `fsr`. Each takes documents of its own kinds.
#[derive(Clone, Copy, PartialEq, Eq)]
pub enum Want {
    Check,
    Order(Show),
    Play,
    Race,
}

/// What is asked of `fsr`.
#[derive(Clone, Copy, PartialEq, Eq)]
pub enum Request {
    /// A command over a document.
    Answer(Want),
    /// Whether a log is coherent.
    Coherent,
    /// To watch a log as it comes, of which so many configurations may be held.
    Watch { budget: usize },
}

/// A request, and the file that it takes its document or log from, if one is named.
#[derive(Clone, Copy)]
pub struct Asked<'a> {
    pub request: Request,
    pub file: Option<&'a str>,
}

/// Why words are no command.
#[derive(Drop)]
pub enum NoCommand {
    /// Among them requests for help and for the version.
    Refused(Error),
    /// Together the words ask for what no command does.
    Unknown,
    NoMemory,
}

/// The version, that of all parts.
const VERSION: &str = "2.1.0";

/// The help that names what each command reads.
const FORMATS: &str = "What each command reads, as docs/FORMATS.md has it:
  check  a history with an order of it, a document of kind `check`
  order  a log, in lines (JSON Lines of kind `lines`) or as a document of kind `log`
  play   a schedule, a document of kind `cell`, `matrix` or `board`
  race   the scripts of tasks, a document of kind `race`
  watch  a log in lines with floors, as it comes";

/// The command line with one command more, over a document, which is read from standard input where no file is named.
fn with_command<'a>(
    alloc: Global,
    line: Command<'a>,
    name: &'a str,
    about: &'a str,
) -> Result<Command<'a>, AllocError>
    ensures { IfOk result (λ c. app_of c ≡ with_subcommand (app_of line.entry) (over_a_document name.entry.now)) }
{
    let file = Arg::new(alloc, "FILE").help("The document, in place of standard input");
    let command = Command::new(alloc, name).about(about).arg(file)?;
    line.subcommand(command)
}

/// The command line with the command `order` more, which may be told what to print and how to judge.
fn with_order<'a>(alloc: Global, line: Command<'a>) -> Result<Command<'a>, AllocError>
    ensures { IfOk result (λ c. app_of c ≡ with_subcommand (app_of line.entry) over_a_log) }
{
    let file = Arg::new(alloc, "FILE").help("The document, in place of standard input");
    let order = flag(alloc, "order").help(
        "Of a log in lines also the lines of the writes, in the order that was found",
    );
    let small = flag(alloc, "small").help(
        "Of a log in lines a small one without an order, or nothing, in place of all else",
    );
    let strict = flag(alloc, "strict").help(
        "Of a log in lines status 8 in place of 0 if a lawful one shows nothing or little",
    );
    let coherent = flag(alloc, "coherent").help(
        "Of a log in lines, whether an order suits each task by itself, without a clock",
    );
    let budget = budget(alloc).help(
        "Of a log whose records repeat, how many configurations may be held: 1 to 1000000000, else 10000",
    );
    let command = Command::new(alloc, "order")
        .about("Finds a lawful order of a log, or tells why there is none")
        .arg(file)?
        .arg(order)?
        .arg(small)?
        .arg(strict)?
        .arg(coherent)?
        .arg(budget)?;
    line.subcommand(command)
}

/// The command line with the command `watch` more, which may be told how to judge.
fn with_watch<'a>(alloc: Global, line: Command<'a>) -> Result<Command<'a>, AllocError>
    ensures { IfOk result (λ c. app_of c ≡ with_subcommand (app_of line.entry) over_a_coming_log) }
{
    let file = Arg::new(alloc, "FILE").help("The log, in place of standard input");
    let budget = budget(alloc).help(
        "How many configurations may be held: 1 to 1000000000, else 10000",
    );
    let command = Command::new(alloc, "watch")
        .about("Watches a log as it comes, and tells at once the line at which it is lost")
        .arg(file)?
        .arg(budget)?;
    line.subcommand(command)
}

/// How many configurations may be held.
fn budget<'a>(alloc: Global) -> Arg<'a>
    ensures rule { rule_of result ≡ budget }
    ensures local { result.global ≡ false }
{
    Arg::new(alloc, "budget")
        .long("budget")
        .value_name("N")
        .action(ArgAction::Set)
        .value_parser(ValueParser::Unsigned(1, MOST_BUDGET as u64))
}

/// A word that is there or not.
fn flag<'a>(alloc: Global, name: &'a str) -> Arg<'a>
    ensures rule { rule_of result ≡ flag name.entry.now }
    ensures local { result.global ≡ false }
{
    Arg::new(alloc, name).long(name).action(ArgAction::SetTrue)
}

/// The command line with the commands over documents.
fn with_documents<'a>(alloc: Global, line: Command<'a>) -> Result<Command<'a>, AllocError>
    ensures { IfOk result (λ c. app_of c ≡ with_documents (app_of line.entry)) }
{
    let line = with_command(
        alloc,
        line,
        "check",
        "Checks that an order of a history is atomic",
    )?;
    let line = with_order(alloc, line)?;
    let line = with_command(
        alloc,
        line,
        "play",
        "Plays a schedule and reports its history",
    )?;
    with_command(
        alloc,
        line,
        "race",
        "Runs tasks over a board and checks their logs",
    )
}

/// The command line of `fsr`, which has this name in what clap tells, whatever the file is called.
fn command_line<'a>(alloc: Global) -> Result<Command<'a>, AllocError>
    ensures { IfOk result (λ c. app_of c ≡ fsr) }
{
    let line = Command::new(alloc, "fsr")
        .about("Reads a document from a file or from standard input")
        .version(VERSION)
        .after_help(FORMATS)
        .subcommand_required(true);
    let line = with_documents(alloc, line)?;
    let line = with_watch(alloc, line)?;
    line.bin_name("fsr")
}

fn request_in(matches: &ArgMatches<'_>) -> Option<Request>
    ensures { result ≡ request_in (subcommand_rows_of matches.now) }
{
    match matches.subcommand() {
        Some((name, found)) => request_named(name, found),
        None => None,
    }
}

fn request_named(name: &str, found: &ArgMatches<'_>) -> Option<Request>
    ensures { result ≡ request_named name.now (rows_of (found_of found.now)) }
{
    match name {
        "check" => Some(Request::Answer(Want::Check)),
        "order" => order_in(found),
        "play" => Some(Request::Answer(Want::Play)),
        "race" => Some(Request::Answer(Want::Race)),
        "watch" => Some(Request::Watch {
            budget: budget_in(found),
        }),
        _ => None,
    }
}

/// What the command `order` is asked for. Coherence is asked for alone.
fn order_in(found: &ArgMatches<'_>) -> Option<Request>
    ensures { result ≡ order_in (rows_of (found_of found.now)) }
{
    if !is_told(found, "coherent") {
        Some(Request::Answer(Want::Order(show_in(found))))
    } else if has_others(found) {
        None
    } else {
        Some(Request::Coherent)
    }
}

/// Whether another flag than that of coherence is there.
fn has_others(found: &ArgMatches<'_>) -> bool
    ensures { result ≡ has_others (rows_of (found_of found.now)) }
{
    is_told(found, "order")
        || is_told(found, "small")
        || is_told(found, "strict")
        || has_budget(found)
}

fn has_budget(found: &ArgMatches<'_>) -> bool
    ensures { result ≡ is_some (first_of (codes "budget") (rows_of (found_of found.now))) }
{
    match found.get_str("budget") {
        Some(_) => true,
        None => false,
    }
}

fn show_in(found: &ArgMatches<'_>) -> Show
    ensures { result ≡ show_in (rows_of (found_of found.now)) }
{
    Show {
        order: is_told(found, "order"),
        small: is_told(found, "small"),
        strict: is_told(found, "strict"),
        budget: budget_in(found),
    }
}

/// The budget that is told, or the usual one.
fn budget_in(found: &ArgMatches<'_>) -> usize
    ensures { result ≡ budget_in (rows_of (found_of found.now)) }
{
    budget_named(found.get_str("budget"))
}

fn budget_named(word: Option<&str>) -> usize
    ensures { result ≡ budget_named (option_map (λ name. name.now) word.entry) }
{
    match word {
        Some(word) => budget_or_usual(budget_of(word)),
        None => budget_or_usual(None),
    }
}

fn budget_or_usual(budget: Option<usize>) -> usize
    ensures { result ≡ unwrap_or budget usual_budget }
{
    match budget {
        Some(budget) => budget,
        None => Show::plain().budget,
    }
}

/// Whether a flag is there.
fn is_told(found: &ArgMatches<'_>, flag: &str) -> bool
    ensures { result ≡ is_told flag.now (rows_of (found_of found.now)) }
{
    match found.get_str(flag) {
        Some(value) => value == "true",
        None => false,
    }
}

/// What the words ask for. The first word is the program's name.
pub fn asked_of<'a, S: AsStr>(alloc: Global, words: &'a [S]) -> Result<Asked<'a>, NoCommand>
    ensures request { IfOk result (λ asked. command_of (map S.text words.now) ≡ Some asked.request) }
    ensures file { IfOk result (λ asked. option_map (λ name. name.now) asked.file ≡ file_of (map S.text words.now)) }
    ensures err { IfErr result (λ e. Refuses e (command_of (map S.text words.now))) }
{
    let Ok(line) = command_line(alloc) else {
        return Err(NoCommand::NoMemory);
    };
    match line.try_get_matches_from(words) {
        Ok(matches) => {
            let file = file_in(&matches);
            match request_in(&matches) {
                Some(request) => Ok(Asked { request, file }),
                None => Err(NoCommand::Unknown),
            }
        }
        Err(e) => {
            if e.kind() == ErrorKind::OutOfMemory {
                Err(NoCommand::NoMemory)
            } else {
                Err(NoCommand::Refused(e))
            }
        }
    }
}

fn file_in<'a>(matches: &ArgMatches<'a>) -> Option<&'a str>
    ensures { option_map (λ name. name.now) result ≡ file_in (subcommand_rows_of matches.now) }
{
    match matches.subcommand() {
        Some((_, found)) => found.get_str("FILE"),
        None => None,
    }
}
