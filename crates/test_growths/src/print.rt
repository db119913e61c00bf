use crate::documents::Stopped;
use four_slot_core::CellReport;
use history_core::{Band, History};
use matrix_core::{BoardReport, MatrixReport, MatrixTerm};
use read_history::CheckDocument;
use read_schedule::{RaceDocument, ScheduleDocument};
use std::io;

pub fn stopped(rt: &impl Print, why: Stopped) -> io::Result<()> {
    match why {
        Stopped::NoSuchCall => println!(rt; "no such call"),
        Stopped::NoMemory => println!(rt; "out of memory"),
    }
}

pub fn check(rt: &impl Print, document: &CheckDocument) -> io::Result<()> {
    history(rt, &document.history)?;
    println!(rt; "{:?}", document.order.as_slice())
}

pub fn schedule(rt: &impl Print, document: &ScheduleDocument) -> io::Result<()> {
    match document {
        ScheduleDocument::Cell(schedule) => {
            println!(rt; "{:?} {:?}", schedule.opening, schedule.noise)?;
            println!(rt; "{:?} {}", schedule.writes.as_slice(), schedule.reads)?;
            println!(rt; "{:?}", schedule.steps.as_slice())
        }
        ScheduleDocument::Matrix { schedule, titled } => {
            println!(rt; "{:?}", schedule.opening)?;
            terms(rt, schedule.terms.as_slice())?;
            println!(rt; "{titled}")
        }
        ScheduleDocument::Board { schedule, titled } => {
            println!(rt; "{:?} {:?}", schedule.opening, schedule.noise)?;
            terms(rt, schedule.terms.as_slice())?;
            println!(rt; "{titled}")
        }
    }
}

pub fn race(rt: &impl Print, document: &RaceDocument) -> io::Result<()> {
    println!(rt; "{:?}", document.opening)?;
    print!(rt; "{}", document.limit)?;
    for script in document.scripts.as_slice() {
        print!(rt; " {:?}", script.as_slice())?;
    }
    println!(rt)
}

fn terms(rt: &impl Print, terms: &[MatrixTerm<Band>]) -> io::Result<()> {
    for term in terms {
        print!(rt; "{}", term.limit)?;
        for plan in term.plans.as_slice() {
            print!(rt; " {:?}", plan.as_slice())?;
        }
        println!(rt; " {:?}", term.steps.as_slice())?;
    }
    Ok(())
}

pub fn cell_report(rt: &impl Print, report: &CellReport<Band>) -> io::Result<()> {
    history(rt, &report.history)?;
    println!(rt; "{:?}", report.slots.as_slice())?;
    println!(rt; "{:?}", report.order.as_slice())
}

pub fn matrix_report(rt: &impl Print, report: &MatrixReport<Band>) -> io::Result<()> {
    history(rt, &report.history)?;
    println!(rt; "{:?}", report.stamps.as_slice())?;
    println!(rt; "{:?}", report.order.as_slice())
}

pub fn board_report(rt: &impl Print, report: &BoardReport<Band>) -> io::Result<()> {
    history(rt, &report.history)?;
    println!(rt; "{:?}", report.stamps.as_slice())?;
    for slots in report.slots.as_slice() {
        println!(rt; "{:?}", slots.as_slice())?;
    }
    println!(rt; "{:?}", report.order.as_slice())
}

fn history(rt: &impl Print, history: &History<Band>) -> io::Result<()> {
    println!(rt; "{:?}", history.opening)?;
    for term in history.terms.as_slice() {
        println!(rt; "{term:?}")?;
    }
    for op in history.ops.as_slice() {
        println!(rt; "{op:?}")?;
    }
    Ok(())
}

pub fn lines(rt: &impl Print, text: &[u8]) -> io::Result<()> {
    match str::from_utf8(text) {
        Ok(text) => print!(rt; "{text}"),
        Err(e) => println!(rt; "{e}"),
    }
}
