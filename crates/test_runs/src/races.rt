use board_live::{Posted, RecordLaw};
use board_tasks::{CountingGate, Entry, Gate, TimedGate};
use cell_contract::Family;
use family_four_slot::FourSlotFamily;
use fsr_answers::race;
use history_core::Band;
use print_report::report_text;
use program_runs::Fault;
use read_schedule::{RaceDocument, read_race};
use std::alloc::Global;
use std::sync::atomic::{AtomicBool, Ordering};
use std::test::Fail;
use std::thread::{Threads, yield_now};

/// One task writes and reads, the other reads.
const WRITE_AND_READ: &str =
    r#"{"kind":"race","opening":[0,0,0],"limit":9,"scripts":[[[1,1,1],"read"],["read"]]}"#;

const WRITE_AND_READ_TEXT: &str =
    "task 0: 1 writes, 1 reads, 0 refused\ntask 1: 0 writes, 1 reads, 0 refused\norigin: sound\n";

/// Whether this is told of a race of these two tasks under this gate.
fn tells<R: Threads + Sync, G: Gate + Sync>(
    rt: &R,
    alloc: Global,
    gate: &G,
    text: &str,
) -> Result<bool, Fault> {
    let RaceDocument {
        opening,
        limit,
        scripts,
    } = read_race(alloc, WRITE_AND_READ.as_bytes())?;
    let report = race::<R, G, FourSlotFamily<Posted<Band>>>(
        rt, alloc, opening, limit, scripts, gate,
    )?;
    let told = report_text(alloc, &report)?;
    Ok(told.as_slice() == text.as_bytes())
}

/// The same for a test, which fails where there is no report.
fn is_told<R: Threads + Sync, G: Gate + Sync>(
    rt: &R,
    alloc: Global,
    gate: &G,
    text: &str,
) -> Result<bool, Fail> {
    tells(rt, alloc, gate, text).map_err(|_| Fail::new("there is no report"))
}

/// Each task raises its flag before its first call, and goes on where it sees the other's. With one thread none does. A
/// task that looks in vain lets others run, so that two tasks also meet where all processors are busy.
#[derive(Drop)]
struct Meeting {
    first: AtomicBool,
    second: AtomicBool,
}

impl Gate for Meeting {
    type Permit = ();

    ghost is_for = { λ _ _ _ _. Unit {0} };

    ghost may_stop = { λ _ _ _. Unit {0} };

    fn before(&self, task: usize, call: usize) -> Option<()> {
        if call != 1 {
            return Some(());
        }
        let (mine, other) = if task == 0 {
            (&self.first, &self.second)
        } else {
            (&self.second, &self.first)
        };
        mine.store(true, Ordering::SeqCst);
        for _ in 0..20_000_000 {
            if other.load(Ordering::SeqCst) {
                return Some(());
            }
            yield_now();
        }
        None
    }

    fn after<V: RecordLaw, F: Family<Posted<V>>>(
        &self,
        _task: usize,
        _call: usize,
        _entry: &Entry<V>,
        _permit: (),
    ) {}
}

/// Stops one task before one call.
#[derive(Drop)]
struct Stops {
    task: usize,
    call: usize,
}

impl Gate for Stops {
    type Permit = ();

    ghost is_for = { λ _ _ _ _. Unit {0} };

    ghost may_stop = { λ _ _ _. Unit {0} };

    fn before(&self, task: usize, call: usize) -> Option<()> {
        if task != self.task || call != self.call {
            Some(())
        } else {
            None
        }
    }

    fn after<V: RecordLaw, F: Family<Posted<V>>>(
        &self,
        _task: usize,
        _call: usize,
        _entry: &Entry<V>,
        _permit: (),
    ) {}
}

#[test]
fn tasks_run_at_once(rt: HostRuntime) -> Result<(), Fail> {
    let gate = Meeting {
        first: AtomicBool::new(false),
        second: AtomicBool::new(false),
    };
    assert!(rt; is_told(&rt, rt.alloc(), &gate, WRITE_AND_READ_TEXT)?);
    Ok(())
}

#[test]
fn every_call_is_made(rt: HostRuntime) -> Result<(), Fail> {
    let gate = CountingGate::new();
    let told = is_told(&rt, rt.alloc(), &gate, WRITE_AND_READ_TEXT)?;
    assert_eq!(rt; (told, gate.made()), (true, 3));
    Ok(())
}

#[test]
fn stopped_tasks_are_counted_as_far_as_they_came(rt: HostRuntime) -> Result<(), Fail> {
    for (task, call, text) in [
        (
            0,
            2,
            "task 0: 1 writes, 0 reads, 0 refused\ntask 1: 0 writes, 1 reads, 0 refused\norigin: sound\n",
        ),
        (
            1,
            1,
            "task 0: 1 writes, 1 reads, 0 refused\ntask 1: 0 writes, 0 reads, 0 refused\norigin: sound\n",
        ),
        (0, 3, WRITE_AND_READ_TEXT),
    ] {
        assert!(rt; is_told(&rt, rt.alloc(), &Stops { task, call }, text)?);
    }
    let text =
        "task 0: 0 writes, 0 reads, 0 refused\ntask 1: 0 writes, 0 reads, 0 refused\norigin: sound\n";
    assert!(rt; is_told(&rt, rt.alloc(), &TimedGate::new(0), text)?);
    Ok(())
}
