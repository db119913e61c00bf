ghost use Rattle.std.specs.Prelude.{◌≤◌, ◌+◌};
ghost use Rattle.program_runs.specs.Run.{Fails};
ghost use Rattle.program_streams.specs.Stream.{HasRoom};

use crate::fakes::Full::{Fails, Stalls};
use crate::fakes::{Full, Kept, Pieces};
use board_live::Posted;
use family_four_slot::FourSlotFamily;
use fsr_words::{Request, asked_of, tell_refusal};
use history_core::Band;
use program_runs::FSR;
use program_streams::{Over, Sink, Source};
use std::alloc::{AllocError, Global};
use std::process::Abort;
use std::test::Fail;
use std::thread::Threads;

/// Runs `fsr` over words and streams, as its `main` does.
fn run<'a, R: Threads + Sync, I: Source, O: Sink, E: Sink>(
    rt: &R,
    alloc: Global,
    words: &'a [&'a str],
    input: &mut I,
    out: &mut O,
    faults: &mut E,
) -> u8
    requires input { HasRoom (I.failed input.old) }
    requires out { HasRoom (O.failed out.old) }
    requires faults { HasRoom (E.failed faults.old) }
    ensures fails { Fails (I.failed input.old) (I.failed input.new) (O.failed out.old)
        (O.failed out.new) result }
    ensures faults { E.failed faults.new ≤ E.failed faults.old + 1 }
{
    match asked_of(alloc, words) {
        Ok(asked) => match asked.request {
            Request::Answer(want) => fsr_answers::run::<FourSlotFamily<Posted<Band>>, R, I, O, E>(
                rt, alloc, want, input, out, faults,
            ),
            Request::Coherent => fsr_coherent_answers::run(alloc, input, out, faults),
            Request::Watch { budget } => {
                fsr_watch_answers::run(alloc, budget, input, out, faults)
            }
        },
        Err(refusal) => tell_refusal(alloc, &FSR, refusal, out, faults),
    }
}

/// More bytes than any run here takes or prints.
const AMPLE: usize = 2_000_000;

/// A write and a read of its record, in the order in which they are lawful.
const ROW: &str = r#"{"kind":"check","opening":[0,0,0],"limit":9,"ops":[
 {"who":0,"kind":"write","begin":0,"end":4,"record":[1,1,1]},
 {"who":1,"kind":"read","begin":5,"end":9,"record":[1,1,1]}],
 "order":[0,1]}"#;

const ALL: usize = ROW.len();

const READ_FAILED: &str = "fsr: read failed\n";

const WRITE_FAILED: &str = "fsr: write failed\n";

/// The most bytes of a read, in place of which byte reading is interrupted, the room of the output and of standard
/// error, and what a full one of these does.
type Streams = (usize, usize, usize, usize, Full);

/// The status, how many bytes are read, the text, and the fault.
type Ends = (u8, usize, &'static str, &'static str);

/// Sees how a run with these words ends. With status 5 one call of the input or the output has failed, and where
/// standard error is short of room one of its calls has. No stream is used after its first failure.
fn sees<R: Abort + Threads + Sync>(
    rt: &R,
    alloc: Global,
    words: &[&str],
    document: &[u8],
    streams: Streams,
    ends: Ends,
) {
    let (most, fails_at, room, faults_room, full) = streams;
    let (status, taken, text, fault) = ends;
    let mut input = Over::new(Pieces::new(document, most, fails_at));
    let mut out = Over::new(Kept::new(alloc, room, full));
    let mut faults = Over::new(Kept::new(alloc, faults_room, full));
    let ended = run(rt, alloc, words, &mut input, &mut out, &mut faults);
    let is_told = out.stream().as_slice() == text.as_bytes()
        && faults.stream().as_slice() == fault.as_bytes();
    let failed = Source::failures(&input) + Sink::failures(&out);
    let faults_failed = Sink::failures(&faults);
    let goes_on = input.stream().called_after()
        || out.stream().called_after()
        || faults.stream().called_after();
    assert_eq!(rt;
        (
            ended,
            input.stream().taken(),
            is_told,
            failed,
            faults_failed,
            goes_on
        ),
        (
            status,
            taken,
            true,
            u64::from(status == 5),
            u64::from(faults_room < AMPLE),
            false
        )
    );
}

#[test]
fn runs_over_hostile_streams(rt: HostRuntime) {
    // the most bytes of a read, where reading fails, the room of the output and what follows, and what comes of it
    for (most, fails_at, room, full, status, taken, text, fault) in [
        (4096, AMPLE, 7, Fails, 0, ALL, "lawful\n", ""),
        (1, AMPLE, AMPLE, Fails, 0, ALL, "lawful\n", ""),
        (4096, 10, AMPLE, Fails, 5, 10, "", READ_FAILED),
        (10, 10, AMPLE, Fails, 5, 10, "", READ_FAILED),
        (1, 10, AMPLE, Fails, 5, 10, "", READ_FAILED),
        (4096, ALL, AMPLE, Fails, 5, ALL, "", READ_FAILED),
        (4096, 0, 0, Fails, 5, 0, "", READ_FAILED),
        (4096, AMPLE, 3, Fails, 5, ALL, "law", WRITE_FAILED),
        (1, AMPLE, 6, Stalls, 5, ALL, "lawful", WRITE_FAILED),
        (4096, AMPLE, 0, Stalls, 5, ALL, "", WRITE_FAILED),
    ] {
        sees(
            &rt,
            rt.alloc(),
            &["fsr", "check"],
            ROW.as_bytes(),
            (most, fails_at, room, AMPLE, full),
            (status, taken, text, fault),
        );
    }
}

/// The row's document, followed by blanks up to this many bytes.
fn padded(alloc: Global, length: usize) -> Result<Vec<u8>, AllocError> {
    let mut bytes = ROW.as_bytes().to_vec(alloc)?;
    bytes.resize(length, b' ')?;
    Ok(bytes)
}

/// A failure of the fault lines' writer changes no status. Where the words are refused nothing is read, and a document
/// is read to one byte more than the longest, also where more comes.
#[test]
fn a_full_standard_error_changes_no_status(rt: HostRuntime) -> Result<(), Fail> {
    let long = padded(rt.alloc(), 1_100_000)?;
    for (word, most, fails_at, faults_room, full, status, taken, fault) in [
        ("checks", 4096, 0, 0, Fails, 2, 0, ""),
        ("--check", 4096, 0, 0, Fails, 2, 0, ""),
        ("check", 3000, AMPLE, 5, Stalls, 3, 1_048_577, "fsr: "),
    ] {
        sees(
            &rt,
            rt.alloc(),
            &["fsr", word],
            long.as_slice(),
            (most, fails_at, AMPLE, faults_room, full),
            (status, taken, "", fault),
        );
    }
    Ok(())
}
