ghost use Rattle.std.specs.Prelude.{◌≡◌, ◌≤◌, ◌+◌};
ghost use Rattle.program_runs.specs.Answers.{GivesReply};
ghost use Rattle.program_runs.specs.Run.{Fails, IsToldBy, never, Runs};
ghost use Rattle.fsr_answers.specs.Answers.{IsFsrAnswer};
ghost use Rattle.fsr_answers.specs.Run.{is_unbounded};
ghost use Rattle.program_streams.specs.Stream.{HasRoom};

use crate::races::run_race;
use board_live::Posted;
use cell_contract::{Family, SharedFamily};
use fsr_check_answers::check;
use fsr_order_answers::{order_bytes, run as run_order};
use fsr_play_answers::play;
use fsr_words::Want;
use history_core::Band;
use program_runs::{Answer, FSR, Fault, give_answer, take_document};
use program_streams::{Sink, Source};
use std::alloc::Global;
use std::thread::Threads;

/// The answer of a command to the bytes of a document. A race is run over a board of this family.
pub fn answer<F: SharedFamily<Posted<Band>>, R: Threads + Sync>(
    rt: &R,
    alloc: Global,
    want: Want,
    bytes: &[u8],
) -> Result<Answer, Fault>
where
    F::Seat: Send,
    F::Receipt: Send,
    ensures { GivesReply (IsFsrAnswer ⟦<F as Family<Posted<Band>>>⟧ want bytes.now) result }
{
    match want {
        Want::Check => check(alloc, bytes),
        Want::Order(show) => order_bytes(alloc, show, bytes),
        Want::Play => play(alloc, bytes),
        Want::Race => run_race::<R, F>(rt, alloc, bytes),
    }
}

/// Runs a command over the streams of `fsr`, and gives the status that the run ends with. The text goes to `out`, and
/// what is to be told besides goes to `faults`, whose failures change no status. (It is no `Command`: what `answer`
/// sends to a thread rests on a bound that is known of this thread alone.)
pub fn run<F: SharedFamily<Posted<Band>>, R: Threads + Sync, I: Source, O: Sink, E: Sink>(
    rt: &R,
    alloc: Global,
    want: Want,
    input: &mut I,
    out: &mut O,
    faults: &mut E,
) -> u8
where
    F::Seat: Send,
    F::Receipt: Send,
    requires input { HasRoom (I.failed input.old) }
    requires out { HasRoom (O.failed out.old) }
    requires faults { HasRoom (E.failed faults.old) }
    ensures runs { Runs (IsToldBy (IsFsrAnswer ⟦<F as Family<Posted<Band>>>⟧ want)) (is_unbounded want)
        (I.remaining input.old) (I.remaining input.new) (O.contents out.old) (O.contents out.new) result }
    ensures fails { Fails (I.failed input.old) (I.failed input.new) (O.failed out.old)
        (O.failed out.new) result }
    ensures faults { E.failed faults.new ≤ E.failed faults.old + 1 }
{
    match want {
        Want::Order(show) => run_order(alloc, show, input, out, faults),
        _ => run_document::<F, R, I, O, E>(rt, alloc, want, input, out, faults),
    }
}

/// Runs a command that takes a document.
fn run_document<F: SharedFamily<Posted<Band>>, R: Threads + Sync, I: Source, O: Sink, E: Sink>(
    rt: &R,
    alloc: Global,
    want: Want,
    input: &mut I,
    out: &mut O,
    faults: &mut E,
) -> u8
where
    F::Seat: Send,
    F::Receipt: Send,
    requires bounded { is_unbounded want ≡ never }
    requires input { HasRoom (I.failed input.old) }
    requires out { HasRoom (O.failed out.old) }
    requires faults { HasRoom (E.failed faults.old) }
    ensures runs { Runs (IsToldBy (IsFsrAnswer ⟦<F as Family<Posted<Band>>>⟧ want)) (is_unbounded want)
        (I.remaining input.old) (I.remaining input.new) (O.contents out.old) (O.contents out.new) result }
    ensures fails { Fails (I.failed input.old) (I.failed input.new) (O.failed out.old)
        (O.failed out.new) result }
    ensures faults { E.failed faults.new ≤ E.failed faults.old + 1 }
{
    match take_document(alloc, &FSR, input, faults) {
        Ok(bytes) => {
            let reply = answer::<F, R>(rt, alloc, want, bytes.as_slice());
            give_answer(alloc, &FSR, reply, out, faults)
        }
        Err(status) => status,
    }
}
