//! Runs a job on each element of a slice, each in a thread of its own.
ghost use Rattle.std.specs.Thread.{IsSync};
ghost use Rattle.std.specs.Prelude.{◌≡◌, ℕ, ◌+◌, ◌<◌, ◌≤◌, length};
ghost use Rattle.board_tasks.specs.Jobs.{AllReady, EachStep};

use std::thread::{Threads, join_mut};

/// What is done to one element, by its number.
pub(crate) trait Job<X>: Sync {
    ghost ready: { Self → X → Type 0 };

    ghost ran: { Self → ℕ → X → X → Type 0 };

    fn run(&self, task: usize, x: &mut X)
        requires { ready self.now x.old }
        ensures { ran self.now task x.old x.new };
}

/// Runs the job on each element, each in a thread of its own, of which one may be the caller's.
pub(crate) fn run_each<R: Threads + Sync, X: Send, J: Job<X>>(
    rt: &R,
    job: &J,
    first: usize,
    all: &mut [X],
)
    requires { AllReady (J.ready job.now) first all.old }
    ensures { EachStep (J.ran job.now) first all.old all.new }
{
    let count = all.len();
    if count == 0 {
        return;
    }
    if count == 1 {
        job.run(first, &mut all[0]);
        return;
    }
    let middle = count / 2;
    let second = first + middle;
    let (front, back) = all.split_at_mut(middle);
    join_mut(
        rt,
        &mut ||
            requires { IsSync R.row × AllReady (J.ready job.now) first front.now }
            ensures { EachStep (J.ran job.entry.now) first front.entry.now front.exit.now }
        { run_each(rt, job, first, front) },
        &mut ||
            requires { IsSync R.row × AllReady (J.ready job.now) second back.now }
            ensures { EachStep (J.ran job.entry.now) second back.entry.now back.exit.now }
        { run_each(rt, job, second, back) },
    );
}
