//! A task in a thread of its own, of which one knows what it gives back.
ghost use Rattle.std.specs.Prelude.{◌≡◌, IfOk};

use std::alloc::AllocError;
use std::snapshot::Snapshot;
use std::sync::Wait;
use std::thread;
use std::thread::{Promise, PromisedHandle, Threads};

/// What runs in a thread.
pub trait Task: Drop {
    type Output: Drop;

    // Whether it may run, and what it has done where it gives this back.
    ghost ready: { Self → Type 0 };

    ghost done: { Self → Self.Output → Type 0 };

    fn run<R: Wait>(self, rt: &R) -> Self::Output
        requires { ready self }
        ensures { done self result };
}

/// The promise of a thread: what it gives back, its task has done.
#[derive(Drop)]
pub struct Done<T> {
    task: Snapshot<T>,
}

impl<T: Task> Promise<T::Output> for Done<T> {
    ghost kept_by = { λ p r. T.done p.task.value r };
}

/// Starts the task. Whoever joins its thread knows what it has done.
pub fn start<R: Threads + Wait + Copy + Send + 'static, T: Task + Send + 'static>(
    rt: R,
    task: T,
) -> Result<PromisedHandle<T::Output, Done<T>>, AllocError>
where
    T::Output: Send + 'static,
    requires { T.ready task }
    ensures { IfOk result (λ h. h.promise.task.value ≡ task) }
{
    let promise = Done {
        task: Snapshot::of(&task),
    };
    let run = move || -> T::Output
        requires { T.ready task }
    { task.run(&rt) };
    Ok(thread::spawn_with(&rt, promise, run)?)
}
