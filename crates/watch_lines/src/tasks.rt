//! The tasks that a header names, and their floors.
ghost use Rattle.std.specs.Prelude.{◌≡◌, ℕ, map, min};
ghost use Rattle.std.specs.List.{fold};
ghost use Rattle.watch_lines.specs.Tasks.{below, floor_for_all, floor_of, higher, is_named, least_floor, moment_of};
ghost use Rattle.watch_lines.specs.Tasks.{own_floor, task_of, task_with, tasks_with};
ghost use Rattle.watch_lines.specs.declared.tasks.Task.{Task};

use crate::told::{Floor, WatchFault};

/// A task that the header names, and the highest floor of it so far.
#[derive(Clone, Copy, Debug, PartialEq, Eq)]
pub struct Task {
    pub who: u64,
    pub high: Option<Floor>,
}

/// Whether the header names this task, or none.
pub(crate) fn is_named(tasks: &[Task], who: Option<u64>) -> bool
    ensures { result ≡ is_named tasks.now who }
{
    match who {
        Some(who) => tasks.is_empty() || task_of(tasks, who).is_some(),
        None => true,
    }
}

fn task_of(tasks: &[Task], who: u64) -> Option<Task>
    ensures { result ≡ task_of tasks.now who }
{
    tasks.iter().copied().find(|task| task.who == who)
}

/// The floor of a task, if it has one.
pub(crate) fn floor_of(tasks: &[Task], who: Option<u64>) -> Option<Floor>
    ensures { result ≡ floor_of tasks.now who }
{
    task_of(tasks, who?)?.high
}

/// If the header names tasks, the end of an operation is a floor of its task, as the next one begins no earlier.
pub(crate) fn own_floor(tasks: &[Task], who: Option<u64>, end: Option<u64>) -> Option<u64>
    ensures { result ≡ own_floor tasks.now who end }
{
    if tasks.is_empty() || who.is_none() {
        None
    } else {
        end
    }
}

/// A floor of a task, or of all.
pub(crate) fn raise(tasks: &mut Vec<Task>, who: Option<u64>, at: u64, line: usize)
    ensures { tasks.new.items ≡ tasks_with tasks.old.items who at line }
{
    if let Some(who) = who {
        raise_task(tasks, who, at, line);
    }
}

fn raise_task(tasks: &mut Vec<Task>, who: u64, at: u64, line: usize)
    ensures { tasks.new.items ≡ map (task_with who at line) tasks.old.items }
{
    for i in 0..tasks.len() {
        tasks[i] = task_with(tasks[i], who, at, line);
    }
}

fn task_with(task: Task, who: u64, at: u64, line: usize) -> Task
    ensures { result ≡ task_with who at line task }
{
    if task.who == who {
        Task {
            who,
            high: higher(task.high, at, line),
        }
    } else {
        task
    }
}

/// The moment of a floor for all tasks: where the header names tasks, one of a task leaves the least of theirs.
pub(crate) fn floor_for_all(tasks: &[Task], who: Option<u64>, at: u64) -> u64
    ensures { result ≡ floor_for_all tasks.now who at }
{
    if tasks.is_empty() || who.is_none() {
        at
    } else {
        least_floor(tasks)
    }
}

/// The least moment of their floors, which is 0 while one has none.
fn least_floor(tasks: &[Task]) -> u64
    ensures { result ≡ least_floor tasks.now }
{
    least_in_turn(tasks)
}

fn least_in_turn(tasks: &[Task]) -> u64
    ensures { result ≡ fold (λ (least : ℕ) (t : Task). min least (moment_of t.high)) 18446744073709551615 tasks.now }
{
    tasks.iter().fold(u64::MAX, |least: u64, task| least.min(moment_of(task.high)))
}

/// The fault of an operation on this line that begins below a floor.
pub(crate) fn below(high: Option<Floor>, line: usize, begins: u64) -> Option<WatchFault>
    ensures { result ≡ below high line begins }
{
    match high {
        Some(high) if begins < high.at => Some(WatchFault::Below {
            line,
            floor: high.line,
        }),
        _ => None,
    }
}

pub(crate) fn higher(high: Option<Floor>, at: u64, line: usize) -> Option<Floor>
    ensures { result ≡ higher high at line }
{
    match high {
        Some(high) if at <= high.at => Some(high),
        _ => Some(Floor { at, line }),
    }
}

/// No operation on a later line begins before this moment.
pub(crate) fn moment_of(high: Option<Floor>) -> u64
    ensures { result ≡ moment_of high }
{
    match high {
        Some(high) => high.at,
        None => 0,
    }
}
