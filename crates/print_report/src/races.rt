//! The lines of a race's report.
ghost use Rattle.std.specs.Prelude.{◌≡◌, ◌+◌, ◌++◌, OnOk};
ghost use Rattle.print_report.specs.Text.{broken_line, origin_line, task_line, task_lines};

use crate::{Counts, Line};
use std::alloc::AllocError;

/// A line for each task.
pub fn push_tasks(text: &mut Vec<u8>, tasks: &[Counts]) -> Result<(), AllocError>
    ensures { OnOk result (text.new.items ≡ text.old.items ++ task_lines 0 tasks.now) }
{
    let mut line = Line::new();
    for task in 0..tasks.len() {
        put_task(&mut line, task, &tasks[task]);
        text.extend_from_slice(line.as_bytes())?;
    }
    Ok(())
}

/// The line of a task, in place of what the buffer has.
#[tactic(auto, unfolding(crate::specs::Text::task_line), using(std::proofs::Common::append_assoc))]
fn put_task(line: &mut Line, task: usize, counts: &Counts)
    ensures { line.new ≡ task_line task counts.now }
{
    line.clear();
    line.put(b" refused\n");
    line.put_number(counts.refused);
    line.put(b" reads, ");
    line.put_number(counts.reads);
    line.put(b" writes, ");
    line.put_number(counts.writes);
    line.put(b": ");
    line.put_number(task as u64);
    line.put(b"task ");
}

/// The line of the origins.
pub fn push_origin(text: &mut Vec<u8>, broken: Option<(usize, usize)>) -> Result<(), AllocError>
    ensures { OnOk result (text.new.items ≡ text.old.items ++ origin_line broken) }
{
    match broken {
        Some((task, call)) => push_broken(text, task, call),
        None => text.extend_from_slice(b"origin: sound\n"),
    }
}

/// The line of the first call whose record has no origin.
#[tactic(auto, using(std::proofs::Common::append_assoc))]
fn push_broken(text: &mut Vec<u8>, task: usize, call: usize) -> Result<(), AllocError>
    ensures { OnOk result (text.new.items ≡ text.old.items ++ broken_line task call) }
{
    let mut line = Line::new();
    line.put(b"\n");
    line.put_number(call as u64);
    line.put(b" call ");
    line.put_number(task as u64);
    line.put(b"origin: broken at task ");
    text.extend_from_slice(line.as_bytes())
}
