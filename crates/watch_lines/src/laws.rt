//! What the lines of operations change: nothing. What the least of the tasks' floors refuses: nothing that these
//! don't.

ghost use Rattle.std.specs.Prelude.{◌≡◌, ◌≤◌, ◌↔◌, ℕ, List, Some, map};
ghost use Rattle.object_core.specs.declared.operation.Operation.{Operation};
ghost use Rattle.object_core.specs.Logs.{IsLinearizable};
ghost use Rattle.object_registers.specs.Registers.{exchanging_after};
ghost use Rattle.watch_lines.specs.Lined.{lined_after, without_line};
ghost use Rattle.watch_lines.specs.Tasks.{least_floor, moment_of, task_of};

use crate::lined::{Lined, LinedRegister};
use crate::tasks::Task;

/// A log of operations that know their lines has a lawful order exactly if the log of the same operations without them
/// has one.
pub fn lines_change_nothing()
    ensures { (opening : LinedRegister) (log : List (Operation Lined)) →
        (IsLinearizable lined_after opening log
        ↔ IsLinearizable exchanging_after opening.register (map without_line log)) }
{}

/// An operation that isn't below the floor of its task, which is a named one, isn't below the least of all tasks'
/// floors.
pub fn least_floor_refuses_no_more()
    ensures { (tasks : List Task) (who begins : ℕ) (t : Task) → task_of tasks who ≡ Some t →
        moment_of t.high ≤ begins → least_floor tasks ≤ begins }
{}
