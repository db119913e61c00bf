//! The export.
ghost use Rattle.std.specs.Prelude.{◌≡◌};
ghost use Rattle.cell_steps.specs.Steps.{cell_after, shown_of};

use crate::in_play::play;
use crate::shown::Shown;

/// Makes the steps of a new cell, one after the other: the writer's for a letter `w`, the reader's for any other byte.
/// Then it shows the state that they lead to.
#[unsafe(no_mangle)]
pub extern "C" fn nidzaru_cell_after(steps: &[u8], shown: &mut Shown)
    ensures { shown.new ≡ shown_of (cell_after steps.now) }
{
    *shown = play(steps).show();
}
