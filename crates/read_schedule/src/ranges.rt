//! The range of a schedule's steps.
ghost use Rattle.std.specs.Prelude.{◌≡◌};
ghost use Rattle.read_schedule.specs.Ranges.{steps_in_range};

/// The greatest number of steps in a schedule.
pub const MAX_STEPS: usize = 100_000;

pub fn steps_in_range(steps: usize) -> bool
    ensures { result ≡ steps_in_range steps }
{
    steps <= MAX_STEPS
}
