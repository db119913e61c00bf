//! The control program: its tasks are started in threads, told to stop, and ended with the board that they share.
ghost use Rattle.std.specs.Prelude.{◌≡◌, IfOk, IfSome, [], ◌∷◌};
ghost use Rattle.std.specs.Arc.{arc_value};
ghost use Rattle.board_live.specs.Ends.{AllPasses, HaveAtomicOrder};
ghost use Rattle.board_live.specs.Passes.{IsPass};
ghost use Rattle.example_control.specs.Turns.{AreDealt, HasControlled, in_order};

use crate::control::Control;
use crate::tasks::{LimitsTask, Motor, ReadingsTask, Shared, SteeringTask};
use crate::threads::{Done, start};
use board_live::{Board, Pass, Posted};
use cell_contract::{Family, SharedFamily};
use history_core::MAX_LIMIT;
use std::alloc::{AllocError, Global};
use std::sync::{Arc, Wait};
use std::thread::{PromisedHandle, Threads};

/// A new board of three, and the passes that set limits, publish and steer.
fn deal<F: Family<Posted<Control>>>(
    alloc: Global,
    opening: Control,
) -> Result<
    (
        Board<Control, F>,
        Pass<Control, F>,
        Pass<Control, F>,
        Pass<Control, F>,
    ),
    AllocError,
>
    ensures { IfOk result (λ d. AreDealt ⟦<F as Family<Posted<Control>>>⟧ opening d.0 d.1 d.2 d.3) }
{
    let Ok((board, mut passes)) = Board::<Control, F>::new(alloc, 3, MAX_LIMIT, opening) else {
        return Err(AllocError);
    };
    let Some(steering) = passes.pop() else {
        unreachable!()
    };
    let Some(readings) = passes.pop() else {
        unreachable!()
    };
    let Some(limits) = passes.pop() else {
        unreachable!()
    };
    Ok((board, limits, readings, steering))
}

/// Starts the limits' task with its pass.
fn start_limits<
    R: Threads + Wait + Copy + Send + 'static,
    F: SharedFamily<Posted<Control>> + 'static,
>(
    rt: R,
    shared: &Arc<Shared<F>, Global>,
    pass: Pass<Control, F>,
) -> Result<PromisedHandle<Pass<Control, F>, Done<LimitsTask<F>>>, AllocError>
where
    F::Seat: Send + 'static,
    F::Receipt: Send + 'static,
    requires { IsPass ⟦<F as Family<Posted<Control>>>⟧ in_order (arc_value shared.now).board pass }
    ensures board { IfOk result (λ h. (arc_value h.promise.task.value.shared).board ≡ (arc_value shared.now).board) }
    ensures pass { IfOk result (λ h. h.promise.task.value.pass ≡ pass) }
{
    let task = LimitsTask {
        shared: Arc::try_clone(shared)?,
        pass,
    };
    start(rt, task)
}

/// Starts the readings' task with its pass.
fn start_readings<
    R: Threads + Wait + Copy + Send + 'static,
    F: SharedFamily<Posted<Control>> + 'static,
>(
    rt: R,
    shared: &Arc<Shared<F>, Global>,
    pass: Pass<Control, F>,
) -> Result<PromisedHandle<Pass<Control, F>, Done<ReadingsTask<F>>>, AllocError>
where
    F::Seat: Send + 'static,
    F::Receipt: Send + 'static,
    requires { IsPass ⟦<F as Family<Posted<Control>>>⟧ in_order (arc_value shared.now).board pass }
    ensures board { IfOk result (λ h. (arc_value h.promise.task.value.shared).board ≡ (arc_value shared.now).board) }
    ensures pass { IfOk result (λ h. h.promise.task.value.pass ≡ pass) }
{
    let task = ReadingsTask {
        shared: Arc::try_clone(shared)?,
        pass,
    };
    start(rt, task)
}

/// Starts the control loop with its pass and its motor.
fn start_steering<
    R: Threads + Wait + Copy + Send + 'static,
    F: SharedFamily<Posted<Control>> + 'static,
    M: Motor + Send + Drop + 'static,
>(
    rt: R,
    shared: &Arc<Shared<F>, Global>,
    pass: Pass<Control, F>,
    motor: M,
) -> Result<PromisedHandle<(Pass<Control, F>, M), Done<SteeringTask<F, M>>>, AllocError>
where
    F::Seat: Send + 'static,
    F::Receipt: Send + 'static,
    requires { IsPass ⟦<F as Family<Posted<Control>>>⟧ in_order (arc_value shared.now).board pass }
    ensures board { IfOk result (λ h. (arc_value h.promise.task.value.shared).board ≡ (arc_value shared.now).board) }
    ensures pass { IfOk result (λ h. h.promise.task.value.pass ≡ pass) }
    ensures motor { IfOk result (λ h. h.promise.task.value.motor ≡ motor) }
{
    let task = SteeringTask {
        shared: Arc::try_clone(shared)?,
        pass,
        motor,
    };
    start(rt, task)
}

/// Ends the board with the passes that its tasks gave back.
fn end<F: Family<Posted<Control>>>(
    alloc: Global,
    board: Board<Control, F>,
    limits: Pass<Control, F>,
    readings: Pass<Control, F>,
    steering: Pass<Control, F>,
) -> Result<Posted<Control>, AllocError>
    requires { AllPasses ⟦<F as Family<Posted<Control>>>⟧ in_order board (limits ∷ readings ∷ steering ∷ []) }
    ensures { IfOk result (HaveAtomicOrder ⟦<F as Family<Posted<Control>>>⟧ board (limits ∷ readings ∷ steering ∷ [])) }
{
    let mut passes = Vec::with_capacity(alloc, 3)?;
    passes.push_reserved(limits);
    passes.push_reserved(readings);
    passes.push_reserved(steering);
    Ok(board.finish(passes))
}

/// Tells the tasks to stop when it is dropped, also where a later task couldn't be started.
struct Stop<F: Family<Posted<Control>>> {
    shared: Arc<Shared<F>, Global>,
}

impl<F: Family<Posted<Control>>> Drop for Stop<F> {
    fn drop(self) {
        let Self { shared } = self;
        shared.stop();
    }
}

/// Runs the three tasks until each has begun so many turns, tells them to stop, and ends the board. Gives its last
/// record and the motor as it then is, or none where a task has kept the board.
pub fn run<
    R: Threads + Wait + Copy + Send + 'static,
    F: SharedFamily<Posted<Control>> + 'static,
    M: Motor + Send + Drop + 'static,
>(
    rt: R,
    alloc: Global,
    opening: Control,
    turns: u64,
    motor: M,
) -> Result<Option<(Posted<Control>, M)>, AllocError>
where
    F::Seat: Send + 'static,
    F::Receipt: Send + 'static,
    ensures { IfOk result
        (λ r. IfSome r (λ end. HasControlled ⟦<F as Family<Posted<Control>>>⟧ M.was_sent opening end.0 motor end.1)) }
{
    let (board, limits, readings, steering) = deal::<F>(alloc, opening)?;
    let shared = Arc::new(alloc, Shared::new(board))?;
    let stop = Stop {
        shared: Arc::try_clone(&shared)?,
    };
    let limits = start_limits(rt, &shared, limits)?;
    let readings = start_readings(rt, &shared, readings)?;
    let steering = start_steering(rt, &shared, steering, motor)?;
    shared.wait(&rt, turns);
    drop(stop);
    let limits = limits.join(&rt);
    let readings = readings.join(&rt);
    let (steering, motor) = steering.join(&rt);
    let Some(Shared { board, .. }) = Arc::into_inner(shared) else {
        return Ok(None);
    };
    let last = end(alloc, board, limits, readings, steering)?;
    Ok(Some((last, motor)))
}
