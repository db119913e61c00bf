//! Three tasks that run until they are told to stop: one sets limits, one publishes a reading, one steers a motor.
ghost use Rattle.std.specs.Prelude.{◌≡◌, ◌≤◌, ℕ};
ghost use Rattle.std.specs.Arc.{arc_value};
ghost use Rattle.board_live.specs.Passes.{IsPass};
ghost use Rattle.example_control.specs.Turns.{HasTakenTurns, HasSteered, Publishes, SetsLimits, in_order};

use crate::calls::{publish, set_limits, steer};
use crate::control::Control;
use crate::threads::Task;
use board_live::{Board, Pass, Posted};
use cell_contract::Family;
use std::alloc::Global;
use std::sync::atomic::{AtomicBool, AtomicU64, Ordering};
use std::sync::{Arc, Wait};
use std::thread;

/// What the tasks share: the board, the word that tells them to stop, and how many turns each has begun.
#[derive(Drop)]
pub struct Shared<F: Family<Posted<Control>>> {
    pub board: Board<Control, F>,
    stop: AtomicBool,
    limits: AtomicU64,
    readings: AtomicU64,
    commands: AtomicU64,
}

impl<F: Family<Posted<Control>>> Shared<F> {
    pub fn new(board: Board<Control, F>) -> Shared<F>
        ensures { result.board ≡ board }
    {
        Shared {
            board,
            stop: AtomicBool::new(false),
            limits: AtomicU64::new(0),
            readings: AtomicU64::new(0),
            commands: AtomicU64::new(0),
        }
    }

    /// Tells the tasks to stop.
    pub fn stop(&self) {
        self.stop.store(true, Ordering::SeqCst);
    }

    fn is_told(&self) -> bool {
        self.stop.load(Ordering::SeqCst)
    }

    /// Waits until each task has begun so many turns.
    pub fn wait<R: Wait>(&self, rt: &R, turns: u64) {
        for _ in rt.forever() {
            let least = self
                .limits
                .load(Ordering::SeqCst)
                .min(self.readings.load(Ordering::SeqCst))
                .min(self.commands.load(Ordering::SeqCst));
            if turns <= least {
                break;
            }
            thread::yield_now();
        }
    }
}

/// What the control loop drives.
pub trait Motor {
    // What the motor is after it was sent a command.
    ghost was_sent: { Self → ℕ → Self → Type 0 };

    fn send(&mut self, command: u64)
        ensures { was_sent self.old command self.new };
}

/// The limits by turns: 10 to 20, and 30 to 40.
fn limits_at(turn: u64) -> (u64, u64)
    ensures { result.0 ≤ result.1 }
{
    if turn % 2 == 0 { (10, 20) } else { (30, 40) }
}

/// Sets limits, at least once, until it is told to stop.
fn keep_limits<R: Wait, F: Family<Posted<Control>>>(
    rt: &R,
    shared: &Shared<F>,
    pass: &mut Pass<Control, F>,
)
    requires { IsPass ⟦<F as Family<Posted<Control>>>⟧ in_order shared.now.board pass.old }
    ensures { HasTakenTurns ⟦<F as Family<Posted<Control>>>⟧ shared.now.board SetsLimits pass.old pass.new }
{
    for _ in rt.forever() {
        let (low, high) = limits_at(shared.limits.fetch_add(1, Ordering::SeqCst));
        let set = set_limits(&shared.board, pass, low, high);
        if set.is_err() || shared.is_told() {
            return;
        }
    }
    unreachable!()
}

/// Publishes readings, at least one, until it is told to stop.
fn keep_readings<R: Wait, F: Family<Posted<Control>>>(
    rt: &R,
    shared: &Shared<F>,
    pass: &mut Pass<Control, F>,
)
    requires { IsPass ⟦<F as Family<Posted<Control>>>⟧ in_order shared.now.board pass.old }
    ensures { HasTakenTurns ⟦<F as Family<Posted<Control>>>⟧ shared.now.board Publishes pass.old pass.new }
{
    for _ in rt.forever() {
        let reading = shared.readings.fetch_add(1, Ordering::SeqCst) % 50;
        let published = publish(&shared.board, pass, reading);
        if published.is_err() || shared.is_told() {
            return;
        }
    }
    unreachable!()
}

/// The control loop: steers the motor by each record that it reads, at least by one, until it is told to stop.
fn control<R: Wait, F: Family<Posted<Control>>, M: Motor>(
    rt: &R,
    shared: &Shared<F>,
    pass: &mut Pass<Control, F>,
    motor: &mut M,
)
    requires { IsPass ⟦<F as Family<Posted<Control>>>⟧ in_order shared.now.board pass.old }
    ensures { HasSteered ⟦<F as Family<Posted<Control>>>⟧ M.was_sent shared.now.board pass.old pass.new
        motor.old motor.new }
{
    for _ in rt.forever() {
        let command = steer(&shared.board, pass);
        motor.send(command);
        shared.commands.fetch_add(1, Ordering::SeqCst);
        if shared.is_told() {
            return;
        }
    }
    unreachable!()
}

/// The limits' task, with its pass. It gives the pass back.
#[derive(Drop)]
pub struct LimitsTask<F: Family<Posted<Control>>> {
    pub shared: Arc<Shared<F>, Global>,
    pub pass: Pass<Control, F>,
}

impl<F: Family<Posted<Control>>> Task for LimitsTask<F> {
    type Output = Pass<Control, F>;

    ghost ready = { λ t. IsPass ⟦<F as Family<Posted<Control>>>⟧ in_order (arc_value t.shared).board t.pass };

    ghost done = { λ t r. HasTakenTurns ⟦<F as Family<Posted<Control>>>⟧
        (arc_value t.shared).board SetsLimits t.pass r };

    fn run<R: Wait>(self, rt: &R) -> Pass<Control, F> {
        let Self { shared, mut pass } = self;
        keep_limits(rt, &shared, &mut pass);
        pass
    }
}

/// The readings' task, with its pass. It gives the pass back.
#[derive(Drop)]
pub struct ReadingsTask<F: Family<Posted<Control>>> {
    pub shared: Arc<Shared<F>, Global>,
    pub pass: Pass<Control, F>,
}

impl<F: Family<Posted<Control>>> Task for ReadingsTask<F> {
    type Output = Pass<Control, F>;

    ghost ready = { λ t. IsPass ⟦<F as Family<Posted<Control>>>⟧ in_order (arc_value t.shared).board t.pass };

    ghost done = { λ t r. HasTakenTurns ⟦<F as Family<Posted<Control>>>⟧
        (arc_value t.shared).board Publishes t.pass r };

    fn run<R: Wait>(self, rt: &R) -> Pass<Control, F> {
        let Self { shared, mut pass } = self;
        keep_readings(rt, &shared, &mut pass);
        pass
    }
}

/// The control loop, with its pass and its motor. It gives both back.
#[derive(Drop)]
pub struct SteeringTask<F: Family<Posted<Control>>, M: Motor + Drop> {
    pub shared: Arc<Shared<F>, Global>,
    pub pass: Pass<Control, F>,
    pub motor: M,
}

impl<F: Family<Posted<Control>>, M: Motor + Drop> Task for SteeringTask<F, M> {
    type Output = (Pass<Control, F>, M);

    ghost ready = { λ t. IsPass ⟦<F as Family<Posted<Control>>>⟧ in_order (arc_value t.shared).board t.pass };

    ghost done = { λ t r. HasSteered ⟦<F as Family<Posted<Control>>>⟧ M.was_sent
        (arc_value t.shared).board t.pass r.0 t.motor r.1 };

    fn run<R: Wait>(self, rt: &R) -> (Pass<Control, F>, M) {
        let Self {
            shared,
            mut pass,
            mut motor,
        } = self;
        control(rt, &shared, &mut pass, &mut motor);
        (pass, motor)
    }
}
