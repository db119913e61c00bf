//! Boards whose tasks have scripts. A script is a list of numbers: 0 is a read, and any other number is a write of the
//! record that is this number alone.
ghost use Rattle.std.specs.Prelude.{◌≡◌, All, IfOk, IsTrue, length};
ghost use Rattle.history_core.specs.Band.{fits};
ghost use Rattle.matrix_core.specs.Stamps.{first_stamp};
ghost use Rattle.board_live.specs.Deals.{IsNew};
ghost use Rattle.board_tasks.specs.Lanes.{AreLanes};
ghost use Rattle.board_tasks.specs.Logs.{Obeys};
ghost use Rattle.board_tasks.specs.Worked.{HaveWorked};

use board_live::{Board, Posted};
use board_tasks::{Gate, Lane, make_lanes, run_tasks};
use cell_contract::{Family, SharedFamily};
use history_core::{Band, Items, Wish};
use std::alloc::{AllocError, Global};
use std::thread::Threads;

/// The record that is this number alone.
pub fn point(number: u64) -> Band
    ensures { IsTrue (fits result) }
{
    Band {
        lo: number,
        now: number,
        hi: number,
    }
}

fn wish(number: u64) -> Wish<Band>
    ensures { Obeys fits result }
{
    if number == 0 {
        Wish::Read
    } else {
        Wish::Write(point(number))
    }
}

fn script(alloc: Global, numbers: &[u64]) -> Result<Items<Wish<Band>>, AllocError>
    ensures lawful { IfOk result (λ s. All (Obeys fits) s) }
{
    let mut wishes = Vec::new(alloc);
    for number in numbers {
        wishes.push(wish(*number))?;
    }
    Ok(Items::new(wishes))
}

/// The calls that these numbers mean.
pub fn scripts(alloc: Global, plans: &[&[u64]]) -> Result<Items<Items<Wish<Band>>>, AllocError>
    ensures lawful { IfOk result (λ s. All (λ t. All (Obeys fits) t) s) }
    ensures count { IfOk result (λ s. length s ≡ length plans.now) }
{
    let mut all = Vec::new(alloc);
    for plan in plans {
        all.push(script(alloc, plan)?)?;
    }
    Ok(Items::new(all))
}

/// A board with the lanes of all its processes, which have worked with fresh passes.
#[derive(Drop)]
pub struct Crew<F: Family<Posted<Band>>> {
    pub board: Board<Band, F>,
    pub lanes: Vec<Lane<Band, F>>,
}

/// Runs the plans on a board of their own, of as many processes as plans, whose opening is 0.
pub fn run_plans<R: Threads + Sync, F: SharedFamily<Posted<Band>>, G: Gate + Sync>(
    rt: &R,
    alloc: Global,
    limit: u64,
    plans: &[&[u64]],
    gate: &G,
) -> Result<Crew<F>, AllocError>
where
    F::Seat: Send,
    F::Receipt: Send,
    ensures { IfOk result (λ r. HaveWorked ⟦<F as Family<Posted<Band>>>⟧ fits r.board r.lanes.items) }
{
    let Ok((board, passes)) = Board::<Band, F>::new(alloc, plans.len(), limit, point(0)) else {
        return Err(AllocError);
    };
    let all = scripts(alloc, plans)?;
    let mut lanes = make_lanes(alloc, passes, all)?;
    run_tasks(rt, &board, lanes.as_mut_slice(), gate);
    Ok(Crew { board, lanes })
}
