//! The scenes of the documents of each kind.

ghost use Rattle.std.specs.Prelude.{◌≡◌, [], IfOk};
ghost use Rattle.matrix_core.specs.Runs.{CanPlay};
ghost use Rattle.print_picture.specs.declared.scene.Finding.TheVariants.{Lawful};
ghost use Rattle.picture_answers.specs.Scenes.{ArePointsOf, finding_of, IsPlainSceneOf, IsSceneOf};
ghost use Rattle.picture_answers.specs.Scenes.{ShowsBoard, ShowsCell, ShowsCheck, ShowsLog, ShowsMatrix};

use crate::moments::{moments_of, ranked_history};
use four_slot_core::{CellReport, CellSchedule};
use history_core::{Band, History, Items, Search};
use history_explain::{Break, first_break, points};
use matrix_core::{BoardReport, BoardSchedule, MatrixReport, Stamp};
use picture_shapes::{Lanes, Visit, board_visits, cell_visits};
use print_picture::{Finding, Scene, board_lanes};
use std::alloc::{AllocError, Global};

pub fn check_scene(
    alloc: Global,
    history: History<Band>,
    order: Items<usize>,
) -> Result<Scene, AllocError>
    ensures { IfOk result (ShowsCheck history order) }
{
    let broken = first_break(&history, order.as_slice());
    plain_scene(alloc, history, no_lines(alloc), order, finding_of(broken))
}

fn no_lines(alloc: Global) -> Items<usize>
    ensures { result ≡ [] }
{
    Items::new(Vec::new(alloc))
}

fn finding_of(broken: Option<Break>) -> Finding
    ensures { result ≡ finding_of broken }
{
    match broken {
        None => Finding::Lawful,
        Some(broken) => Finding::Broken(broken),
    }
}

pub fn log_scene(
    alloc: Global,
    log: History<Band>,
    lines: Items<usize>,
    search: Search,
) -> Result<Scene, AllocError>
    ensures { IfOk result (ShowsLog log lines search) }
{
    match search {
        Search::Order(order) => plain_scene(alloc, log, lines, order, Finding::Lawful),
        Search::Unlawful(reason) => {
            let order = Items::new(Vec::new(alloc));
            plain_scene(alloc, log, lines, order, Finding::NoOrder(reason))
        }
    }
}

/// The scene of operations without stamps and slots. Its columns are the ranks of their moments.
fn plain_scene(
    alloc: Global,
    history: History<Band>,
    lines: Items<usize>,
    order: Items<usize>,
    finding: Finding,
) -> Result<Scene, AllocError>
    ensures { IfOk result (IsPlainSceneOf history lines order finding) }
{
    let moments = moments_of(alloc, history.ops.as_slice())?;
    let ranked = ranked_history(alloc, moments.as_slice(), history)?;
    let stamps = Items::new(Vec::new(alloc));
    let visits = Items::new(Vec::new(alloc));
    scene_of(
        alloc,
        ranked,
        Items::new(moments),
        order,
        finding,
        stamps,
        lines,
        Lanes::Actors,
        visits,
    )
}

pub fn cell_scene(
    alloc: Global,
    schedule: &CellSchedule<Band>,
    report: CellReport<Band>,
) -> Result<Scene, AllocError>
    ensures { IfOk result (ShowsCell schedule.now report) }
{
    let CellReport {
        history,
        slots,
        order,
    } = report;
    let visits = cell_visits(alloc, schedule, history.ops.as_slice(), slots.as_slice())?;
    let stamps = Items::new(Vec::new(alloc));
    played_scene(
        alloc,
        history,
        order,
        stamps,
        Lanes::Cell,
        Items::new(visits),
    )
}

pub fn matrix_scene(alloc: Global, report: MatrixReport<Band>) -> Result<Scene, AllocError>
    ensures { IfOk result (ShowsMatrix report) }
{
    let MatrixReport {
        history,
        stamps,
        order,
    } = report;
    let no_visits = Items::new(Vec::new(alloc));
    played_scene(alloc, history, order, stamps, Lanes::Actors, no_visits)
}

pub fn board_scene(
    alloc: Global,
    schedule: &BoardSchedule<Band>,
    report: BoardReport<Band>,
) -> Result<Scene, AllocError>
    requires { CanPlay schedule.now.terms }
    ensures { IfOk result (ShowsBoard schedule.now report) }
{
    let BoardReport {
        history,
        stamps,
        slots,
        order,
    } = report;
    let terms = schedule.terms.as_slice();
    let marks = history.terms.as_slice();
    let visits = board_visits(
        alloc,
        terms,
        marks,
        history.ops.as_slice(),
        slots.as_slice(),
    )?;
    played_scene(
        alloc,
        history,
        order,
        stamps,
        board_lanes(terms),
        Items::new(visits),
    )
}

/// The scene of what a player made of a schedule: its times are moments, and its order is lawful.
fn played_scene(
    alloc: Global,
    history: History<Band>,
    order: Items<usize>,
    stamps: Items<Option<Stamp>>,
    lanes: Lanes,
    visits: Items<Visit>,
) -> Result<Scene, AllocError>
    ensures { IfOk result (IsSceneOf history [] order Lawful stamps [] lanes visits) }
{
    scene_of(
        alloc,
        history,
        Items::new(Vec::new(alloc)),
        order,
        Finding::Lawful,
        stamps,
        no_lines(alloc),
        lanes,
        visits,
    )
}

/// The scene of a history with an order, and with its points.
fn scene_of(
    alloc: Global,
    history: History<Band>,
    moments: Items<u64>,
    order: Items<usize>,
    finding: Finding,
    stamps: Items<Option<Stamp>>,
    lines: Items<usize>,
    lanes: Lanes,
    visits: Items<Visit>,
) -> Result<Scene, AllocError>
    ensures { IfOk result (IsSceneOf history moments order finding stamps lines lanes visits) }
{
    let points = points_of(alloc, &history, &order)?;
    Ok(Scene {
        history,
        moments,
        order,
        points,
        finding,
        stamps,
        lines,
        lanes,
        visits,
    })
}

/// The earliest points of an order, or no points where it has none.
fn points_of(
    alloc: Global,
    history: &History<Band>,
    order: &Items<usize>,
) -> Result<Items<u64>, AllocError>
    ensures { IfOk result (ArePointsOf history.now.ops order.now) }
{
    match points(alloc, history, order.as_slice())? {
        Some(points) => Ok(points),
        None => Ok(Items::new(Vec::new(alloc))),
    }
}
