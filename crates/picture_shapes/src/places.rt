//! Where moments and lanes lie.

ghost use Rattle.std.specs.Prelude.{◌≡◌, ◌<◌, ◌≤◌, length, max};
ghost use Rattle.std.specs.Fmt.{decimal};
ghost use Rattle.std.specs.List.{fold};
ghost use Rattle.picture_shapes.specs.Scales.{actors_of, far_of, later_end, least_of, most_of, scale_of};
ghost use Rattle.picture_shapes.specs.Scales.{extra_of, unit_in, wide_of, x_of, y_of};

use crate::scale::Scale;
use history_core::{Band, Op};
use print_report::Line;

/// The margin at the left.
const LEFT: u64 = 96;

/// The width of a column, where operations have no lines.
const COLUMN: u8 = 32;

/// The greatest number of columns.
const MOST_COLUMNS: u64 = 100_000;

/// The number of columns where a column has several moments.
const FEW_COLUMNS: u64 = 20_000;

/// What lies behind the last moment.
const BEHIND: u64 = 96;

/// The margin at the top.
const TOP: u64 = 84;

/// The height of a lane.
pub const LANE: u64 = 64;

/// The greatest number of a lane.
const MOST_LANE: usize = 63;

impl Scale {
    /// The scale of a picture of these operations, which stand on these lines, if they are known.
    pub fn of(ops: &[Op<Band>], lines: &[usize], room: u16) -> Scale
        ensures { result ≡ scale_of ops.now lines.now room }
    {
        let least = least_of(ops);
        let most = most_of(ops);
        let extra = extra_of(most.saturating_sub(least));
        Scale {
            least,
            most,
            extra,
            wide: wide_of(lines),
            room,
        }
    }

    /// The moments of a column.
    pub fn unit(&self) -> u64
        ensures unit { result ≡ unit_in self.now }
        ensures some { 0 < result }
    {
        self.extra.saturating_add(1)
    }

    pub fn x_of(&self, moment: u64) -> u64
        ensures x { result ≡ x_of self.now moment }
        ensures most { result ≤ 25500096 }
    {
        let column = MOST_COLUMNS.min(moment.saturating_sub(self.least) / self.unit());
        LEFT + self.wide as u64 * column
    }

    pub fn far(&self) -> u64
        ensures x { result ≡ far_of self.now }
        ensures most { result ≤ 25500192 }
    {
        (self.room as u64).max(self.x_of(self.most) + BEHIND)
    }
}

pub fn y_of(lane: usize) -> u64
    ensures y { result ≡ y_of lane }
    ensures most { result ≤ 4116 }
{
    TOP + LANE * MOST_LANE.min(lane) as u64
}

fn least_of(ops: &[Op<Band>]) -> u64
    ensures { result ≡ least_of ops.now }
{
    ops.iter().fold(u64::MAX, |n, op| n.min(op.starts))
}

fn most_of(ops: &[Op<Band>]) -> u64
    ensures { result ≡ most_of ops.now }
{
    ops.iter()
        .fold(0, |n, op| later_end(n.max(op.starts), op.ends))
}

fn later_end(n: u64, ends: Option<u64>) -> u64
    ensures { result ≡ later_end n ends }
{
    match ends {
        Some(end) => n.max(end),
        None => n,
    }
}

fn extra_of(span: u64) -> u64
    ensures { result ≡ extra_of span }
{
    if span <= MOST_COLUMNS {
        0
    } else {
        span / FEW_COLUMNS
    }
}

/// The width of a column: two of them hold the words above a bar, with the longest line.
fn wide_of(lines: &[usize]) -> u8
    ensures { result ≡ wide_of lines.now }
{
    if lines.is_empty() {
        COLUMN
    } else {
        36 + 3 * digits_of(greatest(lines) as u64)
    }
}

fn greatest(lines: &[usize]) -> usize
    ensures { result ≡ fold (λ n line. max n line) 0 lines.now }
{
    lines.iter().fold(0, |n, line| n.max(*line))
}

/// How many digits a number has.
fn digits_of(number: u64) -> u8
    ensures digits { result ≡ length (decimal number) }
    ensures most { result ≤ 20 }
{
    let mut line = Line::new();
    line.put_number(number);
    line.as_bytes().len() as u8
}

pub fn actors_of(ops: &[Op<Band>]) -> usize
    ensures { result ≡ actors_of ops.now }
{
    ops.iter().fold(0, |n, op| n.max(MOST_LANE.min(op.who) + 1))
}
