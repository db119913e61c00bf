//! Matrices stepped by hand.

use super::{A, B, OPENING};
use history_core::{MAX_LIMIT, Wish};
use matrix_core::{Outcome, Stamp, Stamped};
use matrix_play::{MatrixCore, MatrixStage};
use std::test::Fail;

/// Two writes whose accesses alternate, and a read of the later one, stepped by hand.
#[test]
fn two_processes_by_hand(rt: HostRuntime) -> Result<(), Fail> {
    let mut core = MatrixCore::new(rt.alloc(), 2, 9, OPENING)?;
    let first = Stamp { tag: 1, writer: 0 };
    let second = Stamp { tag: 1, writer: 1 };
    let seen = Stamped {
        stamp: second,
        item: B,
    };
    let stages = [
        core.step(0, Wish::Write(A)),
        core.step(1, Wish::Write(B)),
        core.step(0, Wish::Read),
        core.step(1, Wish::Read),
        core.step(0, Wish::Read),
        core.step(0, Wish::Read),
    ];
    let wanted = [
        MatrixStage::Got { from: 1 },
        MatrixStage::Got { from: 0 },
        MatrixStage::Done(Outcome::Written(first)),
        MatrixStage::Done(Outcome::Written(second)),
        MatrixStage::Got { from: 1 },
        MatrixStage::Done(Outcome::Seen(seen)),
    ];
    assert!(rt; stages == wanted);
    Ok(())
}

/// The next stamp, and none at the limit; the order goes by tag, and then by writer.
#[test]
fn stamps(rt: HostRuntime) {
    let first = Stamp { tag: 3, writer: 2 };
    let next = [first.next(4, 1), first.next(3, 1)];
    assert!(rt; next == [Some(Stamp { tag: 4, writer: 1 }), None]);
    assert!(rt; first < Stamp { tag: 4, writer: 0 } && first < Stamp { tag: 3, writer: 3 });
}

/// Three processes by hand: the last read of a column chooses, and a row is written in rising order.
#[test]
fn three_processes_by_hand(rt: HostRuntime) -> Result<(), Fail> {
    let mut core = MatrixCore::new(rt.alloc(), 3, MAX_LIMIT, OPENING)?;
    let written = Stamp { tag: 1, writer: 1 };
    let stages = [
        core.step(1, Wish::Write(A)),
        core.step(1, Wish::Read),
        core.step(1, Wish::Read),
        core.step(1, Wish::Read),
    ];
    let wanted = [
        MatrixStage::Got { from: 0 },
        MatrixStage::Got { from: 2 },
        MatrixStage::Put { to: 0 },
        MatrixStage::Done(Outcome::Written(written)),
    ];
    assert!(rt; stages == wanted);
    Ok(())
}

#[test]
fn sixteen_processes(rt: HostRuntime) -> Result<(), Fail> {
    let mut core = MatrixCore::new(rt.alloc(), 16, 1, OPENING)?;
    let stages = [core.step(15, Wish::Read), core.step(15, Wish::Read)];
    assert!(rt; stages == [MatrixStage::Got { from: 0 }, MatrixStage::Got { from: 1 }]);
    Ok(())
}
