//! Records that move once: written from where they stand, and read where they lie.
ghost use Rattle.std.specs.Prelude.{◌≡◌, ◌≤◌};
ghost use Rattle.std.proofs.Common.{le_refl, le_trans};

use cell_contract::{Calls, Cell, Kept, Lawful};
use cell_four_slot::FourSlotCell;
use cell_triple::TripleCell;
use std::alloc::{AllocError, Global};
use std::test::Fail;

/// A record of 4,096 bytes.
#[derive(Clone, Copy)]
struct Page([u64; 512]);

impl Lawful for Page {
    ghost fits = { λ _. Unit {0} };

    ghost rises = { λ _ _. Unit {0} };

    ghost reflexive = { λ _. tt };

    ghost transitive = { λ _ _ _ _ _. tt };
}

impl Kept for Page {}

impl Page {
    /// The words `first`, `first + 1` and so on.
    fn counting_from(first: u64) -> Page {
        let mut words = [0; 512];
        let mut next = first;
        for word in words.iter_mut() {
            *word = next;
            next = next.saturating_add(1);
        }
        Page(words)
    }

    fn sum(&self) -> u64 {
        self.0
            .iter()
            .fold(0, |sum: u64, word| sum.saturating_add(*word))
    }
}

/// The sums of the opening, of a record written from where it stands, of the same record again,
/// and of one written by value.
fn sums<C: Cell<Page>>(alloc: Global) -> Result<[u64; 4], AllocError> {
    let (cell, mut put, mut get) = C::make(alloc, Page::counting_from(0))?;
    let opening = cell.read_with(&mut get, |page| page.sum());
    let item = Page::counting_from(1);
    cell.write_from(&mut put, &item);
    let first = cell.read_with(&mut get, |page| page.sum());
    let again = cell.read_with(&mut get, |page| page.sum());
    cell.write(&mut put, Page::counting_from(2));
    let last = cell.read_with(&mut get, |page| page.sum());
    cell.finish(put, get);
    Ok([opening, first, again, last])
}

const SUMS: [u64; 4] = [130_816, 131_328, 131_328, 131_840];

#[test]
fn sums_in_place(rt: HostRuntime) -> Result<(), Fail> {
    assert!(rt;
        sums::<FourSlotCell<Page>>(rt.alloc())? == SUMS,
        "in four slots"
    );
    assert!(rt;
        sums::<TripleCell<Page>>(rt.alloc())? == SUMS,
        "in a triple buffer"
    );
    Ok(())
}

/// The sums of a record that was read, of what its reader holds once another one is written, and of the next read.
fn sums_again(alloc: Global) -> Result<[u64; 3], AllocError> {
    let (cell, mut put, mut get) = TripleCell::make(alloc, Page::counting_from(0))?;
    let first = cell.read_with(&mut get, |page| page.sum());
    cell.write_from(&mut put, &Page::counting_from(1));
    let again = cell.look_again(&mut get, |page| page.sum());
    let last = cell.read_with(&mut get, |page| page.sum());
    cell.finish(put, get);
    Ok([first, again, last])
}

#[test]
fn held_in_place(rt: HostRuntime) -> Result<(), Fail> {
    assert!(rt;
        sums_again(rt.alloc())? == [130_816, 130_816, 131_328],
        "no write goes into the reader's slot"
    );
    Ok(())
}
