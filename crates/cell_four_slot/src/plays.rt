//! What each step tells.
ghost use Rattle.std.specs.Prelude.{List, []};
ghost use Rattle.cell_four_slot.specs.Steps.{begins, stores_on, finishes, asks_on, says, takes};
ghost use Rattle.cell_four_slot.specs.Steps.{receipt_for, hears_of, whole_of};
ghost use Rattle.cell_contract.specs.declared.sight.Sight.TheVariants.{Spent};

use crate::notes::FourSlotSight;
use atomic_table::{Join, Play, Split};
use cell_contract::Lawful;
use std::marker::{Brand, PhantomData};

/// The record of a write, which its first load tells the view.
pub(crate) trait Item<T> {
    ghost item: { List T };
}

impl<T> Item<T> for Brand {
    ghost item = { [] };
}

pub(crate) struct Begins<K> {
    item: PhantomData<K>,
}

impl<T, K: Item<T>> Play<T, FourSlotSight<T>> for Begins<K> {
    ghost then = { begins K.item };
}

pub(crate) struct Stores;

impl<T> Play<T, FourSlotSight<T>> for Stores {
    ghost then = { stores_on };
}

pub(crate) struct Finishes;

impl<T> Play<T, FourSlotSight<T>> for Finishes {
    ghost then = { finishes };
}

pub(crate) struct Asks;

impl<T> Play<T, FourSlotSight<T>> for Asks {
    ghost then = { asks_on };
}

pub(crate) struct Says;

impl<T> Play<T, FourSlotSight<T>> for Says {
    ghost then = { says };
}

pub(crate) struct Takes;

impl<T: Lawful> Play<T, FourSlotSight<T>> for Takes {
    ghost then = { takes T.fits T.rises };
}

pub(crate) struct Tells;

impl<T> Split<FourSlotSight<T>> for Tells {
    ghost left = { λ v. v };

    ghost right = { receipt_for };
}

pub(crate) struct Hears;

impl<T> Join<FourSlotSight<T>> for Hears {
    ghost both = { hears_of };

    ghost spent = { Spent };
}

pub(crate) struct Ends;

impl<T> Join<FourSlotSight<T>> for Ends {
    ghost both = { whole_of };

    ghost spent = { Spent };
}
