//! What each step tells.
ghost use Rattle.std.specs.Prelude.{List, []};
ghost use Rattle.family_four_slot.specs.Steps.{begins, stores_on, finishes, asks, says, takes, takes_on};

use crate::notes::FamilySight;
use atomic_table::Play;
use cell_contract::Lawful;
use std::marker::{Brand, PhantomData};

/// The record of a write, which its first load tells the view.
pub(crate) trait Item<T> {
    ghost item: { List T };
}

impl<T> Item<T> for Brand {
    ghost item = { [] };
}

pub(crate) struct Begins<K> {
    item: PhantomData<K>,
}

impl<T, K: Item<T>> Play<T, FamilySight<T>> for Begins<K> {
    ghost then = { begins K.item };
}

pub(crate) struct Stores;

impl<T> Play<T, FamilySight<T>> for Stores {
    ghost then = { stores_on };
}

pub(crate) struct Finishes;

impl<T> Play<T, FamilySight<T>> for Finishes {
    ghost then = { finishes };
}

pub(crate) struct Asks;

impl<T> Play<T, FamilySight<T>> for Asks {
    ghost then = { asks };
}

pub(crate) struct Says;

impl<T> Play<T, FamilySight<T>> for Says {
    ghost then = { says };
}

pub(crate) struct Takes;

impl<T: Lawful> Play<T, FamilySight<T>> for Takes {
    ghost then = { takes T.fits T.rises };
}

pub(crate) struct TakesOn;

impl<T: Lawful> Play<T, FamilySight<T>> for TakesOn {
    ghost then = { takes_on T.fits T.rises };
}
