//! What a step tells that changes nothing, and what goes from seat to seat.
ghost use Rattle.family_table.specs.Ends.{looks, says, shows, shows_all, tells_and_shows};
ghost use Rattle.family_table.specs.Seats.{all_but_first, first_of, no_process, all_of, told_by};
ghost use Rattle.family_table.specs.Seats.{learnt_by, joined, no_one};

use crate::mechanism::Mechanism;
use crate::notes::{Looking, Opening, View};
use atomic_table::{Join, Play, Split};
use std::marker::PhantomData;

/// Shows all calls so far.
pub(crate) struct Shows<M, K> {
    of: PhantomData<(M, K)>,
}

impl<T, V, M: Mechanism<T, V>, K: Opening<T>> Play<T, View<V>> for Shows<M, K> {
    ghost then = { shows M.blank M.layout M.done K.first K.processes };
}

/// Shows what all processes have done so far.
pub(crate) struct ShowsAll<M, K> {
    of: PhantomData<(M, K)>,
}

impl<T, V, M: Mechanism<T, V>, K: Opening<T>> Play<T, View<V>> for ShowsAll<M, K> {
    ghost then = { shows_all M.blank M.layout M.done M.plan K.first K.processes K.limit };
}

/// A step of a mechanism that shows what all processes have done so far too.
pub struct Showing<P, M, K> {
    of: PhantomData<(P, M, K)>,
}

impl<T, V, P: Play<T, View<V>>, M: Mechanism<T, V>, K: Opening<T>> Play<T, View<V>>
    for Showing<P, M, K> {
    ghost then = { tells_and_shows M.blank M.layout M.done M.plan K.first K.processes K.limit P.then };
}

/// The store of a tag in the word of its process.
pub(crate) struct Says;

impl<T, V> Play<T, View<V>> for Says {
    ghost then = { says };
}

/// A load of the word of another process's tags.
pub(crate) struct Looks<L> {
    of: PhantomData<L>,
}

impl<T, V, L: Looking> Play<T, View<V>> for Looks<L> {
    ghost then = { looks L.from L.tag };
}

/// The first process of a seat's goes to a seat of its own.
pub(crate) struct First;

impl<V> Split<View<V>> for First {
    ghost left = { all_but_first };

    ghost right = { first_of };
}

/// All that a seat knows goes to a seat with no slots.
pub(crate) struct All;

impl<V> Split<View<V>> for All {
    ghost left = { no_process };

    ghost right = { all_of };
}

pub(crate) struct Tells<T, M> {
    of: PhantomData<(T, M)>,
}

impl<T, V, M: Mechanism<T, V>> Split<View<V>> for Tells<T, M> {
    ghost left = { all_of };

    ghost right = { told_by M.receipt };
}

/// A receipt is told once more.
pub(crate) struct Repeats;

impl<V> Split<View<V>> for Repeats {
    ghost left = { all_of };

    ghost right = { all_of };
}

pub(crate) struct Learns<T, M> {
    of: PhantomData<(T, M)>,
}

impl<T, V, M: Mechanism<T, V>> Join<View<V>> for Learns<T, M> {
    ghost both = { learnt_by M.hears };

    ghost spent = { no_one };
}

/// A seat takes in what another one knows.
pub(crate) struct Gathers;

impl<V> Join<View<V>> for Gathers {
    ghost both = { joined };

    ghost spent = { no_one };
}
