//! What each step tells.
ghost use Rattle.cell_triple.specs.Steps.{put_took, get_took, put_swapped, looked, get_swapped};
ghost use Rattle.cell_triple.specs.Steps.{receipt_for, hears_of, whole_of};
ghost use Rattle.cell_contract.specs.declared.sight.Sight.TheVariants.{Spent};

use crate::notes::TripleSight;
use atomic_table::{Join, Play, Split};
use cell_contract::Lawful;

pub(crate) struct PutTakes;

impl<T> Play<T, TripleSight<T>> for PutTakes {
    ghost then = { put_took };
}

pub(crate) struct GetTakes;

impl<T> Play<T, TripleSight<T>> for GetTakes {
    ghost then = { get_took };
}

pub(crate) struct PutSwaps;

impl<T> Play<T, TripleSight<T>> for PutSwaps {
    ghost then = { put_swapped };
}

pub(crate) struct Looks;

impl<T: Lawful> Play<T, TripleSight<T>> for Looks {
    ghost then = { looked T.fits T.rises };
}

pub(crate) struct GetSwaps;

impl<T: Lawful> Play<T, TripleSight<T>> for GetSwaps {
    ghost then = { get_swapped T.fits T.rises };
}

pub(crate) struct Tells;

impl<T> Split<TripleSight<T>> for Tells {
    ghost left = { λ v. v };

    ghost right = { receipt_for };
}

pub(crate) struct Yields;

impl<T> Split<TripleSight<T>> for Yields {
    ghost left = { λ _. Spent };

    ghost right = { λ v. v };
}

pub(crate) struct Hears;

impl<T> Join<TripleSight<T>> for Hears {
    ghost both = { hears_of };

    ghost spent = { Spent };
}

pub(crate) struct Ends;

impl<T> Join<TripleSight<T>> for Ends {
    ghost both = { whole_of };

    ghost spent = { Spent };
}
