//! What each step tells.
ghost use Rattle.family_triple.specs.Steps.{put_takes, get_takes, publishes, looks, fetches};

use crate::notes::FamilySight;
use atomic_table::Play;
use cell_contract::Lawful;

pub(crate) struct PutTakes;

impl<T> Play<T, FamilySight<T>> for PutTakes {
    ghost then = { put_takes };
}

pub(crate) struct GetTakes;

impl<T> Play<T, FamilySight<T>> for GetTakes {
    ghost then = { get_takes };
}

pub(crate) struct Publishes;

impl<T> Play<T, FamilySight<T>> for Publishes {
    ghost then = { publishes };
}

pub(crate) struct Looks;

impl<T: Lawful> Play<T, FamilySight<T>> for Looks {
    ghost then = { looks T.fits T.rises };
}

pub(crate) struct Fetches;

impl<T: Lawful> Play<T, FamilySight<T>> for Fetches {
    ghost then = { fetches T.fits T.rises };
}
