//! Steps worked by hand: an object's states after each of some operations, or none where it can't give that answer.

use crate::{Lock, Turn};
use object_core::Object;
use object_registers::{Access, Exchange, Exchanging, Limited, LimitedExchanging};

/// The state after all of these operations.
fn after_all<O: Object>(opening: O, done: &[O::What]) -> Option<O> {
    let mut state = opening;
    for what in done {
        match state.step(*what) {
            Some(next) => state = next,
            None => return None,
        }
    }
    Some(state)
}

/// A write is taken at any time, and a refused one stands behind the limit's number of writes.
#[test]
fn limited_rows(rt: HostRuntime) {
    let opening = Limited { held: 5, due: 2 };
    for (done, wanted) in [
        (&[][..], Some((5, 2))),
        (&[Access::Reads(5)][..], Some((5, 2))),
        (&[Access::Reads(6)][..], None),
        (&[Access::Writes(6)][..], Some((6, 1))),
        (&[Access::IsRefused(5)][..], None),
        (&[Access::Writes(6), Access::IsRefused(6)][..], None),
        (
            &[Access::Writes(6), Access::Writes(7), Access::IsRefused(7)][..],
            Some((7, 0)),
        ),
        (
            &[Access::Writes(6), Access::Writes(7), Access::IsRefused(6)][..],
            None,
        ),
        (
            &[Access::Writes(6), Access::Writes(7), Access::Writes(5)][..],
            Some((5, 0)),
        ),
    ] {
        let state = match wanted {
            Some((held, due)) => Some(Limited { held, due }),
            None => None,
        };
        assert_eq!(rt; after_all(opening, done), state, "after {done:?}");
    }
    assert!(rt;
        Limited::is_pure(Access::Reads(1))
            && Limited::is_pure(Access::IsRefused(1))
            && !Limited::is_pure(Access::Writes(1))
    );
    assert!(rt;
        opening.is(opening)
            && !opening.is(Limited { held: 5, due: 1 })
            && !opening.is(Limited { held: 6, due: 2 })
    );
}

/// A compare-and-set that was made, that found another record, and one of which nothing is known.
#[test]
fn exchanging_rows(rt: HostRuntime) {
    let opening = Exchanging { held: 5 };
    for (done, wanted) in [
        (&[Exchange::Swaps(5, 6), Exchange::Gets(6)][..], Some(6)),
        (&[Exchange::Swaps(4, 6)][..], None),
        (&[Exchange::Misses(4)][..], Some(5)),
        (&[Exchange::Misses(5)][..], None),
        (&[Exchange::Finds(4, 5)][..], Some(5)),
        (&[Exchange::Finds(4, 6)][..], None),
        (&[Exchange::Finds(5, 5)][..], None),
        (&[Exchange::Tries(5, 6)][..], Some(6)),
        (&[Exchange::Tries(4, 6)][..], Some(5)),
        (&[Exchange::Refuses(5)][..], Some(5)),
        (&[Exchange::Refuses(6)][..], None),
        (
            &[Exchange::Sets(4), Exchange::Tries(4, 6), Exchange::Gets(6)][..],
            Some(6),
        ),
    ] {
        let state = match wanted {
            Some(held) => Some(Exchanging { held }),
            None => None,
        };
        assert_eq!(rt; after_all(opening, done), state, "after {done:?}");
    }
    for (what, pure) in [
        (Exchange::Sets(5), false),
        (Exchange::Gets(5), true),
        (Exchange::Swaps(5, 6), false),
        (Exchange::Swaps(5, 5), true),
        (Exchange::Misses(5), true),
        (Exchange::Finds(5, 6), true),
        (Exchange::Tries(5, 6), false),
        (Exchange::Tries(6, 6), true),
        (Exchange::Refuses(6), true),
    ] {
        assert_eq!(rt; Exchanging::is_pure(what), pure, "{what:?}");
    }
    assert!(rt; opening.is(opening) && !opening.is(Exchanging { held: 6 }));
}

/// A write and a compare-and-set that writes are taken at any time, and a refused write stands behind the limit's
/// number of them.
#[test]
fn limited_exchanging_rows(rt: HostRuntime) {
    let opening = LimitedExchanging { held: 5, due: 2 };
    for (done, wanted) in [
        (&[][..], Some((5, 2))),
        (&[Exchange::Refuses(5)][..], None),
        (&[Exchange::Gets(5)][..], Some((5, 2))),
        (&[Exchange::Sets(6)][..], Some((6, 1))),
        (&[Exchange::Swaps(5, 6)][..], Some((6, 1))),
        (&[Exchange::Swaps(5, 5)][..], Some((5, 1))),
        (&[Exchange::Swaps(4, 6)][..], None),
        (&[Exchange::Misses(4)][..], Some((5, 2))),
        (&[Exchange::Misses(5)][..], None),
        (&[Exchange::Finds(4, 5)][..], Some((5, 2))),
        (&[Exchange::Finds(5, 5)][..], None),
        (&[Exchange::Tries(5, 6)][..], Some((6, 1))),
        (&[Exchange::Tries(4, 6)][..], Some((5, 2))),
        (&[Exchange::Sets(6), Exchange::Refuses(6)][..], None),
        (
            &[
                Exchange::Sets(6),
                Exchange::Swaps(6, 7),
                Exchange::Refuses(7),
            ][..],
            Some((7, 0)),
        ),
        (
            &[
                Exchange::Sets(6),
                Exchange::Swaps(6, 7),
                Exchange::Refuses(6),
            ][..],
            None,
        ),
        (
            &[Exchange::Sets(6), Exchange::Misses(7), Exchange::Refuses(6)][..],
            None,
        ),
        (
            &[Exchange::Sets(6), Exchange::Sets(7), Exchange::Sets(5)][..],
            Some((5, 0)),
        ),
    ] {
        let state = match wanted {
            Some((held, due)) => Some(LimitedExchanging { held, due }),
            None => None,
        };
        assert_eq!(rt; after_all(opening, done), state, "after {done:?}");
    }
    for (what, pure) in [
        (Exchange::Sets(5), false),
        (Exchange::Gets(5), true),
        (Exchange::Swaps(5, 5), false),
        (Exchange::Misses(5), true),
        (Exchange::Finds(5, 6), true),
        (Exchange::Tries(6, 6), false),
        (Exchange::Refuses(6), true),
    ] {
        assert_eq!(rt; LimitedExchanging::is_pure(what), pure, "{what:?}");
    }
    assert!(rt;
        opening.is(opening)
            && !opening.is(LimitedExchanging { held: 5, due: 1 })
            && !opening.is(LimitedExchanging { held: 6, due: 2 })
    );
}

/// A lock has one holder, who lets it go.
#[test]
fn lock_rows(rt: HostRuntime) {
    let opening = Lock { holder: None };
    for (done, wanted) in [
        (&[Turn::Took(1)][..], Some(Some(1))),
        (&[Turn::Took(1), Turn::Took(2)][..], None),
        (
            &[Turn::Took(1), Turn::Failed, Turn::LetGo(1), Turn::Took(2)][..],
            Some(Some(2)),
        ),
        (&[Turn::Failed][..], None),
        (&[Turn::LetGo(1)][..], None),
        (&[Turn::Took(1), Turn::LetGo(2)][..], None),
        (&[Turn::Took(1), Turn::LetGo(1)][..], Some(None)),
    ] {
        let state = match wanted {
            Some(holder) => Some(Lock { holder }),
            None => None,
        };
        assert_eq!(rt; after_all(opening, done), state, "after {done:?}");
    }
    assert!(rt;
        Lock::is_pure(Turn::Failed)
            && !Lock::is_pure(Turn::Took(1))
            && !Lock::is_pure(Turn::LetGo(1))
    );
    assert!(rt; opening.is(opening) && !opening.is(Lock { holder: Some(0) }));
}
