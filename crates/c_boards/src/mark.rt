//! The stamp of a record, as C has it.
ghost use Rattle.std.specs.Prelude.{◌≡◌};
ghost use Rattle.matrix_core.specs.Stamps.{is_below};
ghost use Rattle.c_boards.specs.Marks.{stamp_of};

use matrix_core::Stamp;

/// A stamp: of two the one with the greater tag is later, of equal tags the one with the greater writer.
#[repr(C)]
#[derive(Clone, Copy)]
pub struct Mark {
    pub tag: u64,
    pub writer: usize,
}

/// The stamp for C.
#[inline]
pub(crate) fn mark_of(stamp: Stamp) -> Mark
    ensures { stamp_of result ≡ stamp }
{
    Mark {
        tag: stamp.tag,
        writer: stamp.writer,
    }
}

/// Whether the first stamp is the smaller one.
#[inline]
pub(crate) fn is_below(a: &Mark, b: &Mark) -> bool
    ensures { result ≡ is_below (stamp_of a.now) (stamp_of b.now) }
{
    a.tag < b.tag || (a.tag == b.tag && a.writer < b.writer)
}
