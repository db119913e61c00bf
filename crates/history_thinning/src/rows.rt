//! Operations and their places in the log.

ghost use Rattle.std.specs.Prelude.{◌≡◌, ◌++◌, ◌∷◌, [], OnErr, OnOk};

use history_core::Op;
use std::alloc::{AllocError, Global};

/// Operations, each with its place in the log at the same index.
#[derive(Drop)]
pub struct Rows {
    pub ops: Vec<Op<usize>>,
    pub places: Vec<usize>,
}

/// No operation.
pub(crate) fn no_rows(alloc: Global) -> Rows
    ensures ops { result.ops.items ≡ [] }
    ensures places { result.places.items ≡ [] }
{
    Rows {
        ops: Vec::new(alloc),
        places: Vec::new(alloc),
    }
}

/// One more operation at the end. Where there is no memory for it, all stays as it is.
pub(crate) fn push(rows: &mut Rows, op: Op<usize>, place: usize) -> Result<(), AllocError>
    ensures ops { OnOk result (rows.new.ops.items ≡ rows.old.ops.items ++ op ∷ []) }
    ensures places { OnOk result (rows.new.places.items ≡ rows.old.places.items ++ place ∷ []) }
    ensures same_ops { OnErr result (rows.new.ops.items ≡ rows.old.ops.items) }
    ensures same_places { OnErr result (rows.new.places.items ≡ rows.old.places.items) }
{
    let count = rows.places.len();
    rows.places.push(place)?;
    match rows.ops.push(op) {
        Ok(()) => Ok(()),
        Err(_) => {
            rows.places.truncate(count);
            Err(AllocError)
        }
    }
}
