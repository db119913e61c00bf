use history_core::{Band, History, Items, Reason};
use history_explain::Break;
use matrix_core::Stamp;
use picture_shapes::{Lanes, Visit};

/// What a picture says of its history.
#[derive(Clone, Copy, PartialEq, Eq)]
pub enum Finding {
    /// The order is lawful.
    Lawful,
    /// The order isn't lawful, as this breaks it.
    Broken(Break),
    /// No order is lawful, for this reason.
    NoOrder(Reason),
}

/// What a picture shows.
#[derive(Drop)]
pub struct Scene {
    /// Its times are moments, or ranks of the moments below.
    pub history: History<Band>,
    /// The moments of which its times are the ranks; none where its times are moments.
    pub moments: Items<u64>,
    /// An order of its operations, as places in it.
    pub order: Items<usize>,
    /// The point of each entry of the order; without them an operation's beginning stands in its point's place.
    pub points: Items<u64>,
    pub finding: Finding,
    /// The stamps of the operations, where they have some.
    pub stamps: Items<Option<Stamp>>,
    /// The lines of a log on which the operations stand, where they are known.
    pub lines: Items<usize>,
    pub lanes: Lanes,
    pub visits: Items<Visit>,
}
