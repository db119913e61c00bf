/// Which moments a picture shows, how many of them make a column, and how wide it is.
#[derive(Clone, Copy, Debug, PartialEq, Eq)]
pub struct Scale {
    pub least: u64,
    pub most: u64,
    /// The moments of a column, less one.
    pub extra: u64,
    /// The width of a column.
    pub wide: u8,
    /// The least width of the picture, with room for its line of text.
    pub room: u16,
}
