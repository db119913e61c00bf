use history_core::{LogAnswer, Reason};

/// The verdict on the keys of a log, each of which is a register of its own. Places are those of a key's own log.
#[derive(Drop)]
pub enum KeysVerdict {
    /// Each key has a lawful order.
    Lawful {
        orders: Vec<LogAnswer>,
    },
    /// The key with this number is the first that has none, for this reason. If that is the limit, so many writes can
    /// stand before its first refused write.
    Unlawful {
        number: usize,
        reason: Reason,
        most: u64,
    },
}
