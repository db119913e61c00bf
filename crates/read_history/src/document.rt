use history_core::{Band, History, Items};

/// What a document of kind `check` stands for: a history, and an order of its operations as places in it.
#[derive(Drop)]
pub struct CheckDocument {
    pub history: History<Band>,
    pub order: Items<usize>,
}
