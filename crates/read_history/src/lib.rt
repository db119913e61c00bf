//! Documents of histories with an order of them, the line of a verdict, and the shapes of records, lists and plans that
//! documents of other kinds have too.
#![tactic(auto)]

mod check;
mod document;
mod history;
mod operation;
mod shape;
mod verdict;
mod wishes;

pub use check::{check_document, read_check, read_check_leaking};
pub use document::CheckDocument;
pub use history::{are_lawful, one_term, ops_in_range};
pub use shape::{Shape, field, list_field, list_of};
pub use verdict::verdict_text;
