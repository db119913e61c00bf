//! What documents of several kinds share: the JSON value that they are, their keys, numbers and ranges, why they are
//! refused, and the record, the key and the end that lines of a log have.
#![tactic(auto)]

mod fields;
mod key;
mod kinds;
mod line_fields;
mod ranges;
mod read;
mod record;
mod refusal;
mod value;

pub use fields::{must, number_field, required, shaped};
pub use key::Key;
pub use kinds::is_header;
pub use line_fields::{done_in, key_in, record_in};
pub use ranges::{MAX_OPERATIONS, count_in_range};
pub use read::{is_kind, read_value};
pub use record::record_text;
pub use refusal::DocError;
pub use value::{items_in, optional_number, place_in};
