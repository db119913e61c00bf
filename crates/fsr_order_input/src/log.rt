//! A log, by its kind.
use text_lines::PackedText;

/// The input of the command `order`.
#[derive(Drop)]
pub enum LogInput {
    /// A log in lines, packed.
    Lines(PackedText),
    /// Any other document, by its bytes.
    Document(Vec<u8>),
}
