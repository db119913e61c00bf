//! Counts below a verdict, how little is shown, and how a log ends.
ghost use Rattle.std.specs.Prelude.{◌≡◌, ◌++◌, ◌*◌, nat_lt, OnOk};
ghost use Rattle.std.specs.Fmt.{decimal};
ghost use Rattle.print_reasons.specs.Counts.{count_text, end_text, little_text};

use itoa::Buffer;
use std::alloc::AllocError;

/// Adds a number and words behind it.
pub fn push_count(text: &mut Vec<u8>, number: usize, words: &str) -> Result<(), AllocError>
    ensures { OnOk result (text.new.items ≡ text.old.items ++ count_text number words.now) }
{
    push_number(text, number)?;
    text.extend_from_slice(words.as_bytes())
}

fn push_number(text: &mut Vec<u8>, number: usize) -> Result<(), AllocError>
    ensures { OnOk result (text.new.items ≡ text.old.items ++ decimal number) }
{
    let mut buffer = Buffer::new();
    let digits = buffer.format(number);
    text.extend_from_slice(digits.as_bytes())
}

/// Adds that the end isn't there, if so.
pub fn push_end(text: &mut Vec<u8>, ended: bool) -> Result<(), AllocError>
    ensures { OnOk result (text.new.items ≡ text.old.items ++ end_text ended) }
{
    if ended {
        text.extend_from_slice(b"\n")
    } else {
        text.extend_from_slice(b"; no last line `done`\n")
    }
}

/// Adds how little so many operations and records show, if so.
pub fn push_little(
    text: &mut Vec<u8>,
    ops: usize,
    records: usize,
    read: usize,
) -> Result<(), AllocError>
    ensures { OnOk result (text.new.items ≡ text.old.items ++ little_text ops records read) }
{
    if ops == 0 {
        text.extend_from_slice(b"Nothing was shown: there is no operation.\n")
    } else if are_few(read, records) {
        text.extend_from_slice(b"Little was shown: less than 1 % of the records were read.\n")
    } else {
        Ok(())
    }
}

/// Whether these are less than one of a hundred.
pub fn are_few(read: usize, records: usize) -> bool
    ensures { result ≡ nat_lt (read * 100) records }
{
    u128::from(read as u64) * 100 < u128::from(records as u64)
}
