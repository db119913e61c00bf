//! Whole logs: which are such, and their counts.

use exchanges_log::read_exchanges;
use read_line::has_repeats;
use std::alloc::{AllocError, Global};
use std::test::Fail;
use text_lines::PackedText;

const HEADERS: &[(&[u8], bool)] = &[
    (br#"{"kind":"lines","opening":0,"repeats":true}"#, true),
    (br#"{"kind":"lines","opening":0,"repeats":false}"#, false),
    (br#"{"kind":"lines","opening":0,"repeats":null}"#, false),
    (br#"{"kind":"lines","opening":0,"repeats":1}"#, false),
    (br#"{"kind":"lines","opening":0}"#, false),
    (br#"{"kind":"log","repeats":true}"#, false),
    (b"", false),
];

#[test]
fn tells_which_repeat(rt: HostRuntime) -> Result<(), Fail> {
    for (place, (header, repeats)) in HEADERS.iter().enumerate() {
        let text = PackedText::of(rt.alloc(), header)?;
        assert!(rt; has_repeats(rt.alloc(), &text)? == *repeats, "row {place}");
    }
    Ok(())
}

/// The records are 0, the opening, and 5, 3 and 4, of which the register never held 4.
const LOG: &[u8] = br#"{"kind":"lines","opening":0,"repeats":true}
{"who":0,"kind":"write","begin":1,"end":4,"record":5,"key":"a"}
{"who":0,"kind":"maybe","begin":2,"end":9,"record":5,"key":"a"}
{"who":1,"kind":"read","begin":2,"end":null,"record":null,"key":"a"}
{"who":1,"kind":"cas","begin":5,"end":6,"from":3,"record":4,"swapped":false,"found":5,"key":"a"}
{"who":1,"kind":"cas","begin":7,"end":8,"from":5,"record":0,"swapped":null,"key":"a"}
{"who":2,"kind":"cas","begin":7,"end":null,"from":5,"record":0,"swapped":null,"key":"a"}
{"kind":"done","ops":6}"#;

fn counts(alloc: Global, text: &[u8]) -> Option<(usize, usize, usize, usize, bool)> {
    let Ok(text) = PackedText::of(alloc, text) else {
        return None;
    };
    match read_exchanges(alloc, &text) {
        Ok(log) => Some((
            log.ops.len(),
            log.unfinished,
            log.uncertain,
            log.records,
            log.ended,
        )),
        Err(_) => None,
    }
}

#[test]
fn counts_operations(rt: HostRuntime) {
    assert_eq!(rt; counts(rt.alloc(), LOG), Some((6, 2, 2, 4, true)));
    assert_eq!(rt; counts(rt.alloc(), &LOG[..44]), Some((0, 0, 0, 1, false)));
}

/// Whether this is told of a log of these operations.
fn is_told(alloc: Global, ops: &str, told: &str) -> Result<bool, AllocError> {
    let text = format!(in alloc; "{}{ops}", r#"{"kind":"lines","opening":0,"repeats":true}"#)?;
    match read_exchanges(alloc, &PackedText::of(alloc, text.as_bytes())?) {
        Ok(_) => Ok(false),
        Err(fault) => Ok(format!(in alloc; "{fault}")?.as_str() == told),
    }
}

#[test]
fn refuses_logs(rt: HostRuntime) -> Result<(), Fail> {
    for (ops, told) in [
        (
            r#"
{"who":0,"kind":"write","begin":1,"end":4,"record":5,"key":"a"}
{"who":0,"kind":"write","begin":1,"end":4,"record":5}"#,
            "line 3: law of key; such a log has one key, that of its first operation",
        ),
        (
            r#"
{"who":0,"kind":"refused","begin":1,"end":4,"record":5,"key":"a"}
{"who":0,"kind":"write","begin":1,"end":4,"record":5}"#,
            "line 2: missing limit",
        ),
        (
            r#"
{"kind":"done","ops":0}
{"who":0,"kind":"write","begin":1,"end":4,"record":5}"#,
            "line 2: shape of kind; a `cas` needs `repeats` in the header, and `done` is the last line",
        ),
    ] {
        assert!(rt; is_told(rt.alloc(), ops, told)?, "{told}");
    }
    Ok(())
}
