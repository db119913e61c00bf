//! Operations by their lines, and what is told of a line at fault.

use exchanges_log::read_exchanges;
use object_core::Operation;
use object_registers::Exchange;
use std::alloc::{AllocError, Global};
use std::test::Fail;
use text_lines::PackedText;

const HEADER: &str = r#"{"kind":"lines","opening":0,"repeats":true}"#;

/// A compare-and-set up to its end.
const CAS: &str = r#"{"who":0,"kind":"cas","begin":1,"from":3,"record":5,"end":"#;

const LIMITED: &str = r#"{"kind":"lines","opening":0,"repeats":true,"limit":2}"#;

/// The log of one line.
fn with_header(alloc: Global, line: &str) -> Result<String, AllocError> {
    format!(in alloc; "{HEADER}\n{line}\n")
}

/// Whether the line is of this operation.
fn is_of(alloc: Global, line: &str, op: Operation<Exchange>) -> Result<bool, AllocError> {
    let text = with_header(alloc, line)?;
    match read_exchanges(alloc, &PackedText::of(alloc, text.as_bytes())?) {
        Ok(log) => Ok(log.ops.as_slice() == [op].as_slice()),
        Err(_) => Ok(false),
    }
}

/// What an operation did that ended by 4.
fn done(what: Exchange) -> Operation<Exchange> {
    Operation {
        starts: 1,
        ends: Some(4),
        maybe: false,
        what,
    }
}

/// What one may have done, with its end.
fn perhaps(ends: Option<u64>, what: Exchange) -> Operation<Exchange> {
    Operation {
        starts: 1,
        ends,
        maybe: true,
        what,
    }
}

/// What one did that never ended.
fn unfinished(what: Exchange) -> Operation<Exchange> {
    Operation {
        starts: 1,
        ends: None,
        maybe: false,
        what,
    }
}

/// The opening has number 0, and another record the next.
#[test]
fn writes(rt: HostRuntime) -> Result<(), Fail> {
    for (line, op) in [
        (
            r#"{"who":0,"kind":"write","begin":1,"end":4,"record":5}"#,
            done(Exchange::Sets(1)),
        ),
        (
            r#"{"who":0,"kind":"write","begin":1,"end":4,"record":[0]}"#,
            done(Exchange::Sets(0)),
        ),
        (
            r#"{"who":0,"kind":"write","begin":1,"end":null,"record":5}"#,
            unfinished(Exchange::Sets(1)),
        ),
        (
            r#"{"who":0,"kind":"maybe","begin":1,"end":9,"record":5}"#,
            perhaps(Some(9), Exchange::Sets(1)),
        ),
        (
            r#"{"who":0,"kind":"maybe","begin":1,"end":null,"record":5}"#,
            perhaps(None, Exchange::Sets(1)),
        ),
    ] {
        assert!(rt; is_of(rt.alloc(), line, op)?, "{line}");
    }
    Ok(())
}

#[test]
fn reads(rt: HostRuntime) -> Result<(), Fail> {
    for (line, op) in [
        (
            r#"{"who":0,"kind":"read","begin":1,"end":4,"record":"a"}"#,
            done(Exchange::Gets(1)),
        ),
        (
            r#"{"who":0,"kind":"read","begin":1,"end":null,"record":"a"}"#,
            unfinished(Exchange::Gets(1)),
        ),
        (
            r#"{"who":0,"kind":"read","begin":1,"end":null,"record":null}"#,
            unfinished(Exchange::Gets(0)),
        ),
    ] {
        assert!(rt; is_of(rt.alloc(), line, op)?, "{line}");
    }
    Ok(())
}

/// Of a compare-and-set's records `from` is met first.
#[test]
fn compares(rt: HostRuntime) -> Result<(), Fail> {
    for (end, told, op) in [
        ("4", r#""swapped":true"#, done(Exchange::Swaps(1, 2))),
        ("4", r#""swapped":false"#, done(Exchange::Misses(1))),
        (
            "4",
            r#""swapped":false,"found":null"#,
            done(Exchange::Misses(1)),
        ),
        (
            "4",
            r#""swapped":false,"found":4"#,
            done(Exchange::Finds(1, 3)),
        ),
        (
            "9",
            r#""swapped":null"#,
            perhaps(Some(9), Exchange::Tries(1, 2)),
        ),
        (
            "null",
            r#""swapped":null"#,
            perhaps(None, Exchange::Tries(1, 2)),
        ),
    ] {
        let alloc = rt.alloc();
        let line = format!(in alloc; "{CAS}{end},{told}{}", "}")?;
        assert!(rt; is_of(alloc, line.as_str(), op)?, "{told}");
    }
    Ok(())
}

/// A refused write saw a record, which is numbered like any other. It stands only below a limit.
#[test]
fn refused_writes(rt: HostRuntime) -> Result<(), Fail> {
    for (line, op) in [
        (
            r#"{"who":0,"kind":"refused","begin":1,"end":4,"record":5}"#,
            done(Exchange::Refuses(1)),
        ),
        (
            r#"{"who":0,"kind":"refused","begin":1,"end":4,"record":[0]}"#,
            done(Exchange::Refuses(0)),
        ),
        (
            r#"{"who":0,"kind":"refused","begin":1,"end":null,"record":5}"#,
            unfinished(Exchange::Refuses(1)),
        ),
    ] {
        let alloc = rt.alloc();
        let text = format!(in alloc; "{LIMITED}\n{line}\n")?;
        match read_exchanges(alloc, &PackedText::of(alloc, text.as_bytes())?) {
            Ok(log) => {
                assert!(rt; log.ops.as_slice() == [op].as_slice(), "{line}");
                assert_eq!(rt; log.limit, Some(2));
            }
            Err(fault) => assert!(rt; false, "{line}: {fault}"),
        }
    }
    Ok(())
}

/// Whether this is told of the text as a log.
fn is_told(alloc: Global, text: &str, told: &str) -> Result<bool, AllocError> {
    match read_exchanges(alloc, &PackedText::of(alloc, text.as_bytes())?) {
        Ok(_) => Ok(false),
        Err(fault) => Ok(format!(in alloc; "{fault}")?.as_str() == told),
    }
}

const REFUSED: &[(&str, &str)] = &[
    (r#"{"who":0,"kind":"swap"}"#, "line 2: missing begin"),
    (
        r#"{"who":0,"kind":"swap","begin":1,"end":4,"record":5}"#,
        "line 2: shape of kind; a `cas` needs `repeats` in the header, and `done` is the last line",
    ),
    (
        r#"{"who":0,"kind":"maybe","begin":1,"end":9,"record":null}"#,
        "line 2: law of record",
    ),
    (
        r#"{"who":0,"kind":"read","begin":1,"end":4,"record":null}"#,
        "line 2: law of record",
    ),
    (
        r#"{"who":0,"kind":"read","begin":5,"end":4,"record":null}"#,
        "line 2: end before begin",
    ),
    (
        r#"{"who":0,"kind":"cas","begin":5,"end":4,"record":null}"#,
        "line 2: missing from",
    ),
    (
        r#"{"who":0,"kind":"cas","begin":5,"end":4,"from":3,"record":null}"#,
        "line 2: missing swapped",
    ),
    (
        r#"{"who":0,"kind":"cas","begin":5,"end":4,"from":null,"record":null,"swapped":1}"#,
        "line 2: shape of from",
    ),
    (
        r#"{"who":0,"kind":"cas","begin":5,"end":4,"from":3,"record":null,"swapped":1}"#,
        "line 2: shape of swapped",
    ),
    (
        r#"{"who":0,"kind":"cas","begin":5,"end":4,"from":3,"record":5,"swapped":true,"found":{}}"#,
        "line 2: shape of found",
    ),
    (
        r#"{"who":0,"kind":"cas","begin":1,"end":null,"from":3,"record":null,"swapped":true,"found":3}"#,
        "line 2: law of record",
    ),
    (
        r#"{"who":0,"kind":"cas","begin":1,"end":null,"from":3,"record":5,"swapped":true,"found":3}"#,
        "line 2: law of swapped",
    ),
    (
        r#"{"who":0,"kind":"cas","begin":1,"end":4,"from":3,"record":5,"swapped":true,"found":4}"#,
        "line 2: law of found",
    ),
    (
        r#"{"who":0,"kind":"cas","begin":1,"end":4,"from":3,"record":5,"swapped":false,"found":[3]}"#,
        "line 2: law of found",
    ),
    (
        r#"{"who":0,"kind":"refused","begin":1,"end":4,"record":0}"#,
        "line 2: missing limit",
    ),
    (
        r#"{"who":0,"kind":"refused","begin":1,"end":null,"record":null}"#,
        "line 2: law of record",
    ),
    (r#"{"kind":"done","ops":1}"#, "line 2: law of ops"),
];

#[test]
fn refuses_lines(rt: HostRuntime) -> Result<(), Fail> {
    for (line, told) in REFUSED {
        let text = with_header(rt.alloc(), line)?;
        assert!(rt; is_told(rt.alloc(), text.as_str(), told)?, "{line}");
    }
    Ok(())
}

const HEADERS: &[(&str, &str)] = &[
    (
        r#"{"kind":"lines","opening":{},"repeats":true,"limit":1}"#,
        "line 1: shape of opening",
    ),
    (
        r#"{"kind":"lines","opening":0,"repeats":true,"limit":"1"}"#,
        "line 1: shape of limit",
    ),
    (
        r#"{"kind":"lines","opening":0,"repeats":true,"limit":0}"#,
        "line 1: range of limit",
    ),
];

#[test]
fn refuses_headers(rt: HostRuntime) -> Result<(), Fail> {
    for (header, told) in HEADERS {
        assert!(rt; is_told(rt.alloc(), header, told)?, "{header}");
    }
    Ok(())
}
