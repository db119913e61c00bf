//! Packed texts.

use std::test::Fail;
use text_lines::PackedText;

/// Texts, and how many codes each takes: one for a phrase, for two digits and for any other byte.
const TEXTS: &[(&str, usize)] = &[
    ("", 0),
    (
        r#"{"who":0,"kind":"write","begin":10,"end":12,"record":5}"#,
        9,
    ),
    (
        r#"{"who": 0, "kind": "read", "begin": 10, "end": 12, "record": 5}"#,
        13,
    ),
    (
        r#"{"who":7,"kind":"cas","begin":1,"end":null,"from":3,"record":4,"swapped":null}"#,
        13,
    ),
    (
        r#"{"who":7,"kind":"refused","begin":100,"end":1000,"record":[1,22,333]}"#,
        24,
    ),
    (r#"{"kind":"done","ops":3}"#, 23),
    ("1\n22\n\n333 \t", 9),
];

#[test]
fn packs_phrases_and_digits(rt: HostRuntime) -> Result<(), Fail> {
    for (bytes, codes) in TEXTS {
        let text = PackedText::of(rt.alloc(), bytes.as_bytes())?;
        let mut told = Vec::new(rt.alloc());
        text.tell(&mut told, text.codes.as_slice())?;
        assert!(rt; told.as_slice() == bytes.as_bytes(), "{bytes}");
        assert_eq!(rt; text.codes.len(), *codes, "{bytes}");
    }
    Ok(())
}

/// A text with a byte that isn't ASCII, in the middle of which a phrase is cut.
#[test]
fn takes_any_bytes_in_pieces(rt: HostRuntime) -> Result<(), Fail> {
    let alloc = rt.alloc();
    let bytes = "{\"who\":12,\"kind\":\"read\"\nab\u{e9}\n{\"who\":12".as_bytes();
    for cut in 0..bytes.len() {
        let mut text = PackedText::of(alloc, &bytes[..cut])?;
        text.push(alloc, &bytes[cut..])?;
        let mut told = Vec::new(alloc);
        text.tell(&mut told, text.codes.as_slice())?;
        assert!(rt; told.as_slice() == bytes, "cut at {cut}");
        assert!(rt; !text.packed);
    }
    Ok(())
}

#[test]
fn gives_line_by_line(rt: HostRuntime) -> Result<(), Fail> {
    let alloc = rt.alloc();
    let text = PackedText::of(alloc, b"12\n\n{\"who\":345")?;
    let mut line = Vec::new(alloc);
    let behind = text.next_line(&mut line, text.codes.as_slice())?;
    assert!(rt; line.as_slice() == b"12".as_slice());
    let behind = text.next_line(&mut line, behind)?;
    assert!(rt; line.is_empty());
    let behind = text.next_line(&mut line, behind)?;
    assert!(rt; line.as_slice() == b"{\"who\":345".as_slice());
    assert!(rt; behind.is_empty());
    Ok(())
}
