use super::A;
use history_core::{Items, MAX_LIMIT, Verdict};
use matrix_core::Stamp;
use print_report::{Counts, Line, Report, put_item, put_number, put_stamp, report_text};
use read_history::verdict_text;
use std::alloc::{AllocError, Global};
use std::test::Fail;

#[test]
fn puts_pieces(rt: HostRuntime) {
    let mut line = Line::new();
    put_item(&mut line, Some(A));
    put_stamp(&mut line, Some(Stamp { tag: 1, writer: 15 }));
    put_number(&mut line, Some(18446744073709551615));
    assert!(rt; line.as_bytes() == b"184467440737095516151.15[1,1,1]".as_slice());
    line.clear();
    put_item(&mut line, None);
    put_stamp(&mut line, None);
    put_number(&mut line, None);
    line.put(b": ");
    line.put_number(10);
    assert!(rt; line.as_bytes() == b"10: ---".as_slice());
}

const VERDICTS: &[(Verdict, &str)] = &[
    (Verdict::Lawful, "lawful\n"),
    (Verdict::Listing, "unlawful listing\n"),
    (Verdict::Precedence, "unlawful precedence\n"),
    (Verdict::Reading, "unlawful reading\n"),
    (Verdict::Limit, "unlawful limit\n"),
];

#[test]
fn prints_verdicts(rt: HostRuntime) {
    for (verdict, line) in VERDICTS {
        assert!(rt; verdict_text(*verdict) == *line, "{line}");
    }
}

/// Whether a race is told by this text.
fn is_told(
    alloc: Global,
    tasks: &[Counts],
    broken: Option<(usize, usize)>,
    text: &str,
) -> Result<bool, AllocError> {
    let tasks = Items::new(tasks.to_vec(alloc)?);
    let told = report_text(alloc, &Report::Race { tasks, broken })?;
    Ok(told.as_slice() == text.as_bytes())
}

const WRITER: Counts = Counts {
    writes: 1,
    reads: 1,
    refused: 0,
};

const MOST: Counts = Counts {
    writes: MAX_LIMIT,
    reads: 0,
    refused: 18446744073709551615,
};

const SOUND: &str = "task 0: 1 writes, 1 reads, 0 refused
task 1: 18446744073709551614 writes, 0 reads, 18446744073709551615 refused
origin: sound
";

const BROKEN: &str = "origin: broken at task 1 call 10000\n";

#[test]
fn prints_races(rt: HostRuntime) -> Result<(), Fail> {
    assert!(rt; is_told(rt.alloc(), &[WRITER, MOST], None, SOUND)?);
    assert!(rt; is_told(rt.alloc(), &[], Some((1, 10_000)), BROKEN)?);
    Ok(())
}
