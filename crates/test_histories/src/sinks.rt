use program_streams::{Failed, Over, Sink};
use std::io;

/// A writer that takes no byte.
#[derive(Drop)]
struct Closed;

impl io::Write for Closed {
    fn write(&mut self, _bytes: &[u8]) -> io::Result<usize> {
        Ok(0)
    }

    fn flush(&mut self) -> io::Result<()> {
        Ok(())
    }
}

/// A writer that takes no byte of an empty piece does as it is told; of another piece that is a failure.
#[test]
fn puts_an_empty_piece(rt: HostRuntime) {
    let mut out = Over::new(Closed);
    let (empty, piece) = (out.put(b""), out.put(b"a"));
    assert!(rt; empty == Ok(0) && piece == Err(Failed) && Sink::failures(&out) == 1);
}
