ghost use Rattle.std.specs.Prelude.{◌≡◌, ◌<◌, ◌-◌, ◌^◌, ℕ, List, Option, IfOk, length};
ghost use Rattle.std.specs.Io.{ReadsAtMost, WritesAtMost};
ghost use Rattle.std.specs.Io.KnownBytes.{ReadConsumes, WriteAppends};
ghost use Rattle.program_streams.specs.Stream.{Counts, HasRoom};

use std::io;

/// A stream failed.
#[derive(Clone, Copy, PartialEq, Eq)]
pub struct Failed;

/// Bytes that come.
pub trait Source {
    // The bytes that are left, where they are known.
    ghost remaining: { Self → Option (List ℕ) };

    // How many calls failed.
    ghost failed: { Self → ℕ };

    /// Fills the front of `buf` with the next bytes and gives their number, which is 0 at the end alone. A
    /// call that fails gives no bytes.
    fn take(&mut self, buf: &mut [u8]) -> Result<usize, Failed>
        requires { HasRoom (failed self.old) }
        ensures bound { ReadsAtMost result buf.new }
        ensures bytes { ReadConsumes (remaining self.old) (remaining self.new) result buf.new }
        ensures counts { Counts (failed self.old) (failed self.new) result };

    /// How many calls failed.
    fn failures(&self) -> u64
        ensures { result ≡ failed self.now };
}

/// Where bytes go.
pub trait Sink {
    // The bytes that went out, where they are known.
    ghost contents: { Self → Option (List ℕ) };

    // How many calls failed.
    ghost failed: { Self → ℕ };

    /// Takes a front of the bytes and gives its length. A call that takes no byte of a piece that isn't empty fails.
    fn put(&mut self, bytes: &[u8]) -> Result<usize, Failed>
        requires { HasRoom (failed self.old) }
        ensures bound { WritesAtMost result bytes.now }
        ensures moves { 0 < length bytes.now → IfOk result (λ n. 0 < n) }
        ensures bytes { WriteAppends (contents self.old) (contents self.new) result bytes.now }
        ensures counts { Counts (failed self.old) (failed self.new) result };

    /// How many calls failed.
    fn failures(&self) -> u64
        ensures { result ≡ failed self.now };
}

/// A reader or a writer of std, with the count of its failures. An interrupted call is a failure too.
#[derive(Drop)]
pub struct Over<S> {
    stream: S,
    failures: u64,
}

impl<S> Over<S> {
    pub fn new(stream: S) -> Over<S>
        ensures { result ≡ record { stream = stream; failures = 0 } }
    {
        Over {
            stream,
            failures: 0,
        }
    }

    /// The reader or the writer of std.
    pub fn stream(&self) -> &S
        ensures { result.now ≡ self.now.stream }
    {
        &self.stream
    }
}

impl<S: io::Read> Source for Over<S> {
    ghost remaining = { λ o. S.remaining o.stream };

    ghost failed = { λ o. o.failures };

    fn take(&mut self, buf: &mut [u8]) -> Result<usize, Failed> {
        match self.stream.read(buf) {
            Ok(n) => Ok(n),
            Err(_) => {
                self.failures += 1;
                Err(Failed)
            }
        }
    }

    fn failures(&self) -> u64 {
        self.failures
    }
}

impl<S: io::Write> Sink for Over<S> {
    ghost contents = { λ o. S.contents o.stream };

    ghost failed = { λ o. o.failures };

    fn put(&mut self, bytes: &[u8]) -> Result<usize, Failed> {
        match self.stream.write(bytes) {
            Ok(n) if 0 < n || bytes.is_empty() => Ok(n),
            _ => {
                self.failures += 1;
                Err(Failed)
            }
        }
    }

    fn failures(&self) -> u64 {
        self.failures
    }
}
