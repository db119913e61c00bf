use std::alloc::Global;
use std::io;
use std::io::ErrorKind;

/// A reader that gives its bytes, `most` of them a call. In place of the byte number `fails_at` it is interrupted
/// once, and would go on after it.
#[derive(Drop)]
pub struct Pieces<'a> {
    bytes: &'a [u8],
    at: usize,
    most: usize,
    fails_at: usize,
    failed: bool,
    called_after: bool,
}

impl<'a> Pieces<'a> {
    pub fn new(bytes: &'a [u8], most: usize, fails_at: usize) -> Pieces<'a> {
        Pieces {
            bytes,
            at: 0,
            most,
            fails_at,
            failed: false,
            called_after: false,
        }
    }

    /// How many bytes were taken.
    pub fn taken(&self) -> usize {
        self.at
    }

    /// Whether a call came after the interrupted one.
    pub fn called_after(&self) -> bool {
        self.called_after
    }
}

impl io::Read for Pieces<'_> {
    fn read(&mut self, buf: &mut [u8]) -> io::Result<usize> {
        if self.failed {
            self.called_after = true;
        } else if self.at >= self.fails_at {
            self.failed = true;
            return Err(io::Error::from(ErrorKind::Interrupted));
        }
        if self.at >= self.bytes.len() {
            return Ok(0);
        }
        let rest = &self.bytes[self.at..];
        let room = if self.failed {
            self.most
        } else {
            self.most.min(self.fails_at - self.at)
        };
        let count = room.min(buf.len()).min(rest.len());
        buf[..count].copy_from_slice(&rest[..count]);
        self.at += count;
        Ok(count)
    }
}

/// What a writer does once when it is full: it is interrupted, or takes nothing.
#[derive(Clone, Copy)]
pub enum Full {
    Fails,
    Stalls,
}

/// A writer that keeps what it takes. After `room` bytes it fails once, and would go on after it.
#[derive(Drop)]
pub struct Kept {
    bytes: Vec<u8>,
    room: usize,
    full: Full,
    failed: bool,
    called_after: bool,
}

impl Kept {
    pub fn new(alloc: Global, room: usize, full: Full) -> Kept {
        Kept {
            bytes: Vec::new(alloc),
            room,
            full,
            failed: false,
            called_after: false,
        }
    }

    pub fn as_slice(&self) -> &[u8] {
        self.bytes.as_slice()
    }

    /// Whether a call came after the one that failed.
    pub fn called_after(&self) -> bool {
        self.called_after
    }
}

impl io::Write for Kept {
    fn write(&mut self, bytes: &[u8]) -> io::Result<usize> {
        if self.failed {
            self.called_after = true;
        } else if self.bytes.len() >= self.room {
            self.failed = true;
            return match self.full {
                Full::Fails => Err(io::Error::from(ErrorKind::Interrupted)),
                Full::Stalls => Ok(0),
            };
        }
        let room = if self.failed {
            bytes.len()
        } else {
            self.room - self.bytes.len()
        };
        let count = bytes.len().min(room);
        self.bytes.extend_from_slice(&bytes[..count])?;
        Ok(count)
    }

    fn flush(&mut self) -> io::Result<()> {
        Ok(())
    }
}
