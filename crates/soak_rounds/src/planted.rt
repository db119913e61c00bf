//! A register with a planted bug, which a soak has to find: four slots of words that are written one by one, whose
//! reader skips its store of `reading`.
use crate::pair::{Side, at_once};
use crate::{Tally, last_read};
use std::alloc::{AllocError, Global};
use std::sync::atomic::{AtomicU64, Ordering};
use std::thread::Threads;

/// The calls of each side in one round.
const CALLS: u64 = 20_000;

/// The words of a slot: those of a record of 4,096 bytes.
const WORDS: usize = 512;

/// The control bits and the slots, of which slot k has the words from k times their number on.
#[derive(Drop)]
struct Plain {
    latest: AtomicU64,
    reading: AtomicU64,
    slot: [AtomicU64; 2],
    words: Vec<AtomicU64>,
}

impl Plain {
    fn new(alloc: Global) -> Result<Plain, AllocError> {
        let mut words = Vec::with_capacity(alloc, 4 * WORDS)?;
        for _ in 0..4 * WORDS {
            words.push(AtomicU64::new(0))?;
        }
        Ok(Plain {
            latest: AtomicU64::new(0),
            reading: AtomicU64::new(0),
            slot: [AtomicU64::new(0), AtomicU64::new(0)],
            words,
        })
    }

    /// The slot bit of a pair.
    fn bit(&self, pair: u64) -> &AtomicU64 {
        if pair == 0 {
            &self.slot[0]
        } else {
            &self.slot[1]
        }
    }

    /// The words of a slot.
    fn slot(&self, pair: u64, index: u64) -> &[AtomicU64] {
        let number = match (pair, index) {
            (0, 0) => 0,
            (0, _) => 1,
            (_, 0) => 2,
            _ => 3,
        };
        match self.words.get(number * WORDS..number * WORDS + WORDS) {
            Some(words) => words,
            None => &[],
        }
    }

    fn write(&self, number: u64) {
        let pair = 1 - self.reading.load(Ordering::SeqCst).min(1);
        let index = 1 - self.bit(pair).load(Ordering::SeqCst).min(1);
        for word in self.slot(pair, index) {
            word.store(number, Ordering::SeqCst);
        }
        self.bit(pair).store(index, Ordering::SeqCst);
        self.latest.store(pair, Ordering::SeqCst);
    }

    /// Reads without telling the writer which pair it reads.
    fn read(&self) -> Option<u64> {
        let pair = self.latest.load(Ordering::SeqCst);
        let index = self.bit(pair).load(Ordering::SeqCst);
        let words = self.slot(pair, index);
        let first = words.first()?.load(Ordering::SeqCst);
        let mut whole = true;
        for word in words {
            whole = whole & (word.load(Ordering::SeqCst) == first);
        }
        if whole { Some(first) } else { None }
    }
}

#[derive(Drop)]
struct Writer<'a> {
    register: &'a Plain,
    tally: Tally,
    last: u64,
}

impl<'a> Side for Writer<'a> {
    ghost ready = { λ _. Unit {0} };

    ghost ran = { λ _ _. Unit {0} };

    ghost tally = { λ s. s.tally };

    ghost last = { λ s. s.last };

    fn run(&mut self) {
        self.tally = Tally::none();
        for _ in 0..CALLS {
            self.last = self.last.saturating_add(1);
            self.register.write(self.last);
            self.tally.write();
        }
    }

    fn told(&self) -> (Tally, u64) {
        (self.tally, self.last)
    }
}

#[derive(Drop)]
struct Reader<'a> {
    register: &'a Plain,
    tally: Tally,
    last: u64,
}

impl<'a> Side for Reader<'a> {
    ghost ready = { λ _. Unit {0} };

    ghost ran = { λ _ _. Unit {0} };

    ghost tally = { λ s. s.tally };

    ghost last = { λ s. s.last };

    fn run(&mut self) {
        self.tally = Tally::none();
        for _ in 0..CALLS {
            let number = self.register.read();
            self.tally.note(self.last, number);
            self.last = last_read(self.last, number);
        }
    }

    fn told(&self) -> (Tally, u64) {
        (self.tally, self.last)
    }
}

/// A number of rounds over the planted register, or fewer where something is found.
pub fn rounds<R: Threads + Sync>(rt: &R, alloc: Global, count: u64) -> Result<Tally, AllocError> {
    let register = Plain::new(alloc)?;
    let mut writer = Writer {
        register: &register,
        tally: Tally::none(),
        last: 0,
    };
    let mut reader = Reader {
        register: &register,
        tally: Tally::none(),
        last: 0,
    };
    let mut tally = Tally::none();
    for _ in 0..count {
        tally.add(at_once(rt, &mut writer, &mut reader));
        if tally.found.is_some() {
            break;
        }
    }
    Ok(tally)
}
