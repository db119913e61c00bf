//! The operations under way from which a narrow sweep chooses.

use crate::places::{is_in, remove};
use object_core::{Object, Operation};
use std::alloc::{AllocError, AllocFailed, Global};

/// Those that began and do the same, and never ended.
#[derive(Drop)]
pub(crate) struct Alike {
    places: Vec<usize>,
}

/// Those that have an end, by their ends, and those that never ended, by what they do.
#[derive(Drop)]
pub(crate) struct AtHand {
    pub with_end: Vec<usize>,
    pub unfinished: Vec<Alike>,
}

/// Whether two operations do the same.
fn do_same<O: Object>(log: &[Operation<O::What>], one: usize, other: usize) -> bool {
    match log.get(one) {
        Some(a) => match log.get(other) {
            Some(b) => O::is_same(a.what, b.what),
            None => false,
        },
        None => false,
    }
}

/// When the operation at a place ended; none if it never did.
fn end_of<W>(log: &[Operation<W>], place: usize) -> Option<u64> {
    match log.get(place) {
        Some(op) => op.ends,
        None => None,
    }
}

impl Alike {
    fn new(alloc: Global, place: usize) -> Result<Alike, AllocError> {
        let mut places = Vec::new(alloc);
        places.push(place)?;
        Ok(Alike { places })
    }

    /// Whether they do what the operation at a place does.
    fn has<O: Object>(&self, log: &[Operation<O::What>], place: usize) -> bool {
        match self.places.first() {
            Some(first) => do_same::<O>(log, *first, place),
            None => false,
        }
    }

    /// Adds one, unless it is there: it begins again where the sweep went back.
    fn add(&mut self, place: usize) -> Result<(), AllocError> {
        if !is_in(place, self.places.as_slice()) {
            self.places.push(place)?;
        }
        Ok(())
    }

    /// The first that isn't placed.
    pub fn first_open(&self, placed: &[usize]) -> Option<usize> {
        self.places
            .iter()
            .copied()
            .find(|place| !is_in(*place, placed))
    }
}

impl AtHand {
    pub fn new(alloc: Global) -> AtHand {
        AtHand {
            with_end: Vec::new(alloc),
            unfinished: Vec::new(alloc),
        }
    }

    /// An operation begins.
    pub fn begin<O: Object>(
        &mut self,
        alloc: Global,
        log: &[Operation<O::What>],
        place: usize,
    ) -> Result<(), AllocError> {
        match end_of(log, place) {
            Some(end) => self.begin_with_end(log, place, end),
            None => self.begin_unfinished::<O>(alloc, log, place),
        }
    }

    fn begin_with_end<W>(
        &mut self,
        log: &[Operation<W>],
        place: usize,
        end: u64,
    ) -> Result<(), AllocError> {
        for next in 0..self.with_end.len() {
            if Some(end) < end_of(log, self.with_end[next]) {
                self.with_end.insert(next, place)?;
                return Ok(());
            }
        }
        self.with_end.push(place)?;
        Ok(())
    }

    fn begin_unfinished<O: Object>(
        &mut self,
        alloc: Global,
        log: &[Operation<O::What>],
        place: usize,
    ) -> Result<(), AllocError> {
        for k in 0..self.unfinished.len() {
            if self.unfinished[k].has::<O>(log, place) {
                return self.unfinished[k].add(place);
            }
        }
        self.unfinished.push(Alike::new(alloc, place)?)?;
        Ok(())
    }

    /// An operation ends.
    pub fn end(&mut self, place: usize) {
        remove(place, &mut self.with_end);
    }

    /// The sweep went back to where these are under way. Those that never ended and haven't begun there do no harm.
    pub fn go_back<W>(
        &mut self,
        log: &[Operation<W>],
        under_way: &[usize],
    ) -> Result<(), AllocError> {
        self.with_end.clear();
        for place in under_way {
            if let Some(end) = end_of(log, *place) {
                self.begin_with_end(log, *place, end)?;
            }
        }
        Ok(())
    }
}
