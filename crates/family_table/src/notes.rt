//! What the seats of a family know, and what its table is told once. No value of the first three types is made.
ghost use Rattle.std.specs.Prelude.{ℕ, List, []};

use cell_contract::{Found, Said};
use std::collections::LinkedList;
use std::marker::Brand;

/// What a process knows: its number, the last time of which it knows, the times of its steps, the slots that its seat
/// has, what it knows of each cell, the tags that it said, and those that it found others to have said.
pub struct Process<V> {
    pub who: u64,
    pub clock: u64,
    pub times: LinkedList<u64>,
    pub held: LinkedList<u64>,
    pub parts: LinkedList<V>,
    pub said: LinkedList<Said>,
    pub found: LinkedList<Found>,
}

/// What a receipt tells: a time, and of each cell what its sender tells the reader.
pub struct Receipt<V> {
    pub clock: u64,
    pub parts: LinkedList<V>,
}

/// What a seat knows: a receipt, or what some processes know.
pub enum View<V> {
    Told(Receipt<V>),
    Has(LinkedList<Process<V>>),
}

/// The record that all cells open with, how many processes there are, and the limit of which their plans speak.
#[derive(Drop)]
pub struct Opened<T: Copy> {
    pub first: T,
    pub processes: usize,
    pub limit: u64,
}

/// What a family opened with, which a step that changes nothing shows together with all calls so far.
pub trait Opening<T> {
    ghost first: { List T };

    ghost processes: { ℕ };

    ghost limit: { ℕ };
}

/// What a look is for: the process that it looks at, and the tag.
pub trait Looking {
    ghost from: { ℕ };

    ghost tag: { ℕ };
}

impl Looking for Brand {
    ghost from = { 0 };

    ghost tag = { 0 };
}

impl<T> Opening<T> for Brand {
    ghost first = { [] };

    ghost processes = { 0 };

    ghost limit = { 0 };
}
