// Edges of the call that changes a book.
use crate::changes::{Book, Change, changes, joined, parted, with_change};
use crate::graphs::{Family, Graph};
use crate::memory::{List, Memory};
use crate::requests::{ask, ask_silent};
use crate::tally::Tally;
use crate::words;
use crate::words::GARBAGE;
use sets::Set;
use std::io;

// The lower vertex of each of 12 parts of two.
const LOWER: u64 = 0x555555;

// The opposite change, of the same edge by its other end.
fn opposite(change: Change) -> Change {
    Change {
        a: change.b,
        b: change.a,
        adjacent: !change.adjacent,
    }
}

// A change that leads to the sets of some masks, and the change back to those of others.
#[inline(never)]
pub fn there_and_back(
    cases: &mut Tally<impl Print>,
    mut book: Book,
    to: Change,
    there: &[u64],
    back: &[u64],
) -> io::Result<()> {
    let mut memory = Memory::new();
    memory.expected.set_masks(there);
    with_change(cases, &mut book, to, &mut memory)?;
    memory.expected.set_masks(back);
    with_change(cases, &mut book, opposite(to), &mut memory)
}

// Graphs of two to five vertices.
fn small(cases: &mut Tally<impl Print>) -> io::Result<()> {
    let ring = Book::new(&Graph::ring(), ask(2, 3));
    let square = Book::new(&Graph::new(Family::Ring, 4), ask(1, 2));
    let three = Book::new(&Graph::new(Family::EMPTY, 3), ask(1, 1));
    let two = Book::new(&Graph::new(Family::EMPTY, 2), ask(1, 1));
    there_and_back(
        cases,
        ring,
        joined(0, 2),
        &[7, 14, 19, 29],
        &[7, 14, 19, 25, 28],
    )?;
    there_and_back(cases, square, parted(0, 1), &[6, 9, 12], &[3, 6, 9, 12])?;
    there_and_back(cases, three, joined(0, 1), &[3, 4], &[1, 2, 4])?;
    there_and_back(cases, two, joined(0, 1), &[3], &[1, 2])
}

// No set is large enough.
fn none_listed(cases: &mut Tally<impl Print>) -> io::Result<()> {
    let two = Book::new(&Graph::new(Family::EMPTY, 2), ask(2, 3));
    let six = Book::new(&Graph::ring(), ask(2, 6));
    let all = Book::new(&Graph::ring(), ask(1, 64));
    let empty = Book::new(&Graph::new(Family::EMPTY, 64), ask(5, 9));
    there_and_back(cases, two, joined(1, 0), &[], &[])?;
    there_and_back(cases, six, joined(0, 2), &[], &[])?;
    there_and_back(cases, all, parted(4, 0), &[], &[])?;
    there_and_back(cases, empty, joined(62, 63), &[], &[])
}

// The chord of the ring, with an end of it silent, another vertex, all.
fn silent_ring(cases: &mut Tally<impl Print>) -> io::Result<()> {
    let ring = Graph::ring();
    let end = Book::new(&ring, ask_silent(2, 3, 1));
    let other = Book::new(&ring, ask_silent(2, 3, 16));
    let all = Book::new(&ring, ask_silent(2, 3, 31));
    there_and_back(cases, end, joined(0, 2), &[14, 29], &[14, 28])?;
    there_and_back(cases, other, joined(0, 2), &[7, 14, 29], &[7, 14])?;
    there_and_back(cases, all, joined(0, 2), &[], &[])
}

// Two vertices, of which one is silent.
fn silent_pair(cases: &mut Tally<impl Print>) -> io::Result<()> {
    let graph = Graph::new(Family::EMPTY, 2);
    let one = Book::new(&graph, ask_silent(1, 1, 1));
    let two = Book::new(&graph, ask_silent(1, 2, 1));
    there_and_back(cases, one, joined(0, 1), &[3], &[2])?;
    there_and_back(cases, two, joined(0, 1), &[], &[])
}

// 64 vertices of which the lower half, all but one, or all are silent.
fn silent_of_64(cases: &mut Tally<impl Print>) -> io::Result<()> {
    let complete = Graph::new(Family::Complete, 64);
    let half = Book::new(&complete, ask_silent(1, 32, u64::MAX >> 32));
    let one = Book::new(&complete, ask_silent(1, 1, u64::MAX >> 1));
    let no_one = Book::new(&complete, ask_silent(1, 1, u64::MAX));
    let all = [u64::MAX];
    there_and_back(
        cases,
        half,
        parted(0, 1),
        &[u64::MAX ^ 2, u64::MAX ^ 1],
        &all,
    )?;
    there_and_back(cases, half, parted(62, 63), &[], &all)?;
    there_and_back(cases, one, parted(62, 63), &[u64::MAX ^ (1 << 62)], &all)?;
    there_and_back(cases, no_one, parted(62, 63), &[], &[])
}

// Two of 64 vertices.
fn two_of_64(cases: &mut Tally<impl Print>) -> io::Result<()> {
    let complete = Graph::new(Family::Complete, 64);
    let each = Book::new(&complete, ask(1, 1));
    let whole = Book::new(&complete, ask(1, 64));
    let empty = Book::new(&Graph::new(Family::EMPTY, 64), ask(1, 2));
    let all = [u64::MAX];
    let last = [u64::MAX ^ (1 << 63), u64::MAX ^ (1 << 62)];
    there_and_back(
        cases,
        each,
        parted(0, 1),
        &[u64::MAX ^ 2, u64::MAX ^ 1],
        &all,
    )?;
    there_and_back(cases, each, parted(62, 63), &last, &all)?;
    there_and_back(cases, whole, parted(0, 63), &[], &all)?;
    there_and_back(cases, empty, joined(62, 63), &[3 << 62], &[])
}

// 64 vertices at the limit of slack, and beyond it with six sets.
fn at_limit(cases: &mut Tally<impl Print>) -> io::Result<()> {
    let complete = Graph::new(Family::Complete, 64);
    let lacking = Graph::new(Family::Lacking, 64);
    let all = [u64::MAX];
    let without = [32, 16, 8, 4, 2, 1].map(|bit| u64::MAX ^ bit);
    there_and_back(
        cases,
        Book::new(&complete, ask(5, 9)),
        parted(0, 1),
        &all,
        &all,
    )?;
    there_and_back(
        cases,
        Book::new(&complete, ask(5, 64)),
        parted(62, 63),
        &all,
        &all,
    )?;
    there_and_back(
        cases,
        Book::new(&lacking, ask(5, 9)),
        parted(0, 5),
        &without,
        &all,
    )?;
    there_and_back(
        cases,
        Book::new(&lacking, ask(5, 64)),
        parted(5, 0),
        &[],
        &all,
    )
}

// The list of the ring of five has five sets, and four with the chord from 0 to 2. Does the change leave the last one of the old list, and the slot behind it?
#[inline(never)]
fn opened() -> bool {
    let mut book = Book::new(&Graph::ring(), ask(2, 3));
    let mut slots = [GARBAGE; 6 * sets::WORDS];
    let opened = search::list(book.graph.rows(), book.request, &mut slots);
    let changed = book.change(joined(0, 2), &mut slots);
    let mut memory = Memory::new();
    memory.expected.set_masks(&[7, 14, 19, 29, 28]);
    opened == Ok(5) && changed == Ok(4) && words::holds(&slots, memory.expected.sets())
}

pub fn found(cases: &mut Tally<impl Print>) -> io::Result<()> {
    cases.count(opened());
    small(cases)?;
    none_listed(cases)?;
    two_of_64(cases)?;
    at_limit(cases)?;
    silent_ring(cases)?;
    silent_pair(cases)?;
    silent_of_64(cases)
}

// Sets with one vertex of each part of two, the lower one or that of a digit more.
#[derive(Clone, Copy)]
struct Transversals {
    count: usize,
    low: u64,
    digits: u64,
}

// Of all twelve parts; and of all but the first, of which both vertices are in each set.
const OF_ALL: Transversals = Transversals {
    count: 4096,
    low: LOWER,
    digits: LOWER,
};

const OF_LATER: Transversals = Transversals {
    count: 2048,
    low: LOWER | 2,
    digits: LOWER ^ 1,
};

impl Transversals {
    // They come behind the list, in rising order.
    fn push_to(self, list: &mut List) {
        let mut s = 0u64;
        for _ in 0..self.count {
            list.push(Set::from(self.low.wrapping_add(s)));
            s = (s | !self.digits).wrapping_add(1) & self.digits;
        }
    }
}

// A change, after which the list has these, and behind them the set of the mask `last`, if there is one.
fn to_transversals(
    cases: &mut Tally<impl Print>,
    book: &mut Book,
    change: Change,
    expected: Transversals,
    last: Option<u64>,
    memory: &mut Memory,
) -> io::Result<()> {
    memory.expected.clear();
    expected.push_to(&mut memory.expected);
    if let Some(mask) = last {
        memory.expected.push(Set::from(mask));
    }
    with_change(cases, book, change, memory)
}

// Twelve parts of two, of which the first is joined and parted again, and at most one isolated vertex.
fn first_part(
    cases: &mut Tally<impl Print>,
    n: usize,
    last: Option<u64>,
    memory: &mut Memory,
) -> io::Result<()> {
    let mut book = Book::new(&Graph::new(Family::Cocktail, n), ask(1, 1));
    to_transversals(cases, &mut book, joined(0, 1), OF_LATER, last, memory)?;
    to_transversals(cases, &mut book, parted(0, 1), OF_ALL, last, memory)
}

// The same and two isolated vertices, which are joined and parted again.
fn last_part(cases: &mut Tally<impl Print>, memory: &mut Memory) -> io::Result<()> {
    let mut book = Book::new(&Graph::new(Family::Cocktail, 26), ask(1, 2));
    to_transversals(
        cases,
        &mut book,
        joined(24, 25),
        OF_ALL,
        Some(3 << 24),
        memory,
    )?;
    to_transversals(cases, &mut book, parted(25, 24), OF_ALL, None, memory)
}

// Two parts of eight: 4,900 masks at slack 4.
fn two_parts(cases: &mut Tally<impl Print>, memory: &mut Memory) -> io::Result<()> {
    let mut book = Book::new(&Graph::new(Family::Multipartite, 16), ask(4, 7));
    changes(cases, &mut book, 0, memory)
}

// Long lists: up to as many sets as the program has slots, and more.
#[inline(never)]
pub fn many(cases: &mut Tally<impl Print>) -> io::Result<()> {
    let mut memory = Memory::new();
    two_parts(cases, &mut memory)?;
    first_part(cases, 24, None, &mut memory)?;
    first_part(cases, 25, Some(1 << 24), &mut memory)?;
    last_part(cases, &mut memory)
}
