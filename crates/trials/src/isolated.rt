// Vertices without edges. No sheet has one, so they are run on rows: the list, maximality, reach, bounds, looseness, core, largest k-plex and change. More
// of them are among the edges of each call.
use crate::change_edges::there_and_back;
use crate::changes::{Book, joined, parted};
use crate::graphs::{Family, Graph};
use crate::largest_plex::LOWEST_4_AND_LAST;
use crate::requests::{ask, ask_silent};
use crate::silent::lists;
use crate::tally::Tally;
use crate::{cores, largest_plex, looseness, silent};
use sets::Set;
use std::io;

// The last of 64 vertices, and the others.
const LAST: u64 = 1 << 63;

const OTHERS: u64 = u64::MAX >> 1;

// The lowest 24 vertices.
const LOWEST_24: u64 = u64::MAX >> 40;

// 64 vertices and no edge.
fn empty() -> Graph {
    Graph::new(Family::EMPTY, 64)
}

// 64 vertices of which the first or the last is isolated, and the others are all adjacent.
fn first_alone() -> Graph {
    Graph::new(Family::FirstAlone, 64)
}

fn last_alone() -> Graph {
    Graph::new(Family::LastAlone, 64)
}

// As many vertices as masks, and no edge: at slack 1 and floor 1 a list has each of them.
fn lists_each(cases: &mut Tally<impl Print>, masks: &[u64]) -> io::Result<()> {
    lists(
        cases,
        &Graph::new(Family::EMPTY, masks.len()),
        ask(1, 1),
        masks,
    )
}

// The masks of one vertex each, in rising order.
fn singletons<const N: usize>() -> [u64; N] {
    let mut masks = [0; N];
    let mut bit = 1u64;
    for mask in masks.iter_mut() {
        *mask = bit;
        bit <<= 1;
    }
    masks
}

fn singleton_lists(cases: &mut Tally<impl Print>) -> io::Result<()> {
    lists_each(cases, &singletons::<2>())?;
    lists_each(cases, &singletons::<63>())?;
    lists_each(cases, &singletons::<64>())
}

// Only those that are not silent are listed; and at a higher floor none, since a k-plex has at most k members.
fn edgeless_lists(cases: &mut Tally<impl Print>) -> io::Result<()> {
    let empty = empty();
    lists(cases, &empty, ask_silent(1, 1, OTHERS ^ 1), &[1, LAST])?;
    lists(cases, &empty, ask_silent(1, 1, u64::MAX), &[])?;
    lists(cases, &empty, ask(1, 2), &[])?;
    lists(cases, &empty, ask(2, 3), &[])?;
    lists(cases, &empty, ask_silent(2, 3, 1), &[])?;
    lists(cases, &empty, ask(3, 5), &[])?;
    lists(cases, &empty, ask(4, 7), &[])?;
    lists(cases, &empty, ask(5, 9), &[])?;
    lists(cases, &empty, ask_silent(5, 9, LAST), &[])?;
    lists(cases, &empty, ask(5, 64), &[])
}

// One vertex is isolated, and the others are all adjacent.
fn alone_lists(cases: &mut Tally<impl Print>) -> io::Result<()> {
    let first = first_alone();
    let last = last_alone();
    lists(cases, &last, ask(1, 1), &[OTHERS, LAST])?;
    lists(cases, &last, ask(1, 2), &[OTHERS])?;
    lists(cases, &last, ask(1, 63), &[OTHERS])?;
    lists(cases, &last, ask(1, 64), &[])?;
    lists(cases, &last, ask(2, 3), &[OTHERS])?;
    lists(cases, &last, ask(5, 9), &[OTHERS])?;
    lists(cases, &last, ask_silent(1, 1, LAST), &[OTHERS])?;
    lists(cases, &last, ask_silent(1, 1, OTHERS), &[LAST])?;
    lists(cases, &last, ask_silent(1, 1, u64::MAX), &[])?;
    lists(cases, &first, ask(1, 1), &[1, u64::MAX ^ 1])?;
    lists(cases, &first, ask(5, 9), &[u64::MAX ^ 1])
}

// Is the set judged so, as a maximal k-plex?
fn judge(graph: &Graph, k: usize, mask: u64, maximal: bool) -> bool {
    let found = judging::judge_maximal(graph.rows(), k, Set::from(mask));
    found == Ok(maximal)
}

// Is this the reach of v?
fn reach(graph: &Graph, v: usize, mask: u64) -> bool {
    let found = bounds::find_reach(graph.rows(), v);
    found == Ok(Set::from(mask))
}

// Do both bounds give k for s and v, where every other vertex is free?
fn bound(graph: &Graph, k: usize, s: u64, v: usize) -> bool {
    let held = Set::from(s);
    let free = Set::from(u64::MAX ^ s);
    let first = bounds::first_bound(graph.rows(), k, held, free, v);
    let second = bounds::second_bound(graph.rows(), k, held, free, v);
    first == Ok(k) && second == Ok(k)
}

// Of 64 vertices without an edge, k are a maximal k-plex; an isolated vertex is one with at most k - 1 others.
fn judged(cases: &mut Tally<impl Print>) {
    let empty = empty();
    let last = last_alone();
    cases.count(judge(&empty, 1, LAST, true));
    cases.count(judge(&empty, 1, 0, false));
    cases.count(judge(&empty, 1, 3, false));
    cases.count(judge(&empty, 2, LAST, false));
    cases.count(judge(&empty, 2, 1 | LAST, true));
    cases.count(judge(&empty, 5, 15, false));
    cases.count(judge(&empty, 5, LOWEST_4_AND_LAST, true));
    cases.count(judge(&empty, 5, 63, false));
    cases.count(judge(&last, 1, LAST, true));
    cases.count(judge(&last, 1, OTHERS, true));
    cases.count(judge(&last, 2, LAST, false));
    cases.count(judge(&last, 2, 1 | LAST, true));
    cases.count(judge(&last, 5, OTHERS, true));
    cases.count(judge(&last, 5, u64::MAX, false));
}

// An isolated vertex reaches itself alone, and no other reaches it; a k-plex that holds it has at most k members.
fn reached(cases: &mut Tally<impl Print>) {
    let empty = empty();
    let first = first_alone();
    let last = last_alone();
    cases.count(reach(&empty, 0, 1));
    cases.count(reach(&empty, 63, LAST));
    cases.count(reach(&first, 0, 1));
    cases.count(reach(&first, 63, u64::MAX ^ 1));
    cases.count(reach(&last, 63, LAST));
    cases.count(reach(&last, 0, OTHERS));
    cases.count(bound(&empty, 1, 0, 63));
    cases.count(bound(&empty, 2, 1, 63));
    cases.count(bound(&empty, 5, 0, 0));
    cases.count(bound(&empty, 5, 15, 63));
    cases.count(bound(&last, 1, 0, 63));
    cases.count(bound(&last, 5, 15, 63));
}

// Vertices without edges are as loose as they are many, and so is a set with an isolated vertex.
fn loose(cases: &mut Tally<impl Print>) {
    let empty = empty();
    let first = first_alone();
    let last = last_alone();
    cases.count(looseness::is(&Graph::new(Family::EMPTY, 2), 3, 2));
    cases.count(looseness::is(&empty, silent::ODD, 32));
    cases.count(looseness::is(&empty, OTHERS, 63));
    cases.count(looseness::is(&first, 1, 1));
    cases.count(looseness::is(&first, 7, 3));
    cases.count(looseness::is(&last, OTHERS, 1));
    cases.count(looseness::is(&last, 1 | LAST, 2));
    cases.count(looseness::is(&last, LOWEST_4_AND_LAST, 5));
    cases.count(looseness::is(&last, u64::MAX, 64));
}

// At floor k a core is everything, and above it has no isolated vertex.
fn peeled(cases: &mut Tally<impl Print>) {
    let empty = empty();
    let last = last_alone();
    cases.count(cores::is(&empty, 2, 3, 0, 2));
    cases.count(cores::is(&empty, 5, 9, 0, 2));
    cases.count(cores::is(&last, 1, 1, u64::MAX, 1));
    cases.count(cores::is(&last, 1, 2, OTHERS, 2));
    cases.count(cores::is(&last, 1, 63, OTHERS, 2));
    cases.count(cores::is(&last, 1, 64, 0, 2));
    cases.count(cores::is(&last, 2, 3, OTHERS, 2));
    cases.count(cores::is(&last, 5, 9, OTHERS, 2));
    cases.count(cores::is(&first_alone(), 1, 2, u64::MAX ^ 1, 2));
    cases.count(cores::is(&Graph::new(Family::Cocktail, 64), 1, 2, LOWEST_24, 2));
}

// Of vertices without edges a largest k-plex has k, or all; and so many has one that must hold an isolated vertex.
fn largest(cases: &mut Tally<impl Print>) {
    let two = Graph::new(Family::EMPTY, 2);
    let empty = empty();
    let last = last_alone();
    cases.count(largest_plex::finds(&Graph::new(Family::EMPTY, 1), 1, 0, 1, 1));
    cases.count(largest_plex::finds(&two, 1, 0, 1, 1));
    cases.count(largest_plex::finds(&two, 2, 0, 2, 3));
    cases.count(largest_plex::finds(&two, 5, 0, 2, 3));
    cases.count(largest_plex::finds(&empty, 1, 0, 1, 1));
    cases.count(largest_plex::finds(&empty, 2, 0, 2, 3));
    cases.count(largest_plex::finds(&empty, 3, 0, 3, 7));
    cases.count(largest_plex::finds(&empty, 4, 0, 4, 15));
    cases.count(largest_plex::finds(&last, 1, 0, 63, OTHERS));
    cases.count(largest_plex::finds(&last, 5, 0, 63, OTHERS));
    cases.count(largest_plex::finds(&last, 1, LAST, 1, LAST));
    cases.count(largest_plex::finds(&last, 2, LAST, 2, 1 | LAST));
    cases.count(largest_plex::finds(&last, 5, LAST, 5, LOWEST_4_AND_LAST));
    cases.count(largest_plex::declines(&last, 1, 1 | LAST));
    cases.count(largest_plex::declines(&last, 2, 3 | LAST));
}

// A change takes the last edge of a vertex, or of two, or gives it the first.
fn changed(cases: &mut Tally<impl Print>) -> io::Result<()> {
    let pair = Book::new(&Graph::new(Family::Complete, 2), ask(1, 1));
    let star = Book::new(&Graph::new(Family::Star, 4), ask(1, 1));
    let last = Book::new(&last_alone(), ask(1, 1));
    let quiet = Book::new(&last_alone(), ask_silent(1, 1, LAST));
    there_and_back(cases, pair, parted(0, 1), &[1, 2], &[3])?;
    there_and_back(cases, star, parted(3, 0), &[3, 5, 8], &[3, 5, 9])?;
    there_and_back(
        cases,
        last,
        joined(0, 63),
        &[OTHERS, 1 | LAST],
        &[OTHERS, LAST],
    )?;
    there_and_back(cases, quiet, joined(0, 63), &[OTHERS, 1 | LAST], &[OTHERS])
}

pub fn found(cases: &mut Tally<impl Print>) -> io::Result<()> {
    singleton_lists(cases)?;
    edgeless_lists(cases)?;
    alone_lists(cases)?;
    judged(cases);
    reached(cases);
    loose(cases);
    peeled(cases);
    largest(cases);
    changed(cases)
}
