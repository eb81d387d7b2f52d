// Silent vertices: edges of the call that lists, and its answers beside those of trying all sets.
use crate::compare::MOST_FLOOR;
use crate::graphs::{Family, Graph};
use crate::memory::Memory;
use crate::requests::ask_silent;
use crate::tally::Tally;
use crate::{all_sets, compare, graphs, list_edges};
use judging::{Refusal, Request};
use std::io;

// Every second of 64 vertices, from 1 on.
pub const ODD: u64 = u64::MAX / 3 * 2;

// How many silent sets of a graph are tried: all where it has no more.
const SILENT_SETS: u64 = 32;

// Is the list of the graph the sets of these masks?
pub fn lists(
    cases: &mut Tally<impl Print>,
    graph: &Graph,
    request: Request,
    masks: &[u64],
) -> io::Result<()> {
    let mut memory = Memory::new();
    memory.expected.set_masks(masks);
    compare::with_request(cases, graph, request, &mut memory)
}

// Five vertices in a ring: at slack 2 three side by side.
fn ring(cases: &mut Tally<impl Print>) -> io::Result<()> {
    let ring = Graph::ring();
    lists(cases, &ring, ask_silent(2, 3, 1), &[14, 28])?;
    lists(cases, &ring, ask_silent(2, 3, 16), &[7, 14])?;
    lists(cases, &ring, ask_silent(2, 3, 5), &[])?;
    lists(cases, &ring, ask_silent(2, 3, 31), &[])?;
    lists(cases, &ring, ask_silent(3, 5, 0), &[31])?;
    lists(cases, &ring, ask_silent(3, 5, 8), &[])
}

// At slack 1 the five sides: of some, one end is silent or both are.
fn sides(cases: &mut Tally<impl Print>) -> io::Result<()> {
    let ring = Graph::ring();
    lists(cases, &ring, ask_silent(1, 1, 5), &[3, 6, 12, 17, 24])?;
    lists(cases, &ring, ask_silent(1, 1, 7), &[12, 17, 24])?;
    lists(cases, &ring, ask_silent(1, 2, 5), &[24])?;
    lists(cases, &ring, ask_silent(1, 2, 21), &[])?;
    lists(cases, &ring, ask_silent(1, 1, 31), &[])
}

// Four in a ring, which are one 2-plex, and graphs of one vertex.
fn small(cases: &mut Tally<impl Print>) -> io::Result<()> {
    let ring = Graph::new(Family::Ring, 4);
    let one = Graph::new(Family::EMPTY, 1);
    lists(cases, &ring, ask_silent(2, 3, 1), &[15])?;
    lists(cases, &ring, ask_silent(2, 3, 8), &[15])?;
    lists(cases, &ring, ask_silent(2, 3, 5), &[])?;
    lists(cases, &ring, ask_silent(2, 4, 1), &[])?;
    lists(cases, &one, ask_silent(1, 1, 0), &[1])?;
    lists(cases, &one, ask_silent(1, 1, 1), &[])
}

// 64 vertices all adjacent, of which 63, 32, all, 55 and 56 are silent, at a floor that the others reach or are one short of.
fn complete(cases: &mut Tally<impl Print>) -> io::Result<()> {
    let graph = Graph::new(Family::Complete, 64);
    let all = [u64::MAX];
    let lower_half = u64::MAX >> 32;
    lists(cases, &graph, ask_silent(1, 1, u64::MAX ^ 1), &all)?;
    lists(cases, &graph, ask_silent(1, 1, u64::MAX >> 1), &all)?;
    lists(cases, &graph, ask_silent(1, 2, u64::MAX >> 1), &[])?;
    lists(cases, &graph, ask_silent(1, 32, lower_half), &all)?;
    lists(cases, &graph, ask_silent(1, 33, lower_half), &[])?;
    lists(cases, &graph, ask_silent(5, 32, ODD), &all)?;
    lists(cases, &graph, ask_silent(5, 33, ODD), &[])?;
    lists(cases, &graph, ask_silent(5, 9, u64::MAX >> 9), &all)?;
    lists(cases, &graph, ask_silent(5, 9, u64::MAX >> 8), &[])?;
    lists(cases, &graph, ask_silent(1, 63, 1), &all)?;
    lists(cases, &graph, ask_silent(1, 64, 1), &[])?;
    lists(cases, &graph, ask_silent(1, 1, u64::MAX), &[])?;
    lists(cases, &graph, ask_silent(1, 64, u64::MAX), &[])?;
    lists(cases, &graph, ask_silent(5, 9, u64::MAX), &[])
}

// 64 vertices of which one, two or three are not silent: without an edge, in a ring, in a star.
fn sparse(cases: &mut Tally<impl Print>) -> io::Result<()> {
    let empty = Graph::new(Family::EMPTY, 64);
    let ring = Graph::new(Family::Ring, 64);
    let star = Graph::new(Family::Star, 64);
    let last = 1 << 63;
    let last_two = 3 << 62;
    lists(cases, &empty, ask_silent(1, 1, u64::MAX >> 1), &[last])?;
    lists(cases, &empty, ask_silent(1, 2, u64::MAX >> 2), &[])?;
    lists(
        cases,
        &ring,
        ask_silent(1, 1, u64::MAX >> 1),
        &[1 | last, last_two],
    )?;
    lists(cases, &ring, ask_silent(1, 2, u64::MAX >> 2), &[last_two])?;
    lists(
        cases,
        &star,
        ask_silent(2, 3, (u64::MAX >> 2) ^ 1),
        &[1 | last_two],
    )?;
    lists(cases, &star, ask_silent(2, 3, u64::MAX >> 3), &[])
}

// Is a silent set that reaches n refused, and do the slots keep what they held?
fn reaches(n: usize, mask: u64) -> bool {
    let graph = Graph::new(Family::EMPTY, n);
    let mut slots = [0u64; 72 * sets::WORDS];
    list_edges::answers(
        &graph,
        ask_silent(1, 1, mask),
        &mut slots,
        Err(Refusal::Outside),
    )
}

// The vertex n is silent, a later one, or all are that a mask has.
fn beyond(cases: &mut Tally<impl Print>) {
    cases.count(reaches(1, 2));
    cases.count(reaches(1, u64::MAX));
    cases.count(reaches(5, 32));
    cases.count(reaches(5, 65));
    cases.count(reaches(32, 1 << 32));
    cases.count(reaches(63, 1 << 63));
    cases.count(reaches(63, u64::MAX));
}

pub fn found(cases: &mut Tally<impl Print>) -> io::Result<()> {
    ring(cases)?;
    sides(cases)?;
    small(cases)?;
    complete(cases)?;
    sparse(cases)?;
    beyond(cases);
    Ok(())
}

// Where the numbers start that decide on silent vertices: others than those of the graph's edges.
fn seed(graph: &Graph, variant: usize) -> u64 {
    graphs::seed(variant, graph.count())
}

// The silent set of number i of a graph with so many masks: each of them where they are few; else none, all, and a quarter, a half or three quarters of the
// vertices, which x decides.
fn chosen(most: u64, i: u64, x: u64) -> u64 {
    if most == 0 {
        return 0;
    }
    if most <= SILENT_SETS {
        return i % most;
    }
    let y = graphs::next(x);
    let mask = match i {
        0 => 0,
        1 => u64::MAX,
        2..=11 => x & y,
        12..=21 => x,
        _ => x | y,
    };
    mask % most
}

// The silent set that the variant decides.
pub fn of_variant(graph: &Graph, variant: usize) -> u64 {
    let most = all_sets::count_masks(graph.rows());
    chosen(most, variant as u64 % SILENT_SETS, seed(graph, variant))
}

// One graph with some silent sets: every slack, and the floors up to one above n, where such a floor is allowed: no set is so large.
#[inline(never)]
pub fn beside_all_sets(cases: &mut Tally<impl Print>, graph: &Graph) -> io::Result<()> {
    let mut memory = Memory::new();
    let most = all_sets::count_masks(graph.rows());
    let last = graph.count().saturating_add(1).min(MOST_FLOOR);
    let mut x = seed(graph, graph.variant);
    for i in 0..most.min(SILENT_SETS) {
        compare::slacks(cases, graph, chosen(most, i, x), last, &mut memory)?;
        x = graphs::next(x);
    }
    Ok(())
}
