// Edges of the call that finds the largest k-plex, and its answers beside those of trying all sets.
use crate::graphs::{Family, Graph};
use crate::requests::ask;
use crate::tally::Tally;
use crate::{all_sets, refusals};
use judging::Refusal;
use judging::check::MOST_SLACK;
use sets::Set;
use std::io;

// A floor that is allowed beside each slack, for the sheet of a graph.
const FLOOR: usize = 64;

// The lowest four vertices and the last of 64.
pub const LOWEST_4_AND_LAST: u64 = 15 | (1 << 63);

// Is this the answer where the vertices of a set are forced?
fn gives(graph: &Graph, k: usize, forced: Set, want: Result<Set, Refusal>) -> bool {
    let found = largest::largest(graph.rows(), k, forced);
    found == want && refusals::is(found.err(), want.err())
}

// Is it the set of this size and this mask? The vertices of the mask `forced` are.
pub fn finds(graph: &Graph, k: usize, forced: u64, size: usize, mask: u64) -> bool {
    let want = Set::from(mask);
    want.size() == size && gives(graph, k, Set::from(forced), Ok(want))
}

// Is it refused so?
fn refuses(graph: &Graph, k: usize, forced: u64, refusal: Refusal) -> bool {
    gives(graph, k, Set::from(forced), Err(refusal))
}

// Is the forced set refused, since it is no k-plex?
pub fn declines(graph: &Graph, k: usize, forced: u64) -> bool {
    refuses(graph, k, forced, Refusal::Forced)
}

// All of a complete graph, forced.
fn whole(n: usize, k: usize, mask: u64) -> bool {
    finds(&Graph::new(Family::Complete, n), k, mask, n, mask)
}

// Three vertices and no edge.
fn three(cases: &mut Tally<impl Print>) {
    let empty = Graph::new(Family::EMPTY, 3);
    cases.count(finds(&empty, 2, 0, 2, 3));
    cases.count(finds(&empty, 2, 4, 2, 5));
    cases.count(finds(&empty, 2, 6, 2, 6));
    cases.count(finds(&empty, 3, 0, 3, 7));
    cases.count(finds(&empty, 5, 0, 3, 7));
    cases.count(finds(&empty, 1, 0, 1, 1));
    cases.count(finds(&empty, 1, 4, 1, 4));
    cases.count(declines(&empty, 1, 3));
    cases.count(declines(&empty, 2, 7));
}

// Five vertices in a ring: of three at slack 2 each has a neighbour, so they lie side by side. Those with 4 are 2, 3, 4; 3, 4, 0; and, the lowest, 4, 0, 1.
fn ring(cases: &mut Tally<impl Print>) {
    let ring = Graph::ring();
    cases.count(finds(&ring, 2, 0, 3, 7));
    cases.count(finds(&ring, 2, 4, 3, 7));
    cases.count(finds(&ring, 2, 16, 3, 19));
    cases.count(finds(&ring, 2, 10, 3, 14));
    cases.count(finds(&ring, 1, 0, 2, 3));
    cases.count(finds(&ring, 3, 0, 5, 31));
    cases.count(declines(&ring, 2, 11));
}

// Graphs of 1, 5 and 64 vertices, all of them forced; and one or 64 without an edge.
fn ends(cases: &mut Tally<impl Print>) {
    let empty = Graph::new(Family::EMPTY, 64);
    cases.count(whole(1, 1, 1));
    cases.count(whole(1, 5, 1));
    cases.count(whole(5, 1, 31));
    cases.count(whole(5, 5, 31));
    cases.count(whole(64, 1, u64::MAX));
    cases.count(whole(64, 5, u64::MAX));
    cases.count(finds(&Graph::new(Family::EMPTY, 1), 5, 0, 1, 1));
    cases.count(finds(&empty, 5, 0, 5, 31));
    cases.count(finds(&empty, 5, 1 << 63, 5, LOWEST_4_AND_LAST));
}

pub fn found(cases: &mut Tally<impl Print>) {
    three(cases);
    ring(cases);
    ends(cases);
}

// Each with the later causes too: 1, 2, 4, 5, 7, 11. The vertices 0, 2 and 5 of a ring of five reach n, and 0 and 2 are not adjacent.
pub fn refused(cases: &mut Tally<impl Print>) {
    let ring = Graph::ring();
    let faulty = ring.own(3).one_way(1);
    cases.count(refuses(&Graph::garbage(0), 0, u64::MAX, Refusal::Vertices));
    cases.count(refuses(&Graph::garbage(65), 6, u64::MAX, Refusal::Vertices));
    cases.count(refuses(&Graph::garbage(64), 0, u64::MAX, Refusal::Slack));
    cases.count(refuses(&faulty, 0, 37, Refusal::Slack));
    cases.count(refuses(&faulty, 6, 37, Refusal::Slack));
    cases.count(refuses(&faulty, 1, 37, Refusal::Row(3)));
    cases.count(refuses(&ring.own(4).far(2).one_way(0), 1, 37, Refusal::Row(2)));
    cases.count(refuses(&ring.own(1).far(2).one_way(0), 1, 37, Refusal::Row(1)));
    cases.count(refuses(&ring.one_way(4), 1, 37, Refusal::OneWay(4)));
    cases.count(refuses(&ring.one_way(1), 1, 37, Refusal::OneWay(1)));
    cases.count(refuses(&ring, 1, 37, Refusal::Outside));
    cases.count(refuses(&ring, 5, 32, Refusal::Outside));
    cases.count(refuses(&ring, 1, u64::MAX, Refusal::Outside));
    cases.count(declines(&ring, 1, 5));
    cases.count(declines(&ring, 2, 31));
}

// Is the answer that of trying all sets? With no set that holds the forced vertices, these are no k-plex.
fn agrees(graph: &Graph, k: usize, forced: Set) -> bool {
    let best = all_sets::largest(graph.rows(), k, forced);
    gives(graph, k, forced, best.ok_or(Refusal::Forced))
}

// One slack: every set, forced.
fn forced_sets(cases: &mut Tally<impl Print>, graph: &Graph, k: usize) -> io::Result<()> {
    for mask in 0..all_sets::count_masks(graph.rows()) {
        let right = agrees(graph, k, Set::from(mask));
        cases.count_of(graph, ask(k, FLOOR), right)?;
    }
    Ok(())
}

// One graph: every slack.
pub fn beside_all_sets(cases: &mut Tally<impl Print>, graph: &Graph) -> io::Result<()> {
    for k in 1..=MOST_SLACK {
        forced_sets(cases, graph, k)?;
    }
    Ok(())
}
