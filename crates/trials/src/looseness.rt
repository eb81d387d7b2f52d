// Edges of the call that tells how loose a set is, and its answers beside those of the definition.
use crate::graphs::{Family, Graph};
use crate::requests::ask;
use crate::tally::Tally;
use crate::{all_sets, refusals};
use judging::Refusal;
use sets::Set;
use std::io;

// Is this the answer for the set of the mask?
fn gives(graph: &Graph, mask: u64, want: Result<usize, Refusal>) -> bool {
    let found = judging::looseness(graph.rows(), Set::from(mask));
    found == want && refusals::is(found.err(), want.err())
}

// Is the set so loose?
pub fn is(graph: &Graph, mask: u64, loose: usize) -> bool {
    gives(graph, mask, Ok(loose))
}

// No member, and one.
fn small(cases: &mut Tally<impl Print>) {
    let one = Graph::new(Family::EMPTY, 1);
    let empty = Graph::new(Family::EMPTY, 64);
    cases.count(is(&one, 0, 0));
    cases.count(is(&Graph::ring(), 0, 0));
    cases.count(is(&empty, 0, 0));
    cases.count(is(&Graph::new(Family::Complete, 64), 0, 0));
    cases.count(is(&one, 1, 1));
    cases.count(is(&Graph::ring(), 16, 1));
    cases.count(is(&empty, 1 << 63, 1));
}

// Five vertices in a ring: two side by side, two apart, three in a row, two and one apart from both, four, all.
fn ring(cases: &mut Tally<impl Print>) {
    let ring = Graph::ring();
    cases.count(is(&ring, 3, 1));
    cases.count(is(&ring, 5, 2));
    cases.count(is(&ring, 7, 2));
    cases.count(is(&ring, 11, 3));
    cases.count(is(&ring, 15, 3));
    cases.count(is(&ring, 31, 3));
}

// At the limit of slack and beyond it: five, six and seven vertices, and all.
fn large(cases: &mut Tally<impl Print>) {
    let empty = Graph::new(Family::EMPTY, 64);
    let star = Graph::new(Family::Star, 64);
    cases.count(is(&Graph::new(Family::Complete, 64), u64::MAX, 1));
    cases.count(is(&empty, 31, 5));
    cases.count(is(&empty, 63, 6));
    cases.count(is(&empty, u64::MAX, 64));
    cases.count(is(&star, 63, 5));
    cases.count(is(&star, 127, 6));
    cases.count(is(&star, u64::MAX, 63));
    cases.count(is(&Graph::new(Family::Ring, 64), u64::MAX, 62));
    cases.count(is(&Graph::new(Family::Path, 64), u64::MAX, 63));
}

pub fn found(cases: &mut Tally<impl Print>) {
    small(cases);
    ring(cases);
    large(cases);
}

// Each with the later causes too: 1, 4, 5, 7. Vertex 5 is none of a ring of five.
pub fn refused(cases: &mut Tally<impl Print>) {
    let ring = Graph::ring();
    cases.count(gives(&Graph::garbage(0), u64::MAX, Err(Refusal::Vertices)));
    cases.count(gives(&Graph::garbage(65), u64::MAX, Err(Refusal::Vertices)));
    cases.count(gives(&Graph::garbage(64), u64::MAX, Err(Refusal::Row(1))));
    cases.count(gives(&ring.own(3).one_way(1), 37, Err(Refusal::Row(3))));
    cases.count(gives(&ring.own(4).far(2).one_way(0), 37, Err(Refusal::Row(2))));
    cases.count(gives(&ring.own(1).far(2).one_way(0), 0, Err(Refusal::Row(1))));
    cases.count(gives(&ring.one_way(4), 37, Err(Refusal::OneWay(4))));
    cases.count(gives(&ring.one_way(1), 0, Err(Refusal::OneWay(1))));
    cases.count(gives(&ring, 37, Err(Refusal::Outside)));
    cases.count(gives(&ring, u64::MAX, Err(Refusal::Outside)));
    cases.count(is(&ring, 31, 3));
}

// One graph: every set. A difference prints the graph beside slack 1 and floor 1.
pub fn beside_definition(cases: &mut Tally<impl Print>, graph: &Graph) -> io::Result<()> {
    for mask in 0..all_sets::count_masks(graph.rows()) {
        let right = is(
            graph,
            mask,
            all_sets::looseness(graph.rows(), Set::from(mask)),
        );
        cases.count_of(graph, ask(1, 1), right)?;
    }
    Ok(())
}
