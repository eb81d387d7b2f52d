// Edges of the call for the core, with the passes that it takes, and its answers beside passes that look at every vertex, straight from the definition.
ghost use Rattle.std.specs.Prelude.{◌≤◌};
ghost use Rattle.judging.specs.Refusal.{most_slack};

use crate::compare::MOST_FLOOR;
use crate::graphs::{Family, Graph};
use crate::requests::ask;
use crate::tally::Tally;
use crate::words;
use bounds::cores::Peeled;
use judging::check::MOST_SLACK;
use sets::Set;
use std::io;

// Each pass but the last takes a vertex.
const MOST_PASSES: usize = sets::WIDTH + 1;

// The highest three of 64 vertices.
const HIGHEST_3: u64 = 7 << 61;

// Is this the core, after so many passes?
pub fn is(graph: &Graph, k: usize, q: usize, mask: u64, passes: usize) -> bool {
    let found = bounds::find_core(graph.rows(), k, q);
    found
        == Ok(Peeled {
            core: Set::from(mask),
            passes,
        })
}

// One vertex, and no edge.
fn small(cases: &mut Tally<impl Print>) {
    let one = Graph::new(Family::EMPTY, 1);
    let empty = Graph::new(Family::EMPTY, 64);
    cases.count(is(&one, 1, 1, 1, 1));
    cases.count(is(&one, 1, 2, 0, 2));
    cases.count(is(&one, 1, 64, 0, 2));
    cases.count(is(&one, 5, 9, 0, 2));
    cases.count(is(&empty, 1, 1, u64::MAX, 1));
    cases.count(is(&empty, 1, 2, 0, 2));
}

// Nothing is taken out, or all in one pass; of a star the middle, which is looked at first, goes in the second.
fn few(cases: &mut Tally<impl Print>) {
    let ring = Graph::new(Family::Ring, 64);
    let star = Graph::new(Family::Star, 64);
    cases.count(is(&Graph::ring(), 2, 4, 31, 1));
    cases.count(is(&Graph::ring(), 2, 5, 0, 2));
    cases.count(is(&ring, 1, 3, u64::MAX, 1));
    cases.count(is(&ring, 1, 4, 0, 2));
    cases.count(is(&Graph::new(Family::Complete, 64), 1, 64, u64::MAX, 1));
    cases.count(is(&Graph::new(Family::Complete, 63), 1, 64, 0, 2));
    cases.count(is(&star, 1, 2, u64::MAX, 1));
    cases.count(is(&star, 1, 3, 0, 3));
}

// A path by its numbers goes in one pass, and one numbered outwards takes a pass for each vertex of a side. With a triangle at one end a path that falls
// goes in one pass too, and one that rises takes a pass for each vertex: as many as there can be.
fn paths(cases: &mut Tally<impl Print>) {
    let rising = Graph::new(Family::Rising, 64);
    cases.count(is(&Graph::new(Family::Path, 64), 1, 3, 0, 2));
    cases.count(is(&Graph::new(Family::Outward, 64), 1, 3, 0, 33));
    cases.count(is(&Graph::new(Family::Outward, 63), 1, 3, 0, 33));
    cases.count(is(&Graph::new(Family::Falling, 64), 1, 3, HIGHEST_3, 2));
    cases.count(is(&rising, 1, 3, 7, 62));
    cases.count(is(&rising, 2, 4, 7, 62));
    cases.count(is(&rising, 5, 9, 0, 2));
    cases.count(is(&Graph::new(Family::Rising, 4), 1, 3, 7, 2));
    cases.count(is(&Graph::new(Family::Rising, 3), 1, 3, 7, 1));
}

pub fn found(cases: &mut Tally<impl Print>) {
    small(cases);
    few(cases);
    paths(cases);
}

// v stays where at least m members of s are its neighbours.
fn look(rows: &[u64], m: usize, s: Set, v: usize) -> Set {
    if sets::WIDTH <= v || m <= s.meet(words::at(rows, v)).size() {
        return s;
    }
    s.without(v)
}

// What one pass leaves of s. Every vertex is looked at.
fn pass(rows: &[u64], m: usize, s: Set) -> Set {
    let mut kept = s;
    for v in 0..sets::count(rows) {
        kept = look(rows, m, kept, v);
    }
    kept
}

// All vertices.
fn all(rows: &[u64]) -> Set {
    match sets::count(rows) {
        n @ 1..=sets::WIDTH => Set::full(n),
        _ => Set::empty(),
    }
}

// Is the answer what passes from all vertices on come to?
fn agrees(rows: &[u64], k: usize, q: usize) -> bool
    requires { k ≤ q }
{
    let found = bounds::find_core(rows, k, q);
    let mut s = all(rows);
    for passes in 1..=MOST_PASSES {
        let kept = pass(rows, q - k, s);
        if kept == s {
            return found == Ok(Peeled { core: s, passes });
        }
        s = kept;
    }
    false
}

// One slack: every floor that is allowed beside it.
fn floors(cases: &mut Tally<impl Print>, graph: &Graph, k: usize) -> io::Result<()>
    requires { (1 ≤ k) × (k ≤ most_slack) }
{
    for q in 2 * k - 1..=MOST_FLOOR {
        let right = agrees(graph.rows(), k, q);
        cases.count_of(graph, ask(k, q), right)?;
    }
    Ok(())
}

// One graph: every slack.
pub fn beside_definition(cases: &mut Tally<impl Print>, graph: &Graph) -> io::Result<()> {
    for k in 1..=MOST_SLACK {
        floors(cases, graph, k)?;
    }
    Ok(())
}
