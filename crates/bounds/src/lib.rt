// The core of a graph, the two-hop reach of a vertex, and the bounds on the size of a k-plex, with the calls that give them.
#![tactic(auto)]

ghost use Rattle.std.specs.Prelude.{◌≡◌, ◌<◌, length};
ghost use Rattle.sets.specs.Words.{masks, mask};
ghost use Rattle.bounds.specs.Calls.{core_found_reply, core_reply, reach_found_reply, reach_reply};
ghost use Rattle.judging.specs.Refusal.{first_cause};
ghost use Rattle.judging.specs.Setting.{Inside};
ghost use Rattle.judging.specs.Calls.{passed, checked_reply, found_reply};
ghost use Rattle.bounds.specs.BoundCalls.{misplaced, bound_check, first_bound_reply, second_bound_reply};

pub mod bound;
pub mod cores;
pub mod reach;

use cores::Peeled;
use judging::{Refusal, check};
use sets::Set;

// The core of the graph with these rows, for the slack k and the floor q, and how many passes it took.
// Outcome: the largest set in which every member is adjacent to at least q - k members; it may be empty, and holds every k-plex of q or more members. A pass
// goes through the vertices left by rising number and takes out each that is adjacent to fewer than q - k of those still left, before it looks at the next;
// the first pass that takes none is the last, and counts. They are at most one more than the vertices taken out.
// Refusals: 1, 2, 3, 4, 5. Cost: one walk over the table, then one look at each vertex and at each that has lost a neighbour since.
pub fn find_core(rows: &[u64], slack: usize, floor: usize) -> Result<Peeled, Refusal>
    ensures { core_found_reply result ≡ core_reply (masks rows.now) slack floor }
{
    check::check_floor(rows, slack, floor)?;
    Ok(cores::peel(rows, floor - slack))
}

// The two-hop reach of the vertex v in the graph with these rows.
// Outcome: the vertices at most two edges away from v, v itself included; every k-plex of 2k - 1 or more members that holds v lies in it.
// Refusals: 1, 4, 5, 7. Cost: one pass over the table and one over the neighbours of v.
pub fn find_reach(rows: &[u64], v: usize) -> Result<Set, Refusal>
    ensures { reach_found_reply result ≡ reach_reply (masks rows.now) v }
{
    check::check_graph(rows)?;
    if sets::count(rows) <= v {
        return Err(Refusal::Outside);
    }
    Ok(reach::reach(rows, v))
}

// Is s with v looser than k, is v not in c, or do s and c overlap?
fn is_misplaced(rows: &[u64], k: usize, s: Set, c: Set, v: usize) -> bool
    requires { Inside (masks rows.now) (mask s) × (v < length (masks rows.now)) }
    ensures { result ≡ misplaced (masks rows.now) k (mask s) (mask c) v }
{
    if k < judging::plex::looseness(rows, s.with(v)) {
        return true;
    }
    if !c.has(v) {
        return true;
    }
    !s.meet(c).is_empty()
}

// Refusals 1, 2, 4, 5, 7 and 10.
fn check_bound(rows: &[u64], slack: usize, s: Set, c: Set, v: usize) -> Result<(), Refusal>
    ensures { checked_reply result ≡ first_cause (bound_check (masks rows.now) slack (mask s) (mask c) v) passed }
{
    check::check_set(rows, slack, s)?;
    let n = sets::count(rows);
    if !c.below(n) {
        return Err(Refusal::Outside);
    }
    if n <= v {
        return Err(Refusal::Outside);
    }
    if is_misplaced(rows, slack, s, c, v) {
        return Err(Refusal::Bound);
    }
    Ok(())
}

// The first bound: no k-plex that holds s and v and has no vertex outside s and c has more vertices. It counts the most neighbours of v in c whose
// costs the supports of s cover together. Refusals: 1, 2, 4, 5, 7, 10. Cost: the checks, one pass over s and one over c.
pub fn first_bound(rows: &[u64], slack: usize, s: Set, c: Set, v: usize) -> Result<usize, Refusal>
    ensures { found_reply result ≡ first_bound_reply (masks rows.now) slack (mask s) (mask c) v }
{
    check_bound(rows, slack, s, c, v)?;
    Ok(bound::first_bound(rows, slack, s, c, v))
}

// The second bound, which is never above the first: no k-plex that holds s and v and has no vertex outside s and c has more vertices. Each neighbour of v
// that is kept takes one off the least support among the members that it misses. Refusals: 1, 2, 4, 5, 7, 10. Cost: the checks, one pass over s and two over c.
pub fn second_bound(rows: &[u64], slack: usize, s: Set, c: Set, v: usize) -> Result<usize, Refusal>
    ensures { found_reply result ≡ second_bound_reply (masks rows.now) slack (mask s) (mask c) v }
{
    check_bound(rows, slack, s, c, v)?;
    Ok(bound::second_bound(rows, slack, s, c, v))
}
