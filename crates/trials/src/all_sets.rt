// The list, and the largest k-plex, by trying all sets, straight from the definitions and apart from the search.
use crate::memory::List;
use crate::words;
use judging::Request;
use sets::Set;

// There are graphs of at most 16 vertices here.
const MOST_VERTICES: usize = 16;

// The least k for which the member v of s is adjacent to at least |s| - k members; 0 where it is none.
fn lacks(rows: &[u64], s: Set, v: usize) -> usize {
    if sets::WIDTH <= v || !s.has(v) {
        return 0;
    }
    let degree = s.meet(words::at(rows, v)).size();
    s.size().saturating_sub(degree)
}

// The least k for which s is a k-plex.
pub fn looseness(rows: &[u64], s: Set) -> usize {
    let mut least = 0;
    for v in 0..sets::count(rows) {
        least = least.max(lacks(rows, s, v));
    }
    least
}

// Is x outside the k-plex s, and is s with x one too?
fn extends(rows: &[u64], k: usize, s: Set, x: usize) -> bool {
    x < sets::WIDTH && !s.has(x) && looseness(rows, s.with(x)) <= k
}

// Is there a vertex that extends the k-plex s? Every vertex is tried.
fn is_extendable(rows: &[u64], k: usize, s: Set) -> bool {
    (0..sets::count(rows)).any(|x| extends(rows, k, s, x))
}

// Has s as many members as the floor asks for, where the silent ones do not count?
fn is_large(request: Request, s: Set) -> bool {
    request.floor <= s.minus(request.silent).size()
}

// Is s a maximal k-plex, and large? Only at the floor are members silent.
fn is_listed(rows: &[u64], request: Request, s: Set) -> bool {
    let k = request.slack;
    is_large(request, s) && looseness(rows, s) <= k && !is_extendable(rows, k, s)
}

// How many masks the graph has.
pub fn count_masks(rows: &[u64]) -> u64 {
    let n = sets::count(rows);
    if MOST_VERTICES < n {
        return 0;
    }
    1u64 << n
}

// The list becomes that of the sets that are listed, in rising order.
pub fn list(rows: &[u64], request: Request, list: &mut List) {
    list.clear();
    for mask in 0..count_masks(rows) {
        let s = Set::from(mask);
        if is_listed(rows, request, s) {
            list.push(s);
        }
    }
}

// Keeps the sets of the list that are large.
pub fn keep_large(request: Request, list: &mut List) {
    list.retain(|s| is_large(request, s));
}

// Is s a k-plex that holds the forced vertices and is larger than `best`?
fn is_larger(rows: &[u64], k: usize, forced: Set, best: Set, s: Set) -> bool {
    best.size() < s.size() && forced.within(s) && looseness(rows, s) <= k
}

// The largest k-plex that holds the forced vertices, and of those of its size the first in rising order.
pub fn largest(rows: &[u64], k: usize, forced: Set) -> Option<Set> {
    let mut best = Set::empty();
    for mask in 0..count_masks(rows) {
        let s = Set::from(mask);
        if is_larger(rows, k, forced, best, s) {
            best = s;
        }
    }
    if best.is_empty() { None } else { Some(best) }
}
