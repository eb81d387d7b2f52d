// The start of the search: the candidates beside the forced set, and a first k-plex around it.
ghost use Rattle.std.specs.Prelude.{◌<◌, length};
ghost use Rattle.sets.specs.Set.{In};
ghost use Rattle.sets.specs.Words.{mask, masks};
ghost use Rattle.search.specs.Choice.{Pickable};

use crate::task::Task;
use sets::Set;

// What v misses of s and c. Where s is `heavy`, one of its members counts as three candidates. `heavy` is no closure: of one three contracts would have to ask
// that it doesn't overflow.
fn cost(rows: &[u64], heavy: bool, s: Set, c: Set, v: usize) -> usize
    requires { v < length (masks rows.now) }
{
    let beside = judging::plex::missing(rows, c, v);
    let inside = judging::plex::missing(rows, s, v);
    if heavy {
        return 3 * inside + beside;
    }
    inside + beside
}

// The candidate that costs least, the lowest on a tie.
fn cheapest(rows: &[u64], heavy: bool, s: Set, c: Set) -> usize
    requires { Pickable (masks rows.now) (mask c) }
    ensures { In result (mask c) }
{
    let mut best = c.lowest();
    let mut least = cost(rows, heavy, s, c, best);
    let mut left = c;
    while !left.is_empty() {
        let v = left.lowest();
        left = left.rest(v);
        let m = cost(rows, heavy, s, c, v);
        if m < least {
            least = m;
            best = v;
        }
    }
    best
}

impl Task<'_> {
    ghost use Rattle.search.specs.Found.{Compatible};
    ghost use Rattle.largest.specs.Largest.{Holding};
    ghost use Rattle.largest.specs.Fit.{Fitted};
    ghost use Rattle.largest.specs.Task.{graph, ask};

    // The candidates that are left once the forced vertices have joined, one after the other. None is left where one of these is no candidate any more:
    // nothing listed holds them all then.
    pub fn fit(&self) -> Set
        ensures { Fitted (graph self.now) (ask self.now) (mask self.now.forced) (mask result) }
    {
        // at slack 1 there is nothing to sift
        let few = self.k - 1;
        let mut s = Set::empty();
        let mut c = search::candidates(self.rows, self.k, self.q, true);
        let mut left = self.forced;
        while !left.is_empty() {
            let v = left.lowest();
            if !c.has(v) {
                return Set::empty();
            }
            left = left.rest(v);
            c = self.beside(few, s, c, v);
            s = s.with(v);
        }
        c
    }

    // A k-plex that holds the forced vertices: the candidate that costs least joins, until none is left.
    fn greedy(&self, heavy: bool, c: Set) -> Set
        requires { Compatible (graph self.now) self.now.k (mask self.now.forced) (mask c) }
        ensures { Holding (graph self.now) self.now.k (mask self.now.forced) (mask result) }
    {
        let mut s = self.forced;
        let mut left = c;
        while !left.is_empty() {
            let v = cheapest(self.rows, heavy, s, left);
            left = self.beside(0, s, left, v);
            s = s.with(v);
        }
        s
    }

    // The larger of two such k-plexes, each grown by a cost of its own: the second is the better one on some dense graphs, and is not tried on others. At slack
    // 1 they are the same.
    pub fn first(&self) -> Set
        ensures { Holding (graph self.now) self.now.k (mask self.now.forced) (mask result) }
    {
        let c = self.fit();
        let a = self.greedy(true, c);
        if self.k == 1 {
            return a;
        }
        if 3 * a.size() < sets::count(self.rows) {
            return a;
        }
        let b = self.greedy(false, c);
        if a.size() < b.size() {
            return b;
        }
        a
    }
}
