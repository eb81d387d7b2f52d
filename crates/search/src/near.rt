// Tables of near rows: once the search has taken a vertex, it keeps no candidate outside the vertex's row.
ghost use Rattle.std.specs.Prelude.{◌≡◌, ℕ, ◌+◌, ◌*◌, ◌^◌, ◌<◌, ◌≤◌, true, length};
ghost use Rattle.sets.specs.Words.{mask, masks};
ghost use Rattle.judging.specs.Request.{request};
ghost use Rattle.judging.specs.Setting.{LowRows, Sized};
ghost use Rattle.search.specs.NearRows.{close, pair_row, reach_row, near_row, Pairable, Pairing, Pairs, Lent, Filled};

use sets::Set;

// How close two vertices are: as two members of one k-plex of q or more members of the core, or not as close?
#[derive(Clone, Copy)]
pub(crate) struct Closeness<'a> {
    pub rows: &'a [u64],
    pub k: usize,
    pub q: usize,
    pub core: Set,
    pub ghost pairable: { Pairable (masks rows.now) k q (mask core) },
}

impl Closeness<'_> {
    // Have u and v as many common neighbours in the core as two members of one k-plex of q or more members have there?
    fn is_close(&self, v: usize, u: usize) -> bool
        requires { (v < length (masks self.now.rows.now)) × (u < length (masks self.now.rows.now)) }
        ensures { result ≡ close (masks self.now.rows.now) self.now.k self.now.q (mask self.now.core) v u }
    {
        let beside = sets::get(self.rows, v);
        let shared = self.core.meet(beside.meet(sets::get(self.rows, u))).size();
        self.q + 2 <= shared + 2 * self.k + 2 * beside.indicator(u)
    }

    // The members of `from`, v aside, that are close to v.
    pub fn row(&self, from: Set, v: usize) -> Set
        requires { (mask from < 2 ^ length (masks self.now.rows.now)) × (v < length (masks self.now.rows.now)) }
        ensures { mask result ≡ pair_row (masks self.now.rows.now) self.now.k self.now.q (mask self.now.core) (mask from) v }
    {
        let mut left = from.without(v);
        let mut kept = left;
        while !left.is_empty() {
            let u = left.lowest();
            left = left.rest(u);
            kept = kept.without_if(u, !self.is_close(v, u));
        }
        kept
    }
}

// The two-hop reach of v, or all vertices where that is switched off.
fn reach_row(rows: &[u64], reach: bool, v: usize) -> Set
    requires { LowRows (masks rows.now) × Sized (masks rows.now) × (v < length (masks rows.now)) }
    ensures { mask result ≡ reach_row (masks rows.now) reach v }
{
    if reach {
        return bounds::reach::reach(rows, v);
    }
    Set::full(sets::count(rows))
}

// Row v of the table by the cuts that are switched on: of `all`, by pairs with common neighbours in the core. Pairs are counted within the reach alone, which
// on a sparse graph is small.
fn near_row(closeness: &Closeness, all: Set, reach: bool, pairs: bool, v: usize) -> Set
    requires { Pairing (masks closeness.now.rows.now) closeness.now.k closeness.now.q (mask all) (mask closeness.now.core)
        × (v < length (masks closeness.now.rows.now)) }
    ensures { mask result ≡ near_row (masks closeness.now.rows.now) closeness.now.k closeness.now.q (mask all) (mask closeness.now.core) reach pairs v }
{
    let within = reach_row(closeness.rows, reach, v);
    if pairs {
        return closeness.row(all.meet(within), v);
    }
    within
}

// Writes the table row by row. Every listed plex lies in `all`, and its members that are not silent lie in `core`.
pub fn fill(
    rows: &[u64],
    k: usize,
    q: usize,
    all: Set,
    core: Set,
    reach: bool,
    pairs: bool,
    near: &mut [u64],
)
    requires { Lent (masks rows.now) (masks near.old) × Pairing (masks rows.now) k q (mask all) (mask core) × (reach ≡ true → 2 * k ≤ q + 1) }
    ensures { (z : ℕ) → Pairs (masks rows.now) (request k q z) (mask all) (mask core)
        → Filled (masks rows.now) (request k q z) (masks near.old) (masks near.new) }
{
    let closeness = Closeness { rows, k, q, core };
    for v in 0..sets::count(rows) {
        sets::put(near, v, near_row(&closeness, all, reach, pairs, v));
    }
}
