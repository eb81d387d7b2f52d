// The table of near rows of the climb: it drops nothing, or what is out of reach of a k-plex of a floor.
ghost use Rattle.std.specs.Prelude.{◌≡◌, ◌+◌, ◌<◌, ◌≤◌};
ghost use Rattle.sets.specs.Words.{width, mask, masks};
ghost use Rattle.judging.specs.Request.{request};
ghost use Rattle.search.specs.NearRows.{Lent};
ghost use Rattle.search.specs.Ready.{Settled};
ghost use Rattle.search.specs.Start.{Searchable};
ghost use Rattle.largest.specs.Fit.{Forced};

use crate::task::Task;
use sets::Set;

// A lent table for a graph and a slack, and the floor that it serves, as it does every higher one.
#[derive(Drop)]
pub(crate) struct Table<'a> {
    rows: &'a [u64],
    k: usize,
    near: &'a mut [u64],
    floor: usize,
    ghost settled: { Settled (masks rows.now) (masks near.now) (request k floor 0) },
}

// Fills the table so that it drops nothing.
fn clear(rows: &[u64], k: usize, near: &mut [u64])
    requires { Searchable (masks rows.now) (request k 0 0) × Lent (masks rows.now) (masks near.old) }
    ensures { Settled (masks rows.now) (masks near.new) (request k 0 0) }
{
    let all = Set::full(sets::count(rows));
    search::near::fill(rows, k, 0, all, all, false, false, near);
}

impl<'a> Table<'a> {
    // The table with nothing dropped.
    pub fn new(rows: &'a [u64], k: usize, near: &'a mut [u64]) -> Table<'a>
        requires { Searchable (masks rows.now) (request k 0 0) × Lent (masks rows.now) (masks near.old) }
        ensures { (result.rows ≡ rows.entry) × (result.k ≡ k) × (result.floor ≡ 0) }
    {
        clear(rows, k, near);
        Table {
            rows,
            k,
            near,
            floor: 0,
        }
    }

    // Fills the table for the search for more than `size` members, where its floor is 0; it is not changed again. Below 2k - 1 members a k-plex may fall
    // apart, so the reach says nothing; at slack 1 the table is not used. Pairs are left to the search, which sifts for the first vertices taken.
    pub fn refill(&mut self, size: usize)
        requires { (self.old.floor ≤ size) × (size < width) }
        ensures { (self.new.rows ≡ self.old.rows) × (self.new.k ≡ self.old.k) × (self.new.floor ≤ size + 1) }
    {
        if self.k == 1 {
            return;
        }
        if 0 < self.floor {
            return;
        }
        if size + 2 < 2 * self.k {
            return;
        }
        let target = size.max(2 * self.k - 1);
        let all = search::candidates(self.rows, self.k, target, true);
        // the table serves this floor already, as it is
        self.floor = target;
        search::near::fill(self.rows, self.k, target, all, all, true, false, self.near);
    }

    // Makes the table serve the floor `size`.
    pub fn settle(&mut self, size: usize)
        requires { size ≤ width }
        ensures { (self.new.rows ≡ self.old.rows) × (self.new.k ≡ self.old.k) × (self.new.floor ≤ size) }
    {
        if size < self.floor {
            clear(self.rows, self.k, self.near);
            self.floor = 0;
        }
    }

    // What is sought with it: k-plexes of at least q members that hold the forced vertices.
    pub fn task(&self, q: usize, forced: Set) -> Task<'_>
        requires { Forced (masks self.now.rows.now) self.now.k (mask forced) × (self.now.floor ≤ q) × (q ≤ width) }
        ensures { (result.rows ≡ self.now.rows) × (result.k ≡ self.now.k) × (result.q ≡ q) × (result.forced ≡ forced) }
    {
        Task {
            rows: self.rows,
            near: self.near,
            k: self.k,
            q,
            forced,
        }
    }
}
