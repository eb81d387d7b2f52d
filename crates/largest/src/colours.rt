// Colour classes: sets of vertices of which no two are adjacent.
ghost use Rattle.std.specs.Prelude.{◌≡◌, true, ℕ, ◌+◌, ◌<◌};
ghost use Rattle.sets.specs.Set.{size};
ghost use Rattle.sets.specs.Words.{mask, masks};
ghost use Rattle.judging.specs.Setting.{Judgeable};
ghost use Rattle.largest.specs.Colour.{Class, Coloured, Shared};

use crate::task::Task;
use sets::Set;

// A colour class: members of `from`, taken one after the other, that are not adjacent to those before. A k-plex has at most k of them.
fn class(rows: &[u64], from: Set) -> Set
    requires { Judgeable (masks rows.now) (mask from) }
    ensures { Class (masks rows.now) (mask from) (mask result) }
{
    let mut chosen = Set::empty();
    let mut left = from;
    while !left.is_empty() {
        let v = left.lowest();
        chosen = chosen.with(v);
        left = left.rest(v).minus(sets::get(rows, v));
    }
    chosen
}

// The members of c in `count` colour classes, or in fewer where these have all of c. A clique has at most `count` of them.
pub(crate) fn colour(rows: &[u64], c: Set, count: usize) -> Set
    requires { Judgeable (masks rows.now) (mask c) }
    ensures { Coloured (masks rows.now) 1 0 (mask c) count (mask result) }
{
    let mut base = Set::empty();
    let mut left = c;
    for _ in 0..count {
        if left.is_empty() {
            return base;
        }
        let next = class(rows, left);
        base = base.join(next);
        left = left.minus(next);
    }
    base
}

// How many vertices a k-plex can have of a set and of the candidates that are not left.
#[derive(Clone, Copy)]
struct Count {
    pub most: usize,
    pub left: Set,
}

impl Task<'_> {
    ghost use Rattle.search.specs.Found.{Compatible};
    ghost use Rattle.largest.specs.Task.{graph};

    // What the members of s allow: each has its part of the candidates, those that it misses and none before it does, and a k-plex that holds s has no more of
    // them than that member may still miss.
    fn by_members(&self, s: Set, c: Set) -> Count
        requires { Compatible (graph self.now) self.now.k (mask s) (mask c) }
        ensures { (n : ℕ) × Shared (graph self.now) self.now.k (mask s) (mask c) n (mask result.left) × (result.most ≡ size (mask s) + n) }
    {
        let mut most = s.size();
        let mut left = c;
        let mut todo = s;
        while !todo.is_empty() {
            if self.q <= most {
                break;
            }
            let u = todo.lowest();
            todo = todo.rest(u);
            let part = left.minus(sets::get(self.rows, u));
            let spare = self.k - judging::plex::missing(self.rows, s, u);
            most += part.size().min(spare);
            left = left.minus(part);
        }
        Count { most, left }
    }

    // Has every k-plex with `have` members outside c, and the others in c, fewer than q: by colour classes? Only true is a promise.
    fn by_classes(&self, have: usize, c: Set) -> bool
        requires { Judgeable (graph self.now) (mask c) }
        ensures { result ≡ true → (n : ℕ) × Coloured (graph self.now) self.now.k 0 (mask c) n (mask c) × (have + n < self.now.q) }
    {
        let mut most = have;
        let mut left = c;
        while !left.is_empty() {
            if self.q <= most {
                return false;
            }
            let next = class(self.rows, left);
            most += next.size().min(self.k);
            left = left.minus(next);
        }
        most < self.q
    }

    // Has every k-plex between s and s with c fewer than q members: by their number, by the members of s, and then by colour classes? Only true is a promise.
    pub fn falls_short(&self, s: Set, c: Set) -> bool
        requires { Compatible (graph self.now) self.now.k (mask s) (mask c) }
        ensures { result ≡ true → (n : ℕ) × Coloured (graph self.now) self.now.k (mask s) (mask c) n (mask c) × (size (mask s) + n < self.now.q) }
    {
        if s.size() + c.size() < self.q {
            return true;
        }
        let count = self.by_members(s, c);
        self.by_classes(count.most, count.left)
    }
}
