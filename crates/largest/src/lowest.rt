// From a largest k-plex to the one with the lowest mask.
ghost use Rattle.std.specs.Prelude.{◌≡◌, ◌<◌};
ghost use Rattle.sets.specs.Set.{size};
ghost use Rattle.sets.specs.Words.{mask, masks};
ghost use Rattle.largest.specs.Climb.{Highest};

use crate::task::Task;
use sets::Set;

// The highest member of s.
fn highest(s: Set) -> usize
    requires { 0 < mask s }
    ensures { Highest (mask s) result }
{
    let mut last = s.lowest();
    let mut todo = s;
    while !todo.is_empty() {
        last = todo.lowest();
        todo = todo.rest(last);
    }
    last
}

impl Task<'_> {
    ghost use Rattle.largest.specs.Largest.{Largest};
    ghost use Rattle.largest.specs.Climb.{Top, Sparing, Spared};
    ghost use Rattle.largest.specs.Task.{graph, ask};

    // A k-plex of q members between s and s with `rest`, no higher than w, which may have h besides; none where nothing listed is there.
    fn spare(&self, s: Set, c: Set, h: usize, rest: Set, w: Set) -> Option<Set>
        requires { Sparing (graph self.now) (masks self.now.near.now) (ask self.now) (mask s) (mask c) h (mask rest) (mask w) }
        ensures { Spared (graph self.now) (ask self.now) (mask s) (mask rest) (mask w) result }
    {
        if w.has(h) {
            return self.one(s, rest);
        }
        Some(w)
    }

    // Of the k-plexes that hold the forced vertices and are as large as w, the largest, the one with the lowest mask. From the highest candidate down each is
    // left out where a plex of that size is left without it, and joins where there is none.
    pub fn lowest(&self, w: Set) -> Set
        requires { Top (graph self.now) self.now.k (mask self.now.forced) (mask w) × (self.now.q ≡ size (mask w)) }
        ensures { Largest (graph self.now) self.now.k (mask self.now.forced) (mask result) }
    {
        // at slack 1 there is nothing to sift
        let few = self.k - 1;
        let mut s = self.forced;
        let mut left = self.fit();
        let mut best = w;
        while !left.is_empty() {
            let h = highest(left);
            let rest = left.without(h);
            if let Some(lower) = self.spare(s, left, h, rest, best) {
                best = lower;
                left = rest;
            } else {
                left = self.beside(few, s, left, h);
                s = s.with(h);
            }
        }
        best
    }
}
