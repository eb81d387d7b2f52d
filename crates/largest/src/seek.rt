// The search for one k-plex of at least q members. It cuts as the list's search does, but for the extension test, and stops at the first one.
ghost use Rattle.std.specs.Prelude.{◌≤◌};
ghost use Rattle.sets.specs.Words.{mask};

use crate::task::Task;
use sets::Set;

impl Task<'_> {
    ghost use Rattle.search.specs.Found.{Compatible};
    ghost use Rattle.largest.specs.Sought.{Sought};
    ghost use Rattle.largest.specs.Climb.{Held};
    ghost use Rattle.largest.specs.Task.{graph, ask};

    // One k-plex of at least q members that holds s and has no member outside s and c; none where nothing listed is there. Candidates are sifted by pairs for
    // the next `few` vertices taken.
    fn find(&self, few: usize, s: Set, c: Set) -> Option<Set>
        requires { Compatible (graph self.now) self.now.k (mask s) (mask c) }
        ensures { Sought (graph self.now) (ask self.now) (mask s) (mask c) result }
    {
        let a = s.join(c);
        if search::cut::is_short(self.rows, self.k, self.q, true, s, a) {
            return None;
        }
        let seen = judging::survey::survey(self.rows, self.k, a);
        if seen.most <= self.k {
            return Some(a);
        }
        let from = search::choice::among(self.rows, c, seen.worst);
        if from.is_empty() {
            return None;
        }
        let v = search::choice::pick(self.rows, a, from);
        if let Some(found) = self.find(few, s, c.without(v)) {
            return Some(found);
        }
        let kept = self.beside(few, s, c, v);
        self.find(search::trim::fewer(few), s.with(v), kept)
    }

    // The same for any slack: at slack 1 by the search for a clique. The bound by colour classes is asked once: deeper in the search it seldom cuts.
    pub fn one(&self, s: Set, c: Set) -> Option<Set>
        requires { Compatible (graph self.now) self.now.k (mask s) (mask c) × (1 ≤ self.now.q) }
        ensures { Sought (graph self.now) (ask self.now) (mask s) (mask c) result }
    {
        if self.k == 1 {
            return self.clique(s.size(), s, c);
        }
        if self.falls_short(s, c) {
            return None;
        }
        self.find(3, s, c)
    }

    // A k-plex of at least q members that holds the forced vertices, where there is one.
    pub fn holding(&self) -> Option<Set>
        requires { 1 ≤ self.now.q }
        ensures { Held (graph self.now) self.now.k self.now.q (mask self.now.forced) result }
    {
        self.one(self.forced, self.fit())
    }
}
