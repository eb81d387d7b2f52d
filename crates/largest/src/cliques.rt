// Slack 1, where a plex is a clique: the search for one clique of at least q members, with a bound by colour classes.
ghost use Rattle.std.specs.Int.Bits.{bit_or};
ghost use Rattle.sets.specs.Words.{mask};

use crate::task::Task;
use sets::Set;

impl Task<'_> {
    ghost use Rattle.largest.specs.Sought.{Sought, Seeking, Sweeping};
    ghost use Rattle.largest.specs.Task.{graph, ask};

    // One clique of at least q members that holds s, which has `have` members, and has no vertex outside s and c; none where nothing listed is there.
    // A clique in s and `base` has fewer than q members, so one of the others is in each that is sought.
    #[cycle(clique_sweep)]
    pub fn clique(&self, have: usize, s: Set, c: Set) -> Option<Set>
        requires { Seeking (graph self.now) (ask self.now) have (mask s) (mask c) }
        ensures { Sought (graph self.now) (ask self.now) (mask s) (mask c) result }
    {
        if self.q <= have {
            return Some(s);
        }
        let need = self.q - have;
        if c.size() < need {
            return None;
        }
        let base = crate::colours::colour(self.rows, c, need - 1);
        self.sweep(have, s, base, c.minus(base))
    }

    // The same with the candidates `todo` and `base`, where nothing listed is in s and `base`. A vertex that was tried joins `base`.
    #[cycle(clique_sweep)]
    fn sweep(&self, have: usize, s: Set, base: Set, todo: Set) -> Option<Set>
        requires { Sweeping (graph self.now) (ask self.now) have (mask s) (mask base) (mask todo) }
        ensures { Sought (graph self.now) (ask self.now) (mask s) (bit_or (mask todo) (mask base)) result }
    {
        let more = have + 1;
        let mut waiting = base;
        let mut left = todo;
        while !left.is_empty() {
            let v = left.lowest();
            left = left.rest(v);
            waiting = waiting.with(v);
            let beside = waiting.meet(sets::get(self.rows, v));
            if let Some(found) = self.clique(more, s.with(v), beside) {
                return Some(found);
            }
        }
        None
    }
}
