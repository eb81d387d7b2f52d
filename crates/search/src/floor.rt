// Slack 1 with a floor that is not met yet.
ghost use Rattle.std.specs.Prelude.{◌≡◌, ◌+◌, ◌-◌, ◌<◌, ◌≤◌, true, false, bit_and};
ghost use Rattle.sets.specs.Set.{size, minus};
ghost use Rattle.sets.specs.Words.{mask};
ghost use Rattle.search.specs.Cliques.{Enough};

use crate::free::Free;
use crate::slots::Slots;
use crate::wanted::Wanted;
use sets::Set;

// Are the candidates that are not silent fewer than `need`? Often there is none, and nothing is counted.
fn is_few(need: usize, silent: Set, c: Set) -> bool
    ensures { (result ≡ true → size (minus (mask c) (mask silent)) < need) × (result ≡ false → need ≤ size (minus (mask c) (mask silent))) }
{
    if need == 0 {
        return false;
    }
    let others = c.minus(silent);
    if others.is_empty() {
        return true;
    }
    others.size() < need
}

// Does any candidate of c make up what is needed? A clique with candidates has one of them, else it is not maximal.
fn is_enough(need: usize, silent: Set, c: Set) -> bool
    ensures { (result ≡ true → Enough (mask silent) need (mask c))
        × (result ≡ false → (1 ≤ need) × (2 ≤ need + size (bit_and (mask c) (mask silent)))) }
{
    if need == 1 {
        return c.meet(silent).is_empty();
    }
    need == 0
}

// How many members that are not silent a clique still lacks, and the silent vertices.
#[derive(Clone, Copy)]
pub(crate) struct Floor {
    need: usize,
    silent: Set,
}

impl Floor {
    // What the floor q asks for beside s.
    pub fn beside(q: usize, silent: Set, s: Set) -> Floor
        ensures { (result.need ≡ q - size (minus (mask s) (mask silent))) × (mask result.silent ≡ mask silent) }
    {
        Floor {
            need: q.saturating_sub(s.minus(silent).size()),
            silent,
        }
    }
}

impl Wanted for Floor {
    ghost use Rattle.std.specs.Prelude.{◌+◌, ◌≤◌};
    ghost use Rattle.sets.specs.Set.{size, minus};
    ghost use Rattle.sets.specs.Words.{mask};

    ghost least = { λ f s. f.need + size (minus s (mask f.silent)) };

    ghost silent = { λ f. mask f.silent };

    ghost lacking = { λ f. 1 ≤ f.need };

    // Where there are neither too few candidates nor enough with any of them, there are two at least.
    // As a call of its own this takes 6 to 16 % more instructions.
    #[inline(always)]
    fn settle(self, rows: &[u64], s: Set, c: Set, m: Set, slots: &mut Slots) -> bool {
        if is_few(self.need, self.silent, c) {
            return true;
        }
        if is_enough(self.need, self.silent, c) {
            crate::cliques::start(rows, Free, s, c, m, slots);
            return true;
        }
        false
    }

    fn after(self, v: usize) -> Floor {
        Floor {
            need: self.need - 1 + self.silent.indicator(v),
            silent: self.silent,
        }
    }

    fn is_short(self, v: usize) -> bool {
        1 - self.silent.indicator(v) < self.need
    }

    // Where many members are needed most branches are cut, and a pivot that leaves few candidates is good enough. There are two calls, so that each number is
    // known to the loop that it ends.
    fn agenda(self, rows: &[u64], c: Set, m: Set) -> Set {
        if 8 < self.need {
            return crate::cliques::pivot(rows, c, m, 4);
        }
        crate::cliques::pivot(rows, c, m, 1)
    }
}
