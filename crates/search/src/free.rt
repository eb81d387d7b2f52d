// Slack 1 without a floor: every maximal clique is placed.
ghost use Rattle.std.specs.Prelude.{◌≡◌, ℕ, ◌^◌, List};
ghost use Rattle.sets.specs.Words.{mask, masks};
ghost use Rattle.judging.specs.Request.{request};
ghost use Rattle.search.specs.Cliques.{Taking};
ghost use Rattle.search.specs.Filling.{FillsFound};

use crate::slots::Slots;
use crate::wanted::Wanted;
use sets::Set;

// Places the clique s, which has no candidate, if it has no common neighbour, since m are all of these.
fn end(s: Set, m: Set, slots: &mut Slots)
    ensures same { slots.new.lent.ghost_name ≡ slots.old.lent.ghost_name }
    ensures fills { (g : List ℕ) → Taking g (mask s) 0 (mask m)
        → FillsFound g (request 1 0 0) (mask s) 0 slots.old slots.new }
{
    if m.is_empty() {
        slots.push(s);
    }
}

// What there is to be done where v is the only candidate.
pub(crate) fn end_with(rows: &[u64], s: Set, v: usize, m: Set, slots: &mut Slots)
    requires { Taking (masks rows.now) (mask s) (2 ^ v) (mask m) }
    ensures same { slots.new.lent.ghost_name ≡ slots.old.lent.ghost_name }
    ensures fills { FillsFound (masks rows.now) (request 1 0 0) (mask s) (2 ^ v) slots.old slots.new }
{
    let beside = m.meet(sets::get(rows, v));
    end(s.with(v), beside, slots)
}

// Nothing is wanted.
#[derive(Clone, Copy)]
pub(crate) struct Free;

impl Wanted for Free {
    ghost least = { λ _ _. 0 };

    ghost silent = { λ _. 0 };

    ghost lacking = { λ _. Unit {0} };

    // Most calls have at most two candidates, which need no pivot: here none or one is done with, and two are in `cliques::take`.
    fn settle(self, rows: &[u64], s: Set, c: Set, m: Set, slots: &mut Slots) -> bool {
        if c.is_empty() {
            end(s, m, slots);
            return true;
        }
        let v = c.lowest();
        if c.rest(v).is_empty() {
            end_with(rows, s, v, m, slots);
            return true;
        }
        false
    }

    fn after(self, v: usize) -> Free {
        self
    }

    fn is_short(self, v: usize) -> bool {
        false
    }

    fn agenda(self, rows: &[u64], c: Set, m: Set) -> Set {
        crate::cliques::pivot(rows, c, m, 1)
    }
}
