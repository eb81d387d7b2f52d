// What a clique must still get to be listed, at slack 1. The search for cliques is written once, for either kind: `Floor` has a floor that is not met yet,
// and `Free` has none. Once every clique that can be found has enough, the search goes on without a floor.
ghost use Rattle.std.specs.Prelude.{◌≡◌, ℕ, ◌+◌, ◌-◌, ◌<◌, ◌≤◌, true, false};
ghost use Rattle.sets.specs.Set.{bit, size, with, minus};
ghost use Rattle.sets.specs.Words.{width, mask, masks};
ghost use Rattle.judging.specs.Request.{request};
ghost use Rattle.search.specs.Choice.{Pickable};
ghost use Rattle.search.specs.Cliques.{Covering, Taking};
ghost use Rattle.search.specs.Filling.{FillsFound};

use crate::slots::Slots;
use sets::Set;

pub(crate) trait Wanted: Copy {
    // How many members that are not silent a listed clique has that holds s.
    ghost least: { Self → ℕ → ℕ };

    // The silent vertices.
    ghost silent: { Self → ℕ };

    // What holds while the search has not got enough.
    ghost lacking: { Self → Type 0 };

    // Does all that is to be done with at most one candidate, or where no more is wanted, and says whether it did.
    fn settle(self, rows: &[u64], s: Set, c: Set, m: Set, slots: &mut Slots) -> bool
        requires { Taking (masks rows.now) (mask s) (mask c) (mask m) }
        ensures same { slots.new.lent.ghost_name ≡ slots.old.lent.ghost_name }
        ensures done { result ≡ true → FillsFound (masks rows.now) (request 1 (least self (mask s)) (silent self)) (mask s) (mask c) slots.old slots.new }
        ensures left { result ≡ false → (slots.new ≡ slots.old) × lacking self × (2 ≤ size (mask c))
            × (least self (mask s) ≤ size (minus (mask s) (silent self)) + size (minus (mask c) (silent self))) };

    // What is wanted once v has joined.
    fn after(self, v: usize) -> Self
        requires { (v < width) × lacking self }
        ensures { (silent result ≡ silent self) × ((s : ℕ) → bit s v ≡ 0 → least result (with s v) ≡ least self s) };

    // Is v alone too little?
    fn is_short(self, v: usize) -> bool
        requires { v < width }
        ensures { (s : ℕ) → (result ≡ true → size (minus s (silent self)) + (1 - bit (silent self) v) < least self s)
            × (result ≡ false → least self s ≤ size (minus s (silent self)) + (1 - bit (silent self) v)) };

    // The candidates to take one after the other: those that a pivot is not adjacent to. Any pivot is right.
    fn agenda(self, rows: &[u64], c: Set, m: Set) -> Set
        requires { Pickable (masks rows.now) (mask m) }
        ensures { Covering (masks rows.now) (mask c) (mask m) (mask result) };
}
