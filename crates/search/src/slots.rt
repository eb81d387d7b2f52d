// The lent slots while the search fills them.
ghost use Rattle.std.specs.Prelude.{◌≡◌, ℕ, ◌<◌};
ghost use Rattle.sets.specs.Words.{mask};
ghost use Rattle.lists.specs.Placing.{only};
ghost use Rattle.search.specs.Filling.{Fills};

use sets::Set;

// Lent slots, and how many masks were found: the first of them lie in the slots, as many as these hold, and the others are only counted.
#[derive(Drop)]
pub(crate) struct Slots<'a> {
    pub lent: &'a mut [u64],
    pub count: usize,
}

impl Slots<'_> {
    // Puts x behind the masks that were found, or only counts it where there is no room.
    pub fn push(&mut self, x: Set)
        ensures same { self.new.lent.ghost_name ≡ self.old.lent.ghost_name }
        ensures fills { (n : ℕ) → mask x < n → Fills n (only (mask x)) self.old self.new }
    {
        self.count = lists::place::push(self.lent, self.count, x);
    }
}
