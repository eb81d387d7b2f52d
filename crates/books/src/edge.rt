// An edge put into a table or taken out of it.
ghost use Rattle.std.specs.Prelude.{◌≡◌, ◌<◌, length};
ghost use Rattle.sets.specs.Words.{width, mask, masks};
ghost use Rattle.judging.specs.Setting.{Sized};
ghost use Rattle.books.specs.Book.{turned, change_of, already_so, changed_graph};

use sets::Set;

// Two vertices, and whether they are adjacent after the change.
#[derive(Clone, Copy)]
pub struct Change {
    pub a: usize,
    pub b: usize,
    pub adjacent: bool,
}

// s with v, or without it.
fn turn(s: Set, v: usize, on: bool) -> Set
    requires { v < width }
    ensures { mask result ≡ turned (mask s) v on }
{
    if on {
        return s.with(v);
    }
    s.without(v)
}

impl Change {
    // Are a and b adjacent, or not adjacent, already?
    pub fn is_so(self, rows: &[u64]) -> bool
        requires { Sized (masks rows.now) × (self.a < length (masks rows.now)) × (self.b < length (masks rows.now)) }
        ensures { result ≡ already_so (masks rows.now) (change_of self) }
    {
        sets::get(rows, self.a).has(self.b) == self.adjacent
    }

    // Makes a and b adjacent, or not adjacent, in both their rows.
    pub fn set_edge(self, rows: &mut [u64])
        requires { Sized (masks rows.old) × (self.a < length (masks rows.old)) × (self.b < length (masks rows.old)) }
        ensures { masks rows.new ≡ changed_graph (masks rows.old) (change_of self) }
    {
        let x = turn(sets::get(rows, self.a), self.b, self.adjacent);
        let y = turn(sets::get(rows, self.b), self.a, self.adjacent);
        sets::put(rows, self.a, x);
        sets::put(rows, self.b, y);
    }

    // Makes the changed graph in the table, which has as many rows.
    pub fn copy_changed(self, rows: &[u64], table: &mut [u64])
        requires { Sized (masks rows.now) × (self.a < length (masks rows.now)) × (self.b < length (masks rows.now))
            × (length (masks table.old) ≡ length (masks rows.now)) }
        ensures { masks table.new ≡ changed_graph (masks rows.now) (change_of self) }
    {
        lists::place::copy(rows, sets::count(rows), table);
        self.set_edge(table);
    }
}
