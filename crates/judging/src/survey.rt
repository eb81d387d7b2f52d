// One pass over a set: how loose it is, and which vertices no member blocks. It serves the calls and the search's inner loop.
ghost use Rattle.std.specs.Prelude.{◌≤◌, ◌<◌, ◌≡◌};
ghost use Rattle.std.specs.Int.Bits.{bit_and};
ghost use Rattle.sets.specs.Words.{mask, masks};
ghost use Rattle.judging.specs.Setting.{Inside};
ghost use Rattle.judging.specs.Survey.{Finds};

use sets::Set;

// What the pass finds: `most` is the looseness of the set, `worst` a member that misses so many,
// and `free` the vertices outside that each member that misses k or more is adjacent to.
#[derive(Clone, Copy)]
pub struct Findings {
    pub most: usize,
    pub worst: usize,
    pub free: Set,
}

// What is free once v has been passed, whose row is given and which misses m.
fn narrow(free: Set, row: Set, k: usize, m: usize) -> Set
    ensures { (k ≤ m → mask result ≡ bit_and (mask free) (mask row)) × (m < k → mask result ≡ mask free) }
{
    if k <= m {
        return free.meet(row);
    }
    free
}

// What is found of a beside the slack k. The two tests of a turn stand apart, so that they are compiled to choices and not to branches, which would be
// hard to foretell.
pub fn survey(rows: &[u64], k: usize, a: Set) -> Findings
    requires { Inside (masks rows.now) (mask a) }
    ensures { Finds (masks rows.now) k (mask a) result.most result.worst (mask result.free) }
{
    let mut most = 0;
    let mut worst = 0;
    let mut free = Set::full(sets::count(rows)).minus(a);
    let mut left = a;
    while !left.is_empty() {
        let v = left.lowest();
        left = left.rest(v);
        let m = crate::plex::missing(rows, a, v);
        free = narrow(free, sets::get(rows, v), k, m);
        if most < m {
            most = m;
            worst = v;
        }
    }
    Findings { most, worst, free }
}
