// The vertex to branch on. Any candidate is right; these choices are the fast ones.
ghost use Rattle.sets.specs.Set.{In};
ghost use Rattle.sets.specs.Words.{mask, masks};
ghost use Rattle.search.specs.Choice.{Choosable, Among, Pickable};

use sets::Set;

// The candidates to choose from: w alone where it is one, else those that w is not adjacent to.
pub fn among(rows: &[u64], c: Set, w: usize) -> Set
    requires { Choosable (masks rows.now) w }
    ensures { Among (masks rows.now) (mask c) w (mask result) }
{
    if c.has(w) {
        return Set::single(w);
    }
    c.minus(sets::get(rows, w))
}

// The member of s that misses most of a, the lowest on a tie.
fn farthest(rows: &[u64], a: Set, s: Set) -> usize
    requires { Pickable (masks rows.now) (mask s) }
    ensures { In result (mask s) }
{
    let mut most = 0;
    let mut best = s.lowest();
    let mut left = s;
    while !left.is_empty() {
        let v = left.lowest();
        left = left.rest(v);
        let m = judging::plex::missing(rows, a, v);
        if most < m {
            most = m;
            best = v;
        }
    }
    best
}

// The same. Mostly there is one alone, and nothing is counted.
pub fn pick(rows: &[u64], a: Set, s: Set) -> usize
    requires { Pickable (masks rows.now) (mask s) }
    ensures { In result (mask s) }
{
    let first = s.lowest();
    if s.rest(first).is_empty() {
        return first;
    }
    farthest(rows, a, s)
}
