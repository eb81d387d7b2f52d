// The partition bound: a plex that holds u has at most k of the vertices that u misses, so those beyond k do not count. The parts that the members
// of s take off are apart from each other.
ghost use Rattle.std.specs.Prelude.{◌≡◌, ◌^◌, ◌<◌, true, length, IfSome};
ghost use Rattle.sets.specs.Set.{Sub, with};
ghost use Rattle.sets.specs.Words.{width, mask, masks};
ghost use Rattle.search.specs.Found.{Short};
ghost use Rattle.search.specs.Partition.{Between, Picked};

use sets::Set;

// The member that misses most, how many it misses, and the other members that miss more than k.
#[derive(Clone, Copy)]
struct Choice {
    best: usize,
    most: usize,
    left: Set,
}

// Those that stay once u has been passed, which misses m.
fn keep(k: usize, m: usize, kept: Set, u: usize) -> Set
    requires { u < width }
    ensures { Sub (mask result) (with (mask kept) u) }
{
    if k < m {
        return kept.with(u);
    }
    kept
}

// The member of left that misses most of r, where one misses more than k. A member that misses at most k is dropped for good: r only shrinks.
fn pick(rows: &[u64], k: usize, r: Set, left: Set) -> Option<Choice>
    requires { mask left < 2 ^ length (masks rows.now) }
    ensures { IfSome result (λ p. (k < p.most) × Picked (masks rows.now) k (mask r) (mask left) p.best p.most (mask p.left)) }
{
    let mut best = 0;
    let mut most = k;
    let mut kept = Set::empty();
    let mut todo = left;
    while !todo.is_empty() {
        let u = todo.lowest();
        todo = todo.rest(u);
        let m = judging::plex::missing(rows, r, u);
        kept = keep(k, m, kept, u);
        if most < m {
            best = u;
            most = m;
        }
    }
    if most <= k {
        return None;
    }
    let left = kept.without(best);
    Some(Choice { best, most, left })
}

// Has every plex between s and a fewer than q members? Only true is a promise. Any choice of members is sound: the one that misses most first
// finds the room used up soonest.
pub fn falls_short(rows: &[u64], k: usize, q: usize, s: Set, a: Set) -> bool
    requires { Between (masks rows.now) (mask s) (mask a) }
    ensures { result ≡ true → Short (masks rows.now) k q (mask s) (mask a) }
{
    let n = a.size();
    if n < q {
        return true;
    }
    let mut r = a;
    let mut room = n - q;
    let mut left = s;
    while !left.is_empty() {
        let Some(p) = pick(rows, k, r, left) else {
            return false;
        };
        let over = p.most - k;
        if room < over {
            return true;
        }
        room -= over;
        let best = p.best;
        r = r.meet(sets::get(rows, best).join(s));
        left = p.left;
    }
    false
}
