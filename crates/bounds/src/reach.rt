// The two-hop reach of a vertex.
ghost use Rattle.std.specs.Prelude.{◌≡◌, ◌<◌, length};
ghost use Rattle.sets.specs.Words.{mask, masks};
ghost use Rattle.judging.specs.Setting.{LowRows};
ghost use Rattle.bounds.specs.Reach.{reach};

use sets::Set;

// The vertices at most two edges away from v, v itself included: v, its neighbours, and theirs.
pub fn reach(rows: &[u64], v: usize) -> Set
    requires { LowRows (masks rows.now) × (v < length (masks rows.now)) }
    ensures { mask result ≡ reach (masks rows.now) v }
{
    let mut left = sets::get(rows, v);
    let mut found = left.with(v);
    while !left.is_empty() {
        let w = left.lowest();
        found = found.join(sets::get(rows, w));
        left = left.rest(w);
    }
    found
}
