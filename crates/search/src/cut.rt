// Where a branch has nothing to add. Each cut but the size has a switch, and is right at either setting.
ghost use Rattle.std.specs.Prelude.{◌≡◌, ◌≤◌, true, false, T, bit_and};
ghost use Rattle.sets.specs.Set.{size, with, minus};
ghost use Rattle.sets.specs.Words.{mask, masks};
ghost use Rattle.judging.specs.Plex.{unblocked, extendable};
ghost use Rattle.bounds.specs.BoundSetting.{Boundable};
ghost use Rattle.search.specs.Found.{Short, Lacks, Empty};
ghost use Rattle.search.specs.Partition.{Between};
ghost use Rattle.search.specs.Ready.{lowered};

use crate::branch::Search;
use sets::Set;

// Has every plex between s and a fewer than q members: by the size of a, or by the partition bound? Once s is within two members of the floor nearly every
// branch lists something, and the bound would cost more than it cuts.
pub fn is_short(rows: &[u64], k: usize, q: usize, parted: bool, s: Set, a: Set) -> bool
    requires { Between (masks rows.now) (mask s) (mask a) }
    ensures { (result ≡ true → Short (masks rows.now) k q (mask s) (mask a)) × (result ≡ false → q ≤ size (mask a)) }
{
    if a.size() < q {
        return true;
    }
    if parted && s.size() + 2 < q {
        return crate::partition::falls_short(rows, k, q, s, a);
    }
    false
}

impl Search<'_> {
    // Has every plex between s and a too few members that are not silent? The silent candidates do not count, and q is the floor with the silent members
    // of s.
    pub fn is_low(&self, q: usize, s: Set, a: Set) -> bool
        requires { Between (masks self.now.rows.now) (mask s) (mask a) × (size (bit_and (mask s) (mask self.now.silent)) ≤ q) }
        ensures { (result ≡ true → Lacks (masks self.now.rows.now) (lowered self.now.k q (mask self.now.silent) (mask s)) (mask s) (mask a))
            × (result ≡ false → (lowered self.now.k q (mask self.now.silent) (mask s)).floor ≤ size (minus (mask a) (mask self.now.silent))) }
    {
        let counted = s.join(a.minus(self.silent));
        is_short(self.rows, self.k, q, self.cuts.parted, s, counted)
    }

    // Can a vertex outside a be added to every plex inside a? The vertices that no member of a blocks are given.
    pub fn is_extendable(&self, a: Set, free: Set) -> bool
        requires { mask free ≡ unblocked (masks self.now.rows.now) self.now.k (mask a) }
        ensures { result ≡ true → T (extendable (masks self.now.rows.now) self.now.k (mask a)) }
    {
        self.cuts.extension && judging::plex::is_extendable(self.rows, self.k, a, free)
    }

    // Has no listed plex that holds s and v, and no vertex outside s, v and c, enough members that are not silent: by the second bound? The silent candidates
    // do not count, and q is the floor with the silent ones of s and v.
    pub fn is_bounded(&self, q: usize, s: Set, c: Set, v: usize) -> bool
        requires { Boundable (masks self.now.rows.now) self.now.k (mask s) (with (mask c) v) v
            × (size (bit_and (with (mask s) v) (mask self.now.silent)) ≤ q) }
        ensures { result ≡ true → Empty (masks self.now.rows.now) (lowered self.now.k q (mask self.now.silent) (with (mask s) v)) (with (mask s) v) (mask c) }
    {
        if self.cuts.second {
            let counted = c.minus(self.silent).with(v);
            return bounds::bound::second_bound(self.rows, self.k, s, counted, v) < q;
        }
        false
    }
}
