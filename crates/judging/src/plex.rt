// k-plexes on a valid graph. A set is walked by its lowest member, and nothing is stored: these functions serve the search's inner loop.
ghost use Rattle.std.specs.Prelude.{◌≡◌, ◌<◌, ◌≤◌, length};
ghost use Rattle.sets.specs.Words.{width, mask, masks};
ghost use Rattle.judging.specs.Graph.{missing};
ghost use Rattle.judging.specs.Plex.{maximal, looseness, unblocked, extendable};
ghost use Rattle.judging.specs.Setting.{Inside, Judgeable};

use sets::Set;

// How many members of s v is not adjacent to; a member counts itself.
pub fn missing(rows: &[u64], s: Set, v: usize) -> usize
    requires { v < length (masks rows.now) }
    ensures { (result ≡ missing (masks rows.now) (mask s) v) × (result ≤ width) }
{
    s.minus(sets::get(rows, v)).size()
}

// The most members of s that a member misses, itself counted; 0 for no members. s is a k-plex where this is at most k.
pub fn looseness(rows: &[u64], s: Set) -> usize
    requires { Inside (masks rows.now) (mask s) }
    ensures { result ≡ looseness (masks rows.now) (mask s) }
{
    // what no member blocks is not asked for, so any slack will do
    let seen = crate::survey::survey(rows, 0, s);
    seen.most
}

// Is there a vertex outside s that can be added to every k-plex inside s? The vertices that no member of s blocks are given.
pub fn is_extendable(rows: &[u64], k: usize, s: Set, free: Set) -> bool
    requires { mask free ≡ unblocked (masks rows.now) k (mask s) }
    ensures { result ≡ extendable (masks rows.now) k (mask s) }
{
    let mut left = free;
    while !left.is_empty() {
        let x = left.lowest();
        if missing(rows, s, x) < k {
            return true;
        }
        left = left.rest(x);
    }
    false
}

// Is s a maximal k-plex?
pub(crate) fn is_maximal(rows: &[u64], k: usize, s: Set) -> bool
    requires { Judgeable (masks rows.now) (mask s) }
    ensures { result ≡ maximal (masks rows.now) k (mask s) }
{
    let seen = crate::survey::survey(rows, k, s);
    if k < seen.most {
        return false;
    }
    !is_extendable(rows, k, s, seen.free)
}
