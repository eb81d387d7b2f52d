// The core, of the graph and within a set, by passes. A set is walked by its lowest member, and nothing is stored. The first pass looks at every vertex; a
// later one only at those in doubt: the members that have lost a neighbour since a pass looked at them. What is not in doubt has enough neighbours, so that a
// look would let it stay.
ghost use Rattle.std.specs.Prelude.{◌≡◌, ◌<◌, ◌≤◌, length};
ghost use Rattle.sets.specs.Words.{width, mask, masks};
ghost use Rattle.sets.specs.Set.{full};
ghost use Rattle.judging.specs.Graph.{degree, Valid};
ghost use Rattle.judging.specs.Setting.{Sized, Judgeable};
ghost use Rattle.bounds.specs.Core.{core, core_within, passes};
ghost use Rattle.bounds.specs.PassSetting.{Doubtable, Passes};

use sets::Set;

// The core, and the number of passes that it took.
#[derive(Clone, Copy, PartialEq, Eq)]
pub struct Peeled {
    pub core: Set,
    pub passes: usize,
}

// What a pass leaves, and those of it that are in doubt.
#[derive(Clone, Copy)]
struct Passed {
    pub kept: Set,
    pub doubt: Set,
}

// How many members of s v is adjacent to.
fn degree(rows: &[u64], s: Set, v: usize) -> usize
    requires { v < length (masks rows.now) }
    ensures { (result ≡ degree (masks rows.now) (mask s) v) × (result ≤ width) }
{
    s.meet(sets::get(rows, v)).size()
}

// One pass through s by rising number: takes out each vertex that is adjacent to fewer than m of those still left, before it looks at the next. No vertex
// is asked whether it is in s: with one that is not, nothing goes, and that its neighbours come into doubt costs a look.
fn first_pass(rows: &[u64], m: usize, s: Set) -> Passed
    requires { Judgeable (masks rows.now) (mask s) }
    ensures { Passes (masks rows.now) m (mask s) (mask result.kept) (mask result.doubt) }
{
    let mut kept = s;
    let mut doubt = Set::empty();
    for v in 0..sets::count(rows) {
        if degree(rows, kept, v) < m {
            kept = kept.without(v);
            doubt = doubt.join(kept.meet(sets::get(rows, v)));
        }
    }
    // what was taken out after it came into doubt is not looked at again
    let left = kept.meet(doubt);
    Passed { kept, doubt: left }
}

// The same, where only the members of s that are in doubt may go, and those that lose a neighbour on the way: those above v are looked at in this pass yet,
// and those below in the next.
fn later_pass(rows: &[u64], m: usize, s: Set, doubted: Set) -> Passed
    requires { Doubtable (masks rows.now) m (mask s) (mask doubted) }
    ensures { Passes (masks rows.now) m (mask s) (mask result.kept) (mask result.doubt) }
{
    let mut kept = s;
    let mut left = doubted;
    let mut next = Set::empty();
    while !left.is_empty() {
        let v = left.lowest();
        left = left.rest(v);
        let near = degree(rows, kept, v);
        if near < m {
            kept = kept.without(v);
            let lost = kept.meet(sets::get(rows, v));
            let seen = Set::full(v + 1);
            left = left.join(lost.minus(seen));
            next = next.join(lost.meet(seen));
        }
    }
    Passed { kept, doubt: next }
}

// The largest set within start in which every member is adjacent to at least m members: passes from start on, up to the first that takes none, which counts.
fn peel_from(rows: &[u64], m: usize, start: Set) -> Peeled
    requires { Judgeable (masks rows.now) (mask start) }
    ensures { (mask result.core ≡ core_within (masks rows.now) m (mask start))
        × (result.passes ≡ passes (masks rows.now) m (mask start)) }
{
    let mut s = start;
    let mut passed = first_pass(rows, m, s);
    let mut passes = 1;
    while passed.kept != s {
        s = passed.kept;
        passed = later_pass(rows, m, s, passed.doubt);
        passes += 1;
    }
    Peeled { core: s, passes }
}

// The core, and the passes from all vertices on.
pub fn peel(rows: &[u64], m: usize) -> Peeled
    requires { Sized (masks rows.now) × Valid (masks rows.now) }
    ensures { (mask result.core ≡ core (masks rows.now) m)
        × (result.passes ≡ passes (masks rows.now) m (full (length (masks rows.now)))) }
{
    peel_from(rows, m, Set::full(sets::count(rows)))
}

// The core alone.
pub fn core(rows: &[u64], m: usize) -> Set
    requires { Sized (masks rows.now) × Valid (masks rows.now) }
    ensures { mask result ≡ core (masks rows.now) m }
{
    peel(rows, m).core
}

// The core within s: the same passes, from s on.
pub fn core_within(rows: &[u64], m: usize, s: Set) -> Set
    requires { Judgeable (masks rows.now) (mask s) }
    ensures { mask result ≡ core_within (masks rows.now) m (mask s) }
{
    peel_from(rows, m, s).core
}
