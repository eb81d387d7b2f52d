// Slack 1, where a plex is a clique: the search by a pivot (Bron and Kerbosch, with Tomita's choice).
// The rows, a clique and its common neighbours are passed one by one. As one struct, with what `Taking` says of it as a ghost field, they go through memory:
// tried, it takes 2 to 5 % more instructions.
ghost use Rattle.std.specs.Prelude.{◌≡◌, ◌+◌, ◌^◌, ◌≤◌, ◌≢◌, length};
ghost use Rattle.sets.specs.Set.{size, with, minus};
ghost use Rattle.sets.specs.Words.{mask, masks};
ghost use Rattle.judging.specs.Request.{request};
ghost use Rattle.judging.specs.Setting.{Inside};
ghost use Rattle.search.specs.Cliques.{Common, Covering, touched, Taking, Sweeping};
ghost use Rattle.search.specs.Filling.{Fills, FillsFound};
ghost use Rattle.search.specs.Choice.{Pickable};

use crate::slots::Slots;
use crate::wanted::Wanted;
use sets::Set;

// The vertices that are adjacent to every member of s.
pub fn common(rows: &[u64], s: Set) -> Set
    requires { Inside (masks rows.now) (mask s) }
    ensures { Common (masks rows.now) (mask s) (mask result) }
{
    let mut shared = Set::full(sets::count(rows));
    let mut left = s;
    while !left.is_empty() {
        let v = left.lowest();
        left = left.rest(v);
        shared = shared.meet(sets::get(rows, v));
    }
    shared
}

// The candidates that some vertex of m, the pivot, is not adjacent to. The pivot is one with the fewest, or the first with `few` at most.
pub(crate) fn pivot(rows: &[u64], c: Set, m: Set, few: usize) -> Set
    requires { Pickable (masks rows.now) (mask m) }
    ensures { Covering (masks rows.now) (mask c) (mask m) (mask result) }
{
    let mut best = c;
    let mut fewest = sets::WIDTH;
    let mut left = m;
    while !left.is_empty() {
        let p = left.lowest();
        left = left.rest(p);
        let missed = c.minus(sets::get(rows, p));
        let n = missed.size();
        if n <= few {
            return missed;
        }
        if n < fewest {
            best = missed;
            fewest = n;
        }
    }
    best
}

// Places the clique of s and v, the only candidate, if it has enough members and is maximal.
fn end_with<W: Wanted>(rows: &[u64], want: W, s: Set, v: usize, m: Set, slots: &mut Slots)
    requires { Taking (masks rows.now) (mask s) (2 ^ v) (mask m) }
    ensures same { slots.new.lent.ghost_name ≡ slots.old.lent.ghost_name }
    ensures fills { FillsFound (masks rows.now) (request 1 (W.least want (mask s)) (W.silent want)) (mask s) (2 ^ v) slots.old slots.new }
{
    if want.is_short(v) {
        return;
    }
    crate::free::end_with(rows, s, v, m, slots)
}

// What `take` does where u and v are the only candidates, and both together are enough: a clique has both if they are adjacent, else one of them.
fn end_pair<W: Wanted>(rows: &[u64], want: W, s: Set, u: usize, v: usize, m: Set, slots: &mut Slots)
    requires { Taking (masks rows.now) (mask s) (with (2 ^ u) v) (mask m) × (u ≢ v)
        × (W.least want (mask s) ≤ size (minus (mask s) (W.silent want)) + size (minus (with (2 ^ u) v) (W.silent want))) }
    ensures same { slots.new.lent.ghost_name ≡ slots.old.lent.ghost_name }
    ensures fills { FillsFound (masks rows.now) (request 1 (W.least want (mask s)) (W.silent want)) (mask s) (with (2 ^ u) v) slots.old slots.new }
{
    let row = sets::get(rows, u);
    if row.has(v) {
        let beside = m.meet(row);
        return crate::free::end_with(rows, s.with(u), v, beside, slots);
    }
    end_with(rows, want, s, u, m, slots);
    end_with(rows, want, s, v, m, slots)
}

// Places every listed clique that holds s and has no vertex outside s and c: those with what is wanted. The common neighbours of s are m.
#[cycle(sweep_take)]
fn take<W: Wanted>(rows: &[u64], want: W, s: Set, c: Set, m: Set, slots: &mut Slots)
    requires { Taking (masks rows.now) (mask s) (mask c) (mask m) }
    ensures same { slots.new.lent.ghost_name ≡ slots.old.lent.ghost_name }
    ensures fills { FillsFound (masks rows.now) (request 1 (W.least want (mask s)) (W.silent want)) (mask s) (mask c) slots.old slots.new }
{
    if want.settle(rows, s, c, m, slots) {
        return;
    }
    let u = c.lowest();
    let second = c.rest(u);
    let v = second.lowest();
    if second.rest(v).is_empty() {
        return end_pair(rows, want, s, u, v, m, slots);
    }
    let next = want.agenda(rows, c, m);
    let others = c.minus(next);
    sweep(rows, want, s, others, m, next, slots)
}

// Places those that have a vertex of `todo` and none outside s, `base` and `todo`. A vertex that was taken joins `base`, so the cliques come by their
// highest vertex of `todo`.
#[cycle(sweep_take)]
fn sweep<W: Wanted>(rows: &[u64], want: W, s: Set, base: Set, m: Set, todo: Set, slots: &mut Slots)
    requires { Sweeping (masks rows.now) (mask s) (mask base) (mask m) (mask todo) × W.lacking want }
    ensures same { slots.new.lent.ghost_name ≡ slots.old.lent.ghost_name }
    ensures fills { Fills (2 ^ length (masks rows.now)) (touched (masks rows.now) (request 1 (W.least want (mask s)) (W.silent want))
        (mask s) (mask base) (mask todo)) slots.old slots.new }
{
    let mut waiting = base;
    let mut left = todo;
    while !left.is_empty() {
        let v = left.lowest();
        let row = sets::get(rows, v);
        let joined = s.with(v);
        let inside = waiting.meet(row);
        let beside = m.meet(row);
        left = left.rest(v);
        waiting = waiting.with(v);
        take(rows, want.after(v), joined, inside, beside, slots);
    }
}

// What `take` does, for the first call: the loop of `sweep` is entered at once, and the compiler puts `take` into it.
pub fn start<W: Wanted>(rows: &[u64], want: W, s: Set, c: Set, m: Set, slots: &mut Slots)
    requires { Taking (masks rows.now) (mask s) (mask c) (mask m) }
    ensures same { slots.new.lent.ghost_name ≡ slots.old.lent.ghost_name }
    ensures fills { FillsFound (masks rows.now) (request 1 (W.least want (mask s)) (W.silent want)) (mask s) (mask c) slots.old slots.new }
{
    if want.settle(rows, s, c, m, slots) {
        return;
    }
    let next = pivot(rows, c, m, 1);
    let others = c.minus(next);
    sweep(rows, want, s, others, m, next, slots)
}
