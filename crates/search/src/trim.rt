// Candidates that no listed plex holds beside the set s, to which v came last, are dropped.
ghost use Rattle.sets.specs.Words.{mask, masks};
ghost use Rattle.judging.specs.Request.{Request};
ghost use Rattle.search.specs.Trim.{Trimmable, DropsBlocked, DropsMissing, Joinable, Beside};
ghost use Rattle.search.specs.Sift.{Siftable, Counted};
ghost use Rattle.search.specs.Found.{Near};
ghost use Rattle.std.specs.Prelude.{◌≡◌, ◌-◌};
ghost use Rattle.sets.specs.Set.{with};

use crate::near::Closeness;
use sets::Set;

// Drops what a member of s that misses k or more of s is not adjacent to. Only the members that v is not adjacent to can have come to that.
fn drop_blocked(rows: &[u64], k: usize, s: Set, c: Set, v: usize) -> Set
    requires { Trimmable (masks rows.now) (mask s) (mask c) v }
    ensures { DropsBlocked (masks rows.now) k (mask s) v (mask c) (mask result) }
{
    let mut kept = c;
    let mut left = s.minus(sets::get(rows, v));
    while !left.is_empty() {
        let u = left.lowest();
        left = left.rest(u);
        if k <= judging::plex::missing(rows, s, u) {
            kept = kept.meet(sets::get(rows, u));
        }
    }
    kept
}

// Drops the candidates that miss k or more of s. Only those that v is not adjacent to can have come to that.
fn drop_missing(rows: &[u64], k: usize, s: Set, c: Set, v: usize) -> Set
    requires { Trimmable (masks rows.now) (mask s) (mask c) v }
    ensures { DropsMissing (masks rows.now) k (mask s) v (mask c) (mask result) }
{
    let mut kept = c;
    let mut left = c.minus(sets::get(rows, v));
    while !left.is_empty() {
        let w = left.lowest();
        left = left.rest(w);
        let m = judging::plex::missing(rows, s, w);
        kept = kept.without_if(w, k <= m);
    }
    kept
}

// What is left of the candidates c once v, one of them, joins s: those in the near row of v, less both.
pub fn beside(rows: &[u64], near: &[u64], k: usize, s: Set, c: Set, v: usize) -> Set
    requires { Joinable (masks rows.now) (masks near.now) (mask s) (mask c) v }
    ensures { (ask : Request) → ask.slack ≡ k → Near (masks rows.now) ask (masks near.now)
        → Beside (masks rows.now) ask (mask s) (mask c) v (mask result) }
{
    let joined = s.with(v);
    let close = c.without(v).meet(sets::get(near, v));
    drop_missing(rows, k, joined, drop_blocked(rows, k, joined, close, v), v)
}

// Of `close`, which is what `beside` left, those that have enough common neighbours with v among s, v and `counted`, the part of `close` that is not silent
// (001, Lemma 3). This drops many while few vertices are taken, and later it costs more than it saves: it is done for the next `few` of them.
pub fn sift(
    rows: &[u64],
    k: usize,
    q: usize,
    few: usize,
    s: Set,
    c: Set,
    v: usize,
    close: Set,
    counted: Set,
) -> Set
    requires { Siftable (masks rows.now) k q (mask s) (mask c) v (mask close) (mask counted) }
    ensures { (ask : Request) → ask.slack ≡ k → Counted ask q (with (mask s) v) (mask close) (mask counted)
        → Beside (masks rows.now) ask (mask s) (mask c) v (mask close)
        → Beside (masks rows.now) ask (mask s) (mask c) v (mask result) }
{
    if few == 0 {
        return close;
    }
    let core = s.with(v).join(counted);
    let closeness = Closeness { rows, k, q, core };
    closeness.row(close, v)
}

// For how many vertices candidates are sifted once one more is taken.
pub fn fewer(few: usize) -> usize
    ensures { result ≡ few - 1 }
{
    few.saturating_sub(1)
}
