// The recursive search. The functions around it decide; this one only splits by a vertex.
ghost use Rattle.std.specs.Prelude.{◌≡◌, ◌^◌, length};
ghost use Rattle.sets.specs.Words.{mask, masks};
ghost use Rattle.judging.specs.Plex.{extendable};
ghost use Rattle.lists.specs.Placing.{unless};
ghost use Rattle.search.specs.Filling.{Fills, FillsFound};
ghost use Rattle.search.specs.Ready.{lowered, Branching, LeafReady};

use crate::Cuts;
use crate::slots::Slots;
use sets::Set;

// What stays put while the search goes on: the graph with its table of near rows, the slack, the silent vertices, and the cuts.
#[derive(Clone, Copy)]
pub(crate) struct Search<'a> {
    pub rows: &'a [u64],
    pub near: &'a [u64],
    pub k: usize,
    pub silent: Set,
    pub cuts: Cuts,
}

impl Search<'_> {
    // Places the plex a, unless a vertex can be added to it.
    fn leaf(&self, a: Set, free: Set, slots: &mut Slots)
        requires { LeafReady (masks self.now.rows.now) self.now.k (mask a) (mask free) }
        ensures same { slots.new.lent.ghost_name ≡ slots.old.lent.ghost_name }
        ensures fills { Fills (2 ^ length (masks self.now.rows.now)) (unless (extendable (masks self.now.rows.now) self.now.k (mask a)) (mask a))
            slots.old slots.new }
    {
        if judging::plex::is_extendable(self.rows, self.k, a, free) {
            return;
        }
        slots.push(a);
    }

    // Places every listed plex that holds s and has no member outside s and c.
    // Silent vertices do not count at the floor: q is the floor with the silent members of s, so that each that joins raises it by one.
    // Candidates are sifted by pairs for the next `few` vertices taken.
    pub fn branch(&self, q: usize, few: usize, s: Set, c: Set, slots: &mut Slots)
        requires { Branching (masks self.now.rows.now) (masks self.now.near.now) self.now.k q (mask self.now.silent) (mask s) (mask c) }
        ensures same { slots.new.lent.ghost_name ≡ slots.old.lent.ghost_name }
        ensures fills { FillsFound (masks self.now.rows.now) (lowered self.now.k q (mask self.now.silent) (mask s)) (mask s) (mask c)
            slots.old slots.new }
    {
        let rows = self.rows;
        let k = self.k;
        let a = s.join(c);
        if self.is_low(q, s, a) {
            return;
        }
        let seen = judging::survey::survey(rows, k, a);
        if seen.most <= k {
            return self.leaf(a, seen.free, slots);
        }
        if self.is_extendable(a, seen.free) {
            return;
        }
        let from = crate::choice::among(rows, c, seen.worst);
        if from.is_empty() {
            return;
        }
        let v = crate::choice::pick(rows, a, from);
        let next = q + self.silent.indicator(v);
        let rest = c.without(v);
        let close = crate::trim::beside(rows, self.near, k, s, c, v);
        let counted = close.minus(self.silent);
        let kept = crate::trim::sift(rows, k, next, few, s, c, v, close, counted);
        self.branch(q, few, s, rest, slots);
        if self.is_bounded(next, s, kept, v) {
            return;
        }
        let joined = s.with(v);
        self.branch(next, crate::trim::fewer(few), joined, kept, slots);
    }
}
