// What is sought, and with what.
ghost use Rattle.sets.specs.Words.{mask, masks};
ghost use Rattle.judging.specs.Request.{request};
ghost use Rattle.search.specs.Ready.{Settled};
ghost use Rattle.largest.specs.Fit.{Forced};

use sets::Set;

// K-plexes of at least q members that hold the forced vertices, in the graph of these rows, with a table of near rows that serves the floor q. No vertex is
// silent here: what is listed is asked for with the silent set 0.
#[derive(Clone, Copy)]
pub(crate) struct Task<'a> {
    pub rows: &'a [u64],
    pub near: &'a [u64],
    pub k: usize,
    pub q: usize,
    pub forced: Set,
    ghost settled: { Settled (masks rows.now) (masks near.now) (request k q 0) },
    ghost fine: { Forced (masks rows.now) k (mask forced) },
}

impl Task<'_> {
    ghost use Rattle.sets.specs.Set.{In};
    ghost use Rattle.search.specs.Found.{Compatible};
    ghost use Rattle.search.specs.Trim.{Beside};
    ghost use Rattle.largest.specs.Task.{graph, ask};

    // What is left of the candidates c once v, one of them, joins s. They are sifted by pairs where `few` is not 0. It is inlined:
    // the search asks for it at each vertex that joins.
    #[inline(always)]
    pub fn beside(&self, few: usize, s: Set, c: Set, v: usize) -> Set
        requires { Compatible (graph self.now) self.now.k (mask s) (mask c) × In v (mask c) }
        ensures { Beside (graph self.now) (ask self.now) (mask s) (mask c) v (mask result) }
    {
        let close = search::trim::beside(self.rows, self.near, self.k, s, c, v);
        search::trim::sift(self.rows, self.k, self.q, few, s, c, v, close, close)
    }
}
