// The state from line to line: n, m and the edges so far, of which the rows of a table and their number are kept.
ghost use Rattle.std.specs.Prelude.{◌≡◌, not, List, ℕ, ◌<◌, length};
ghost use Rattle.std.specs.Option.{ForSome};
ghost use Rattle.std.specs.Result.{result_map_both};
ghost use Rattle.sets.specs.Words.{width, masks};
ghost use Rattle.judging.specs.Refusal.{answered};
ghost use Rattle.dimacs.specs.Lines.{problem, edge};
ghost use Rattle.dimacs.specs.Dimacs.{State, is_wrong, next, finish};
ghost use Rattle.dimacs.specs.Setting.{kind_told, added, linked, Stands, Takes, Comes, Ends};

use crate::lines::Kind;
use judging::{Refusal, check};

// What the p line and the e lines so far have said: n and m, and how many e lines there were.
#[derive(Clone, Copy)]
pub struct Progress {
    pub vertices: usize,
    pub edges: usize,
    pub read: usize,
}

// What the lines so far have said, which is nothing before the p line, and the number of the next one.
#[derive(Clone, Copy)]
pub struct Scan {
    pub number: usize,
    pub progress: Option<Progress>,
}

// Does an e line of the vertices u and v, counted from 1, join two of n vertices?
#[tactic(auto, unfolding(crate::specs::Dimacs::is_wrong))]
fn is_right(n: usize, u: usize, v: usize) -> bool
    ensures { result ≡ not (is_wrong n u v) }
{
    check::is_between(1, n, u) && check::is_between(1, n, v) && u != v
}

// Puts b into row a.
fn add(table: &mut [u64], a: usize, b: usize)
    requires { (a < length (masks table.old)) × (b < width) }
    ensures { masks table.new ≡ added (masks table.old) a b }
{
    sets::put(table, a, sets::get(table, a).with(b));
}

// Sets the edge of the vertices a and b in both their rows.
fn link(table: &mut [u64], a: usize, b: usize)
    requires { (a < width) × (b < width) × (length (masks table.old) ≡ width) }
    ensures { masks table.new ≡ linked (masks table.old) a b }
{
    add(table, a, b);
    add(table, b, a);
}

impl Scan {
    // A p line as the next one.
    fn take_problem(self, vertices: usize, edges: usize) -> Result<Progress, Refusal>
        ensures { (s : State) (ms : List ℕ) → Stands s self.progress ms
            → Comes (next self.number s (problem vertices edges)) (result_map_both Some (λ f. f) result) ms }
    {
        if self.progress.is_some() {
            return Err(Refusal::DimacsLine(self.number));
        }
        if !check::vertices_accepted(vertices) {
            return Err(Refusal::Vertices);
        }
        Ok(Progress {
            vertices,
            edges,
            read: 0,
        })
    }

    // An e line as the next one.
    fn take_edge(self, u: usize, v: usize, table: &mut [u64]) -> Result<Progress, Refusal>
        requires { ForSome self.progress (λ p. Takes p (masks table.old)) }
        ensures { (s : State) → Stands s self.progress (masks table.old)
            → Comes (next self.number s (edge u v)) (result_map_both Some (λ f. f) result) (masks table.new) }
    {
        let Some(progress) = self.progress else {
            return Err(Refusal::DimacsLine(self.number));
        };
        if !is_right(progress.vertices, u, v) {
            return Err(Refusal::DimacsLine(self.number));
        }
        link(table, u - 1, v - 1);
        Ok(Progress {
            read: progress.read + 1,
            ..progress
        })
    }

    // Any line as the next one: what has been said then.
    pub fn take_line(
        self,
        kind: Option<Kind>,
        table: &mut [u64],
    ) -> Result<Option<Progress>, Refusal>
        requires { ForSome self.progress (λ p. Takes p (masks table.old)) }
        ensures { (s : State) → Stands s self.progress (masks table.old) → Comes (next self.number s (kind_told kind)) result (masks table.new) }
    {
        match kind {
            Some(Kind::Comment) => Ok(self.progress),
            Some(Kind::Problem { vertices, edges }) => self.take_problem(vertices, edges).map(Some),
            Some(Kind::Edge { u, v }) => self.take_edge(u, v, table).map(Some),
            None => Err(Refusal::DimacsLine(self.number)),
        }
    }

    // How many vertices there are, where the lines end here and there is room for so many rows.
    // Refusals: 15 where there was no p line, 16, 9.
    pub(crate) fn end(self, room: usize) -> Result<usize, Refusal>
        ensures { (s : State) (ms : List ℕ) → Stands s self.progress ms → Ends room (finish room (answered self.number s)) result ms }
    {
        let Some(progress) = self.progress else {
            return Err(Refusal::DimacsLine(self.number));
        };
        if progress.read != progress.edges {
            return Err(Refusal::EdgeCount);
        }
        if room < progress.vertices {
            return Err(Refusal::Room(progress.vertices));
        }
        Ok(progress.vertices)
    }
}
