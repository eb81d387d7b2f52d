// Graphs of some families, each with a variant: a density, a number of parts.
use crate::words;
use crate::words::GARBAGE;

// The most vertices and one more.
pub const MOST_ROWS: usize = sets::WIDTH + 1;

const ROW_WORDS: usize = MOST_ROWS * sets::WORDS;

// A pair of vertices for each number below this.
const PAIRS: usize = 4096;

#[derive(Clone, Copy)]
pub enum Family {
    // Pseudo-random, of a density that the variant decides.
    Random,
    Complete,
    Ring,
    Path,
    Star,
    // All adjacent that are in different parts, of which the variant decides the number; and all in the same part, or some of them.
    Multipartite,
    Union,
    // Twelve parts of two, and all adjacent that are in different parts; the other vertices are isolated.
    Cocktail,
    // Complete, but vertex 0 is not adjacent to the next four: so all are a 5-plex, and no more if it lacks one more.
    Lacking,
    // A path numbered from its middle: .., 4, 2, 0, 1, 3, 5, ..
    Outward,
    // A path with a triangle of its lowest vertices, and one of its highest: its other end is the highest vertex, or the lowest.
    Rising,
    Falling,
    // Complete, but the first or the last vertex is isolated.
    FirstAlone,
    LastAlone,
}

// The next pseudo-random number: Marsaglia's xorshift.
pub fn next(x: u64) -> u64 {
    let a = x ^ (x << 13);
    let b = a ^ (a >> 7);
    b ^ (b << 17)
}

// Where the numbers of the graph of n vertices start.
pub fn seed(n: usize, variant: usize) -> u64 {
    next(next(next(88172645463325252 ^ ((n as u64) << 32) ^ (variant as u64))))
}

// Is x one of the least `percent` of a hundred numbers?
fn within(x: u64, percent: usize) -> bool {
    ((x >> 20) % 100) < percent as u64
}

impl Family {
    // Of the pseudo-random graphs the first of each size is empty.
    pub const EMPTY: Family = Family::Random;

    // Are a and b adjacent, where a is below b? x decides where chance does.
    fn joins(self, variant: usize, n: usize, a: usize, b: usize, x: u64) -> bool {
        if b <= a || n <= b {
            return false;
        }
        let apart = b - a;
        match self {
            Family::Random => within(x, variant % 21 * 5),
            Family::Complete => true,
            Family::Ring => apart == 1 || (a == 0 && n - 1 == b),
            Family::Path => apart == 1,
            Family::Star => a == 0,
            Family::Multipartite => apart % (variant % 4 + 2) != 0,
            Family::Union => apart % (variant % 4 + 2) == 0
                && within(x, 100 - variant / 4 % 2 * 30),
            Family::Cocktail => a / 2 != b / 2 && b < 24,
            Family::Lacking => a != 0 || 4 < b,
            Family::Outward => apart == 2 || b == 1,
            Family::Rising => apart == 1 || b == 2,
            Family::Falling => apart == 1 || (apart == 2 && n - 1 == b),
            Family::FirstAlone => a != 0,
            Family::LastAlone => n - 1 != b,
        }
    }
}

// The rows of a graph, or of what would be one, and its variant.
#[derive(Clone, Copy, PartialEq, Eq)]
pub struct Graph {
    words: [u64; ROW_WORDS],
    n: usize,
    pub variant: usize,
}

impl Graph {
    // The graph of the family with n vertices.
    pub fn new(family: Family, n: usize) -> Graph {
        Graph::of_variant(family, n, 0)
    }

    pub fn of_variant(family: Family, n: usize, variant: usize) -> Graph {
        let words = [0; ROW_WORDS];
        let mut graph = Graph { words, n, variant };
        let mut x = seed(n, variant);
        for i in 0..PAIRS {
            let a = i / 64;
            let b = i % 64;
            if family.joins(variant, n, a, b, x) {
                graph.set_edge(a, b, true);
            }
            x = next(x);
        }
        graph
    }

    // Five vertices in a ring.
    pub fn ring() -> Graph {
        Graph::new(Family::Ring, 5)
    }

    // n rows that are all wrong: row 1 is the lowest with its own bit.
    pub fn garbage(n: usize) -> Graph {
        Graph {
            words: [GARBAGE; ROW_WORDS],
            n,
            variant: 0,
        }
    }

    pub fn rows(&self) -> &[u64] {
        words::front(&self.words, self.n)
    }

    pub fn rows_mut(&mut self) -> &mut [u64] {
        let n = self.n;
        words::front_mut(&mut self.words, n)
    }

    pub fn count(&self) -> usize {
        sets::count(self.rows())
    }

    pub fn has_edge(&self, a: usize, b: usize) -> bool {
        b < sets::WIDTH && words::at(self.rows(), a).has(b)
    }

    // b becomes a neighbour of a, or is none any more, where there are such vertices.
    fn set_neighbour(&mut self, a: usize, b: usize, adjacent: bool) {
        if sets::WIDTH <= b {
            return;
        }
        let rows = self.rows_mut();
        let row = words::at(rows, a);
        let new = if adjacent {
            row.with(b)
        } else {
            row.without(b)
        };
        words::store(rows, a, new);
    }

    // a and b become neighbours, or are none any more.
    pub fn set_edge(&mut self, a: usize, b: usize, adjacent: bool) {
        self.set_neighbour(a, b, adjacent);
        self.set_neighbour(b, a, adjacent);
    }

    // b is a neighbour of a, one way.
    pub fn joined_to(mut self, a: usize, b: usize) -> Graph {
        self.set_neighbour(a, b, true);
        self
    }

    // Five vertices of which the row of v has its own bit.
    pub fn own(self, v: usize) -> Graph {
        self.joined_to(v, v)
    }

    // Five vertices of which the row of v has a bit of n or above.
    pub fn far(self, v: usize) -> Graph {
        self.joined_to(v, 7)
    }

    // Five vertices in a ring of which v has a neighbour whose row lacks it.
    pub fn one_way(self, v: usize) -> Graph {
        self.joined_to(v, (v % 5 + 2) % 5)
    }
}
