// The call that changes a book: a case of it, and its answers beside those of trying all sets.
ghost use Rattle.std.specs.Prelude.{◌≤◌};
ghost use Rattle.judging.specs.Refusal.{most_slack};

use crate::graphs::Graph;
use crate::memory::{EXTRA_SLOTS, Memory};
use crate::requests::{ask, ask_silent};
use crate::tally::Tally;
use crate::words::GARBAGE;
use crate::{all_sets, graphs, refusals, silent, words};
use judging::check::MOST_SLACK;
use judging::{Refusal, Request};
use std::io;

// How many changes there are of each request.
const CHANGES: usize = 3;

// Makes another variant of one, for other changes.
const OTHER: usize = 1024;

// Two vertices, and whether they are adjacent afterwards.
#[derive(Clone, Copy)]
pub struct Change {
    pub a: usize,
    pub b: usize,
    pub adjacent: bool,
}

pub fn joined(a: usize, b: usize) -> Change {
    Change {
        a,
        b,
        adjacent: true,
    }
}

pub fn parted(a: usize, b: usize) -> Change {
    Change {
        a,
        b,
        adjacent: false,
    }
}

// A book: a graph, and the request whose list is kept of it.
#[derive(Clone, Copy)]
pub struct Book {
    pub graph: Graph,
    pub request: Request,
}

impl Book {
    pub fn new(graph: &Graph, request: Request) -> Book {
        Book {
            graph: *graph,
            request,
        }
    }

    // The graph after a change, which is not asked of the book.
    fn after(&self, change: Change) -> Graph {
        let mut graph = self.graph;
        graph.set_edge(change.a, change.b, change.adjacent);
        graph
    }

    // What the call answers.
    pub fn change(&mut self, change: Change, slots: &mut [u64]) -> Result<usize, Refusal> {
        let request = self.request;
        books::change(
            self.graph.rows_mut(),
            request,
            change.a,
            change.b,
            change.adjacent,
            slots,
        )
    }

    // Do the slots, which hold garbage before, get these sets, and is the graph the changed one?
    fn makes(&mut self, change: Change, expected: &[u64], slots: &mut [u64]) -> bool {
        let after = self.after(change);
        slots.fill(GARBAGE);
        let found = self.change(change, slots);
        found == Ok(sets::count(expected)) && self.graph == after && words::holds(slots, expected)
    }

    // Is the change refused so, and do the slots and the graph stay as they were?
    pub fn refuses(&mut self, change: Change, refusal: Refusal, slots: &mut [u64]) -> bool {
        let before = self.graph;
        slots.fill(GARBAGE);
        let found = self.change(change, slots);
        refusals::is(found.err(), Some(refusal))
            && self.graph == before
            && words::all_are(slots, GARBAGE)
    }

    // Is the change made, or refused where there are fewer slots than sets of the changed graph?
    fn agrees(&mut self, change: Change, expected: &[u64], slots: &mut [u64]) -> bool {
        let m = sets::count(expected);
        if sets::count(slots) < m {
            return self.refuses(change, Refusal::Slots(m), slots);
        }
        self.makes(change, expected, slots)
    }
}

// The same with so many slots, if there are so many: a case more.
fn with_slots(
    cases: &mut Tally<impl Print>,
    book: &mut Book,
    change: Change,
    memory: &mut Memory,
    room: usize,
) -> io::Result<()> {
    let slots = words::front_mut(&mut memory.slots, room);
    let right = sets::count(slots) == room && book.agrees(change, memory.expected.sets(), slots);
    cases.count_of(&book.graph, book.request, right)
}

// From the graph before once more, with slots just enough. The same change again is refused.
fn with_enough(
    cases: &mut Tally<impl Print>,
    book: &mut Book,
    change: Change,
    memory: &mut Memory,
) -> io::Result<()> {
    book.graph.set_edge(change.a, change.b, !change.adjacent);
    let m = sets::count(memory.expected.sets());
    with_slots(cases, book, change, memory, m)?;
    let right = book.refuses(change, Refusal::Unchanged, &mut memory.slots);
    cases.count_of(&book.graph, book.request, right)
}

// One change, after which a list is expected: slots too few by one, more than enough, and just enough.
pub fn with_change(
    cases: &mut Tally<impl Print>,
    book: &mut Book,
    change: Change,
    memory: &mut Memory,
) -> io::Result<()> {
    let m = sets::count(memory.expected.sets());
    if 0 < m {
        with_slots(cases, book, change, memory, m - 1)?;
    }
    with_slots(cases, book, change, memory, m.saturating_add(EXTRA_SLOTS))?;
    with_enough(cases, book, change, memory)
}

// a and b become adjacent where they are not, and not adjacent where they are.
fn flipped(graph: &Graph, a: usize, b: usize) -> Change {
    Change {
        a,
        b,
        adjacent: !graph.has_edge(a, b),
    }
}

// The change of an edge, which x decides, where there are two vertices or more.
fn chosen(graph: &Graph, x: u64) -> Change {
    let n = graph.count().max(1);
    let number = ((x >> 20) % 65536) as usize;
    let a = number % n;
    let b = number / n % n;
    if a != b {
        return flipped(graph, a, b);
    }
    flipped(graph, 0, if a == 0 { 1 } else { a })
}

// The change that x decides. The list of the changed graph is that of trying all sets.
fn with_chosen(
    cases: &mut Tally<impl Print>,
    book: &mut Book,
    x: u64,
    memory: &mut Memory,
) -> io::Result<()> {
    let change = chosen(&book.graph, x);
    all_sets::list(
        book.after(change).rows(),
        book.request,
        &mut memory.expected,
    );
    with_change(cases, book, change, memory)
}

// Some changes, one after the other.
pub fn changes(
    cases: &mut Tally<impl Print>,
    book: &mut Book,
    variant: usize,
    memory: &mut Memory,
) -> io::Result<()> {
    let mut x = graphs::seed(book.graph.count(), variant)
        ^ graphs::seed(book.request.slack, book.request.floor);
    for _ in 0..CHANGES {
        with_chosen(cases, book, x, memory)?;
        x = graphs::next(x);
    }
    Ok(())
}

// One slack: the two least floors, and the least with the silent vertices that the variant decides.
fn floors(cases: &mut Tally<impl Print>, graph: &Graph, k: usize) -> io::Result<()>
    requires { (1 ≤ k) × (k ≤ most_slack) }
{
    let mut memory = Memory::new();
    let variant = graph.variant;
    let mut book = Book::new(graph, ask(k, 2 * k - 1));
    changes(cases, &mut book, variant, &mut memory)?;
    book.request = ask(k, 2 * k);
    changes(cases, &mut book, variant, &mut memory)?;
    book.request = ask_silent(k, 2 * k - 1, silent::of_variant(graph, variant));
    changes(cases, &mut book, variant ^ OTHER, &mut memory)
}

// One graph, where it has an edge to change. The variant decides the slack.
pub fn beside_all_sets(cases: &mut Tally<impl Print>, graph: &Graph) -> io::Result<()> {
    if graph.count() < 2 {
        return Ok(());
    }
    floors(cases, graph, graph.variant / 8 % MOST_SLACK + 1)
}
