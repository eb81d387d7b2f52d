// Lists of the search beside those of trying all sets; and the graphs for which a call is compared so.
use crate::graphs::{Family, Graph};
use crate::memory::{EXTRA_SLOTS, Memory};
use crate::requests::ask_silent;
use crate::tally::Tally;
use crate::words::GARBAGE;
use crate::{all_sets, refusals, words};
use judging::check::MOST_SLACK;
use judging::{Refusal, Request};
use std::io;

pub const MOST_FLOOR: usize = 64;

// The families but that of the empty graphs, and how many variants of each there are: of the pseudo-random graphs ten of each density from 0 to 100 in steps
// of 5.
pub const FAMILIES: [(&str, Family, usize); 7] = [
    ("complete graphs", Family::Complete, 1),
    ("rings", Family::Ring, 1),
    ("paths", Family::Path, 1),
    ("stars", Family::Star, 1),
    ("multipartite graphs", Family::Multipartite, 4),
    ("disjoint unions", Family::Union, 8),
    ("pseudo-random graphs", Family::Random, 210),
];

// Do these slots, which hold garbage before, get the sets, or all become empty where there are too few?
fn agrees(rows: &[u64], request: Request, expected: &[u64], slots: &mut [u64]) -> bool {
    slots.fill(GARBAGE);
    let found = search::list(rows, request, slots);
    let m = sets::count(expected);
    if sets::count(slots) < m {
        return refusals::is(found.err(), Some(Refusal::Slots(m))) && words::all_are(slots, 0);
    }
    found == Ok(m) && words::holds(slots, expected)
}

// The same with so many slots, if there are so many: a case more.
fn with_slots(
    cases: &mut Tally<impl Print>,
    graph: &Graph,
    request: Request,
    memory: &mut Memory,
    room: usize,
) -> io::Result<()> {
    let slots = words::front_mut(&mut memory.slots, room);
    let right = sets::count(slots) == room
        && agrees(graph.rows(), request, memory.expected.sets(), slots);
    cases.count_of(graph, request, right)
}

// One request, whose list is expected: slots just enough, more, and too few by one.
pub fn with_request(
    cases: &mut Tally<impl Print>,
    graph: &Graph,
    request: Request,
    memory: &mut Memory,
) -> io::Result<()> {
    let m = sets::count(memory.expected.sets());
    with_slots(cases, graph, request, memory, m)?;
    with_slots(cases, graph, request, memory, m.saturating_add(EXTRA_SLOTS))?;
    if m == 0 {
        return Ok(());
    }
    with_slots(cases, graph, request, memory, m - 1)
}

// Every floor from that of a request to the last. Of the sets of the least each floor keeps those that are large.
fn floors(
    cases: &mut Tally<impl Print>,
    graph: &Graph,
    least: Request,
    last: usize,
    memory: &mut Memory,
) -> io::Result<()> {
    all_sets::list(graph.rows(), least, &mut memory.expected);
    for floor in least.floor..=last {
        let request = Request { floor, ..least };
        all_sets::keep_large(request, &mut memory.expected);
        with_request(cases, graph, request, memory)?;
    }
    Ok(())
}

// One graph and the mask of its silent vertices: every slack, and the floors that are allowed beside it, up to the last.
pub fn slacks(
    cases: &mut Tally<impl Print>,
    graph: &Graph,
    silent: u64,
    last: usize,
    memory: &mut Memory,
) -> io::Result<()> {
    for k in 1..=MOST_SLACK {
        floors(cases, graph, ask_silent(k, 2 * k - 1, silent), last, memory)?;
    }
    Ok(())
}

// One graph without silent vertices: every slack, and every floor.
pub fn beside_all_sets(cases: &mut Tally<impl Print>, graph: &Graph) -> io::Result<()> {
    slacks(cases, graph, 0, MOST_FLOOR, &mut Memory::new())
}

// So many variants of the graph of a family with n vertices.
fn variants<P: Print, F: Fn(&mut Tally<P>, &Graph) -> io::Result<()>>(
    cases: &mut Tally<P>,
    family: Family,
    n: usize,
    count: usize,
    beside: &F,
) -> io::Result<()>
    requires { F.IsAlwaysCallable beside.now }
{
    for variant in 0..count {
        beside(cases, &Graph::of_variant(family, n, variant))?;
    }
    Ok(())
}

// The graphs of a family with at most so many vertices. A call is compared on each.
pub fn of_family<P: Print, F: Fn(&mut Tally<P>, &Graph) -> io::Result<()>>(
    cases: &mut Tally<P>,
    family: Family,
    most: usize,
    count: usize,
    beside: &F,
) -> io::Result<()>
    requires { F.IsAlwaysCallable beside.now }
{
    for n in 1..=most {
        variants(cases, family, n, count, beside)?;
    }
    Ok(())
}

// The same for each family, with at least so many variants.
pub fn families<P: Print, F: Fn(&mut Tally<P>, &Graph) -> io::Result<()>>(
    cases: &mut Tally<P>,
    most: usize,
    least: usize,
    beside: F,
) -> io::Result<()>
    requires { F.IsAlwaysCallable beside }
{
    for (_, family, count) in FAMILIES {
        of_family(cases, family, most, count.max(least), &beside)?;
    }
    Ok(())
}
