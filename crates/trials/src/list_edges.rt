// Edges of the call that lists.
use crate::graphs::{Family, Graph};
use crate::requests::{ask, ask_silent};
use crate::tally::Tally;
use crate::words::GARBAGE;
use crate::{refusals, words};
use judging::{Refusal, Request};
use sets::Set;

// Is this the answer? Each slot, which holds garbage before, keeps it, or becomes empty where there are too few.
pub fn answers(
    graph: &Graph,
    request: Request,
    slots: &mut [u64],
    want: Result<usize, Refusal>,
) -> bool {
    slots.fill(GARBAGE);
    let found = search::list(graph.rows(), request, slots);
    let after = if matches!(want, Err(Refusal::Slots(_))) {
        0
    } else {
        GARBAGE
    };
    found == want && refusals::is(found.err(), want.err()) && words::all_are(slots, after)
}

// The same with four slots.
fn gives(graph: &Graph, request: Request, want: Result<usize, Refusal>) -> bool {
    let mut slots = [0u64; 4 * sets::WORDS];
    answers(graph, request, &mut slots, want)
}

// Is it refused so?
fn refuses(graph: &Graph, request: Request, refusal: Refusal) -> bool {
    gives(graph, request, Err(refusal))
}

// The ring and no slot.
fn without_slots(q: usize, want: Result<usize, Refusal>) -> bool {
    answers(&Graph::ring(), ask(2, q), &mut [], want)
}

// 64 vertices all adjacent: one set, of all of them, and the second slot keeps what it held.
fn all_of_64(k: usize, q: usize) -> bool {
    let graph = Graph::new(Family::Complete, 64);
    let mut slots = [GARBAGE; 2 * sets::WORDS];
    let mut all = [0u64; sets::WORDS];
    words::store(&mut all, 0, Set::from(u64::MAX));
    let found = search::list(graph.rows(), ask(k, q), &mut slots);
    found == Ok(1) && words::holds(&slots, &all)
}

pub fn ranges(cases: &mut Tally<impl Print>) {
    let ring = Graph::ring();
    cases.count(gives(&ring, ask(5, 9), Ok(0)));
    cases.count(refuses(&ring, ask(5, 8), Refusal::Floor));
    cases.count(refuses(&ring, ask(6, 8), Refusal::Slack));
    cases.count(refuses(&ring, ask(6, 11), Refusal::Slack));
    cases.count(refuses(&ring, ask(6, 64), Refusal::Slack));
    cases.count(refuses(&ring, ask(32, 63), Refusal::Slack));
    cases.count(refuses(&ring, ask(usize::MAX, 64), Refusal::Slack));
    cases.count(gives(&ring, ask(1, 64), Ok(0)));
    cases.count(gives(&ring, ask(5, 64), Ok(0)));
    cases.count(refuses(&ring, ask(1, 65), Refusal::Floor));
    cases.count(refuses(&ring, ask(0, 64), Refusal::Slack));
    cases.count(refuses(&ring, ask(1, 0), Refusal::Floor));
}

pub fn all_adjacent(cases: &mut Tally<impl Print>) {
    cases.count(all_of_64(1, 64));
    cases.count(all_of_64(1, 1));
    cases.count(all_of_64(5, 9));
    cases.count(all_of_64(5, 64));
}

pub fn none(cases: &mut Tally<impl Print>) {
    let ring = Graph::ring();
    cases.count(gives(&ring, ask(2, 6), Ok(0)));
    cases.count(gives(&ring, ask(1, 3), Ok(0)));
    cases.count(without_slots(6, Ok(0)));
    cases.count(without_slots(64, Ok(0)));
    cases.count(without_slots(3, Err(Refusal::Slots(5))));
}

// Each with the later causes too: 1, 2, 3, 4, 5, 6.
fn refused_plain(cases: &mut Tally<impl Print>) {
    let ring = Graph::ring();
    let faulty = ring.own(3).one_way(1);
    let wrong = ask_silent(0, 65, u64::MAX);
    cases.count(refuses(&Graph::garbage(0), wrong, Refusal::Vertices));
    cases.count(refuses(&Graph::garbage(65), wrong, Refusal::Vertices));
    cases.count(refuses(&Graph::garbage(64), wrong, Refusal::Slack));
    cases.count(refuses(&faulty, ask(0, 65), Refusal::Slack));
    cases.count(refuses(&faulty, ask(1, 65), Refusal::Floor));
    cases.count(refuses(&faulty, ask(2, 3), Refusal::Row(3)));
    cases.count(refuses(&ring.own(4).far(2).one_way(0), ask(2, 3), Refusal::Row(2)));
    cases.count(refuses(&ring.own(1).far(2).one_way(0), ask(2, 3), Refusal::Row(1)));
    cases.count(refuses(&ring.one_way(4), ask(2, 3), Refusal::OneWay(4)));
    cases.count(refuses(&ring.one_way(1), ask(2, 3), Refusal::OneWay(1)));
    cases.count(refuses(&ring, ask(2, 3), Refusal::Slots(5)));
}

// 7 for the silent set, after 1, 2 and 3, and before 4, 5 and 6. Vertex 5 is none of the ring.
fn refused_silent(cases: &mut Tally<impl Print>) {
    let ring = Graph::ring();
    let wrong = ask_silent(2, 3, 32);
    cases.count(refuses(&Graph::garbage(0), ask_silent(1, 1, 1), Refusal::Vertices));
    cases.count(refuses(&ring, ask_silent(0, 3, 32), Refusal::Slack));
    cases.count(refuses(&ring, ask_silent(6, 11, u64::MAX), Refusal::Slack));
    cases.count(refuses(&ring, ask_silent(2, 2, 32), Refusal::Floor));
    cases.count(refuses(&ring, ask_silent(1, 65, u64::MAX), Refusal::Floor));
    cases.count(refuses(&ring.own(3), wrong, Refusal::Outside));
    cases.count(refuses(&ring.far(2), wrong, Refusal::Outside));
    cases.count(refuses(&ring.one_way(1), wrong, Refusal::Outside));
    cases.count(refuses(&ring, wrong, Refusal::Outside));
    cases.count(refuses(&ring, ask_silent(1, 1, 1 << 63), Refusal::Outside));
    cases.count(refuses(&ring, ask_silent(2, 64, u64::MAX), Refusal::Outside));
}

// Where the silent set is one of the graph, 4, 5 and 6 are told as ever.
fn refused_beside(cases: &mut Tally<impl Print>) {
    let ring = Graph::ring();
    let faulty = ring.own(3).one_way(1);
    let silent = ask_silent(1, 1, 16);
    let all = ask_silent(2, 3, 31);
    cases.count(refuses(&faulty, silent, Refusal::Row(3)));
    cases.count(refuses(&faulty, all, Refusal::Row(3)));
    cases.count(refuses(&ring.one_way(1), silent, Refusal::OneWay(1)));
    cases.count(refuses(&ring.one_way(1), all, Refusal::OneWay(1)));
    cases.count(refuses(&ring, silent, Refusal::Slots(5)));
}

pub fn refused(cases: &mut Tally<impl Print>) {
    refused_plain(cases);
    refused_silent(cases);
    refused_beside(cases);
}
