// Refusals of the call that changes a book.
use crate::changes::{Book, Change, joined, parted};
use crate::graphs::Graph;
use crate::requests::{ask, ask_silent};
use crate::tally::Tally;
use crate::words;
use judging::{Refusal, Request};

// Is the change refused so, with so many slots of four?
fn with_room(
    graph: &Graph,
    request: Request,
    change: Change,
    room: usize,
    refusal: Refusal,
) -> bool {
    let mut slots = [0u64; 4 * sets::WORDS];
    Book::new(graph, request).refuses(change, refusal, words::front_mut(&mut slots, room))
}

// The same with all four.
fn refuses(graph: &Graph, request: Request, change: Change, refusal: Refusal) -> bool {
    with_room(graph, request, change, 4, refusal)
}

// The ring without a fault, at slack 2 and floor 3.
fn sound(change: Change, room: usize, refusal: Refusal) -> bool {
    with_room(&Graph::ring(), ask(2, 3), change, room, refusal)
}

// n rows that are all wrong. The vertex 65 is none of them.
fn wrong(n: usize, request: Request, refusal: Refusal) -> bool {
    refuses(&Graph::garbage(n), request, parted(65, 65), refusal)
}

// 1, 2 and 3, each with the next cause and the later ones too.
fn refused_requests(cases: &mut Tally<impl Print>) {
    let faulty = Graph::ring().own(3).one_way(1);
    let loops = parted(5, 5);
    cases.count(wrong(0, ask(0, 65), Refusal::Vertices));
    cases.count(wrong(65, ask(0, 65), Refusal::Vertices));
    cases.count(wrong(65, ask(1, 1), Refusal::Vertices));
    cases.count(wrong(64, ask(0, 65), Refusal::Slack));
    cases.count(wrong(64, ask(6, 64), Refusal::Slack));
    cases.count(refuses(&faulty, ask(0, 3), loops, Refusal::Slack));
    cases.count(refuses(&faulty, ask(6, 65), loops, Refusal::Slack));
    cases.count(wrong(64, ask(1, 65), Refusal::Floor));
    cases.count(refuses(&faulty, ask(1, 0), loops, Refusal::Floor));
    cases.count(refuses(&faulty, ask(2, 2), loops, Refusal::Floor));
    cases.count(refuses(&faulty, ask(5, 8), loops, Refusal::Floor));
}

// 4 and 5, each with the next cause and the later ones too.
fn refused_rows(cases: &mut Tally<impl Print>) {
    let ring = Graph::ring();
    let one_way = ring.one_way(1);
    let request = ask(2, 3);
    let loops = parted(5, 5);
    cases.count(wrong(64, request, Refusal::Row(1)));
    cases.count(refuses(&ring.own(3).one_way(1), request, loops, Refusal::Row(3)));
    cases.count(refuses(
        &ring.own(4).far(2).one_way(0),
        request,
        loops,
        Refusal::Row(2),
    ));
    cases.count(refuses(
        &ring.own(1).far(2).one_way(0),
        request,
        joined(0, 2),
        Refusal::Row(1),
    ));
    cases.count(refuses(&ring.one_way(4), request, loops, Refusal::OneWay(4)));
    cases.count(refuses(&one_way, request, loops, Refusal::OneWay(1)));
    cases.count(refuses(&one_way, request, parted(1, 3), Refusal::OneWay(1)));
    cases.count(refuses(&one_way, request, joined(0, 2), Refusal::OneWay(1)));
}

// 7 and 12, also where the edge is so, and where there is no slot.
fn refused_vertices(cases: &mut Tally<impl Print>) {
    cases.count(sound(joined(5, 0), 4, Refusal::Outside));
    cases.count(sound(joined(0, 5), 4, Refusal::Outside));
    cases.count(sound(joined(5, 6), 4, Refusal::Outside));
    cases.count(sound(parted(5, 0), 0, Refusal::Outside));
    cases.count(sound(parted(0, 5), 0, Refusal::Outside));
    cases.count(sound(joined(5, 5), 4, Refusal::Outside));
    cases.count(sound(parted(5, 5), 0, Refusal::Outside));
    cases.count(sound(joined(64, 1), 4, Refusal::Outside));
    cases.count(sound(joined(1, usize::MAX), 4, Refusal::Outside));
    cases.count(sound(joined(0, 0), 4, Refusal::Loop));
    cases.count(sound(joined(4, 4), 0, Refusal::Loop));
    cases.count(sound(parted(0, 0), 4, Refusal::Loop));
    cases.count(sound(parted(4, 4), 0, Refusal::Loop));
}

// 13, also where there is no slot, and 6. The chord leaves four sets of the list, and a side taken out three.
fn refused_edges(cases: &mut Tally<impl Print>) {
    cases.count(sound(joined(0, 1), 4, Refusal::Unchanged));
    cases.count(sound(joined(0, 4), 0, Refusal::Unchanged));
    cases.count(sound(parted(0, 2), 4, Refusal::Unchanged));
    cases.count(sound(parted(4, 1), 0, Refusal::Unchanged));
    cases.count(sound(joined(0, 2), 3, Refusal::Slots(4)));
    cases.count(sound(joined(2, 0), 0, Refusal::Slots(4)));
    cases.count(sound(parted(0, 1), 2, Refusal::Slots(3)));
    cases.count(sound(parted(1, 0), 0, Refusal::Slots(3)));
}

// 7 for the silent set, after 1, 2 and 3, and before the others. Vertex 5 is none of the ring.
fn refused_silent(cases: &mut Tally<impl Print>) {
    let ring = Graph::ring();
    let faulty = ring.own(3).one_way(1);
    let silent = ask_silent(2, 3, 32);
    let loops = parted(5, 5);
    let chord = joined(0, 2);
    cases.count(wrong(0, ask_silent(1, 1, 1), Refusal::Vertices));
    cases.count(wrong(65, ask_silent(0, 65, u64::MAX), Refusal::Vertices));
    cases.count(refuses(&faulty, ask_silent(0, 3, 32), loops, Refusal::Slack));
    cases.count(refuses(&faulty, ask_silent(2, 2, 32), loops, Refusal::Floor));
    cases.count(refuses(&faulty, silent, loops, Refusal::Outside));
    cases.count(refuses(&ring.far(2), silent, chord, Refusal::Outside));
    cases.count(refuses(&ring.one_way(1), silent, chord, Refusal::Outside));
    cases.count(refuses(&ring, silent, loops, Refusal::Outside));
    cases.count(refuses(&ring, silent, joined(0, 0), Refusal::Outside));
    cases.count(refuses(&ring, silent, joined(0, 1), Refusal::Outside));
    cases.count(with_room(&ring, silent, chord, 0, Refusal::Outside));
    cases.count(refuses(&ring, silent, chord, Refusal::Outside));
    cases.count(refuses(&ring, ask_silent(2, 64, u64::MAX), chord, Refusal::Outside));
}

// Where the silent set is one of the graph, the others are told as ever. With 4 silent the chord leaves three sets of the list.
fn refused_beside(cases: &mut Tally<impl Print>) {
    let ring = Graph::ring();
    let silent = ask_silent(2, 3, 16);
    let loops = parted(5, 5);
    cases.count(wrong(64, ask_silent(2, 3, u64::MAX), Refusal::Row(1)));
    cases.count(refuses(&ring.own(3).one_way(1), silent, loops, Refusal::Row(3)));
    cases.count(refuses(&ring.one_way(1), silent, loops, Refusal::OneWay(1)));
    cases.count(refuses(&ring, silent, joined(5, 0), Refusal::Outside));
    cases.count(refuses(&ring, silent, joined(4, 4), Refusal::Loop));
    cases.count(refuses(&ring, silent, joined(0, 4), Refusal::Unchanged));
    cases.count(with_room(&ring, silent, joined(0, 2), 2, Refusal::Slots(3)));
    cases.count(with_room(&ring, silent, joined(0, 2), 0, Refusal::Slots(3)));
}

pub fn refused(cases: &mut Tally<impl Print>) {
    refused_requests(cases);
    refused_rows(cases);
    refused_vertices(cases);
    refused_edges(cases);
    refused_silent(cases);
    refused_beside(cases);
}
