// Refusals of the calls that judge maximality, find the core or a reach, and bound: each with the later causes too.
use crate::graphs::Graph;
use crate::tally::Tally;
use judging::Refusal;
use sets::Set;

// Document 01's number and value of a refusal, written out apart from what the library says of it.
fn numbered(refusal: Refusal) -> (usize, usize) {
    match refusal {
        Refusal::Vertices => (1, 0),
        Refusal::Slack => (2, 0),
        Refusal::Floor => (3, 0),
        Refusal::Row(a) => (4, a),
        Refusal::OneWay(a) => (5, a),
        Refusal::Slots(m) => (6, m),
        Refusal::Outside => (7, 0),
        Refusal::Line(l) => (8, l),
        Refusal::Room(n) => (9, n),
        Refusal::Bound => (10, 0),
        Refusal::Forced => (11, 0),
        Refusal::Loop => (12, 0),
        Refusal::Unchanged => (13, 0),
        Refusal::Isolated(a) => (14, a),
        Refusal::DimacsLine(l) => (15, l),
        Refusal::EdgeCount => (16, 0),
    }
}

// Does the library say so too?
fn is_numbered(refusal: Refusal) -> bool {
    let (number, value) = numbered(refusal);
    refusal.number() == number && refusal.value() == value
}

// Is it the refusal that is wanted, or none as wanted, with document 01's number and value?
pub fn is(found: Option<Refusal>, want: Option<Refusal>) -> bool {
    found == want && found.is_none_or(is_numbered)
}

// Is the set of the mask refused so, or with none judged, as a maximal plex?
fn judge(graph: &Graph, k: usize, mask: u64, want: Option<Refusal>) -> bool {
    let found = judging::judge_maximal(graph.rows(), k, Set::from(mask));
    is(found.err(), want)
}

fn core(graph: &Graph, k: usize, q: usize, want: Option<Refusal>) -> bool {
    is(bounds::find_core(graph.rows(), k, q).err(), want)
}

fn reach(graph: &Graph, v: usize, want: Option<Refusal>) -> bool {
    is(bounds::find_reach(graph.rows(), v).err(), want)
}

// Do both bounds answer so for the sets of the masks s and c?
fn bound(graph: &Graph, k: usize, s: u64, c: u64, v: usize, want: Option<Refusal>) -> bool {
    let held = Set::from(s);
    let free = Set::from(c);
    let first = bounds::first_bound(graph.rows(), k, held, free, v);
    let second = bounds::second_bound(graph.rows(), k, held, free, v);
    is(first.err(), want) && is(second.err(), want)
}

// No row.
fn no_rows() -> bool {
    let none = Graph::garbage(0);
    let want = Some(Refusal::Vertices);
    judge(&none, 0, 32, want)
        && core(&none, 0, 65, want)
        && reach(&none, 0, want)
        && bound(&none, 0, 32, 32, 5, want)
}

// 1, 2, 4, 5, 7
pub fn judged(cases: &mut Tally<impl Print>) {
    let ring = Graph::ring();
    let faulty = ring.own(3).one_way(1);
    cases.count(no_rows());
    cases.count(judge(&faulty, 0, 32, Some(Refusal::Slack)));
    cases.count(judge(&faulty, 6, 32, Some(Refusal::Slack)));
    cases.count(judge(&faulty, 1, 32, Some(Refusal::Row(3))));
    cases.count(judge(&ring.one_way(1), 1, 32, Some(Refusal::OneWay(1))));
    cases.count(judge(&ring, 1, 32, Some(Refusal::Outside)));
    cases.count(judge(&ring, 5, 31, None));
}

// The core: 1, 2, 3, 4, 5. A reach: 1, 4, 5, 7.
pub fn found(cases: &mut Tally<impl Print>) {
    let ring = Graph::ring();
    let faulty = ring.own(3).one_way(1);
    cases.count(core(&faulty, 0, 65, Some(Refusal::Slack)));
    cases.count(core(&faulty, 6, 8, Some(Refusal::Slack)));
    cases.count(core(&faulty, 5, 8, Some(Refusal::Floor)));
    cases.count(core(&faulty, 5, 9, Some(Refusal::Row(3))));
    cases.count(core(&ring.one_way(1), 5, 9, Some(Refusal::OneWay(1))));
    cases.count(core(&ring, 5, 9, None));
    cases.count(reach(&faulty, 5, Some(Refusal::Row(3))));
    cases.count(reach(&ring.one_way(1), 5, Some(Refusal::OneWay(1))));
    cases.count(reach(&ring, 5, Some(Refusal::Outside)));
    cases.count(reach(&ring, 4, None));
}

// 1, 2, 4, 5, 7, 10. In the ring 0 is adjacent to 1 and 4.
pub fn bounded(cases: &mut Tally<impl Print>) {
    let ring = Graph::ring();
    let faulty = ring.own(3).one_way(1);
    cases.count(bound(&faulty, 0, 32, 32, 5, Some(Refusal::Slack)));
    cases.count(bound(&faulty, 6, 32, 32, 5, Some(Refusal::Slack)));
    cases.count(bound(&faulty, 1, 32, 32, 5, Some(Refusal::Row(3))));
    cases.count(bound(&ring.one_way(1), 1, 32, 32, 5, Some(Refusal::OneWay(1))));
    cases.count(bound(&ring, 1, 33, 2, 1, Some(Refusal::Outside)));
    cases.count(bound(&ring, 1, 1, 34, 1, Some(Refusal::Outside)));
    cases.count(bound(&ring, 1, 1, 2, 5, Some(Refusal::Outside)));
    cases.count(bound(&ring, 1, 1, 4, 2, Some(Refusal::Bound)));
    cases.count(bound(&ring, 1, 1, 4, 1, Some(Refusal::Bound)));
    cases.count(bound(&ring, 1, 1, 3, 1, Some(Refusal::Bound)));
    cases.count(bound(&ring, 1, 1, 2, 1, None));
    cases.count(bound(&ring, 5, 1, 2, 1, None));
}
