// Sheets, read and written at their edge cases. What has an isolated vertex is in isolated_sheets.rt.
use crate::graphs::{Family, Graph, MOST_ROWS};
use crate::requests::{ask, ask_silent};
use crate::tally::Tally;
use crate::texts::{MOST_TEXT, OLD, Text};
use crate::words::GARBAGE;
use crate::{isolated_sheets, refusals, words};
use judging::{Refusal, Request};
use sheets::Sheet;

// The sheet of five vertices.
pub const LENGTH: usize = 109;

// What is returned of a sheet of n vertices.
fn returned(n: usize, request: Request) -> Sheet {
    Sheet {
        vertices: n,
        request,
    }
}

// Is this the answer, read into so many rows: how many vertices the graph has, and the request? Rows are garbage before, and stay so, or else from n on.
pub fn reads(text: &Text, room: usize, want: Result<Sheet, Refusal>) -> bool {
    let mut memory = [GARBAGE; MOST_ROWS * sets::WORDS];
    let rows = words::front_mut(&mut memory, room);
    let found = sheets::read_sheet(text.bytes(), rows);
    let from = want.map_or(0, |sheet| sheet.vertices);
    found == want
        && refusals::is(found.err(), want.err())
        && words::all_are(words::behind(rows, from), GARBAGE)
}

// Is it refused so?
pub fn refuses(text: &Text, room: usize, refusal: Refusal) -> bool {
    reads(text, room, Err(refusal))
}

// The sheet of the ring of five vertices, slack 2, floor 3.
fn ring() -> Text {
    Text::written(&Graph::ring(), ask(2, 3))
}

// Line 1 by 8, then 1, 2, 3, the other lines by 8, then 7, 4, 5, 9.
fn heading_read(cases: &mut Tally<impl Print>) {
    let ring = ring();
    let long = ring.cut(110);
    let wrong = ask_silent(0, 65, 32);
    cases.count(refuses(&ring.cut(0), 0, Refusal::Line(1)));
    cases.count(refuses(&ring.headed(0, wrong).cut(6), 0, Refusal::Line(1)));
    cases.count(refuses(&ring.headed(0, wrong).put(5, b'a'), 0, Refusal::Line(1)));
    cases.count(refuses(&long.headed(0, wrong), 0, Refusal::Vertices));
    cases.count(refuses(&long.headed(65, wrong), 0, Refusal::Vertices));
    cases.count(refuses(&long.headed(5, wrong), 0, Refusal::Slack));
    cases.count(refuses(&long.headed(5, ask(6, 64)), 0, Refusal::Slack));
    cases.count(refuses(&long.headed(5, ask(6, 8)), 0, Refusal::Slack));
    cases.count(refuses(&long.headed(5, ask(5, 8)), 0, Refusal::Floor));
    cases.count(refuses(&long.headed(5, ask(1, 65)), 0, Refusal::Floor));
    cases.count(refuses(&long.headed(5, ask(5, 9)), 0, Refusal::Line(8)));
    cases.count(refuses(&ring.headed(5, ask(1, 64)), 4, Refusal::Room(5)));
}

// Where only its own row becomes 0, a vertex is still a neighbour of others: 5, and not 14.
fn rows_read(cases: &mut Tally<impl Print>) {
    let ring = ring();
    cases.count(refuses(&ring.put(39, b'3').cut(110), 0, Refusal::Line(8)));
    cases.count(refuses(&ring.put(41, b'x').cut(110), 0, Refusal::Line(4)));
    cases.count(refuses(&ring.cut(108), 0, Refusal::Line(7)));
    cases.count(refuses(&ring.cut(92), 0, Refusal::Line(7)));
    cases.count(refuses(&ring.cut(7), 0, Refusal::Line(2)));
    cases.count(refuses(&ring.put(73, b'C'), 4, Refusal::Row(2)));
    cases.count(refuses(&ring.put(39, b'3'), 4, Refusal::Row(0)));
    cases.count(refuses(&ring.put(107, b'1'), 4, Refusal::OneWay(3)));
    cases.count(refuses(&ring.put(56, b'0'), 5, Refusal::OneWay(0)));
    cases.count(refuses(&ring.put(73, b'0'), 4, Refusal::OneWay(1)));
    cases.count(refuses(&ring, 4, Refusal::Room(5)));
    cases.count(reads(&ring, 5, Ok(returned(5, ask(2, 3)))));
    cases.count(reads(&ring, 6, Ok(returned(5, ask(2, 3)))));
}

// Line 2 wrong: another byte first, last, or in place of byte 10; byte 10 too early; cut short. The line after it missing.
fn silent_line_read(cases: &mut Tally<impl Print>) {
    let ring = ring();
    let wrong = ring.put(7, b'x');
    cases.count(refuses(&wrong, 0, Refusal::Line(2)));
    cases.count(refuses(&ring.put(22, b'a').cut(110), 0, Refusal::Line(2)));
    cases.count(refuses(&ring.put(23, b'0').cut(30), 0, Refusal::Line(2)));
    cases.count(refuses(&ring.put(22, b'\n'), 0, Refusal::Line(2)));
    cases.count(refuses(&ring.cut(8), 0, Refusal::Line(2)));
    cases.count(refuses(&ring.cut(23), 0, Refusal::Line(2)));
    cases.count(refuses(&ring.cut(24), 0, Refusal::Line(3)));
    cases.count(refuses(
        &ring.headed(0, ask(0, 65)).put(7, b'x'),
        0,
        Refusal::Vertices,
    ));
    cases.count(refuses(&ring.headed(5, ask(0, 65)).put(7, b'x'), 0, Refusal::Slack));
    cases.count(refuses(&ring.headed(5, ask(1, 65)).put(7, b'x'), 0, Refusal::Floor));
    cases.count(refuses(&ring.headed(4, ask(2, 3)), 0, Refusal::Line(7)));
}

// The silent set reaches n: after 1, 2, 3 and every line by 8, and before 4, 5 and 9.
fn silent_refused(cases: &mut Tally<impl Print>) {
    let ring = ring();
    let over = ring.headed(5, ask_silent(2, 3, 32));
    cases.count(refuses(&ring.headed(5, ask_silent(6, 64, 32)), 5, Refusal::Slack));
    cases.count(refuses(&ring.headed(5, ask_silent(2, 2, 32)), 5, Refusal::Floor));
    cases.count(refuses(&over.put(106, b'x'), 5, Refusal::Line(7)));
    cases.count(refuses(&over.cut(108), 5, Refusal::Line(7)));
    cases.count(refuses(&over.cut(110), 5, Refusal::Line(8)));
    cases.count(refuses(&over.put(73, b'C'), 5, Refusal::Outside));
    cases.count(refuses(&over.put(107, b'1'), 5, Refusal::Outside));
    cases.count(refuses(&over, 4, Refusal::Outside));
    cases.count(refuses(&over, 5, Refusal::Outside));
    cases.count(refuses(
        &ring.headed(5, ask_silent(2, 3, 1 << 63)),
        5,
        Refusal::Outside,
    ));
    cases.count(refuses(
        &ring.headed(5, ask_silent(2, 3, u64::MAX)),
        5,
        Refusal::Outside,
    ));
}

// The ring's sheet, where only line 2 is another.
fn silenced(mask: u64) -> Text {
    ring().headed(5, ask_silent(2, 3, mask))
}

// Is it read?
fn is_read(mask: u64) -> bool {
    reads(&silenced(mask), 5, Ok(returned(5, ask_silent(2, 3, mask))))
}

// A silent set that does not reach n.
fn silent_read(cases: &mut Tally<impl Print>) {
    let last = silenced(16);
    cases.count(refuses(&last.put(73, b'C'), 5, Refusal::Row(2)));
    cases.count(refuses(&last.put(107, b'1'), 5, Refusal::OneWay(3)));
    cases.count(refuses(&last, 4, Refusal::Room(5)));
    cases.count(is_read(1));
    cases.count(is_read(16));
    cases.count(is_read(31));
}

pub fn read(cases: &mut Tally<impl Print>) {
    heading_read(cases);
    rows_read(cases);
    silent_line_read(cases);
    silent_refused(cases);
    silent_read(cases);
    isolated_sheets::declined(cases, isolated_sheets::refuses_read);
    isolated_sheets::lines(cases);
}

// Is this the answer, written into so many bytes: how many are written? They hold what no sheet has before, and keep it behind those.
pub fn writes(graph: &Graph, request: Request, room: usize, want: Result<usize, Refusal>) -> bool {
    let mut memory = [OLD; MOST_TEXT];
    let Some(text) = memory.get_mut(..room) else {
        return false;
    };
    let found = sheets::write_sheet(graph.rows(), request, text);
    let from = want.unwrap_or(0);
    found == want
        && refusals::is(found.err(), want.err())
        && text.iter().skip(from).all(|b| *b == OLD)
}

// Is it refused so, with one byte too few for five vertices?
fn declines(graph: &Graph, request: Request, refusal: Refusal) -> bool {
    writes(graph, request, LENGTH - 1, Err(refusal))
}

// 1, 2, 3, 4, 5, 9
fn plain_written(cases: &mut Tally<impl Print>) {
    let ring = Graph::ring();
    let faulty = ring.own(3).one_way(1);
    cases.count(declines(&faulty, ask(0, 65), Refusal::Slack));
    cases.count(declines(&faulty, ask(6, 8), Refusal::Slack));
    cases.count(declines(&faulty, ask(5, 8), Refusal::Floor));
    cases.count(declines(&faulty, ask(1, 65), Refusal::Floor));
    cases.count(declines(&faulty, ask(2, 3), Refusal::Row(3)));
    cases.count(declines(&ring.one_way(1), ask(2, 3), Refusal::OneWay(1)));
    cases.count(declines(&ring, ask(2, 3), Refusal::Room(LENGTH)));
    cases.count(writes(&ring, ask(2, 3), 0, Err(Refusal::Room(LENGTH))));
    cases.count(writes(&ring, ask(2, 3), LENGTH, Ok(LENGTH)));
    cases.count(writes(&ring, ask(5, 9), 120, Ok(LENGTH)));
}

// 7 for the silent set, after 1, 2 and 3, and before 4, 5 and 9; and a silent set of the graph.
fn silent_written(cases: &mut Tally<impl Print>) {
    let ring = Graph::ring();
    let faulty = ring.own(3).one_way(1);
    let all = ask_silent(0, 65, u64::MAX);
    let over = ask_silent(2, 3, 32);
    let silent = ask_silent(2, 3, 16);
    cases.count(writes(
        &Graph::garbage(0),
        ask_silent(1, 1, 1),
        120,
        Err(Refusal::Vertices),
    ));
    cases.count(writes(&Graph::garbage(65), all, 120, Err(Refusal::Vertices)));
    cases.count(writes(&Graph::garbage(64), all, 120, Err(Refusal::Slack)));
    cases.count(declines(&faulty, ask_silent(6, 11, 32), Refusal::Slack));
    cases.count(declines(&faulty, ask_silent(2, 2, 32), Refusal::Floor));
    cases.count(declines(&faulty, over, Refusal::Outside));
    cases.count(declines(&ring.one_way(1), over, Refusal::Outside));
    cases.count(declines(&ring, over, Refusal::Outside));
    cases.count(writes(&ring, over, 120, Err(Refusal::Outside)));
    cases.count(writes(
        &ring,
        ask_silent(2, 3, u64::MAX),
        LENGTH,
        Err(Refusal::Outside),
    ));
    cases.count(declines(&faulty, silent, Refusal::Row(3)));
    cases.count(declines(&ring.one_way(1), silent, Refusal::OneWay(1)));
    cases.count(declines(&ring, silent, Refusal::Room(LENGTH)));
    cases.count(writes(&ring, silent, LENGTH, Ok(LENGTH)));
    cases.count(writes(&ring, ask_silent(2, 3, 31), 120, Ok(LENGTH)));
}

pub fn written(cases: &mut Tally<impl Print>) {
    plain_written(cases);
    silent_written(cases);
    isolated_sheets::declined(cases, isolated_sheets::refuses_write);
    isolated_sheets::changed(cases);
}

// Is the graph of the family read back from its sheet, with the request?
fn reads_back(family: Family, n: usize, request: Request) -> bool {
    let graph = Graph::new(family, n);
    let text = Text::written(&graph, request);
    let mut rows = [GARBAGE; MOST_ROWS * sets::WORDS];
    let found = sheets::read_sheet(text.bytes(), &mut rows);
    found == Ok(returned(n, request)) && words::holds(&rows, graph.rows())
}

// Is the sheet of the same graph, as it was before there were silent vertices, refused with 8 at this line?
fn lacks_line(family: Family, n: usize, line: usize) -> bool {
    let text = Text::laid_out(&Graph::new(family, n), ask(1, 1));
    refuses(&text.without_line_2(), MOST_ROWS, Refusal::Line(line))
}

// Some silent sets, and the line n + 2 of a sheet without one. Two adjacent vertices are the least graph that has a sheet.
pub fn read_back(cases: &mut Tally<impl Print>) {
    cases.count(reads_back(Family::Complete, 2, ask_silent(1, 1, 0)));
    cases.count(reads_back(Family::Complete, 2, ask_silent(1, 64, 1)));
    cases.count(reads_back(Family::Ring, 5, ask_silent(2, 3, 0)));
    cases.count(reads_back(Family::Ring, 5, ask_silent(2, 3, 5)));
    cases.count(reads_back(Family::Ring, 5, ask_silent(5, 9, 31)));
    cases.count(reads_back(Family::Complete, 63, ask_silent(1, 1, 1 << 62)));
    cases.count(reads_back(Family::Complete, 64, ask_silent(1, 1, 1 << 63)));
    cases.count(reads_back(Family::Path, 64, ask_silent(3, 5, GARBAGE)));
    cases.count(reads_back(Family::Star, 64, ask_silent(5, 64, u64::MAX)));
    cases.count(lacks_line(Family::EMPTY, 1, 3));
    cases.count(lacks_line(Family::Ring, 5, 7));
    cases.count(lacks_line(Family::Complete, 63, 65));
    cases.count(lacks_line(Family::Complete, 64, 66));
}
