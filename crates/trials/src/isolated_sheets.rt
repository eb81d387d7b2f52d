// Isolated vertices in sheets: 14, with the lowest of them, after 1, 2, 3, lines by 8, 7, 4 and 5, and before 9. Reading and writing decline alike.
use crate::changes::{Book, Change, joined, parted};
use crate::graphs::{Family, Graph};
use crate::requests::{ask, ask_silent};
use crate::sheet;
use crate::sheet::LENGTH;
use crate::tally::Tally;
use crate::texts::{LINE_LENGTH, ROWS_AT, Text};
use judging::{Refusal, Request};

// The text of one vertex.
const LENGTH_OF_1: usize = ROWS_AT + LINE_LENGTH;

// Does reading the text of the graph into so many rows decline so, and keep them?
pub fn refuses_read(graph: &Graph, request: Request, lent: usize, refusal: Refusal) -> bool {
    sheet::refuses(&Text::laid_out(graph, request), lent, refusal)
}

// Does writing its sheet into as many bytes as one of so many vertices has decline so, and keep them?
pub fn refuses_write(graph: &Graph, request: Request, lent: usize, refusal: Refusal) -> bool {
    let room = lent.saturating_mul(LINE_LENGTH).saturating_add(ROWS_AT);
    sheet::writes(graph, request, room, Err(refusal))
}

// One vertex, which no sheet has, two and 64, and no edge. Memory that is enough, or too short: 14 before 9.
fn edgeless<P: Print, F: Fn(&Graph, Request, usize, Refusal) -> bool>(
    cases: &mut Tally<P>,
    refuses: &F,
)
    requires { F.IsAlwaysCallable refuses.now }
{
    let one = Graph::new(Family::EMPTY, 1);
    let two = Graph::new(Family::EMPTY, 2);
    let most = Graph::new(Family::EMPTY, 64);
    let first = Refusal::Isolated(0);
    cases.count(refuses(&one, ask(1, 1), 1, first));
    cases.count(refuses(&one, ask(1, 1), 0, first));
    cases.count(refuses(&one, ask(5, 64), 2, first));
    cases.count(refuses(&one, ask_silent(1, 1, 1), 1, first));
    cases.count(refuses(&one, ask_silent(1, 64, 1), 0, first));
    cases.count(refuses(&two, ask(1, 1), 2, first));
    cases.count(refuses(&two, ask(1, 1), 1, first));
    cases.count(refuses(&most, ask(1, 1), 64, first));
    cases.count(refuses(&most, ask(5, 64), 63, first));
    cases.count(refuses(&most, ask_silent(5, 9, u64::MAX), 0, first));
}

// Only the first, and only the last.
fn some<P: Print, F: Fn(&Graph, Request, usize, Refusal) -> bool>(cases: &mut Tally<P>, refuses: &F)
    requires { F.IsAlwaysCallable refuses.now }
{
    let first_of_5 = Graph::new(Family::FirstAlone, 5);
    let first_of_64 = Graph::new(Family::FirstAlone, 64);
    let last_of_2 = Graph::new(Family::LastAlone, 2);
    let last_of_3 = Graph::new(Family::LastAlone, 3);
    let last_of_5 = Graph::new(Family::LastAlone, 5);
    let last_of_64 = Graph::new(Family::LastAlone, 64);
    cases.count(refuses(&first_of_5, ask(2, 3), 5, Refusal::Isolated(0)));
    cases.count(refuses(&first_of_5, ask(2, 3), 4, Refusal::Isolated(0)));
    cases.count(refuses(&first_of_64, ask(1, 1), 64, Refusal::Isolated(0)));
    cases.count(refuses(&last_of_2, ask(1, 1), 2, Refusal::Isolated(0)));
    cases.count(refuses(&last_of_3, ask(1, 1), 3, Refusal::Isolated(2)));
    cases.count(refuses(&last_of_5, ask(2, 3), 6, Refusal::Isolated(4)));
    cases.count(refuses(&last_of_5, ask(2, 3), 5, Refusal::Isolated(4)));
    cases.count(refuses(&last_of_5, ask(2, 3), 4, Refusal::Isolated(4)));
    cases.count(refuses(&last_of_5, ask(2, 3), 0, Refusal::Isolated(4)));
    cases.count(refuses(&last_of_64, ask(1, 1), 64, Refusal::Isolated(63)));
    cases.count(refuses(&last_of_64, ask(1, 1), 63, Refusal::Isolated(63)));
}

// The lowest of several.
fn several<P: Print, F: Fn(&Graph, Request, usize, Refusal) -> bool>(
    cases: &mut Tally<P>,
    refuses: &F,
)
    requires { F.IsAlwaysCallable refuses.now }
{
    let one_of_25 = Graph::new(Family::Cocktail, 25);
    let two_of_26 = Graph::new(Family::Cocktail, 26);
    let most = Graph::new(Family::Cocktail, 64);
    let lowest = Refusal::Isolated(24);
    cases.count(refuses(&one_of_25, ask(1, 1), 25, lowest));
    cases.count(refuses(&two_of_26, ask(1, 1), 26, lowest));
    cases.count(refuses(&most, ask(1, 1), 63, lowest));
}

// The isolated vertex is silent, the others are, or all.
fn silent<P: Print, F: Fn(&Graph, Request, usize, Refusal) -> bool>(
    cases: &mut Tally<P>,
    refuses: &F,
)
    requires { F.IsAlwaysCallable refuses.now }
{
    let first_of_5 = Graph::new(Family::FirstAlone, 5);
    let last_of_5 = Graph::new(Family::LastAlone, 5);
    let last_of_64 = Graph::new(Family::LastAlone, 64);
    let last = ask_silent(1, 1, 1 << 63);
    let others = ask_silent(1, 1, u64::MAX >> 1);
    let all = ask_silent(1, 1, u64::MAX);
    cases.count(refuses(&first_of_5, ask_silent(2, 3, 1), 5, Refusal::Isolated(0)));
    cases.count(refuses(&first_of_5, ask_silent(2, 3, 30), 5, Refusal::Isolated(0)));
    cases.count(refuses(&last_of_5, ask_silent(2, 3, 16), 5, Refusal::Isolated(4)));
    cases.count(refuses(&last_of_5, ask_silent(2, 3, 31), 4, Refusal::Isolated(4)));
    cases.count(refuses(&last_of_64, last, 64, Refusal::Isolated(63)));
    cases.count(refuses(&last_of_64, others, 64, Refusal::Isolated(63)));
    cases.count(refuses(&last_of_64, all, 63, Refusal::Isolated(63)));
    cases.count(refuses(
        &Graph::new(Family::Cocktail, 64),
        all,
        64,
        Refusal::Isolated(24),
    ));
}

// 1, 2 and 3 are told first, where there is no memory either.
fn early_numbers<P: Print, F: Fn(&Graph, Request, usize, Refusal) -> bool>(
    cases: &mut Tally<P>,
    refuses: &F,
)
    requires { F.IsAlwaysCallable refuses.now }
{
    let none = Graph::new(Family::EMPTY, 0);
    let one = Graph::new(Family::EMPTY, 1);
    let most = Graph::new(Family::EMPTY, 64);
    let too_many = Graph::new(Family::EMPTY, 65);
    let last_of_5 = Graph::new(Family::LastAlone, 5);
    cases.count(refuses(&none, ask(1, 1), 0, Refusal::Vertices));
    cases.count(refuses(&too_many, ask(1, 1), 0, Refusal::Vertices));
    cases.count(refuses(&one, ask(0, 1), 0, Refusal::Slack));
    cases.count(refuses(&last_of_5, ask(6, 64), 0, Refusal::Slack));
    cases.count(refuses(&one, ask(1, 0), 0, Refusal::Floor));
    cases.count(refuses(&last_of_5, ask(2, 2), 0, Refusal::Floor));
    cases.count(refuses(&most, ask(1, 65), 0, Refusal::Floor));
}

// And so is 7.
fn early_silent<P: Print, F: Fn(&Graph, Request, usize, Refusal) -> bool>(
    cases: &mut Tally<P>,
    refuses: &F,
)
    requires { F.IsAlwaysCallable refuses.now }
{
    let one = Graph::new(Family::EMPTY, 1);
    let empty_of_5 = Graph::new(Family::EMPTY, 5);
    let empty_of_63 = Graph::new(Family::EMPTY, 63);
    let first_of_5 = Graph::new(Family::FirstAlone, 5);
    let last_of_5 = Graph::new(Family::LastAlone, 5);
    let last_of_63 = Graph::new(Family::LastAlone, 63);
    let over = ask_silent(2, 3, 32);
    let beyond = ask_silent(1, 1, 1 << 63);
    cases.count(refuses(&one, ask_silent(1, 1, 2), 0, Refusal::Outside));
    cases.count(refuses(&empty_of_5, over, 0, Refusal::Outside));
    cases.count(refuses(&first_of_5, over, 0, Refusal::Outside));
    cases.count(refuses(&last_of_5, over, 0, Refusal::Outside));
    cases.count(refuses(&empty_of_63, beyond, 0, Refusal::Outside));
    cases.count(refuses(&last_of_63, beyond, 0, Refusal::Outside));
}

// 4 and 5 are told first, also of a later row: its own bit, one of n or above, and a neighbour whose row lacks it, as one that is 0 does.
fn early_rows<P: Print, F: Fn(&Graph, Request, usize, Refusal) -> bool>(
    cases: &mut Tally<P>,
    refuses: &F,
)
    requires { F.IsAlwaysCallable refuses.now }
{
    let empty = Graph::new(Family::EMPTY, 5);
    let most = Graph::new(Family::EMPTY, 64);
    let first = Graph::new(Family::FirstAlone, 5);
    let last = Graph::new(Family::LastAlone, 5);
    cases.count(refuses(
        &Graph::new(Family::EMPTY, 1).joined_to(0, 0),
        ask(1, 1),
        0,
        Refusal::Row(0),
    ));
    cases.count(refuses(&empty.joined_to(4, 4), ask(1, 1), 0, Refusal::Row(4)));
    cases.count(refuses(&first.joined_to(4, 4), ask(1, 1), 0, Refusal::Row(4)));
    cases.count(refuses(&first.joined_to(3, 7), ask(1, 1), 0, Refusal::Row(3)));
    cases.count(refuses(&last.joined_to(0, 0), ask(1, 1), 0, Refusal::Row(0)));
    cases.count(refuses(&last.joined_to(4, 5), ask(1, 1), 0, Refusal::Row(4)));
    cases.count(refuses(&most.joined_to(63, 63), ask(1, 1), 0, Refusal::Row(63)));
    cases.count(refuses(
        &Graph::new(Family::EMPTY, 2).joined_to(1, 0),
        ask(1, 1),
        0,
        Refusal::OneWay(1),
    ));
    cases.count(refuses(&empty.joined_to(4, 2), ask(1, 1), 0, Refusal::OneWay(4)));
    cases.count(refuses(&first.joined_to(3, 0), ask(1, 1), 0, Refusal::OneWay(3)));
    cases.count(refuses(&first.joined_to(0, 3), ask(1, 1), 0, Refusal::OneWay(0)));
    cases.count(refuses(&last.joined_to(1, 4), ask(1, 1), 0, Refusal::OneWay(1)));
    cases.count(refuses(&last.joined_to(4, 1), ask(1, 1), 0, Refusal::OneWay(4)));
    cases.count(refuses(&most.joined_to(63, 0), ask(1, 1), 0, Refusal::OneWay(63)));
}

// Reading, or writing, refuses so.
pub fn declined<P: Print, F: Fn(&Graph, Request, usize, Refusal) -> bool>(
    cases: &mut Tally<P>,
    refuses: F,
)
    requires { F.IsAlwaysCallable refuses }
{
    edgeless(cases, &refuses);
    some(cases, &refuses);
    several(cases, &refuses);
    silent(cases, &refuses);
    early_numbers(cases, &refuses);
    early_silent(cases, &refuses);
    early_rows(cases, &refuses);
}

// Is the text refused with 8 at this line, read into no row?
fn refuses_line(text: &Text, line: usize) -> bool {
    sheet::refuses(text, 0, Refusal::Line(line))
}

// A wrong line is told first: another byte on each line up to that of the isolated vertex, a line cut short or missing, and a byte after the last one. Five
// vertices, the last of them isolated, and one vertex.
pub fn lines(cases: &mut Tally<impl Print>) {
    let five = Text::laid_out(&Graph::new(Family::LastAlone, 5), ask(1, 1));
    let one = Text::laid_out(&Graph::new(Family::EMPTY, 1), ask(1, 1));
    cases.count(refuses_line(&five.put(0, b'x'), 1));
    cases.count(refuses_line(&five.put(7, b'x'), 2));
    cases.count(refuses_line(&five.put(24, b'x'), 3));
    cases.count(refuses_line(&five.put(91, b'0'), 6));
    cases.count(refuses_line(&five.put(92, b'x'), 7));
    cases.count(refuses_line(&five.put(107, b'a'), 7));
    cases.count(refuses_line(&five.put(108, b'0'), 7));
    cases.count(refuses_line(&five.cut(108), 7));
    cases.count(refuses_line(&five.cut(92), 7));
    cases.count(refuses_line(&five.cut(24), 3));
    cases.count(refuses_line(&five.put(LENGTH, 0).cut(LENGTH + 1), 8));
    cases.count(refuses_line(&one.cut(24), 3));
    cases.count(refuses_line(&one.cut(40), 3));
    cases.count(refuses_line(&one.put(LENGTH_OF_1, 0).cut(LENGTH_OF_1 + 1), 4));
    cases.count(sheet::refuses(&one, 0, Refusal::Isolated(0)));
}

// A star of five, whose last vertex loses its only edge, or has it again: the list has four sets, and the rows have a sheet, or none.
fn follows(book: &mut Book, change: Change, want: Result<usize, Refusal>) -> bool {
    let mut slots = [0u64; 4 * sets::WORDS];
    let found = book.change(change, &mut slots);
    found == Ok(4) && sheet::writes(&book.graph, book.request, LENGTH, want)
}

// A change takes the last edge of a vertex, and puts it back.
pub fn changed(cases: &mut Tally<impl Print>) {
    let mut book = Book::new(&Graph::new(Family::Star, 5), ask(1, 1));
    cases.count(follows(&mut book, parted(4, 0), Err(Refusal::Isolated(4))));
    cases.count(follows(&mut book, joined(4, 0), Ok(LENGTH)));
}
