// The season book: a graph and its list in lent memory, kept together while edges come and go.
#![tactic(auto)]

ghost use Rattle.std.specs.Prelude.{◌≤◌};
ghost use Rattle.sets.specs.Words.{mask, masks};
ghost use Rattle.judging.specs.Request.{asked};
ghost use Rattle.search.specs.Start.{Accepted, Candidates};
ghost use Rattle.books.specs.Book.{change, change_of, changed_graph};
ghost use Rattle.books.specs.Calls.{Changeable, Renews, Changes};

mod check;
mod edge;

use edge::Change;
use judging::{Refusal, Request};
use sets::Set;

// A list is made in memory of the call's own first: where it fits there, one search both counts and finds it. There is memory for 4,096 sets; to empty it
// takes longer than some searches, so among few candidates there is less of it (docs/DECISIONS.md has the figures).
const LARGE: usize = 4096 * sets::WORDS;

const SMALL: usize = 1024 * sets::WORDS;

const TINY: usize = 128 * sets::WORDS;

// Gives the slots the list of the graph, where they have room for it, and its length in any case. The list is made in `held` first; only one that is
// longer than that is searched for once more. Every set of the list lies in `all`.
fn renew_by(rows: &[u64], request: Request, all: Set, held: &mut [u64], slots: &mut [u64]) -> usize
    requires { Accepted (masks rows.now) (asked request) × Candidates (masks rows.now) (asked request) (mask all) }
    ensures { Renews (masks rows.now) (asked request) (masks slots.old) (masks slots.new) result }
{
    let m = search::collect(rows, request, search::usual(), all, held);
    if sets::count(slots) < m {
        return m;
    }
    if sets::count(held) < m {
        return search::collect(rows, request, search::usual(), all, slots);
    }
    lists::place::copy(held, m, slots);
    m
}

// The same with N words of memory.
fn renew_with<const N: usize>(rows: &[u64], request: Request, all: Set, slots: &mut [u64]) -> usize
    requires { Accepted (masks rows.now) (asked request) × Candidates (masks rows.now) (asked request) (mask all) × (N ≤ LARGE) }
    ensures { Renews (masks rows.now) (asked request) (masks slots.old) (masks slots.new) result }
{
    let mut held = [0u64; N];
    renew_by(rows, request, all, &mut held, slots)
}

// The same with as much memory as suits the candidates: a search among few of them may be over before more is emptied. At slack 1 a search takes less time.
fn renew(rows: &[u64], request: Request, slots: &mut [u64]) -> usize
    requires { Accepted (masks rows.now) (asked request) }
    ensures { Renews (masks rows.now) (asked request) (masks slots.old) (masks slots.new) result }
{
    let all = search::starting(rows, request, true);
    let candidates = all.size();
    let (tiny, small) = if request.slack == 1 {
        (20, 48)
    } else {
        (9, 20)
    };
    if candidates < tiny {
        return renew_with::<TINY>(rows, request, all, slots);
    }
    if candidates < small {
        return renew_with::<SMALL>(rows, request, all, slots);
    }
    renew_with::<LARGE>(rows, request, all, slots)
}

// The same for the changed graph, which is made in a table of its own: the rows keep their contents.
fn renew_changed(rows: &[u64], request: Request, change: Change, slots: &mut [u64]) -> usize
    requires { Accepted (masks rows.now) (asked request) × Changeable (masks rows.now) (change_of change) }
    ensures { Renews (changed_graph (masks rows.now) (change_of change)) (asked request)
        (masks slots.old) (masks slots.new) result }
{
    let mut table = [0u64; sets::TABLE];
    let end = sets::offset(&table, sets::count(rows));
    change.copy_changed(rows, &mut table[..end]);
    renew(&table[..end], request, slots)
}

// Makes a and b adjacent, or not adjacent, in the book with these rows, request and slots, and its list the list of the changed graph. Nothing is taken from
// the slots: they may hold anything. A book is opened by `search::list`.
// Outcome: m, the length of the new list; both rows are changed, the first m slots hold the list, and the later ones keep what they held.
// Refusals: 1, 2, 3, 7 for a silent set that reaches n or above, 4, 5, 7 for a or b, 12 where a and b are the same, 13 where the edge is already so, and 6
// with the exact m where there are fewer slots than m. Each leaves rows and slots as they were.
// Cost: the checks and one search of the changed graph; two where its list has more sets than memory is kept for: 4,096, or fewer among few
// candidates.
pub fn change(
    rows: &mut [u64],
    request: Request,
    a: usize,
    b: usize,
    adjacent: bool,
    slots: &mut [u64],
) -> Result<usize, Refusal>
    ensures { Changes (masks rows.old) (asked request) (change a b adjacent) (masks slots.old)
        (masks rows.new) (masks slots.new) result }
{
    let change = Change { a, b, adjacent };
    check::check_change(rows, request, change)?;
    let m = renew_changed(rows, request, change, slots);
    if sets::count(slots) < m {
        return Err(Refusal::Slots(m));
    }
    change.set_edge(rows);
    Ok(m)
}
