// The library for C and Rust: every public call on numbers and lent buffers, each answered by a plain struct. None asks anything of its caller
// beyond what its types say.
#![tactic(auto)]

ghost use Rattle.std.specs.Prelude.{◌≡◌};
ghost use Rattle.sets.specs.Words.{masks};
ghost use Rattle.judging.specs.Request.{request, asked};
ghost use Rattle.judging.specs.Calls.{looseness_reply, maximal_reply};
ghost use Rattle.bounds.specs.Calls.{core_reply, reach_reply};
ghost use Rattle.bounds.specs.BoundCalls.{first_bound_reply, second_bound_reply};
ghost use Rattle.largest.specs.Calls.{largest_reply};
ghost use Rattle.books.specs.Book.{change};
ghost use Rattle.kadvisk.specs.Outcome.{outcome, core_outcome, yes_no, itself, ListOutcome, ChangeOutcome};
ghost use Rattle.kadvisk.specs.Outcome.{ReadSheetOutcome, WriteSheetOutcome, ReadDimacsOutcome};

mod answer;

use judging::Request;
use search::Cuts;
use sets::Set;

// The outcome of a call. `number` is 0 for a success and else document 01's number of the refusal. `found` is what a question found: a looseness, 1 or 0
// for yes or no, a set's mask, a bound; it is 0 with a refusal, and where `value` says all. Of a largest k-plex `value` is the size and `found` the mask.
#[repr(C)]
#[derive(Clone, Copy)]
pub struct Outcome {
    pub number: usize,
    pub value: usize,
    pub found: u64,
}

// The outcome of a question for the core: of a success its mask, and the number of passes that it took. Both are 0 with a refusal.
#[repr(C)]
#[derive(Clone, Copy)]
pub struct CoreOutcome {
    pub number: usize,
    pub value: usize,
    pub core: u64,
    pub passes: usize,
}

// The outcome of reading a sheet: of a success n, the slack, the floor and the mask of the silent vertices, which are 0 with a refusal.
#[repr(C)]
#[derive(Clone, Copy)]
pub struct ReadOutcome {
    pub number: usize,
    pub value: usize,
    pub vertices: usize,
    pub slack: usize,
    pub floor: usize,
    pub silent: u64,
}

// How loose the set of the mask s is in the graph with these rows. Found: the least k for which it is a k-plex, also one above the limit of slack; 0 for
// no members. Refusals: 1, 4, 5, 7.
#[unsafe(no_mangle)]
pub extern "C" fn kadvisk_looseness(rows: &[u64], s: u64) -> Outcome
    ensures { result ≡ outcome itself (looseness_reply (masks rows.now) s) }
{
    answer::number(judging::looseness(rows, Set::from(s)))
}

// Is the set of the mask s a maximal k-plex of the graph with these rows? Found: 1 for yes, 0 for no. Refusals: 1, 2, 4, 5, 7.
#[unsafe(no_mangle)]
pub extern "C" fn kadvisk_is_maximal(rows: &[u64], slack: usize, s: u64) -> Outcome
    ensures { result ≡ outcome yes_no (maximal_reply (masks rows.now) slack s) }
{
    answer::judged(judging::judge_maximal(rows, slack, Set::from(s)))
}

// The core for this slack and floor, and the number of passes by rising number that peel it out, the last of which takes none. Refusals: 1, 2, 3, 4, 5.
#[unsafe(no_mangle)]
pub extern "C" fn kadvisk_core(rows: &[u64], slack: usize, floor: usize) -> CoreOutcome
    ensures { result ≡ core_outcome (core_reply (masks rows.now) slack floor) }
{
    answer::core(bounds::find_core(rows, slack, floor))
}

// The two-hop reach of the vertex v. Found: its mask. Refusals: 1, 4, 5, 7.
#[unsafe(no_mangle)]
pub extern "C" fn kadvisk_reach(rows: &[u64], v: usize) -> Outcome
    ensures { result ≡ outcome itself (reach_reply (masks rows.now) v) }
{
    answer::reach(bounds::find_reach(rows, v))
}

// C has a name for each bound, so they stand twice.
// The first bound on the k-plexes that hold s and v and have no vertex outside s and c. Found: the bound. Refusals: 1, 2, 4, 5, 7, 10.
#[unsafe(no_mangle)]
pub extern "C" fn kadvisk_first_bound(
    rows: &[u64],
    slack: usize,
    s: u64,
    c: u64,
    v: usize,
) -> Outcome
    ensures { result ≡ outcome itself (first_bound_reply (masks rows.now) slack s c v) }
{
    let found = bounds::first_bound(rows, slack, Set::from(s), Set::from(c), v);
    answer::number(found)
}

// The second bound, which is never above the first. Found: the bound. Refusals: 1, 2, 4, 5, 7, 10.
#[unsafe(no_mangle)]
pub extern "C" fn kadvisk_second_bound(
    rows: &[u64],
    slack: usize,
    s: u64,
    c: u64,
    v: usize,
) -> Outcome
    ensures { result ≡ outcome itself (second_bound_reply (masks rows.now) slack s c v) }
{
    let found = bounds::second_bound(rows, slack, Set::from(s), Set::from(c), v);
    answer::number(found)
}

// What is asked: a slack, a floor, and the mask of the silent vertices.
fn request_of(slack: usize, floor: usize, silent: u64) -> Request
    ensures { asked result ≡ request slack floor silent }
{
    Request {
        slack,
        floor,
        silent: Set::from(silent),
    }
}

// Every maximal k-plex with at least `floor` members that are not silent, as masks in rising order, each once. Value: m, their number; the first m slots hold
// them, and the later ones keep what they held. Refusals: 1, 2, 3, 7 for the silent mask, 4, 5, which leave the slots, and 6 with the exact m, which makes
// every slot 0.
#[unsafe(no_mangle)]
pub extern "C" fn kadvisk_list(
    rows: &[u64],
    slack: usize,
    floor: usize,
    silent: u64,
    slots: &mut [u64],
) -> Outcome
    ensures { ListOutcome (masks rows.now) (request slack floor silent) (masks slots.old) (masks slots.new) result }
{
    let found = search::list(rows, request_of(slack, floor, silent), slots);
    answer::value(found)
}

// Makes the vertices a and b adjacent, or not adjacent, in the book of these rows, slack, floor, silent vertices and slots: a graph with its list, which
// kadvisk_list opened. Nothing is taken from the slots. Value: m, the length of the list of the changed graph; both rows are changed, the first m slots hold
// the list, and the later ones keep what they held. Refusals: 1, 2, 3, 7 for the silent mask, 4, 5, 7 for a and b, 12 where they are the same, 13 where the
// edge is already so, and 6 with the exact m; each leaves rows and slots as they were.
#[unsafe(no_mangle)]
pub extern "C" fn kadvisk_change(
    rows: &mut [u64],
    slack: usize,
    floor: usize,
    silent: u64,
    a: usize,
    b: usize,
    adjacent: bool,
    slots: &mut [u64],
) -> Outcome
    ensures { ChangeOutcome (masks rows.old) (request slack floor silent) (change a b adjacent) (masks slots.old)
        (masks rows.new) (masks slots.new) result }
{
    let found = books::change(
        rows,
        request_of(slack, floor, silent),
        a,
        b,
        adjacent,
        slots,
    );
    answer::value(found)
}

// The largest k-plex that holds the set of the mask `forced`, which may be 0. Value: its size. Found: of the k-plexes of that size that hold the forced
// vertices the lowest mask. Refusals: 1, 2, 4, 5, 7, and 11 where the forced set is no k-plex.
#[unsafe(no_mangle)]
pub extern "C" fn kadvisk_largest(rows: &[u64], slack: usize, forced: u64) -> Outcome
    ensures { result ≡ outcome itself (largest_reply (masks rows.now) slack forced) }
{
    answer::largest(largest::largest(rows, slack, Set::from(forced)))
}

// The cuts that the bits of a word switch on: bit 0 is the core, and so on in the order of include/kadvisk.h. Every setting gives the same list, so
// nothing is promised of it.
fn cuts(flags: u64) -> Cuts {
    let on = Set::from(flags);
    Cuts {
        core: on.has(0),
        reach: on.has(1),
        pairs: on.has(2),
        second: on.has(3),
        parted: on.has(4),
        extension: on.has(5),
        pivot: on.has(6),
    }
}

// The same list, with each cut of the search switched on or off: for measuring, as only the time differs.
#[unsafe(no_mangle)]
pub extern "C" fn kadvisk_list_with(
    rows: &[u64],
    slack: usize,
    floor: usize,
    silent: u64,
    flags: u64,
    slots: &mut [u64],
) -> Outcome
    ensures { ListOutcome (masks rows.now) (request slack floor silent) (masks slots.old) (masks slots.new) result }
{
    let found = search::list_with(rows, request_of(slack, floor, silent), cuts(flags), slots);
    answer::value(found)
}

// Reads the sheet in the text into the first of the rows; later rows keep their contents.
// Refusals: 8 at line 1, 1, 2, 3, 8, 7, 4, 5, 14, 9, in this order; each leaves every row as it was.
#[unsafe(no_mangle)]
pub extern "C" fn kadvisk_read_sheet(text: &[u8], rows: &mut [u64]) -> ReadOutcome
    ensures { ReadSheetOutcome text.now (masks rows.old) (masks rows.new) result }
{
    answer::read(sheets::read_sheet(text, rows))
}

// Writes the sheet of the graph and the request to the front of the text; the bytes beyond it keep theirs. Value: its length, 24 + 17n.
// Refusals: 1, 2, 3, 7, 4, 5, 14, 9, in this order; each leaves the whole text as it was.
#[unsafe(no_mangle)]
pub extern "C" fn kadvisk_write_sheet(
    rows: &[u64],
    slack: usize,
    floor: usize,
    silent: u64,
    text: &mut [u8],
) -> Outcome
    ensures { WriteSheetOutcome (masks rows.now) (request slack floor silent) text.old text.new result }
{
    let written = sheets::write_sheet(rows, request_of(slack, floor, silent), text);
    answer::value(written)
}

// Reads the graph in the DIMACS form in the text into the first of the rows; later rows keep their contents. Value: n.
// Refusals: 15 and 1 as met from line 1 on, 15 where there is no p line, 16, 9; each leaves every row as it was.
#[unsafe(no_mangle)]
pub extern "C" fn kadvisk_read_dimacs(text: &[u8], rows: &mut [u64]) -> Outcome
    ensures { ReadDimacsOutcome text.now (masks rows.old) (masks rows.new) result }
{
    answer::value(dimacs::read_dimacs(text, rows))
}
