// Checks of the input that the calls share. Each gives the first cause of document 01's table that holds, in its order.
ghost use Rattle.std.specs.Prelude.{◌≡◌, not, ◌*◌, ◌-◌, ◌<◌, ◌≤◌, List, [], ◌∷◌, ◌++◌, length};
ghost use Rattle.sets.specs.Words.{mask, masks};
ghost use Rattle.judging.specs.Request.{asked};
ghost use Rattle.judging.specs.Refusal.{most_vertices, most_slack, outside, Cause, first_cause, bad_row, one_way, graph_causes, set_cause};
ghost use Rattle.judging.specs.Calls.{passed, checked_reply, graph_check, slack_check, number_check, floor_check, request_check, inside_check, set_check};
ghost use Rattle.judging.specs.Setting.{Sized, LowRows, FindsRow};

use crate::{Refusal, Request};
use sets::Set;

// The most vertices, and the most slack.
pub const MOST_VERTICES: usize = 64;

pub const MOST_SLACK: usize = 5;

// Is n one of lo to hi?
pub fn is_between(lo: usize, hi: usize, n: usize) -> bool
    ensures { result ≡ not (outside lo hi n) }
{
    lo <= n && n <= hi
}

// Is n a number of vertices that is accepted?
pub fn vertices_accepted(n: usize) -> bool
    ensures { result ≡ not (outside 1 most_vertices n) }
{
    is_between(1, MOST_VERTICES, n)
}

// Is k a slack that is accepted?
fn slack_accepted(k: usize) -> bool
    ensures { result ≡ not (outside 1 most_slack k) }
{
    is_between(1, MOST_SLACK, k)
}

// Is q a floor that is accepted beside the slack k?
fn floor_accepted(k: usize, q: usize) -> bool
    requires { (1 ≤ k) × (k ≤ most_slack) }
    ensures { result ≡ not (outside (2 * k - 1) most_vertices q) }
{
    is_between(2 * k - 1, MOST_VERTICES, q)
}

// Is the number of rows accepted?
fn rows_accepted(rows: &[u64]) -> bool
    ensures { result ≡ not (outside 1 most_vertices (length (masks rows.now))) }
{
    vertices_accepted(sets::count(rows))
}

// Has row a its own bit, or a bit of n or above?
fn is_bad_row(rows: &[u64], a: usize) -> bool
    requires { Sized (masks rows.now) × (a < length (masks rows.now)) }
    ensures { result ≡ bad_row (masks rows.now) a }
{
    let row = sets::get(rows, a);
    row.has(a) || !row.below(sets::count(rows))
}

// The lowest row that has its own bit or a bit of n or above.
fn lowest_bad_row(rows: &[u64]) -> Option<usize>
    requires { Sized (masks rows.now) }
    ensures { FindsRow (bad_row (masks rows.now)) (length (masks rows.now)) result }
{
    let n = sets::count(rows);
    // answered behind the loop: within it, the compiler sets the numbers of the refusal anew for each row
    let mut lowest = n;
    for a in 0..n {
        if is_bad_row(rows, a) {
            lowest = a;
            break;
        }
    }
    if lowest < n {
        return Some(lowest);
    }
    None
}

// The lowest row a that has a b whose row lacks a.
fn lowest_one_way(rows: &[u64]) -> Option<usize>
    requires { LowRows (masks rows.now) }
    ensures { FindsRow (one_way (masks rows.now)) (length (masks rows.now)) result }
{
    let mut found = None;
    'rows: for a in 0..sets::count(rows) {
        let mut left = sets::get(rows, a);
        while !left.is_empty() {
            let b = left.lowest();
            if !sets::get(rows, b).has(a) {
                found = Some(a);
                break 'rows;
            }
            left = left.rest(b);
        }
    }
    found
}

// Refusals 4 and 5.
pub fn check_edges(rows: &[u64]) -> Result<(), Refusal>
    requires { Sized (masks rows.now) }
    ensures { checked_reply result ≡ first_cause (graph_causes (masks rows.now)) passed }
{
    if let Some(a) = lowest_bad_row(rows) {
        return Err(Refusal::Row(a));
    }
    if let Some(a) = lowest_one_way(rows) {
        return Err(Refusal::OneWay(a));
    }
    Ok(())
}

// Refusals 1, 4 and 5.
pub fn check_graph(rows: &[u64]) -> Result<(), Refusal>
    ensures { checked_reply result ≡ first_cause (graph_check (masks rows.now)) passed }
{
    if !rows_accepted(rows) {
        return Err(Refusal::Vertices);
    }
    check_edges(rows)
}

// Refusals 1, 2, 4 and 5.
fn check_slack(rows: &[u64], slack: usize) -> Result<(), Refusal>
    ensures { checked_reply result ≡ first_cause (slack_check (masks rows.now) slack) passed }
{
    if !rows_accepted(rows) {
        return Err(Refusal::Vertices);
    }
    if !slack_accepted(slack) {
        return Err(Refusal::Slack);
    }
    check_edges(rows)
}

// Refusals 1, 2 and 3.
pub fn check_numbers(n: usize, slack: usize, floor: usize) -> Result<(), Refusal>
    ensures { checked_reply result ≡ first_cause (number_check n slack floor) passed }
{
    if !vertices_accepted(n) {
        return Err(Refusal::Vertices);
    }
    if !slack_accepted(slack) {
        return Err(Refusal::Slack);
    }
    if !floor_accepted(slack, floor) {
        return Err(Refusal::Floor);
    }
    Ok(())
}

// Refusals 1, 2, 3, 4 and 5.
pub fn check_floor(rows: &[u64], slack: usize, floor: usize) -> Result<(), Refusal>
    ensures { checked_reply result ≡ first_cause (floor_check (masks rows.now) slack floor) passed }
{
    check_numbers(sets::count(rows), slack, floor)?;
    check_edges(rows)
}

// Refusal 7: is a member of s no vertex?
fn check_below(rows: &[u64], s: Set) -> Result<(), Refusal>
    requires { Sized (masks rows.now) }
    ensures { checked_reply result ≡ first_cause (set_cause (masks rows.now) (mask s) ∷ []) passed }
{
    if !s.below(sets::count(rows)) {
        return Err(Refusal::Outside);
    }
    Ok(())
}

// Refusal 7 of the silent set, and then 4 and 5.
pub fn check_silent(rows: &[u64], silent: Set) -> Result<(), Refusal>
    requires { Sized (masks rows.now) }
    ensures { checked_reply result ≡ first_cause (set_cause (masks rows.now) (mask silent) ∷ graph_causes (masks rows.now)) passed }
{
    check_below(rows, silent)?;
    check_edges(rows)
}

// Refusals 1, 2, 3, 7, 4 and 5.
pub fn check_request(rows: &[u64], request: Request) -> Result<(), Refusal>
    ensures { checked_reply result ≡ first_cause (request_check (masks rows.now) (asked request)) passed }
{
    check_numbers(sets::count(rows), request.slack, request.floor)?;
    check_silent(rows, request.silent)
}

// Refusals 1, 4, 5 and 7.
pub(crate) fn check_inside(rows: &[u64], s: Set) -> Result<(), Refusal>
    ensures { checked_reply result ≡ first_cause (inside_check (masks rows.now) (mask s)) passed }
{
    check_graph(rows)?;
    check_below(rows, s)
}

// Refusals 1, 2, 4, 5 and 7.
pub fn check_set(rows: &[u64], slack: usize, s: Set) -> Result<(), Refusal>
    ensures { checked_reply result ≡ first_cause (set_check (masks rows.now) slack (mask s)) passed }
{
    check_slack(rows, slack)?;
    check_below(rows, s)
}
