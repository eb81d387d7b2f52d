// The graph: valid tables, refusals, k-plexes and maximal k-plexes, and the calls that judge a set.
#![tactic(auto)]

ghost use Rattle.std.specs.Prelude.{◌≡◌};
ghost use Rattle.sets.specs.Words.{mask, masks};
ghost use Rattle.judging.specs.Calls.{number_of, value_of, found_reply, looseness_reply, maximal_reply};

pub mod check;
pub mod plex;
pub mod survey;

use sets::Set;

// Why a call declines. `number_of` and `value_of` in specs/Calls.antt give document 01's number and value.
#[derive(Clone, Copy, PartialEq, Eq)]
pub enum Refusal {
    Vertices,
    Slack,
    Floor,
    Row(usize),
    OneWay(usize),
    Slots(usize),
    Outside,
    Line(usize),
    Room(usize),
    Bound,
    Forced,
    Loop,
    Unchanged,
    Isolated(usize),
    DimacsLine(usize),
    EdgeCount,
}

// What is asked of a graph: the slack k, the floor q, and the silent vertices, which do not count at the floor.
#[derive(Clone, Copy, PartialEq, Eq)]
pub struct Request {
    pub slack: usize,
    pub floor: usize,
    pub silent: Set,
}

impl Refusal {
    // Document 01's number of the refusal.
    pub fn number(self) -> usize
        ensures { result ≡ number_of self }
    {
        match self {
            Refusal::Vertices => 1,
            Refusal::Slack => 2,
            Refusal::Floor => 3,
            Refusal::Row(_) => 4,
            Refusal::OneWay(_) => 5,
            Refusal::Slots(_) => 6,
            Refusal::Outside => 7,
            Refusal::Line(_) => 8,
            Refusal::Room(_) => 9,
            Refusal::Bound => 10,
            Refusal::Forced => 11,
            Refusal::Loop => 12,
            Refusal::Unchanged => 13,
            Refusal::Isolated(_) => 14,
            Refusal::DimacsLine(_) => 15,
            Refusal::EdgeCount => 16,
        }
    }

    // The value that document 01 returns with the refusal.
    pub fn value(self) -> usize
        ensures { result ≡ value_of self }
    {
        match self {
            Refusal::Row(a) | Refusal::OneWay(a) | Refusal::Isolated(a) => a,
            Refusal::Slots(m) => m,
            Refusal::Room(n) => n,
            Refusal::Line(l) | Refusal::DimacsLine(l) => l,
            Refusal::Vertices
            | Refusal::Slack
            | Refusal::Floor
            | Refusal::Outside
            | Refusal::Bound
            | Refusal::Forced
            | Refusal::Loop
            | Refusal::Unchanged
            | Refusal::EdgeCount => 0,
        }
    }
}

// How loose the set s is in the graph with these rows: the least k for which it is a k-plex, also one that no call takes as slack.
// Refusals: 1, 4, 5, 7. Cost: one pass over the table and one over the members.
pub fn looseness(rows: &[u64], s: Set) -> Result<usize, Refusal>
    ensures { found_reply result ≡ looseness_reply (masks rows.now) (mask s) }
{
    check::check_inside(rows, s)?;
    Ok(plex::looseness(rows, s))
}

// Is the set s a maximal k-plex of the graph with these rows, for the slack k?
// Refusals: 1, 2, 4, 5, 7. Cost: one pass over the table and two over the vertices.
pub fn judge_maximal(rows: &[u64], slack: usize, s: Set) -> Result<bool, Refusal>
    ensures { found_reply result ≡ maximal_reply (masks rows.now) slack (mask s) }
{
    check::check_set(rows, slack, s)?;
    Ok(plex::is_maximal(rows, slack, s))
}
