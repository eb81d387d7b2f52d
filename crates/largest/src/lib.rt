// The largest k-plex that holds forced vertices, and the lowest mask of one of its size.
#![tactic(auto)]

ghost use Rattle.std.specs.Prelude.{◌≡◌};
ghost use Rattle.sets.specs.Words.{mask, masks};
ghost use Rattle.judging.specs.Request.{request};
ghost use Rattle.search.specs.Start.{Searchable};
ghost use Rattle.largest.specs.Largest.{Largest};
ghost use Rattle.largest.specs.Fit.{Forced};
ghost use Rattle.largest.specs.Calls.{largest_reply, largest_found_reply};

mod cliques;
mod colours;
mod lowest;
mod seek;
mod start;
mod table;
mod task;

use judging::Refusal;
use sets::Set;
use table::Table;

// The largest k-plex that holds the forced vertices: a larger one is sought until there is none, and then the lowest of its size.
fn climb(rows: &[u64], k: usize, forced: Set) -> Set
    requires { Searchable (masks rows.now) (request k 0 0) × Forced (masks rows.now) k (mask forced) }
    ensures { Largest (masks rows.now) k (mask forced) (mask result) }
{
    let n = sets::count(rows);
    let mut near = [0u64; sets::TABLE];
    let mut table = Table::new(rows, k, &mut near);
    let mut best = table.task(0, forced).first();
    while best.size() < n {
        let size = best.size();
        table.refill(size);
        let Some(found) = table.task(size + 1, forced).holding() else {
            table.settle(size);
            break;
        };
        best = found;
    }
    table.task(best.size(), forced).lowest(best)
}

// The largest k-plex that holds the forced vertices, for the slack k, and of those of its size the one with the lowest mask. The forced set may be empty.
// Refusals: 1, 2, 4, 5, 7, and 11 where the forced set is no k-plex. Cost: exponential in the worst case.
pub fn largest(rows: &[u64], slack: usize, forced: Set) -> Result<Set, Refusal>
    ensures { largest_found_reply result ≡ largest_reply (masks rows.now) slack (mask forced) }
{
    judging::check::check_set(rows, slack, forced)?;
    if slack < judging::plex::looseness(rows, forced) {
        return Err(Refusal::Forced);
    }
    Ok(climb(rows, slack, forced))
}
