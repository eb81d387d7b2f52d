// Checks of a change. Each gives the first cause that holds, in the order of the call.
ghost use Rattle.std.specs.Prelude.{◌≡◌};
ghost use Rattle.sets.specs.Words.{masks};
ghost use Rattle.judging.specs.Request.{asked};
ghost use Rattle.judging.specs.Refusal.{first_cause};
ghost use Rattle.judging.specs.Calls.{passed, checked_reply};
ghost use Rattle.judging.specs.Setting.{Sized};
ghost use Rattle.books.specs.Book.{change_of};
ghost use Rattle.books.specs.Calls.{pair_causes, change_check};

use crate::edge::Change;
use judging::{Refusal, Request};

// Refusals 7 for the vertices, 12 and 13.
fn check_pair(rows: &[u64], change: Change) -> Result<(), Refusal>
    requires { Sized (masks rows.now) }
    ensures { checked_reply result ≡ first_cause (pair_causes (masks rows.now) (change_of change)) passed }
{
    let n = sets::count(rows);
    if n <= change.a {
        return Err(Refusal::Outside);
    }
    if n <= change.b {
        return Err(Refusal::Outside);
    }
    if change.a == change.b {
        return Err(Refusal::Loop);
    }
    if change.is_so(rows) {
        return Err(Refusal::Unchanged);
    }
    Ok(())
}

// Refusals 1, 2, 3, 7 for the silent set, 4, 5, 7 for the vertices, 12 and 13.
pub fn check_change(rows: &[u64], request: Request, change: Change) -> Result<(), Refusal>
    ensures { checked_reply result ≡ first_cause (change_check (masks rows.now) (asked request) (change_of change)) passed }
{
    judging::check::check_request(rows, request)?;
    check_pair(rows, change)
}
