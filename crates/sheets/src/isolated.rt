// Isolated vertices, those whose row is 0: a sheet with one is neither read nor written.
ghost use Rattle.std.specs.Prelude.{◌≡◌, [], ◌∷◌, length};
ghost use Rattle.sets.specs.Words.{masks};
ghost use Rattle.judging.specs.Refusal.{first_cause};
ghost use Rattle.judging.specs.Calls.{passed, checked_reply};
ghost use Rattle.judging.specs.Setting.{FindsRow};
ghost use Rattle.sheets.specs.Sheet.{isolated, isolated_cause};

use judging::Refusal;

// The lowest row that is 0.
fn lowest_isolated(rows: &[u64]) -> Option<usize>
    ensures { FindsRow (isolated (masks rows.now)) (length (masks rows.now)) result }
{
    let n = sets::count(rows);
    for a in 0..n {
        if sets::get(rows, a).is_empty() {
            return Some(a);
        }
    }
    None
}

// Refusal 14.
pub fn check_isolated(rows: &[u64]) -> Result<(), Refusal>
    ensures { checked_reply result ≡ first_cause (isolated_cause (masks rows.now) ∷ []) passed }
{
    if let Some(a) = lowest_isolated(rows) {
        return Err(Refusal::Isolated(a));
    }
    Ok(())
}
