// The lines below line 1: the silent set in line 2, and then row after row, one row a line.
ghost use Rattle.std.specs.Prelude.{◌≡◌, [], ◌∷◌, ◌+◌, ◌*◌, ◌≤◌, length};
ghost use Rattle.sets.specs.Words.{width, mask, masks};
ghost use Rattle.judging.specs.Setting.{Sized};
ghost use Rattle.sheets.specs.Lines.{lines};
ghost use Rattle.sheets.specs.Sheet.{row_digits, row_length, lines_cause, body_causes, over};
ghost use Rattle.sheets.specs.Setting.{Judged, SaysSets, ReadsSet};

use crate::{isolated, lines};
use judging::{Refusal, check};
use sets::Set;

// The set in line a of the text, counted from 0, which is line a + 2 of the sheet.
fn read_set(text: &[u8], a: usize) -> Result<Set, Refusal>
    requires { (a ≤ width) × (a * row_length ≤ length text.now) }
    ensures { ReadsSet a text.now result }
{
    let start = a * lines::ROW_LENGTH;
    let Some(word) = lines::read(&text[start..], lines::ROW_DIGITS) else {
        return Err(Refusal::Line(a + 2));
    };
    Ok(Set::from(word))
}

// Reads the silent set and n rows, and stores the rows. Refusal: 8.
fn read_lines(text: &[u8], rows: &mut [u64]) -> Result<Set, Refusal>
    requires { Sized (masks rows.old) }
    ensures { let n = length (masks rows.old) in Judged (lines_cause (n + 1) text.now ∷ []) (SaysSets n text.now (masks rows.new)) result }
{
    let silent = read_set(text, 0)?;
    let n = sets::count(rows);
    for a in 0..n {
        let row = read_set(text, a + 1)?;
        sets::put(rows, a, row);
    }
    let count = n + 1;
    if count * lines::ROW_LENGTH < text.len() {
        return Err(Refusal::Line(count + 2));
    }
    Ok(silent)
}

// Reads the silent set and n rows, and stores the rows. Refusals: 8, 7, 4, 5, 14; one may leave some of the rows stored.
pub fn read_body(text: &[u8], rows: &mut [u64]) -> Result<Set, Refusal>
    requires { Sized (masks rows.old) }
    ensures { let n = length (masks rows.old) in Judged (body_causes n text.now) (SaysSets n text.now (masks rows.new)) result }
{
    let silent = read_lines(text, rows)?;
    check::check_silent(rows, silent)?;
    isolated::check_isolated(rows)?;
    Ok(silent)
}

// Writes the silent set and then each row on a line, to the front of the text.
pub fn write_body(silent: Set, rows: &[u64], text: &mut [u8])
    requires { (length (masks rows.now) + 1) * row_length ≤ length text.old }
    ensures { text.new ≡ over (lines row_digits (mask silent ∷ masks rows.now)) text.old }
{
    lines::write_row(&mut text[..lines::ROW_LENGTH], silent);
    lines::write_rows(rows, &mut text[lines::ROW_LENGTH..]);
}
