// Sheets: a graph with a request as text. Line 1 has n, k and q, two digits each; then the silent set, and then each row, has a line of 16 digits.
// A graph with an isolated vertex has none: it is declined.
#![tactic(auto)]

ghost use Rattle.std.specs.Prelude.{◌≡◌, ◌≤◌, length};
ghost use Rattle.sets.specs.Words.{width, masks};
ghost use Rattle.judging.specs.Request.{asked};
ghost use Rattle.judging.specs.Refusal.{first_cause};
ghost use Rattle.judging.specs.Calls.{passed};
ghost use Rattle.sheets.specs.Sheet.{heading_causes, sheet_causes};
ghost use Rattle.sheets.specs.Setting.{Judged, SaysFields, SaysSheet};
ghost use Rattle.sheets.specs.Calls.{ReadSheet, WroteSheet};

mod body;
pub mod digits;
mod heading;
mod isolated;
pub mod lines;

use heading::Heading;
use judging::{Refusal, Request, check};

// What is returned of a sheet that is read: how many vertices its graph has, and its request.
#[derive(Clone, Copy, PartialEq, Eq)]
pub struct Sheet {
    pub vertices: usize,
    pub request: Request,
}

// Reads the text as a sheet whose line 1 has passed, and stores its rows in the first of the table. Refusals: 8, 7, 4, 5, 14; one may leave some rows stored.
fn read_text(text: &[u8], heading: Heading, table: &mut [u64]) -> Result<Sheet, Refusal>
    requires { SaysFields text.now heading × (passed ≡ first_cause (heading_causes text.now) passed) × (width ≤ length (masks table.old)) }
    ensures { Judged (sheet_causes text.now) (SaysSheet text.now (masks table.new)) result }
{
    let end = sets::offset(table, heading.vertices);
    let silent = body::read_body(&text[heading::HEADING_LENGTH..], &mut table[..end])?;
    Ok(Sheet {
        vertices: heading.vertices,
        request: Request {
            slack: heading.slack,
            floor: heading.floor,
            silent,
        },
    })
}

// Reads the sheet in the text and stores its rows in the first of the lent rows.
// Success gives n, the slack, the floor and the silent set; the rows after the first n keep their contents.
// Refusals: 8 at line 1, 1, 2, 3, 8, 7, 4, 5, 14, 9, in this order; a refusal leaves every row as it was.
// Cost: one pass over the text and four over the table.
pub fn read_sheet(text: &[u8], rows: &mut [u64]) -> Result<Sheet, Refusal>
    ensures { ReadSheet text.now (masks rows.old) (masks rows.new) result }
{
    let heading = heading::read_heading(text)?;
    // The rows are read into a table of the call's own: a later line, or the room, may be refused. It is made once line 1 has passed, since to empty it takes
    // as long as to refuse line 1.
    let mut table = [0u64; sets::TABLE];
    let sheet = read_text(text, heading, &mut table)?;
    if sets::count(rows) < sheet.vertices {
        return Err(Refusal::Room(sheet.vertices));
    }
    let end = sets::offset(rows, sheet.vertices);
    rows[..end].copy_from_slice(&table[..end]);
    Ok(sheet)
}

// Writes the sheet of the graph with these rows and of the request to the front of the text.
// Success gives the sheet's length, 24 + 17n; the bytes beyond it keep their contents.
// Refusals: 1, 2, 3, 7, 4, 5, 14, 9, in this order; a refusal leaves the whole text as it was.
// Cost: two passes over the table and one over the sheet.
pub fn write_sheet(rows: &[u64], request: Request, text: &mut [u8]) -> Result<usize, Refusal>
    ensures { WroteSheet (masks rows.now) (asked request) text.old text.new result }
{
    check::check_request(rows, request)?;
    isolated::check_isolated(rows)?;
    let n = sets::count(rows);
    let needed = heading::HEADING_LENGTH + (n + 1) * lines::ROW_LENGTH;
    if text.len() < needed {
        return Err(Refusal::Room(needed));
    }
    heading::write_heading(n, request, text);
    body::write_body(request.silent, rows, &mut text[heading::HEADING_LENGTH..]);
    Ok(needed)
}
