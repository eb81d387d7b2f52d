// Graphs in the DIMACS form: comment lines, a line `p edge n m`, and a line `e u v` for each edge, with vertices from 1.
#![tactic(auto)]

ghost use Rattle.std.specs.Prelude.{◌≡◌, []};
ghost use Rattle.sets.specs.Words.{width, masks};
ghost use Rattle.dimacs.specs.Lines.{lines};
ghost use Rattle.dimacs.specs.Dimacs.{start, rows_of, read_lines};
ghost use Rattle.dimacs.specs.Calls.{ReadDimacs};
ghost use Rattle.dimacs.specs.Setting.{Scanned};

mod figures;
pub mod lines;
pub mod reader;
pub mod state;

use judging::Refusal;
use reader::Reader;
use state::Scan;

// Reads the lines of the text, and sets the edges in the table. Refusals: 15, 1, as met.
fn read_lines(text: &[u8], table: &mut [u64]) -> Result<Scan, Refusal>
    requires { masks table.old ≡ rows_of width [] }
    ensures { Scanned (read_lines 1 start (lines text.now)) result (masks table.new) }
{
    let mut scan = Scan {
        number: 1,
        progress: None,
    };
    for line in Reader::new(text) {
        scan = Scan {
            number: scan.number + 1,
            progress: scan.take_line(line.kind, table)?,
        };
    }
    Ok(scan)
}

// Reads the graph in the text and stores its rows in the first of the lent rows. Success gives n; the rows after the first n keep their contents.
// Refusals: 15 and 1 as met from line 1 on, 15 where there is no p line, 16, 9; a refusal leaves every row as it was.
// Cost: two passes over the text and one over the rows.
pub fn read_dimacs(text: &[u8], rows: &mut [u64]) -> Result<usize, Refusal>
    ensures { ReadDimacs text.now (masks rows.old) (masks rows.new) result }
{
    let mut table = [0u64; sets::TABLE];
    let scan = read_lines(text, &mut table)?;
    let n = scan.end(sets::count(rows))?;
    lists::place::copy(&table, n, rows);
    Ok(n)
}
