// Lines: digits, and byte 10 at their end.
ghost use Rattle.std.specs.Prelude.{◌≡◌, ◌+◌, ◌-◌, ◌*◌, ◌≤◌, ◌<◌, eqb, length, slice_index};
ghost use Rattle.sets.specs.Words.{mask, masks};
ghost use Rattle.sheets.specs.Digits.{word_digits, digits};
ghost use Rattle.sheets.specs.Lines.{newline, line, lines};
ghost use Rattle.sheets.specs.Sheet.{row_digits, row_length, over};
ghost use Rattle.sheets.specs.Setting.{ReadsLine};

use crate::digits;
use sets::Set;

pub(crate) const NEWLINE: u8 = b'\n';

// A digit for each four vertices that a row can have, and the byte that ends the line.
pub(crate) const ROW_DIGITS: usize = judging::check::MOST_VERTICES / 4;

pub const ROW_LENGTH: usize = ROW_DIGITS + 1;

// Is the line of the first `places` bytes ended there? One cut short is not.
pub(crate) fn is_ended(text: &[u8], places: usize) -> bool
    ensures { result ≡ eqb (slice_index text.now places) newline }
{
    places < text.len() && text[places] == NEWLINE
}

// The number on the line of `places` digits that the text begins with; none where it is wrong, cut short or missing.
pub(crate) fn read(text: &[u8], places: usize) -> Option<u64>
    requires { places ≤ word_digits }
    ensures { ReadsLine places text.now result }
{
    if !is_ended(text, places) {
        return None;
    }
    digits::read(&text[..places])
}

// Fills the text with the last digits of x and the byte that ends a line.
pub fn write_line(text: &mut [u8], x: u64)
    requires { 0 < length text.old }
    ensures { text.new ≡ line (digits (length text.old - 1) x) }
{
    let end = text.len() - 1;
    digits::write(&mut text[..end], x);
    text[end] = NEWLINE;
}

// Fills the text with the last digits of the mask of s, no more than a word has, and the byte that ends a line: a row, or a set of a list.
pub(crate) fn write_row(text: &mut [u8], s: Set)
    requires { (0 < length text.old) × (length text.old ≤ word_digits + 1) }
    ensures { text.new ≡ line (digits (length text.old - 1) (mask s)) }
{
    write_line(text, s.word(0));
}

// Writes each set on a line, to the front of the text: the rows of a graph, or the sets of a list.
pub fn write_rows(rows: &[u64], text: &mut [u8])
    requires { length (masks rows.now) * row_length ≤ length text.old }
    ensures { text.new ≡ over (lines row_digits (masks rows.now)) text.old }
{
    for a in 0..sets::count(rows) {
        let start = a * ROW_LENGTH;
        write_row(&mut text[start..start + ROW_LENGTH], sets::get(rows, a));
    }
}
