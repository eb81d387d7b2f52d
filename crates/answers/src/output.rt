// What is printed: lists and refusals, each written to the front of lent bytes.
ghost use Rattle.std.specs.Prelude.{◌≡◌, ◌+◌, ◌%◌, ◌≤◌, length};
ghost use Rattle.sets.specs.Words.{masks};
ghost use Rattle.judging.specs.Calls.{number_of, value_of};
ghost use Rattle.answers.specs.Output.{figure_zero, list_text, refusal_text, list_length, refusal_length, Writes};

use judging::Refusal;
use sheets::lines;

// R, the number, and a blank stand before the value's line.
const VALUE_AT: usize = 4;

const REFUSAL_LENGTH: usize = VALUE_AT + lines::ROW_LENGTH;

// The last decimal digit of x.
fn decimal(x: usize) -> u8
    ensures { result ≡ x % 10 + figure_zero }
{
    (x % 10) as u8 + b'0'
}

// Writes the number of the masks on a line, and then each mask. Gives the length of what is written.
pub fn write_list(list: &[u64], out: &mut [u8]) -> usize
    requires { list_length (length (masks list.now)) ≤ length out.old }
    ensures { Writes (list_text (masks list.now)) out.old out.new result }
{
    let m = sets::count(list);
    lines::write_line(&mut out[..lines::ROW_LENGTH], m as u64);
    lines::write_rows(list, &mut out[lines::ROW_LENGTH..]);
    (m + 1) * lines::ROW_LENGTH
}

// Writes R, the refusal's number, a blank and its value. Gives the length of what is written.
pub fn write_refusal(refusal: Refusal, out: &mut [u8]) -> usize
    requires { refusal_length ≤ length out.old }
    ensures { Writes (refusal_text (number_of refusal) (value_of refusal)) out.old out.new result }
{
    let number = refusal.number();
    let mark = [b'R', decimal(number / 10), decimal(number), b' '];
    out[..VALUE_AT].copy_from_slice(&mark);
    lines::write_line(&mut out[VALUE_AT..REFUSAL_LENGTH], refusal.value() as u64);
    REFUSAL_LENGTH
}
