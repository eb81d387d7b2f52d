// The whole of what the program answers: the bytes of a sheet in, the bytes to print out.
#![tactic(auto)]

ghost use Rattle.sets.specs.Words.{masks};
ghost use Rattle.judging.specs.Request.{asked};
ghost use Rattle.answers.specs.Answer.{Answers, WritesList, Room};

mod output;

use judging::Request;
use sheets::lines;

// Lists the maximal k-plexes of the graph into the slots, and writes the list, or why there is none, to the front of `out`.
fn list_out(rows: &[u64], request: Request, slots: &mut [u64], out: &mut [u8]) -> usize
    requires { Room (masks slots.old) out.old }
    ensures { WritesList (masks rows.now) (asked request) (masks slots.old) (masks slots.new)
        out.old out.new result }
{
    match search::list(rows, request, slots) {
        Ok(m) => {
            let end = sets::offset(slots, m);
            output::write_list(&slots[..end], out)
        }
        Err(f) => output::write_refusal(f, out),
    }
}

// How many slots the program has (document 01), and the words of them.
const SLOTS: usize = 4096;

pub const SLOT_WORDS: usize = SLOTS * sets::WORDS;

// The length of the longest answer: a line for m, and one for each slot.
pub const MOST_OUTPUT: usize = (SLOTS + 1) * lines::ROW_LENGTH;

// Answers the text: reads it as a sheet, lists the maximal k-plexes into the slots, and writes what the program prints to the front of `out`.
// Outcome: how many bytes that is; the bytes beyond keep their contents.
// What is printed for a text that is refused is its refusal, which leaves the slots as they were; number 6 makes all of them 0.
// Cost: that of the list.
pub fn answer(text: &[u8], slots: &mut [u64; SLOT_WORDS], out: &mut [u8; MOST_OUTPUT]) -> usize
    ensures { Answers text.now (masks slots.old) (masks slots.new) out.old out.new result }
{
    let mut rows = [0u64; sets::TABLE];
    match sheets::read_sheet(text, &mut rows) {
        Ok(sheet) => {
            let end = sets::offset(&rows, sheet.vertices);
            list_out(&rows[..end], sheet.request, slots, out)
        }
        Err(f) => output::write_refusal(f, out),
    }
}
