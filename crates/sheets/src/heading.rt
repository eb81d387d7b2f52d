// Line 1: n, k and q, two digits each.
ghost use Rattle.std.specs.Prelude.{◌≡◌, ◌++◌, ◌≤◌, length, drop};
ghost use Rattle.judging.specs.Request.{asked};
ghost use Rattle.sheets.specs.Sheet.{heading_length, heading_text, heading_causes};
ghost use Rattle.sheets.specs.Setting.{Judged, SaysFields, ReadsFields};

use crate::{digits, lines};
use judging::{Refusal, Request, check};

// Where each field starts, and where the last one ends.
const VERTICES_AT: usize = 0;

const SLACK_AT: usize = 2;

const FLOOR_AT: usize = 4;

const HEADING_DIGITS: usize = 6;

pub const HEADING_LENGTH: usize = HEADING_DIGITS + 1;

// What line 1 says: the number of vertices, the slack and the floor.
#[derive(Clone, Copy)]
pub struct Heading {
    pub vertices: usize,
    pub slack: usize,
    pub floor: usize,
}

// The fields of line 1; none where it is not as laid out.
fn read_fields(text: &[u8]) -> Option<Heading>
    ensures { ReadsFields text.now result }
{
    if !lines::is_ended(text, HEADING_DIGITS) {
        return None;
    }
    let vertices = digits::read(&text[VERTICES_AT..SLACK_AT])? as usize;
    let slack = digits::read(&text[SLACK_AT..FLOOR_AT])? as usize;
    let floor = digits::read(&text[FLOOR_AT..HEADING_DIGITS])? as usize;
    Some(Heading {
        vertices,
        slack,
        floor,
    })
}

// Reads line 1. Refusals: 8 at line 1, 1, 2, 3.
pub fn read_heading(text: &[u8]) -> Result<Heading, Refusal>
    ensures { Judged (heading_causes text.now) (SaysFields text.now) result }
{
    let Some(heading) = read_fields(text) else {
        return Err(Refusal::Line(1));
    };
    check::check_numbers(heading.vertices, heading.slack, heading.floor)?;
    Ok(heading)
}

// Writes line 1 to the front of the text.
pub fn write_heading(n: usize, request: Request, text: &mut [u8])
    requires { heading_length ≤ length text.old }
    ensures { text.new ≡ heading_text n (asked request) ++ drop heading_length text.old }
{
    digits::write(&mut text[VERTICES_AT..SLACK_AT], n as u64);
    digits::write(&mut text[SLACK_AT..FLOOR_AT], request.slack as u64);
    digits::write(&mut text[FLOOR_AT..HEADING_DIGITS], request.floor as u64);
    text[HEADING_DIGITS] = lines::NEWLINE;
}
