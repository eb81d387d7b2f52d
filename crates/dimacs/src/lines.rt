// Lines: where one ends, and what it is.
ghost use Rattle.std.specs.Prelude.{◌≡◌, ◌≤◌, ◌<◌, ◌==◌, length};
ghost use Rattle.std.specs.List.{position};
ghost use Rattle.dimacs.specs.Lines.{problem_kind, edge_kind, shape_of};
ghost use Rattle.dimacs.specs.Setting.{fields_value, kind_told, capped_kind, FirstLine};

use crate::figures;

// What a line is, where it has one of these shapes. A number above MOST_EDGES is told as one more than that.
#[derive(Clone, Copy)]
pub enum Kind {
    Comment,
    Problem { vertices: usize, edges: usize },
    Edge { u: usize, v: usize },
}

// A line: what it is, and where the next one starts.
#[derive(Clone, Copy)]
pub struct Line {
    pub kind: Option<Kind>,
    pub next: usize,
}

// Where the first byte b of the text stands, where there is one.
fn find(text: &[u8], b: u8) -> Option<usize>
    ensures { result ≡ position (λ x. x == b) text.now }
{
    text.iter().position(|x| *x == b)
}

// The numbers of a text that is two figures, parted by one blank.
fn fields(text: &[u8]) -> Option<(usize, usize)>
    ensures { result ≡ fields_value text.now }
{
    let i = find(text, b' ')?;
    let first = figures::figure(&text[..i])?;
    let second = figures::figure(&text[i + 1..])?;
    Some((first, second))
}

// What a line is that has this behind `e `.
fn edge(text: &[u8]) -> Option<Kind>
    ensures { kind_told result ≡ capped_kind (edge_kind text.now) }
{
    let (u, v) = fields(text)?;
    Some(Kind::Edge { u, v })
}

// What a line is that has this behind `p edge `.
fn problem(text: &[u8]) -> Option<Kind>
    ensures { kind_told result ≡ capped_kind (problem_kind text.now) }
{
    let (vertices, edges) = fields(text)?;
    if figures::MOST_EDGES < edges {
        return None;
    }
    Some(Kind::Problem { vertices, edges })
}

// What a line of these bytes is.
fn shape(line: &[u8]) -> Option<Kind>
    ensures { kind_told result ≡ capped_kind (shape_of line.now) }
{
    let (letter, rest) = line.split_first()?;
    match letter {
        b'c' => Some(Kind::Comment),
        b'p' => problem(rest.strip_prefix(b" edge ")?),
        b'e' => edge(rest.strip_prefix(b" ")?),
        _ => None,
    }
}

// The line of the text at the position `at`, where there is one. A line that no byte 10 ends is of no shape.
pub fn line_from(text: &[u8], at: usize) -> Line
    requires { at < length text.now }
    ensures { FirstLine text.now at result }
{
    let rest = &text[at..];
    let Some(i) = find(rest, b'\n') else {
        return Line {
            kind: None,
            next: text.len(),
        };
    };
    Line {
        kind: shape(&rest[..i]),
        next: at + i + 1,
    }
}
