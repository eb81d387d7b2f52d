// A line reader: the text, and the position of the next line.
ghost use Rattle.std.specs.Prelude.{◌≡◌, ◌-◌, length};
ghost use Rattle.std.specs.Iterator.{at_most};
ghost use Rattle.dimacs.specs.Setting.{GivesLine};

use crate::lines;
use crate::lines::Line;

#[derive(Clone, Copy)]
pub struct Reader<'a> {
    pub text: &'a [u8],
    pub at: usize,
}

impl<'a> Reader<'a> {
    // A reader of the text, before its first line.
    pub fn new(text: &'a [u8]) -> Reader<'a>
        ensures { (result.text ≡ text.entry) × (result.at ≡ 0) }
    {
        Reader { text, at: 0 }
    }
}

// The lines from the position on.
impl<'a> Iterator for Reader<'a> {
    type Item = Line;

    ghost next_gives = { GivesLine };

    ghost remaining = { λ r. at_most (length r.text.now - r.at) };

    fn next(&mut self) -> Option<Line> {
        if self.text.len() <= self.at {
            return None;
        }
        let line = lines::line_from(self.text, self.at);
        self.at = line.next;
        Some(line)
    }
}
