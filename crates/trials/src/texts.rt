// Texts of sheets: whole, changed and cut short; and the text of any graph as a sheet, also where there is no such sheet.
use crate::graphs::{Graph, MOST_ROWS};
use judging::Request;
use std::io;

// Line 2, the silent set, starts there, and is as long as every later line.
const LINE_2_AT: usize = 7;

pub const LINE_LENGTH: usize = 17;

// Row 0 starts there.
pub const ROWS_AT: usize = LINE_2_AT + LINE_LENGTH;

// The text of one vertex more than a sheet has.
pub const MOST_TEXT: usize = ROWS_AT + MOST_ROWS * LINE_LENGTH;

// What bytes hold before a call: one that no sheet has.
pub const OLD: u8 = b'?';

#[derive(Clone, Copy)]
pub struct Text {
    bytes: [u8; MOST_TEXT],
    length: usize,
}

impl Text {
    fn empty() -> Text {
        Text {
            bytes: [OLD; MOST_TEXT],
            length: 0,
        }
    }

    // The sheet of a graph. It is empty where the graph has none.
    pub fn written(graph: &Graph, request: Request) -> Text {
        let mut text = Text::empty();
        let found = sheets::write_sheet(graph.rows(), request, &mut text.bytes);
        text.length = found.unwrap_or(0);
        text
    }

    // Lines 1 and 2 and the rows, as a sheet has them. Reading may decline this: a graph with an isolated vertex has no sheet.
    pub fn laid_out(graph: &Graph, request: Request) -> Text {
        let mut text = Text::empty();
        let rows = graph.rows();
        let n = sets::count(rows);
        if n <= MOST_ROWS {
            let end = ROWS_AT + n * LINE_LENGTH;
            text.write_head(n, request);
            sheets::lines::write_rows(rows, &mut text.bytes[ROWS_AT..end]);
            text.length = end;
        }
        text
    }

    // Line 1 says n, k and q, and line 2 which vertices are silent, whatever they are.
    fn write_head(&mut self, n: usize, request: Request) {
        sheets::digits::write(&mut self.bytes[..2], n as u64);
        sheets::digits::write(&mut self.bytes[2..4], request.slack as u64);
        sheets::lines::write_line(&mut self.bytes[4..LINE_2_AT], request.floor as u64);
        sheets::lines::write_line(&mut self.bytes[LINE_2_AT..ROWS_AT], request.silent.word(0));
    }

    // The same with other lines 1 and 2.
    pub fn headed(mut self, n: usize, request: Request) -> Text {
        self.write_head(n, request);
        self
    }

    // The same with the byte b at a position.
    pub fn put(mut self, at: usize, b: u8) -> Text {
        if let Some(byte) = self.bytes.get_mut(at) {
            *byte = b;
        }
        self
    }

    // The first bytes alone, or bytes that no sheet has behind the text.
    pub fn cut(self, length: usize) -> Text {
        Text { length, ..self }
    }

    // The same without line 2: what is left of a sheet is one of before there were silent vertices.
    pub fn without_line_2(mut self) -> Text {
        let rows = self.bytes;
        for (byte, later) in self.bytes[LINE_2_AT..].iter_mut().zip(&rows[ROWS_AT..]) {
            *byte = *later;
        }
        self.length = self.length.saturating_sub(LINE_LENGTH);
        self
    }

    pub fn bytes(&self) -> &[u8] {
        &self.bytes[..self.length.min(MOST_TEXT)]
    }

    pub fn print(&self, rt: &impl Print) -> io::Result<()> {
        rt.write_all(self.bytes())
    }
}
