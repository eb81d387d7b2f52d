// Lists all maximal k-plexes of the graph on the sheet that it reads from standard input.
// Reads, calls and writes: `answers::answer` decides every byte.
#![tactic(auto)]

ghost use Rattle.std.specs.Prelude.{◌≤◌, ◌≡◌, length, take, IfOk, OnOk, IfSome};
ghost use Rattle.std.specs.Io.KnownBytes.{Appends};
ghost use Rattle.answers.specs.Answer.{answer_text};

use std::io;
use std::io::{Read, Write};

// One byte more than the longest sheet has.
const MOST_TEXT: usize = 1113;

// Reads until the buffer is full or the input ends, in however many pieces. Gives how many bytes that is: they are the first that the input had.
fn read_full<R: Read>(input: &mut R, buffer: &mut [u8]) -> io::Result<usize>
    ensures fits { IfOk result (λ n. n ≤ length buffer.new) }
    ensures front { IfOk result (λ n. IfSome (R.remaining input.old) (λ text.
        take n buffer.new ≡ take (length buffer.old) text)) }
{
    let mut n = 0;
    while n < buffer.len() {
        let more = input.read(&mut buffer[n..])?;
        if more == 0 {
            break;
        }
        n += more;
    }
    Ok(n)
}

// Writes the answer to the text that the input has, or to its front if it is longer than any sheet.
fn run<R: Read, W: Write>(input: &mut R, output: &mut W) -> io::Result<()>
    ensures answers { OnOk result (IfSome (R.remaining input.old) (λ text.
        Appends (W.contents output.old) (W.contents output.new) (answer_text (take 1113 text) 4096))) }
{
    let mut text = [0u8; MOST_TEXT];
    let mut slots = [0u64; answers::SLOT_WORDS];
    let mut out = [0u8; answers::MOST_OUTPUT];
    let n = read_full(input, &mut text)?;
    let r = answers::answer(&text[..n], &mut slots, &mut out);
    output.write_all(&out[..r])
}

fn main(rt: HostRuntime) -> io::Result<()> {
    run(&mut rt.stdin(), &mut rt.stdout())
}

#[cfg(test)]
mod tests {
    use super::*;
    use std::test::Fail;

    // Five vertices in a ring, slack 2, floor 3.
    const SHEET: &[u8] = b"050203
0000000000000000
0000000000000012
0000000000000005
000000000000000A
0000000000000014
0000000000000009
";

    const LIST: &[u8] = b"0000000000000005
0000000000000007
000000000000000E
0000000000000013
0000000000000019
000000000000001C
";

    // Gives a byte at a time, and then ends or fails.
    #[derive(Drop)]
    struct Slow<'a> {
        left: &'a [u8],
        fails: bool,
    }

    impl Read for Slow<'_> {
        fn read(&mut self, buffer: &mut [u8]) -> io::Result<usize> {
            if self.fails & self.left.is_empty() {
                return Err(io::Error::from(io::ErrorKind::Other));
            }
            let most = buffer.len().min(1);
            self.left.read(&mut buffer[..most])
        }
    }

    #[test]
    fn reads_in_pieces(rt: HostRuntime) -> Result<(), Fail> {
        let mut input = Slow {
            left: SHEET,
            fails: false,
        };
        let mut output = Vec::new(rt.alloc());
        run(&mut input, &mut output)?;
        assert_eq!(rt; output.as_slice(), LIST);
        Ok(())
    }

    #[test]
    fn answers_nothing_after_a_failed_read(rt: HostRuntime) -> Result<(), Fail> {
        let mut input = Slow {
            left: SHEET,
            fails: true,
        };
        let mut output = Vec::new(rt.alloc());
        assert!(rt; run(&mut input, &mut output).is_err());
        assert_eq!(rt; output.len(), 0);
        Ok(())
    }
}
