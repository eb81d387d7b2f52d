// Figures: decimal digits without leading zeros, of any length.
ghost use Rattle.std.specs.Prelude.{◌≡◌};
ghost use Rattle.dimacs.specs.Setting.{digit_value, digits_value, figure_value};

// The most that the number of edges can be. A larger number is told as ABOVE, whatever it is.
pub const MOST_EDGES: usize = 4294967295;

const ABOVE: usize = MOST_EDGES + 1;

// The value of the byte b, where it is a digit.
fn value(b: u8) -> Option<usize>
    ensures { result ≡ digit_value b }
{
    match b {
        b'0'..=b'9' => Some(usize::from(b - b'0')),
        _ => None,
    }
}

// The number that the bytes of the text are, where all of them are digits.
fn digits(text: &[u8]) -> Option<usize>
    ensures { result ≡ digits_value text.now }
{
    let mut x = 0;
    for b in text {
        x = (x * 10 + value(*b)?).min(ABOVE);
    }
    Some(x)
}

// The number that the text is, where it is a figure.
pub fn figure(text: &[u8]) -> Option<usize>
    ensures { result ≡ figure_value text.now }
{
    let (first, rest) = text.split_first()?;
    if *first == b'0' && !rest.is_empty() {
        return None;
    }
    digits(text)
}
