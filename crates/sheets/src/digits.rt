// Hexadecimal digits, capitals for A to F, highest first.
ghost use Rattle.std.specs.Prelude.{◌≡◌, ◌<◌, ◌≤◌, length};
ghost use Rattle.sheets.specs.Digits.{no_digit, word_digits, digit_byte, digits};
ghost use Rattle.sheets.specs.Setting.{ReadsDigit, ReadsNumber};

// The value of the byte b as a digit; none where b is no digit.
fn value(b: u8) -> Option<u64>
    ensures { ReadsDigit b result }
{
    match b {
        b'0'..=b'9' => Some((b - b'0') as u64),
        b'A'..=b'F' => Some((b - b'A') as u64 + 10),
        _ => None,
    }
}

// The byte of the digit of value d.
fn byte(d: u64) -> u8
    requires { d < no_digit }
    ensures { result ≡ digit_byte d }
{
    if d < 10 {
        d as u8 + b'0'
    } else {
        (d - 10) as u8 + b'A'
    }
}

// The number that the bytes of the text are as digits; none where one of them is no digit.
pub(crate) fn read(text: &[u8]) -> Option<u64>
    requires { length text.now ≤ word_digits }
    ensures { ReadsNumber text.now result }
{
    let mut x = 0;
    for b in text {
        x = x * 16 + value(*b)?;
    }
    Some(x)
}

// Fills the text with the last digits of x.
pub fn write(text: &mut [u8], x: u64)
    ensures { text.new ≡ digits (length text.old) x }
{
    let mut high = x;
    for left in (0..text.len()).rev() {
        text[left] = byte(high % 16);
        high /= 16;
    }
}
