//! The bytes of a line, put one after another into a buffer.
ghost use Rattle.std.specs.Prelude.{◌≡◌, ◌+◌, ◌≤◌, length, decimal};
ghost use Rattle.lines.specs.Lines.{Put, hex_digits};

use itoa::write_digits;

// A word has this many hexadecimal digits.
const HEX_DIGITS: usize = 16;

// Puts the bytes of a text from a position on, and answers the next position.
pub(crate) fn put_text(out: &mut [u8], at: usize, text: &[u8]) -> usize
    requires { at + length text.now ≤ length out.old }
    ensures { Put at text.now out.old out.new result }
{
    let next = at + text.len();
    out[at..next].copy_from_slice(text);
    next
}

// Puts a number's decimal digits from a position on, and answers the next position.
pub(crate) fn put_decimal(out: &mut [u8], at: usize, number: usize) -> usize
    requires { at + length (decimal number) ≤ length out.old }
    ensures { Put at (decimal number) out.old out.new result }
{
    let next = at + digit_count(number);
    write_digits(number as u64, out, next);
    next
}

// How many decimal digits a number has.
fn digit_count(number: usize) -> usize
    ensures { result ≡ length (decimal number) }
{
    number.checked_ilog10().map_or(1, |log| log as usize + 1)
}

// Puts the 16 hexadecimal digits of a word from a position on, and answers the next position.
pub(crate) fn put_hex(out: &mut [u8], at: usize, word: u64) -> usize
    requires { at + 16 ≤ length out.old }
    ensures { Put at (hex_digits 16 word) out.old out.new result }
{
    let next = at + HEX_DIGITS;
    hex::encode_to_slice(word.to_be_bytes(), &mut out[at..next]).unwrap();
    next
}
