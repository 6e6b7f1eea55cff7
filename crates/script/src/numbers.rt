//! The numbers of a script line.
ghost use Rattle.std.specs.Prelude.{◌<◌, length};
ghost use Rattle.std.specs.Option.{SomeIff};
ghost use Rattle.std.specs.Str.Parse.{AllDigits, digits_value};
ghost use Rattle.script.specs.Numbers.{NumberRead};

// A number has at most this many digits.
const DIGITS_MOST: usize = 4;

// The number that the bytes write in decimal, with 1 to 4 digits and no leading zeros.
pub(crate) fn number(bytes: &[u8]) -> Option<usize>
    ensures { NumberRead bytes.now result }
{
    // Before a byte is read: too many digits cost no more than few.
    if bytes.is_empty() || bytes.len() > DIGITS_MOST {
        return None;
    }
    // A leading zero.
    if bytes[0] == b'0' && bytes.len() > 1 {
        return None;
    }
    digits_read(bytes)
}

// The number that digits write, leading zeros or not; absent where a byte is no digit.
fn digits_read(bytes: &[u8]) -> Option<usize>
    requires { length bytes.now < 20 }
    ensures { SomeIff result (AllDigits 10 bytes.now) (digits_value 10 bytes.now) }
{
    let mut number = 0;
    for byte in bytes {
        let digit = char::from(*byte).to_digit(10)?;
        number = 10 * number + digit as usize;
    }
    Some(number)
}
