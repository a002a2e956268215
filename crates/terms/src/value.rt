// The values that a table of ranks gives.
ghost use Rattle.std.specs.Prelude.{◌≡◌};
ghost use Rattle.terms.specs.Terms.{digits, magnitude, negative, positive, unpadded, value_of};

use std::str::from_utf8;

// No value is farther from 0.
const LARGEST: u16 = 32_768;

// No value has more digits.
const MOST_DIGITS: usize = 5;

// Whether there is one digit or more, and no 0 before another.
fn is_unpadded(digits: &[u8]) -> bool
    ensures { result ≡ unpadded digits.now }
{
    match digits {
        [] => false,
        [_] => true,
        [first, ..] => *first != b'0',
    }
}

fn are_digits(bytes: &[u8]) -> bool
    ensures { result ≡ digits bytes.now }
{
    bytes.iter().all(u8::is_ascii_digit)
}

// The number that decimal digits write, without leading zeros; none above the largest.
fn read_magnitude(digits: &[u8]) -> Option<u16>
    ensures { result ≡ magnitude digits.now }
{
    // A text of any length costs no more than the digits of a value.
    if digits.len() > MOST_DIGITS {
        return None;
    }
    // The parse of std would also take `+5` and `007`.
    if !are_digits(digits) || !is_unpadded(digits) {
        return None;
    }
    let number = from_utf8(digits).ok()?.parse().ok()?;
    (number <= LARGEST).then_some(number)
}

// What digits write after `-`, where `-0` is nothing.
fn read_negative(digits: &[u8]) -> Option<i16>
    ensures { result ≡ negative (magnitude digits.now) }
{
    let number = read_magnitude(digits).filter(|number| *number > 0)?;
    i16::try_from(-i32::from(number)).ok()
}

// What digits write without `-`.
fn read_positive(digits: &[u8]) -> Option<i16>
    ensures { result ≡ positive (magnitude digits.now) }
{
    i16::try_from(read_magnitude(digits)?).ok()
}

// The value that a text writes, from -32,768 to 32,767, without leading zeros and without `-0`.
pub fn read_value(text: &[u8]) -> Option<i16>
    ensures { result ≡ value_of text.now }
{
    match text {
        [b'-', digits @ ..] => read_negative(digits),
        _ => read_positive(text),
    }
}
