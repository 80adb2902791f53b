//! Numbers in decimal.

ghost use Rattle.std.specs.Prelude.{◌≡◌, ◌<◌, ◌≤◌, ◌^◌, ◌++◌, length, drop, decimal, IsTrue};
ghost use Rattle.std.specs.List.{list_all};
ghost use Rattle.std.specs.Char.{is_ascii_digit};
ghost use Rattle.std.specs.Str.Parse.{digits_value};
ghost use Rattle.gm_base.specs.Numbers.{is_numeral, number_of};

use crate::MAX_DIGITS;
use itoa::Buffer;

fn are_digits(text: &[u8]) -> bool
    ensures { result ≡ list_all is_ascii_digit text.now }
{
    text.iter().all(|byte| byte.is_ascii_digit())
}

/// Whether the text is 1 to 20 ASCII digits.
fn is_numeral(text: &[u8]) -> bool
    ensures { result ≡ is_numeral text.now }
{
    1 <= text.len() && text.len() <= MAX_DIGITS && are_digits(text)
}

/// The number that at most 20 digits write.
fn digits_value(text: &[u8]) -> u128
    requires { IsTrue (is_numeral text.now) }
    ensures { result ≡ digits_value 10 text.now }
{
    let mut value = 0u128;
    for &byte in text {
        value = value * 10 + u128::from(byte - b'0');
    }
    value
}

/// The decimal value of a text. `None` exactly where the text isn't 1 to 20 ASCII digits or its value is above `most`.
pub fn number(text: &[u8], most: u64) -> Option<u64>
    ensures { result ≡ number_of text.now most }
{
    if !is_numeral(text) {
        return None;
    }
    let value = digits_value(text);
    if value <= u128::from(most) {
        Some(value as u64)
    } else {
        None
    }
}

/// Writes the decimal digits of the value, without leading zeros, to the front of `into`, and answers how many there are.
pub fn digits(value: u128, into: &mut [u8; 39]) -> usize
    ensures count { result ≡ length (decimal value) }
    ensures short { value < 2 ^ 64 → result ≤ MAX_DIGITS }
    ensures front { into.new ≡ decimal value ++ drop (length (decimal value)) into.old }
{
    let mut buffer = Buffer::new();
    let text = buffer.format(value).as_bytes();
    let count = text.len();
    into[..count].copy_from_slice(text);
    count
}
