ghost use Rattle.std.specs.Prelude.{◌≡◌, ◌-◌, ◌^◌, ◌++◌, decimal, min};
ghost use Rattle.std.specs.Fmt.{signed_decimal};
ghost use Rattle.std.specs.List.{list_all};
ghost use Rattle.outside.specs.Calls.{Writes};
ghost use Rattle.outside.specs.Number.{digits_value, is_digit, is_digits, number_of};

use crate::{Failed, Sink, put_all};
use itoa::Buffer;

/// The largest number that is read.
const LARGEST: u64 = 9_223_372_036_854_775_807;

/// The number that a text writes: one or more decimal digits, of which the first ones may be 0, at
/// most 9223372036854775807. Any other text is none.
pub fn read_number(text: &[u8]) -> Option<u64>
    ensures { result ≡ number_of text.now }
{
    if !is_digits(text) {
        return None;
    }
    let value = read_digits(text);
    if value <= LARGEST { Some(value) } else { None }
}

// The text is one or more decimal digits.
fn is_digits(text: &[u8]) -> bool
    ensures { result ≡ is_digits text.now }
{
    !text.is_empty() && are_all_digits(text)
}

fn are_all_digits(text: &[u8]) -> bool
    ensures { result ≡ list_all is_digit text.now }
{
    text.iter().all(|byte| is_digit(*byte))
}

/// Whether a byte is a decimal digit.
pub fn is_digit(byte: u8) -> bool
    ensures { result ≡ is_digit byte }
{
    byte >= b'0' && byte <= b'9'
}

// The value of decimal digits, or the last number of 64 bits where it is greater than that.
fn read_digits(digits: &[u8]) -> u64
    ensures { result ≡ min (digits_value digits.now) (2 ^ 64 - 1) }
{
    let mut value = 0u64;
    for digit in digits {
        value = value
            .saturating_mul(10)
            .saturating_add(u64::from(digit.saturating_sub(b'0')));
    }
    value
}

/// Writes a number in decimal digits.
///
/// # Errors
///
/// `Failed` after a fault of the sink; a front of the digits was written then.
pub fn put_number<S: Sink>(out: &mut S, number: u64) -> Result<(), Failed>
    ensures { Writes (decimal number) (S.told out.old) result (S.told out.new) }
{
    let mut buffer = Buffer::new();
    put_all(out, buffer.format(number).as_bytes())
}

/// Writes a number in decimal digits, behind a minus sign where it is below zero.
///
/// # Errors
///
/// `Failed` after a fault of the sink; a front of the text was written then.
pub fn put_integer<S: Sink>(out: &mut S, number: &i64) -> Result<(), Failed>
    ensures { Writes (signed_decimal number.now) (S.told out.old) result (S.told out.new) }
{
    let mut buffer = Buffer::new();
    put_all(out, buffer.format(*number).as_bytes())
}

/// Writes a number between two texts.
///
/// # Errors
///
/// `Failed` after a fault of the sink; a front of the text was written then.
pub fn put_numbered<S: Sink>(
    out: &mut S,
    before: &[u8],
    number: u64,
    after: &[u8],
) -> Result<(), Failed>
    ensures { Writes (before.now ++ decimal number ++ after.now) (S.told out.old) result (S.told out.new) }
{
    put_all(out, before)?;
    put_number(out, number)?;
    put_all(out, after)
}
