//! Words of a line of a log's text.

ghost use Rattle.std.specs.Prelude.{◌≡◌, ◌≢◌, ℕ, ◌≤◌, ◌<◌, ◌^◌, ◌+◌, length, take, drop, decimal, codes, IfSome, IfNone};
ghost use Rattle.std.specs.Char.{digit_value};
ghost use Rattle.std.specs.Str.Parse.{AllDigits, digits_value};
ghost use Rattle.sat_log_text.specs.Reading.{piece_len, same_bytes, is_plain, number_of, literal_of, kind_of};

use sat_log::{LineKind, SLit};

/// The greatest number of a log's text.
const GREATEST: u64 = 9223372036854775807;

/// How many bytes stand before the first separator.
fn piece_len(bytes: &[u8], separator: u8) -> usize
    ensures value { result ≡ piece_len separator bytes.now }
    ensures within { result ≤ length bytes.now }
{
    for (i, byte) in bytes.iter().enumerate() {
        if *byte == separator {
            return i;
        }
    }
    bytes.len()
}

/// The bytes from a place up to the next separator, or up to the end.
pub(crate) fn piece_at(bytes: &[u8], at: usize, separator: u8) -> &[u8]
    requires { at ≤ length bytes.now }
    ensures piece { result.now
        ≡ take (piece_len separator (drop at bytes.now)) (drop at bytes.now) }
    ensures len { length result.now ≡ piece_len separator (drop at bytes.now) }
    ensures within { at + length result.now ≤ length bytes.now }
{
    let (_, rest) = bytes.split_at(at);
    let (piece, _) = rest.split_at(piece_len(rest, separator));
    piece
}

/// Whether two texts are the same.
pub(crate) fn same_bytes(left: &[u8], right: &[u8]) -> bool
    ensures { result ≡ same_bytes left.now right.now }
{
    left == right
}

/// The value of a decimal digit.
fn digit(byte: u8) -> Option<u64>
    ensures some { IfSome result (λ d. (d < 10) × (d ≡ digit_value byte)) }
    ensures none { IfNone result (10 ≤ digit_value byte) }
{
    if byte.is_ascii_digit() {
        Some((byte - b'0') as u64)
    } else {
        None
    }
}

/// The number that these digits write, with leading zeros or without.
fn digits(word: &[u8]) -> Option<u64>
    ensures some { IfSome result (λ v. AllDigits 10 word.now × (v ≡ digits_value 10 word.now) × (v < 2 ^ 63)) }
    ensures none { IfNone result ((n : ℕ) → n < 2 ^ 63 → word.now ≢ decimal n) }
{
    let mut value: u64 = 0;
    for byte in word {
        let digit = digit(*byte)?;
        if value > (GREATEST - digit) / 10 {
            return None;
        }
        value = value * 10 + digit;
    }
    Some(value)
}

/// Whether a word is not empty and has no leading zero.
fn is_plain(word: &[u8]) -> bool
    ensures { result ≡ is_plain word.now }
{
    !word.is_empty() && (word[0] != b'0' || word.len() == 1)
}

/// The number that a word writes in decimal, without a leading zero.
pub(crate) fn number(word: &[u8]) -> Option<u64>
    ensures { result ≡ number_of word.now }
{
    if !is_plain(word) {
        return None;
    }
    digits(word)
}

/// The literal that a word writes: a number from 1, maybe behind a minus sign.
pub(crate) fn literal(word: &[u8]) -> Option<SLit>
    ensures { result ≡ literal_of word.now }
{
    let negative = !word.is_empty() && word[0] == b'-';
    let digits = if negative { &word[1..] } else { word };
    match number(digits) {
        Some(var) if var > 0 => Some(SLit::new(var, negative)),
        _ => None,
    }
}

/// The kind of line that a word names.
pub(crate) fn kind(word: &[u8]) -> Option<LineKind>
    ensures { result ≡ kind_of word.now }
{
    if same_bytes(word, b"o") {
        Some(LineKind::Original)
    } else if same_bytes(word, b"c") {
        Some(LineKind::Conflict)
    } else if same_bytes(word, b"f") {
        Some(LineKind::Final)
    } else {
        None
    }
}
