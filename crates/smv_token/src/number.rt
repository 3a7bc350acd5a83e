ghost use Rattle.std.specs.Prelude.{◌≡◌, ◌+◌, ◌*◌, ◌^◌, ◌<◌, ◌≤◌, ◌==◌, IfSome, OnSome, length, not, count_by};
ghost use Rattle.smv_token.specs.Numbers.{at_most, base_at, base_of, digit_of, is_decimal, is_digit_in, own_width, radix_of, value_after, width_of, word_head};

/// The base of a word constant.
#[derive(Clone, Copy, Debug)]
pub enum Base {
    Binary,
    Octal,
    Decimal,
    Hex,
}

impl Base {
    /// The number of digits that there are.
    pub fn radix(self) -> u8
        ensures value { result ≡ radix_of self }
        ensures some { 1 ≤ result }
        ensures small { result ≤ 16 }
    {
        match self {
            Base::Binary => 2,
            Base::Octal => 8,
            Base::Decimal => 10,
            Base::Hex => 16,
        }
    }
}

pub fn is_decimal(byte: u8) -> bool
    ensures { result ≡ is_decimal byte }
{
    matches!(byte, b'0'..=b'9')
}

/// The value of a digit, of any base up to 16.
fn digit_of(byte: u8) -> u8
    ensures value { result ≡ digit_of byte }
    ensures small { result < 16 }
{
    match byte {
        b'0'..=b'9' => byte - b'0',
        b'a'..=b'f' => byte - b'a' + 10,
        b'A'..=b'F' => byte - b'A' + 10,
        _ => 0,
    }
}

/// Whether a byte is a digit of a base.
pub fn is_digit_in(radix: u8, byte: u8) -> bool
    ensures { result ≡ is_digit_in radix byte }
{
    matches!(byte, b'0'..=b'9' | b'a'..=b'f' | b'A'..=b'F') && digit_of(byte) < radix
}

/// The number with one more digit, if it is at most the limit.
#[tactic(auto, using(crate::proofs::Values::fits_by_quotient, crate::proofs::Values::exceeds_by_quotient))]
fn with_digit(value: u128, radix: u8, digit: u8, limit: u128) -> Option<u128>
    requires { 1 ≤ radix }
    ensures { result ≡ at_most limit (value * radix + digit) }
{
    let digit = u128::from(digit);
    let radix = u128::from(radix);
    if digit > limit || value > (limit - digit) / radix {
        return None;
    }
    Some(value * radix + digit)
}

/// The number that digits write, if it is at most the limit. Underscores are passed over.
#[tactic(auto, using(crate::proofs::Values::too_large))]
pub fn value_of(digits: &[u8], radix: u8, limit: u128) -> Option<u128>
    requires { 1 ≤ radix }
    ensures value { result ≡ at_most limit (value_after radix 0 digits.now) }
    ensures small { IfSome result (λ n. n ≤ limit) }
{
    let mut value = 0;
    for byte in digits {
        if *byte != b'_' {
            value = with_digit(value, radix, digit_of(*byte), limit)?;
        }
    }
    Some(value)
}

/// The base of a letter.
fn base_of(byte: u8) -> Option<Base>
    ensures { result ≡ base_of byte }
{
    match byte {
        b'b' | b'B' => Some(Base::Binary),
        b'o' | b'O' => Some(Base::Octal),
        b'd' | b'D' => Some(Base::Decimal),
        b'h' | b'H' => Some(Base::Hex),
        _ => None,
    }
}

/// The base of the letter at the front.
fn base_at(bytes: &[u8]) -> Option<Base>
    ensures some { OnSome result (1 ≤ length bytes.now) }
    ensures value { result ≡ base_at bytes.now }
{
    match bytes {
        [first, ..] => base_of(*first),
        [] => None,
    }
}

/// Behind a `0`: whether a word constant is signed, its base, and the length of its head.
#[tactic(auto, unfolding(crate::specs::Numbers::word_head))]
pub fn word_head(bytes: &[u8]) -> Option<(bool, Base, usize)>
    ensures some { IfSome result (λ h. 1 ≤ h.2) }
    ensures within { IfSome result (λ h. h.2 ≤ length bytes.now + 1) }
    ensures head { result ≡ word_head bytes.now }
{
    let [first, rest @ ..] = bytes else {
        return None;
    };
    if *first == b'u' || *first == b's' {
        let base = base_at(rest)?;
        return Some((*first == b's', base, 3));
    }
    let base = base_of(*first)?;
    Some((false, base, 2))
}

/// How many bits so many digits take.
fn own_width(base: Base, digits: usize) -> Option<u8>
    ensures value { result ≡ own_width base digits }
    ensures small { IfSome result (λ w. w ≤ 128) }
{
    if digits > 128 {
        return None;
    }
    let per_digit = match base {
        Base::Binary => 1,
        Base::Octal => 3,
        Base::Decimal => return None,
        Base::Hex => 4,
    };
    let width = digits * per_digit;
    if width <= 128 {
        Some(width as u8)
    } else {
        None
    }
}

/// The width of a word constant: the one that is written, or that of its digits.
#[tactic(auto, unfolding(crate::specs::Numbers::width_of))]
pub fn width_of(base: Base, written: &[u8], digits: &[u8]) -> Option<u8>
    ensures value { result ≡ width_of base written.now digits.now }
    ensures small { IfSome result (λ w. w ≤ 128) }
{
    if written.is_empty() {
        return own_width(base, digits.iter().filter(|b| **b != b'_').count());
    }
    let width = value_of(written, 10, 128)?;
    Some(width as u8)
}

/// The greatest number of so many bits.
pub fn greatest(width: u8) -> u128
    requires { width ≤ 128 }
    ensures { result + 1 ≡ 2 ^ width }
{
    if width == 128 {
        u128::MAX
    } else {
        (1 << width) - 1
    }
}
