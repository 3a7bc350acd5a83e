//! Sums, differences and products of numbers of 64 bits, which have room in 128.
ghost use Rattle.std.specs.Prelude.{◌≡◌, ℕ, ◌^◌, ◌<◌, ◌≤◌, ℤ, pos, neg_ℤ, ◌+ℤ◌, ◌-ℤ◌, ◌*ℤ◌};

pub(crate) fn sum(a: i64, b: i64) -> i128
    ensures { result ≡ a +ℤ b }
{
    a as i128 + b as i128
}

pub(crate) fn difference(a: i64, b: i64) -> i128
    ensures { result ≡ a -ℤ b }
{
    a as i128 - b as i128
}

pub(crate) fn product(a: i64, b: i64) -> i128
    ensures { result ≡ a *ℤ b }
{
    a as i128 * b as i128
}

pub(crate) fn negated(a: i64) -> i128
    ensures { result ≡ neg_ℤ a }
{
    -(a as i128)
}

/// A natural number of at most 127 bits.
pub(crate) fn natural(n: u128) -> i128
    requires { n < 2 ^ 127 }
    ensures { result ≡ pos n }
{
    n as i128
}

/// The same below zero.
pub(crate) fn below_zero(n: u128) -> i128
    requires { n ≤ 2 ^ 127 }
    ensures { result ≡ neg_ℤ (pos n) }
{
    if n == 1 << 127 {
        i128::MIN
    } else {
        -(n as i128)
    }
}

/// Two to this power.
pub(crate) fn power(n: u8) -> u128
    requires { n ≤ 127 }
    ensures value { result ≡ 2 ^ n }
    ensures least { 1 ≤ result }
    ensures most { result ≤ 2 ^ 127 }
{
    1 << n
}
