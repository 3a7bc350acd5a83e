//! Bits by natural numbers of 128 bits.
ghost use Rattle.std.specs.Prelude.{◌≡◌, ◌<◌, ◌≤◌, ◌-◌, ◌*◌, ◌/◌, ◌%◌, ◌^◌};

/// So many ones.
pub(crate) fn ones(n: u8) -> u128
    requires { n ≤ 128 }
    ensures { result ≡ 2 ^ n - 1 }
{
    if n < 128 { (1 << n) - 1 } else { u128::MAX }
}

/// The lowest n of the bits.
#[tactic(auto, using(std::proofs::lemmas::Nat::and_mask, std::proofs::lemmas::Nat::mod_below, std::proofs::lemmas::Nat::pow_pos))]
pub(crate) fn low(bits: u128, n: u8) -> u128
    requires { n ≤ 128 }
    ensures value { result ≡ bits % 2 ^ n }
    ensures below { result < 2 ^ n }
{
    bits & ones(n)
}

/// The bits, moved up by n, of which 128 are kept.
#[tactic(auto, using(crate::proofs::Wraps::far_up))]
pub(crate) fn shifted_left(bits: u128, n: u8) -> u128
    ensures { result ≡ bits * 2 ^ n % 2 ^ 128 }
{
    if n < 128 { bits << n } else { 0 }
}

/// The bits, moved down by n.
#[tactic(auto, using(crate::proofs::Wraps::far_down))]
pub(crate) fn shifted_right(bits: u128, n: u32) -> u128
    ensures { result ≡ bits / 2 ^ n }
{
    if n < 128 { bits >> n } else { 0 }
}
