ghost use Rattle.std.specs.Prelude.{◌≡◌, ◌<◌, ◌≤◌, ◌^◌, ◌-◌, ℤ};
ghost use Rattle.smv_kinds.specs.Intervals.{is_narrow, kept, between, sum, difference, negated, product, least, greatest, magnitude, quotient, remainder, hull, of_word};

use crate::wide;

/// The integers from the lower end to the upper.
#[derive(Clone, Copy, Debug, PartialEq, Eq)]
pub struct Interval {
    pub low: i64,
    pub high: i64,
}

/// Whether a number has 64 bits.
fn is_narrow(n: i128) -> bool
    ensures { result ≡ is_narrow n }
{
    i64::MIN as i128 <= n && n <= i64::MAX as i128
}

/// The least of four numbers.
#[tactic(auto, unfolding(crate::specs::Intervals::least))]
fn least(a: i128, b: i128, c: i128, d: i128) -> i128
    ensures { result ≡ least a b c d }
{
    a.min(b).min(c).min(d)
}

/// The greatest of four numbers.
#[tactic(auto, unfolding(crate::specs::Intervals::greatest))]
fn greatest(a: i128, b: i128, c: i128, d: i128) -> i128
    ensures { result ≡ greatest a b c d }
{
    a.max(b).max(c).max(d)
}

impl Interval {
    /// The interval between two ends, or the first end that is outside 64 bits.
    #[tactic(auto, unfolding(crate::specs::Intervals::kept))]
    pub(crate) fn kept(low: i128, high: i128) -> Result<Interval, i128>
        ensures { result ≡ kept (between low high) }
    {
        if !is_narrow(low) {
            Err(low)
        } else if !is_narrow(high) {
            Err(high)
        } else {
            Ok(Interval {
                low: low as i64,
                high: high as i64,
            })
        }
    }

    /// Sums of an integer of each.
    ///
    /// # Errors
    ///
    /// The first end outside 64 bits, the lower before the upper; so for all that is like it.
    pub fn plus(self, other: Interval) -> Result<Interval, i128>
        ensures { result ≡ kept (sum self other) }
    {
        Interval::kept(
            wide::sum(self.low, other.low),
            wide::sum(self.high, other.high),
        )
    }

    /// Differences of an integer of each.
    pub fn minus(self, other: Interval) -> Result<Interval, i128>
        ensures { result ≡ kept (difference self other) }
    {
        Interval::kept(
            wide::difference(self.low, other.high),
            wide::difference(self.high, other.low),
        )
    }

    /// The integers with the other sign.
    pub fn negated(self) -> Result<Interval, i128>
        ensures { result ≡ kept (negated self) }
    {
        Interval::kept(wide::negated(self.high), wide::negated(self.low))
    }

    /// Products of an integer of each.
    pub fn times(self, other: Interval) -> Result<Interval, i128>
        ensures { result ≡ kept (product self other) }
    {
        let lows = wide::product(self.low, other.low);
        let outer = wide::product(self.low, other.high);
        let inner = wide::product(self.high, other.low);
        let highs = wide::product(self.high, other.high);
        Interval::kept(
            least(lows, outer, inner, highs),
            greatest(lows, outer, inner, highs),
        )
    }

    /// The greatest magnitude of an integer of the interval.
    fn magnitude(self) -> u128
        ensures value { result ≡ magnitude self }
        ensures small { result ≤ 2 ^ 63 }
    {
        self.low.unsigned_abs().max(self.high.unsigned_abs()) as u128
    }

    /// Quotients by any integer but zero.
    pub fn quotient(self) -> Result<Interval, i128>
        ensures { result ≡ kept (quotient self) }
    {
        let most = self.magnitude();
        Interval::kept(wide::below_zero(most), wide::natural(most))
    }

    /// Remainders of a division by an integer of the other.
    pub fn remainder(self, divisor: Interval) -> Result<Interval, i128>
        ensures { result ≡ kept (remainder self divisor) }
    {
        let most = divisor.magnitude().saturating_sub(1);
        let low = if self.low < 0 {
            wide::below_zero(most)
        } else {
            0
        };
        let high = if self.high > 0 {
            wide::natural(most)
        } else {
            0
        };
        Interval::kept(low, high)
    }

    /// The least interval that has the integers of both.
    pub fn hull(self, other: Interval) -> Interval
        ensures { result ≡ hull self other }
    {
        Interval {
            low: self.low.min(other.low),
            high: self.high.max(other.high),
        }
    }

    /// The numbers of words of this width.
    pub(crate) fn of_word(signed: bool, width: u8) -> Result<Interval, i128>
        requires { (1 ≤ width) × (width ≤ 127) }
        ensures { result ≡ kept (of_word signed width) }
    {
        if signed {
            let half = wide::power(width - 1);
            Interval::kept(wide::below_zero(half), wide::natural(half - 1))
        } else {
            Interval::kept(0, wide::natural(wide::power(width) - 1))
        }
    }
}
