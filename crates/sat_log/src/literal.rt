ghost use Rattle.std.specs.Prelude.{◌≡◌, ◌<◌, ◌≤◌, ◌^◌};
ghost use Rattle.sat_log.specs.Literal.{negated, IsVariable};
ghost use Rattle.sat_log.specs.Packing.{packed};

use std::marker::Model;

/// A literal: a variable from 1 to 9223372036854775807, and whether it is negated. It is kept as
/// one number, twice the variable and one more if it is negated, as in MiniSat.
#[derive(Clone, Copy, Debug, PartialEq, Eq)]
pub struct SLit {
    code: u64,
}

impl Model for SLit {
    ghost use Rattle.std.specs.Prelude.{◌≤◌};
    ghost use Rattle.sat_log.specs.Literal.{Literal};
    ghost use Rattle.sat_log.specs.Packing.{packed, unpacked, packed-unpacked};

    ghost Value = { Literal };

    ghost view = { λ l. unpacked l.code };

    ghost invariant = { λ l. 2 ≤ l.code };

    ghost inverse = { λ l. record { code = packed l } };

    ghost inverse_ok = { λ l _. Prim.rw (packed-unpacked l.code) };
}

impl SLit {
    /// The literal of this variable, negated or not.
    pub fn new(var: u64, negative: bool) -> SLit
        requires { IsVariable var }
        ensures var { result.var ≡ var }
        ensures negative { result.negative ≡ negative }
    {
        SLit {
            code: 2 * var + if negative { 1 } else { 0 },
        }
    }

    /// Its variable.
    pub fn var(self) -> u64
        ensures value { result ≡ self.var }
        ensures range { IsVariable result }
    {
        self.code / 2
    }

    /// Whether it is negated.
    pub fn is_negative(self) -> bool
        ensures { result ≡ self.negative }
    {
        self.code % 2 == 1
    }

    /// The literal of the same variable with the other sign.
    pub fn negated(self) -> SLit
        ensures { result ≡ negated self }
    {
        SLit {
            code: if self.code % 2 == 1 {
                self.code - 1
            } else {
                self.code + 1
            },
        }
    }

    /// Its place in a table by literals: twice its variable, and one more if it is negated.
    pub fn index(self) -> usize
        ensures value { result ≡ packed self }
        ensures range { 2 ≤ result }
    {
        self.code as usize
    }
}

impl Default for SLit {
    /// The first variable, not negated: what fills the empty places of a small vector.
    fn default() -> SLit {
        SLit::new(1, false)
    }
}
