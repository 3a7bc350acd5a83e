ghost use Rattle.std.specs.Prelude.{◌≡◌, ◌≤◌, length};
ghost use Rattle.sat_trail.specs.Assignment.{assignment};

use std::marker::Model;

/// One truth value for each variable of a solver.
#[derive(Debug, Drop)]
pub struct SBits {
    values: Vec<bool>,
}

impl Model for SBits {
    ghost use Rattle.std.specs.Prelude.{Bool, List};

    ghost Value = { List Bool };

    ghost view = { λ b. b.values.items };
}

impl SBits {
    /// The values of the variables 1, 2 and so on.
    pub(crate) fn new(values: Vec<bool>) -> SBits
        ensures { result ≡ values.items }
    {
        SBits { values }
    }

    /// The value of a variable.
    pub fn value(&self, var: u64) -> bool
        requires first { 1 ≤ var }
        requires last { var ≤ length self.now }
        ensures { result ≡ assignment self.now var }
    {
        self.values[var as usize - 1]
    }
}
