ghost use Rattle.std.specs.Prelude.{IfOk};
ghost use Rattle.gates.specs.Valuation.{IsValuation};
ghost use Rattle.sat_link.specs.Answers.{AreFirst};

use gates::{Bits, Gates, Truths};
use sat_core::SBits;
use std::alloc::{AllocError, Global};

/// The truth values of nodes, which are the first of those of the variables.
pub(crate) fn bits_of(alloc: Global, g: &Gates, values: &SBits) -> Result<Bits, AllocError>
    requires { IsValuation g.now values.now }
    ensures { IfOk result (AreFirst g.now values.now) }
{
    let nodes = g.nodes();
    let mut inputs = Vec::with_capacity(alloc, nodes as usize)?;
    for n in 0..nodes {
        inputs.push(values.value(n + 1))?;
    }
    Bits::of(alloc, g, &Truths::from_vec(inputs))
}
