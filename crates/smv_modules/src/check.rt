//! The passes over names, modules and instances, one after the other.
ghost use Rattle.std.specs.Prelude.{◌≡◌, List, IfOk, IfErr};
ghost use Rattle.smv_tree.specs.Models.{bodies};
ghost use Rattle.smv_meaning.specs.Rows.{AreRows};
ghost use Rattle.type_fault.specs.declared.fault.TypeFault.{TypeFault};
ghost use Rattle.type_fault.specs.First.{earliest};
ghost use Rattle.smv_modules.specs.Passes.{AreReachedFaults, AreModulesRight, IsModuleFault};

use crate::{Instances, first_cycle_fault, first_name_fault, first_reference_fault};
use smv_tree::Program;
use std::alloc::{AllocError, Global};
use type_fault::{TypeFault, earlier};

/// The first fault of the modules that `main` reaches: of their references, or the cycle that is told.
fn first_reached_fault(alloc: Global, p: &Program) -> Result<Option<TypeFault>, AllocError>
    ensures { IfOk result (λ f. (faults : List TypeFault) ×
        AreReachedFaults (bodies p.now) faults × (f ≡ earliest faults)) }
{
    let reference = first_reference_fault(alloc, p)?;
    let cycle = first_cycle_fault(alloc, p)?;
    Ok(earlier(reference, cycle))
}

/// The instances of a program whose names, modules and instances are right.
///
/// # Errors
///
/// The first fault of the first pass that has one: of the names of the whole text (201, 202), of the
/// modules that `main` reaches (203, 204, 214), of the number and the depth of instances (216, 217);
/// `NoMemory` where memory was refused.
pub fn check_modules(alloc: Global, p: &Program) -> Result<Instances, TypeFault>
    ensures listed { IfOk result (AreRows (bodies p.now)) }
    ensures accepted { IfOk result (λ _. AreModulesRight (bodies p.now)) }
    ensures refused { IfErr result (IsModuleFault (bodies p.now)) }
{
    if let Some(fault) = first_name_fault(alloc, p)? {
        return Err(fault);
    }
    if let Some(fault) = first_reached_fault(alloc, p)? {
        return Err(fault);
    }
    Instances::of(alloc, p)
}
