//! What is wrong in a formula.
ghost use Rattle.std.specs.Prelude.{◌≡◌, [], ◌∷◌, IfOk};
ghost use Rattle.smv_tree.specs.Trees.{expr_tree};
ghost use Rattle.smv_tree.specs.Models.{formula_claim};
ghost use Rattle.type_fault.specs.First.{earliest};
ghost use Rattle.smv_typing.specs.Formulas.{atoms, atom_place, formula_faults};
ghost use Rattle.smv_typing.specs.Found.{first_there, Finds};

use crate::uses::{listed, place_in};
use crate::{Names, STATE, judge};
use smv_tree::{Expr, Formula, Place};
use std::alloc::{AllocError, Global};
use type_fault::{TypeFault, earlier};

/// What is wrong with atoms: that one is no single boolean, and the first fault within them.
type Found = (Option<TypeFault>, Option<TypeFault>);

/// The place of an atom's own fault.
fn atom_place(section: Option<Place>, e: &Expr) -> Place
    ensures { result ≡ atom_place section (expr_tree e.now) }
{
    match section {
        Some(place) => place,
        None => place_in(e),
    }
}

/// The first fault, if there is one, or else the second.
fn first_there(first: Option<TypeFault>, second: Option<TypeFault>) -> Option<TypeFault>
    ensures { result ≡ first_there first second }
{
    match first {
        Some(fault) => Some(fault),
        None => second,
    }
}

/// An atom.
fn judge_atom<N: Names>(
    alloc: Global,
    names: &N,
    section: Option<Place>,
    e: &Expr,
) -> Result<Found, AllocError>
    ensures { IfOk result (λ r. Finds (N.told names.now) section (expr_tree e.now ∷ []) r) }
{
    match judge(alloc, names, STATE, e)? {
        Ok(typing) => Ok((
            listed(atom_place(section, e), typing.constraint_fault()),
            None,
        )),
        Err(fault) => Ok((None, fault)),
    }
}

/// The atoms of a formula.
#[tactic(auto, unfolding(crate::specs::Formulas::atoms))]
fn judge_atoms<N: Names>(
    alloc: Global,
    names: &N,
    section: Option<Place>,
    f: &Formula,
) -> Result<Found, AllocError>
    ensures { IfOk result (λ r.
        Finds (N.told names.now) section (atoms (formula_claim f.now)) r) }
{
    match f {
        Formula::Atom(e) => judge_atom(alloc, names, section, e),
        Formula::Not(part) => judge_atoms(alloc, names, section, part),
        Formula::Next(part) => judge_atoms(alloc, names, section, part),
        Formula::Always(part) => judge_atoms(alloc, names, section, part),
        Formula::Eventually(part) => judge_atoms(alloc, names, section, part),
        Formula::Two(_, left, right) => {
            let (own, within) = judge_atoms(alloc, names, section, left)?;
            let (later, deeper) = judge_atoms(alloc, names, section, right)?;
            Ok((first_there(own, later), earlier(within, deeper)))
        }
    }
}

/// The first fault of a property, whose atoms have the place of its section word, or of a formula that
/// stands alone, whose atoms have their own.
#[tactic(auto, unfolding(crate::specs::Formulas::formula_faults))]
pub fn check_formula<N: Names>(
    alloc: Global,
    names: &N,
    section: Option<Place>,
    f: &Formula,
) -> Result<Option<TypeFault>, AllocError>
    ensures { IfOk result (λ r.
        r ≡ earliest (formula_faults (N.told names.now) section (formula_claim f.now))) }
{
    let (own, within) = judge_atoms(alloc, names, section, f)?;
    Ok(earlier(own, within))
}
