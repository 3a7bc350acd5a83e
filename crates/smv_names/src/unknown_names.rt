//! The first unknown name of a program.
ghost use Rattle.std.specs.Prelude.{◌≡◌, ℕ, List, Some, map, flat_map, length, slice_get, IfOk};
ghost use Rattle.smv_tree.specs.Trees.{expr_tree};
ghost use Rattle.smv_tree.specs.Models.{Body, bodies, part_of, formula_claim};
ghost use Rattle.smv_meaning.specs.Instances.{Instance, instances};
ghost use Rattle.type_fault.specs.First.{earliest};
ghost use Rattle.smv_names.specs.UnknownNames.{is_parameter_by, is_known_by, is_assignable_by, unassignable, unknown_by, parts_at, is_known_in, unknown_names};
ghost use Rattle.smv_names.specs.Unknown.{unknown_in, unknown_in_claim};
ghost use Rattle.smv_names.specs.Ready.{IsReady};

use crate::unknown::{unknown_in, unknown_in_all, unknown_in_formula};
use crate::{Declared, Known, Resolver};
use smv_tree::{Expr, Formula, Item, Name, Path, Program, TypeSyntax};
use std::alloc::{AllocError, Global};
use type_fault::{TypeFault, earlier};

impl Resolver {
    /// How many instances there are.
    fn instance_count(&self) -> usize
        ensures { result ≡ length self.now.scopes.module_numbers.items }
    {
        self.scopes.module_numbers.len()
    }

    /// Whether a path is the name of a parameter of an instance.
    fn is_parameter(&self, number: usize, path: &Path) -> bool
        ensures { result ≡ is_parameter_by self.now number path.now }
    {
        match path.as_slice() {
            [name] => self.scopes.parameter(number, name).is_some(),
            _ => false,
        }
    }

    /// Whether there can be an assignment to a name in an instance: whether it is a variable of it.
    fn is_assignable(&self, number: usize, name: &Name) -> bool
        ensures { result ≡ is_assignable_by self.now number name.now }
    {
        if self.scopes.parameter(number, name).is_some() {
            return false;
        }
        match self.scopes.declared(number, name) {
            Some(Declared::Variable(_)) => true,
            _ => false,
        }
    }
}

/// The names that are known in an instance.
#[derive(Clone, Copy)]
struct InstanceNames<'a> {
    resolver: &'a Resolver,
    number: usize,
}

impl Known for InstanceNames<'_> {
    ghost known = { λ s. is_known_by s.resolver.now s.number };

    fn is_known(&self, path: &Path) -> bool {
        self.resolver.resolve(self.number, path).is_some()
            || self.resolver.is_parameter(self.number, path)
    }
}

/// That there can't be an assignment to the name of an item, if it is one.
#[tactic(auto, unfolding(type_fault::specs::First::earliest))]
fn unassignable(
    alloc: Global,
    resolver: &Resolver,
    number: usize,
    item: &Item,
) -> Result<Option<TypeFault>, AllocError>
    ensures { IfOk result (λ f. f ≡
        earliest (unassignable (is_assignable_by resolver.now number) (part_of item.now))) }
{
    let Item::Assign(_, name, place, _) = item else {
        return Ok(None);
    };
    if resolver.is_assignable(number, name) {
        return Ok(None);
    }
    let mut names = Vec::new(alloc);
    names.push(name.copy(alloc)?)?;
    Ok(Some(TypeFault::Unknown(*place, Path::from_vec(names))))
}

/// The first unknown name of an item of an instance.
#[tactic(auto, using(type_fault::proofs::Firsts::earliest_both), unfolding(type_fault::specs::First::earliest))]
fn unknown_in_item(
    alloc: Global,
    resolver: &Resolver,
    number: usize,
    item: &Item,
) -> Result<Option<TypeFault>, AllocError>
    ensures { IfOk result (λ f. f ≡ earliest (unknown_by resolver.now number (part_of item.now))) }
{
    let known = InstanceNames { resolver, number };
    match item {
        Item::Var(_, _, _, TypeSyntax::Plain(..)) => Ok(None),
        Item::Var(_, _, _, TypeSyntax::Instance(_, _, actuals)) => {
            unknown_in_all(alloc, &known, actuals.as_slice())
        }
        Item::Define(_, _, body) => unknown_in(alloc, &known, body),
        Item::Assign(_, _, _, value) => {
            let assigned = unassignable(alloc, resolver, number, item)?;
            let value = unknown_in(alloc, &known, value)?;
            Ok(earlier(assigned, value))
        }
        Item::Constraint(_, _, e) => unknown_in(alloc, &known, e),
        Item::Spec(_, _, formula) => unknown_in_formula(alloc, &known, formula),
    }
}

/// The first unknown name of some items of an instance.
fn unknown_in_items(
    alloc: Global,
    resolver: &Resolver,
    number: usize,
    items: &[Item],
) -> Result<Option<TypeFault>, AllocError>
    ensures { IfOk result (λ f.
        f ≡ earliest (flat_map (unknown_by resolver.now number) (map part_of items.now))) }
{
    let mut first = None;
    for item in items {
        first = earlier(first, unknown_in_item(alloc, resolver, number, item)?);
    }
    Ok(first)
}

/// The items of the module of an instance.
fn items_at<'a>(p: &'a Program, resolver: &Resolver, number: usize) -> &'a [Item]
    ensures { map part_of result.now ≡ parts_at (bodies p.now) resolver.now.scopes number }
{
    let Some(module_number) = resolver.scopes.module_numbers.get(number) else {
        return &[];
    };
    match p.modules.get(*module_number) {
        Some(one) => one.items.as_slice(),
        None => &[],
    }
}

/// The first unknown name of a program in the order of its instances: a path of names that stands
/// for nothing, or an assigned name that is no variable of the module; or that there is none.
///
/// # Errors
///
/// `AllocError` where memory was refused.
pub fn first_unknown_name(
    alloc: Global,
    p: &Program,
    resolver: &Resolver,
) -> Result<Option<TypeFault>, AllocError>
    requires { IsReady (bodies p.now) resolver.now }
    ensures { IfOk result (λ f. f ≡ earliest (unknown_names (bodies p.now))) }
{
    let mut first = None;
    for number in 0..resolver.instance_count() {
        let items = items_at(p, resolver, number);
        first = earlier(first, unknown_in_items(alloc, resolver, number, items)?);
    }
    Ok(first)
}

/// The first unknown name of an expression that stands in the instance of a number.
///
/// # Errors
///
/// `AllocError` where memory was refused.
pub fn unknown_in_expression(
    alloc: Global,
    resolver: &Resolver,
    number: usize,
    e: &Expr,
) -> Result<Option<TypeFault>, AllocError>
    ensures { IfOk result (λ f. (program : List Body) (i : Instance) → IsReady program resolver.now →
        slice_get (instances program) number ≡ Some i →
        f ≡ earliest (unknown_in (is_known_in program i) (expr_tree e.now))) }
{
    let first = unknown_in(alloc, &InstanceNames { resolver, number }, e)?;
    Ok(first)
}

/// The first unknown name of a formula whose expressions stand in the instance of a number.
///
/// # Errors
///
/// `AllocError` where memory was refused.
pub fn unknown_in_property(
    alloc: Global,
    resolver: &Resolver,
    number: usize,
    formula: &Formula,
) -> Result<Option<TypeFault>, AllocError>
    ensures { IfOk result (λ f. (program : List Body) (i : Instance) → IsReady program resolver.now →
        slice_get (instances program) number ≡ Some i →
        f ≡ earliest (unknown_in_claim (is_known_in program i) (formula_claim formula.now))) }
{
    let first = unknown_in_formula(alloc, &InstanceNames { resolver, number }, formula)?;
    Ok(first)
}
