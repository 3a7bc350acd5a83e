//! Whether the instances in the modules that `main` reaches have their modules, with the parameters
//! that these have.
ghost use Rattle.std.specs.Prelude.{◌≡◌, ◌<◌, ◌↔◌, ℕ, Some, slice_get, List, Contains, IsTrue, map, flat_map, length, IfOk};
ghost use Rattle.smv_tree.specs.Models.{bodies, body_of, part_of};
ghost use Rattle.smv_meaning.specs.Instances.{find_body};
ghost use Rattle.smv_meaning.specs.ModuleCycles.{IsReached};
ghost use Rattle.smv_graph.specs.Graph.{IsNumbered};
ghost use Rattle.type_fault.specs.declared.fault.TypeFault.{TypeFault};
ghost use Rattle.type_fault.specs.First.{earliest};
ghost use Rattle.smv_modules.specs.References.{reference_faults, part_faults, main_faults, references_in, AreReferenceFaults};
ghost use Rattle.smv_modules.specs.Counts.{AreNumbers, count_of, counted_fault, IsReachedNumber, IsFaultIfReached};

use indexmap::IndexSet;
use smv_graph::{Graph, Numbers, module_numbers};
use smv_tree::{Item, Items, Module, Modules, Name, Path, Place, Program, TypeSyntax};
use std::alloc::{AllocError, Global};
use type_fault::{TypeFault, earlier};

/// The module of a number.
pub(crate) fn module_at(modules: &Modules, number: usize) -> &Module
    requires { number < length modules.now.items }
    ensures { slice_get modules.now.items number ≡ Some result.now }
{
    &modules[number]
}

/// How many parameters a module has.
fn arity(one: &Module) -> usize
    ensures { result ≡ length one.now.params.items }
{
    one.params.len()
}

/// How many parameters the module of a name has, if it is there.
fn parameter_count(p: &Program, numbers: &Numbers, name: &Name) -> Option<usize>
    requires { AreNumbers numbers.now (bodies p.now) }
    ensures { result ≡ count_of (find_body name.now (bodies p.now)) }
{
    match numbers.get(name.as_slice()) {
        Some(number) => Some(arity(module_at(&p.modules, number))),
        None => None,
    }
}

/// What is wrong with an instance, by the number of parameters of its module.
fn counted_fault(
    alloc: Global,
    name: &Name,
    place: Place,
    given: usize,
    count: Option<usize>,
) -> Result<Option<TypeFault>, AllocError>
    ensures { IfOk result (λ f. f ≡ counted_fault name.now place given count) }
{
    match count {
        Some(count) => {
            if count == given {
                Ok(None)
            } else {
                Ok(Some(TypeFault::Arity(place)))
            }
        }
        None => {
            let mut names = Vec::new(alloc);
            names.push(name.copy(alloc)?)?;
            Ok(Some(TypeFault::Unknown(place, Path::from_vec(names))))
        }
    }
}

/// What is wrong with an instance of a module of this name, which gets so many parameters.
fn reference_fault(
    alloc: Global,
    p: &Program,
    numbers: &Numbers,
    name: &Name,
    place: Place,
    given: usize,
) -> Result<Option<TypeFault>, AllocError>
    requires { AreNumbers numbers.now (bodies p.now) }
    ensures { IfOk result (λ f.
        f ≡ earliest (reference_faults name.now place given (find_body name.now (bodies p.now)))) }
{
    let count = parameter_count(p, numbers, name);
    let fault = counted_fault(alloc, name, place, given, count)?;
    Ok(fault)
}

/// What is wrong with an item, if it is an instance.
#[tactic(auto, unfolding(type_fault::specs::First::earliest))]
fn part_fault(
    alloc: Global,
    p: &Program,
    numbers: &Numbers,
    item: &Item,
) -> Result<Option<TypeFault>, AllocError>
    requires { AreNumbers numbers.now (bodies p.now) }
    ensures { IfOk result (λ f. f ≡ earliest (part_faults (bodies p.now) (part_of item.now))) }
{
    match item {
        Item::Var(_, _, _, TypeSyntax::Instance(name, place, actuals)) => {
            reference_fault(alloc, p, numbers, name, *place, actuals.len())
        }
        _ => Ok(None),
    }
}

/// The first fault of the instances among some items.
fn parts_fault(
    alloc: Global,
    p: &Program,
    numbers: &Numbers,
    items: &Items,
) -> Result<Option<TypeFault>, AllocError>
    requires { AreNumbers numbers.now (bodies p.now) }
    ensures { IfOk result (λ f. f ≡
        earliest (flat_map (part_faults (bodies p.now)) (map part_of items.now.items))) }
{
    let mut first = None;
    for item in items {
        first = earlier(first, part_fault(alloc, p, numbers, item)?);
    }
    Ok(first)
}

/// That a module is the main one and has parameters.
#[tactic(auto, unfolding(type_fault::specs::First::earliest))]
fn main_fault(one: &Module) -> Option<TypeFault>
    ensures { result ≡ earliest (main_faults (body_of one.now)) }
{
    if one.name.as_slice() == b"main".as_slice() && one.params.len() != 0 {
        Some(TypeFault::Arity(one.place))
    } else {
        None
    }
}

/// The first fault of a module's references.
fn module_fault(
    alloc: Global,
    p: &Program,
    numbers: &Numbers,
    one: &Module,
) -> Result<Option<TypeFault>, AllocError>
    requires { AreNumbers numbers.now (bodies p.now) }
    ensures { IfOk result (λ f. f ≡ earliest (references_in (bodies p.now) (body_of one.now))) }
{
    let main = main_fault(one);
    let part = parts_fault(alloc, p, numbers, &one.items)?;
    Ok(earlier(main, part))
}

/// The numbers of the main module and of those that it reaches.
pub(crate) fn reached_numbers(
    alloc: Global,
    p: &Program,
    numbers: &Numbers,
) -> Result<IndexSet<usize>, AllocError>
    requires { AreNumbers numbers.now (bodies p.now) }
    ensures { IfOk result (λ s. (a : ℕ) → Contains s.keys a ↔ IsReachedNumber (bodies p.now) a) }
{
    match numbers.get(b"main".as_slice()) {
        Some(main) => {
            let graph = Graph::of(alloc, p)?;
            let mut reached = graph.reached(alloc, main)?;
            reached.insert(main)?;
            Ok(reached)
        }
        None => Ok(IndexSet::new(alloc)),
    }
}

/// Whether main reaches a module.
fn is_reached(p: &Program, numbers: &Numbers, reached: &IndexSet<usize>, one: &Module) -> bool
    requires numbers { AreNumbers numbers.now (bodies p.now) }
    requires reached { (a : ℕ) → Contains reached.now.keys a ↔ IsReachedNumber (bodies p.now) a }
    requires listed { Contains p.now.modules.items one.now }
    ensures { IsTrue result ↔ IsReached (bodies p.now) one.now.name }
{
    match numbers.get(one.name.as_slice()) {
        Some(number) => reached.contains(&number),
        None => false,
    }
}

/// The first fault of a module's references, if main reaches it.
fn reached_fault(
    alloc: Global,
    p: &Program,
    numbers: &Numbers,
    reached: &IndexSet<usize>,
    one: &Module,
) -> Result<Option<TypeFault>, AllocError>
    requires numbers { AreNumbers numbers.now (bodies p.now) }
    requires reached { (a : ℕ) → Contains reached.now.keys a ↔ IsReachedNumber (bodies p.now) a }
    requires listed { Contains p.now.modules.items one.now }
    ensures { IfOk result (λ f. IsFaultIfReached (bodies p.now) (body_of one.now) f) }
{
    if is_reached(p, numbers, reached, one) {
        module_fault(alloc, p, numbers, one)
    } else {
        Ok(None)
    }
}

/// The first fault of the references to modules in those that `main` reaches: that there is no such
/// module (203), that it has another number of parameters, or that `main` has parameters (204); and
/// nothing where all references are right.
///
/// # Errors
///
/// `AllocError` where memory was refused.
pub fn first_reference_fault(alloc: Global, p: &Program) -> Result<Option<TypeFault>, AllocError>
    ensures { IfOk result (λ f. (faults : List TypeFault) ×
        AreReferenceFaults (bodies p.now) faults × (f ≡ earliest faults)) }
{
    let numbers = module_numbers(alloc, p)?;
    let reached = reached_numbers(alloc, p, &numbers)?;
    let mut first = None;
    for one in &p.modules {
        first = earlier(first, reached_fault(alloc, p, &numbers, &reached, one)?);
    }
    Ok(first)
}
