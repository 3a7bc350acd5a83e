//! Whether a module contains itself, and the cycle of modules that is told.
ghost use Rattle.std.specs.Prelude.{◌≡◌, ◌<◌, ◌↔◌, ◌∷◌, ◌++◌, [], ℕ, Contains, IfOk, IsTrue, MatchOption, length, map};
ghost use Rattle.smv_tree.specs.Models.{bodies};
ghost use Rattle.smv_meaning.specs.Walks.{IsOnCycle};
ghost use Rattle.smv_meaning.specs.ModuleCycles.{HasModuleCycle};
ghost use Rattle.smv_graph.specs.Graph.{Leads};
ghost use Rattle.smv_modules.specs.Contained.{IsFirstContained};
ghost use Rattle.smv_modules.specs.CycleFaults.{name_of, TellsOf, IsCycleFault};

use crate::references::{module_at, reached_numbers};
use indexmap::IndexSet;
use smv_graph::{Graph, StepOrder, module_numbers};
use smv_tree::{Name, Program};
use std::alloc::{AllocError, Global};
use type_fault::{Names, TypeFault};

/// Whether a module is among those that are reached and contains itself, which those that are settled
/// don't.
fn is_contained(
    alloc: Global,
    graph: &Graph,
    reached: &IndexSet<usize>,
    settled: &IndexSet<usize>,
    number: usize,
) -> Result<bool, AllocError>
    requires { (a : ℕ) → Contains settled.now.keys a → ¬ IsOnCycle (Leads graph.now) a }
    ensures { IfOk result (λ is. IsTrue is ↔
        (Contains reached.now.keys number × IsOnCycle (Leads graph.now) number)) }
{
    if settled.contains(&number) {
        return Ok(false);
    }
    if reached.contains(&number) {
        let itself = graph.contains_itself(alloc, number)?;
        return Ok(itself);
    }
    Ok(false)
}

/// The number of the first declared module that `main` reaches and that contains itself, if one does.
///
/// It takes time linear in the graph where no module contains itself, and as many searches of it as
/// modules lead to one that does.
///
/// # Errors
///
/// `AllocError` where memory was refused.
pub fn first_contained(alloc: Global, p: &Program) -> Result<Option<usize>, AllocError>
    ensures { IfOk result (λ o.
        MatchOption o (¬ HasModuleCycle (bodies p.now)) (IsFirstContained (bodies p.now))) }
{
    let numbers = module_numbers(alloc, p)?;
    let reached = reached_numbers(alloc, p, &numbers)?;
    let graph = Graph::of(alloc, p)?;
    let settled = graph.settled(alloc)?;
    for number in 0..graph.len() {
        if is_contained(alloc, &graph, &reached, &settled, number)? {
            return Ok(Some(number));
        }
    }
    Ok(None)
}

/// The name of the module of a number.
fn module_name(alloc: Global, p: &Program, number: usize) -> Result<Name, AllocError>
    requires { number < length (bodies p.now) }
    ensures { IfOk result (λ n. n ≡ name_of (bodies p.now) number) }
{
    module_at(&p.modules, number).name.copy(alloc)
}

/// The names of the modules of a cycle, with the first at both ends.
fn told_names(
    alloc: Global,
    p: &Program,
    number: usize,
    between: &[usize],
) -> Result<Names, AllocError>
    requires first { number < length (bodies p.now) }
    requires between { (b : ℕ) → Contains between.now b → b < length (bodies p.now) }
    ensures { IfOk result (λ n. n ≡ name_of (bodies p.now) number
        ∷ (map (name_of (bodies p.now)) between.now ++ name_of (bodies p.now) number ∷ [])) }
{
    let mut names = Vec::new(alloc);
    names.push(module_name(alloc, p, number)?)?;
    for one in between {
        names.push(module_name(alloc, p, *one)?)?;
    }
    names.push(module_name(alloc, p, number)?)?;
    Ok(Names::from_vec(names))
}

/// The fault that tells of a cycle.
fn told_cycle(
    alloc: Global,
    p: &Program,
    number: usize,
    between: &[usize],
) -> Result<TypeFault, AllocError>
    requires first { number < length (bodies p.now) }
    requires between { (b : ℕ) → Contains between.now b → b < length (bodies p.now) }
    ensures { IfOk result (TellsOf (bodies p.now) number between.now) }
{
    let names = told_names(alloc, p, number, between)?;
    let place = module_at(&p.modules, number).place;
    Ok(TypeFault::Contains(place, names))
}

/// The cycle of modules that is told (214), and nothing where no module that `main` reaches contains
/// itself: the first of the shortest ones through the first declared module that lies on one.
///
/// # Errors
///
/// `AllocError` where memory was refused.
pub fn first_cycle_fault(alloc: Global, p: &Program) -> Result<Option<TypeFault>, AllocError>
    ensures { IfOk result (λ o.
        MatchOption o (¬ HasModuleCycle (bodies p.now)) (IsCycleFault (bodies p.now))) }
{
    let Some(number) = first_contained(alloc, p)? else {
        return Ok(None);
    };
    let graph = Graph::of(alloc, p)?;
    match graph.first_cycle(alloc, StepOrder::ByNumber, number)? {
        Some(between) => Ok(Some(told_cycle(alloc, p, number, between.as_slice())?)),
        None => unreachable!(),
    }
}
