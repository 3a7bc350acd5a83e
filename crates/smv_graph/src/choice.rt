//! Which of the steps from a module is taken.
ghost use Rattle.std.specs.Prelude.{◌≡◌, ◌↔◌, ℕ, Contains, Some, nat_eq};
ghost use Rattle.std.specs.Map.{lookup};
ghost use Rattle.smv_graph.specs.declared.choice.StepOrder.TheVariants.{ByRow};
ghost use Rattle.smv_graph.specs.Choices.{LeadsAt, IsChosen, IsLeast, lesser};

use indexmap::IndexMap;

/// Which of two steps from a module is the earlier one.
#[derive(Clone, Copy, Debug)]
pub enum StepOrder {
    /// The step to the module of the smaller number.
    ByNumber,
    /// The step that stands first in the row.
    ByRow,
}

/// The lesser of two numbers of which each may be missing.
fn lesser(a: Option<usize>, b: Option<usize>) -> Option<usize>
    ensures { result ≡ lesser a b }
{
    match (a, b) {
        (Some(a), Some(b)) => Some(a.min(b)),
        (Some(a), None) => Some(a),
        (None, b) => b,
    }
}

/// How far the module is to which a part of a row leads.
fn distance_of(distances: &IndexMap<usize, usize>, target: Option<usize>) -> Option<usize>
    ensures { (d : ℕ) → (result ≡ Some d) ↔ ((b : ℕ) × (target ≡ Some b)
        × (lookup (nat_eq b) distances.now.entries ≡ Some d)) }
{
    distances.get(&target?).copied()
}

/// The module to which a part of a row leads, if it is so far away.
fn module_at(
    distances: &IndexMap<usize, usize>,
    target: Option<usize>,
    distance: usize,
) -> Option<usize>
    ensures { (b : ℕ) → (result ≡ Some b) ↔ ((target ≡ Some b)
        × (lookup (nat_eq b) distances.now.entries ≡ Some distance)) }
{
    let far = distance_of(distances, target)?;
    if far == distance { target } else { None }
}

/// The least distance of the modules of a row.
pub(crate) fn nearest(distances: &IndexMap<usize, usize>, row: &[Option<usize>]) -> Option<usize>
    ensures { IsLeast (λ d. (b : ℕ) × LeadsAt distances.now.entries row.now d b) result }
{
    let mut least = None;
    for target in row {
        least = lesser(least, distance_of(distances, *target));
    }
    least
}

/// The module with the least number of those of a row that are so far away.
fn least_at(
    distances: &IndexMap<usize, usize>,
    row: &[Option<usize>],
    distance: usize,
) -> Option<usize>
    ensures { IsLeast (LeadsAt distances.now.entries row.now distance) result }
{
    let mut least = None;
    for target in row {
        least = lesser(least, module_at(distances, *target, distance));
    }
    least
}

/// The first module of a row that is so far away.
fn first_at(
    distances: &IndexMap<usize, usize>,
    row: &[Option<usize>],
    distance: usize,
) -> Option<usize>
    ensures { IsChosen ByRow distances.now.entries row.now distance result }
{
    for target in row {
        if let Some(number) = module_at(distances, *target, distance) {
            return Some(number);
        }
    }
    None
}

/// The first step of a row to a module that is so far away.
pub(crate) fn choose(
    order: StepOrder,
    distances: &IndexMap<usize, usize>,
    row: &[Option<usize>],
    distance: usize,
) -> Option<usize>
    ensures { IsChosen order distances.now.entries row.now distance result }
{
    match order {
        StepOrder::ByNumber => least_at(distances, row, distance),
        StepOrder::ByRow => first_at(distances, row, distance),
    }
}
