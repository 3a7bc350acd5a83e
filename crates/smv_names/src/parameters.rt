//! The parameters of a module by number.
ghost use Rattle.std.specs.Prelude.{◌≡◌, ℕ, List, IfOk, map, position};
ghost use Rattle.std.specs.Map.{lookup};
ghost use Rattle.std.specs.Str.{bytes_eq};
ghost use Rattle.smv_tree.specs.Models.{formal_of};

use smv_graph::Numbers;
use smv_tree::Params;
use std::alloc::{AllocError, Global};

/// The parameters of a module by their names, each name with the first of it.
///
/// # Errors
///
/// `AllocError` where memory was refused.
pub fn parameter_numbers(alloc: Global, params: &Params) -> Result<Numbers, AllocError>
    ensures { IfOk result (λ n. (m : List ℕ) → lookup (bytes_eq m) n
        ≡ position (λ f. bytes_eq f.name m) (map formal_of params.now.items)) }
{
    let mut numbers = Numbers::new(alloc);
    for (i, param) in params.iter().enumerate() {
        numbers.insert(alloc, param.name.as_slice(), i)?;
    }
    Ok(numbers)
}
