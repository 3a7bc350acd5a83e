//! What variables have for values.
ghost use Rattle.std.specs.Prelude.{◌≡◌, ℕ, List, Option};
ghost use Rattle.smv_tree.specs.Models.{part_of};
ghost use Rattle.smv_types.specs.Assigning.{variable_type};
ghost use Rattle.smv_types.specs.declared.variable.VariableType.{VariableType};

use smv_kinds::Sort;
use smv_tree::{Item, Kind, Name, TypeSyntax};

/// What a variable has for values, and whether it belongs to a state.
#[derive(Clone, Copy, Debug, PartialEq, Eq)]
pub struct VariableType {
    pub kind: Kind,
    pub sort: Sort,
}

/// The variables of the instance that an assignment stands in.
pub trait Variables {
    /// The variable of each name.
    ghost variables: { Self → List ℕ → Option VariableType };

    /// The variable of a name.
    fn variable(&self, name: &Name) -> Option<VariableType>
        ensures { result ≡ variables self.now name.now };
}

/// What the variable of an item has for values, if it declares one.
pub(crate) fn variable_type(item: &Item) -> Option<VariableType>
    ensures { result ≡ variable_type (part_of item.now) }
{
    match item {
        Item::Var(kind, _, _, TypeSyntax::Plain(ty, _)) => Some(VariableType {
            kind: *kind,
            sort: Sort::declared(ty),
        }),
        _ => None,
    }
}
