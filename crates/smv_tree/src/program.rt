ghost use Rattle.std.specs.Prelude.{◌≡◌, position};
ghost use Rattle.std.specs.Str.{bytes_eq};
ghost use Rattle.smv_tree.specs.Models.{bodies};

use crate::{Expr, Exprs, Formula, Name, Place, Ty};

/// A model as it is written: its modules in the order of the text.
#[derive(Debug, Drop)]
pub struct Program {
    pub modules: Modules,
}

/// Modules in the order of the text.
pub type Modules = Vec<Module>;

/// A module. Its place is that of its name.
#[derive(Debug, Drop)]
pub struct Module {
    pub name: Name,
    pub place: Place,
    pub params: Params,
    pub items: Items,
}

/// A formal parameter, with the place of its name.
#[derive(Debug, Drop)]
pub struct Param {
    pub name: Name,
    pub place: Place,
}

/// The formal parameters of a module.
pub type Params = Vec<Param>;

/// Whether a variable belongs to a state, to an input, or keeps its first value.
#[derive(Clone, Copy, Debug, PartialEq, Eq)]
pub enum Kind {
    State,
    Input,
    Frozen,
}

/// Where the value of an assignment holds: in the first state, in each state, in the next state.
#[derive(Clone, Copy, Debug, PartialEq, Eq)]
pub enum Moment {
    First,
    Each,
    Next,
}

/// The section of a constraint.
#[derive(Clone, Copy, Debug, PartialEq, Eq)]
pub enum Section {
    Init,
    Invar,
    Trans,
}

/// What a variable is declared as. A plain type has the place of its first token, an instance the
/// name of its module, the place of that name, and the actual parameters.
#[derive(Debug, Drop)]
pub enum TypeSyntax {
    Plain(Ty, Place),
    Instance(Name, Place, Exprs),
}

/// What a module's sections hold. A declaration has the place of its name, a constraint and a
/// property that of the section word.
#[derive(Debug, Drop)]
pub enum Item {
    Var(Kind, Name, Place, TypeSyntax),
    Define(Name, Place, Expr),
    Assign(Moment, Name, Place, Expr),
    Constraint(Section, Place, Expr),
    Spec(Option<Name>, Place, Formula),
}

/// The items of a module in the order of the text.
pub type Items = Vec<Item>;

/// The number of the first module of this name, from 0, by the modules as they are.
fn first_named(p: &Program, name: &Name) -> Option<usize>
    ensures { result ≡ position (λ m. bytes_eq m.name name.now) p.now.modules.items }
{
    p.modules
        .iter()
        .position(|m| m.name.as_slice() == name.as_slice())
}

/// The number of the first module of this name, from 0.
pub fn find_module(p: &Program, name: &Name) -> Option<usize>
    ensures { result ≡ position (λ b. bytes_eq b.name name.now) (bodies p.now) }
{
    first_named(p, name)
}
