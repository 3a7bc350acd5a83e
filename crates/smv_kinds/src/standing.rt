//! What may stand where one boolean, values for a variable, or an expression of its own is wanted; and
//! the types that are declared.
ghost use Rattle.std.specs.Prelude.{◌≡◌, fold};
ghost use Rattle.smv_kinds.specs.Sorts.{joined};
ghost use Rattle.smv_kinds.specs.Nodes.{constraint_fault, assignment_fault, body_fault, value_sort, enum_sort, declared_sort, type_fault};

use crate::result::is_width;
use crate::{Interval, NodeFault, Sort, TyWord, Typing};
use smv_tree::{Ty, Value};

impl Typing {
    /// What is wrong with this where one boolean is wanted: a constraint, or an atom of a formula.
    pub fn constraint_fault(self) -> Option<NodeFault>
        ensures { result ≡ constraint_fault self }
    {
        if !self.sort.is_boolean() {
            Some(NodeFault::Operands(self.sort.word(), TyWord::Boolean))
        } else if self.is_set {
            Some(NodeFault::SetHere)
        } else {
            None
        }
    }

    /// What is wrong with this where it is assigned to a variable of that kind.
    pub fn assignment_fault(self, variable: Sort) -> Option<NodeFault>
        ensures { result ≡ assignment_fault variable self }
    {
        if variable.agrees(self.sort) {
            None
        } else {
            Some(NodeFault::Operands(variable.word(), self.sort.word()))
        }
    }

    /// What is wrong with this where a define or an actual parameter names it: an instance is no value.
    pub fn body_fault(self) -> Option<NodeFault>
        ensures { result ≡ body_fault self }
    {
        match self.sort {
            Sort::Instance => Some(NodeFault::Operands(TyWord::Instance, TyWord::Instance)),
            _ => None,
        }
    }
}

/// The kind of a value of an enumeration.
fn value_sort(value: &Value) -> Sort
    ensures { result ≡ value_sort value.now }
{
    match value {
        Value::Truth(_) => Sort::Boolean,
        Value::Int(n) => Sort::Integer(Interval { low: *n, high: *n }),
        Value::Sym(_) => Sort::Symbolic,
        Value::Word(w) => Sort::Word(w.signed(), w.width()),
    }
}

/// The kind of what has values of this kind and these values.
fn joined_with(first: Sort, values: &[Value]) -> Sort
    ensures { result ≡ fold (λ s v. joined s (value_sort v)) first values.now }
{
    let mut sort = first;
    for value in values {
        sort = sort.joined(value_sort(value));
    }
    sort
}

/// The kind of an enumeration's values.
#[tactic(auto, unfolding(crate::specs::Nodes::enum_sort))]
fn enum_sort(values: &[Value]) -> Sort
    ensures { result ≡ enum_sort values.now }
{
    match values {
        [first, rest @ ..] => joined_with(value_sort(first), rest),
        [] => Sort::Symbolic,
    }
}

impl Sort {
    /// The kind of a variable of this type.
    pub fn declared(ty: &Ty) -> Sort
        ensures { result ≡ declared_sort ty.now }
    {
        match ty {
            Ty::Bool => Sort::Boolean,
            Ty::Range(low, high) => Sort::Integer(Interval {
                low: *low,
                high: *high,
            }),
            Ty::Enum(values) => enum_sort(values.as_slice()),
            Ty::Word(signed, width) => Sort::Word(*signed, *width),
        }
    }
}

/// What is wrong with a type that is declared.
pub fn type_fault(ty: &Ty) -> Option<NodeFault>
    ensures { result ≡ type_fault ty.now }
{
    match ty {
        Ty::Range(low, high) if low > high => Some(NodeFault::Reversed),
        Ty::Word(_, width) if !is_width(*width as u64) => Some(NodeFault::Width),
        _ => None,
    }
}
