ghost use Rattle.std.specs.Prelude.{◌≡◌};
ghost use Rattle.type_fault.specs.Faults.{number_of, place_of};

use crate::{Names, Paths};
use smv_kinds::TyWord;
use smv_tree::{Name, Path, Place};
use std::alloc::AllocError;
use thiserror::Error;

/// Why a model has no types, or an expression or a formula has none over it.
#[derive(Debug, Drop, Error)]
pub enum TypeFault {
    /// The model has no module of the name `main`.
    #[error("no module main")]
    NoMain,
    /// A second module, a second thing in one module or a second value of one enumeration has this name.
    #[error("a name is declared twice")]
    Twice(Place, Name),
    /// A name of nothing, as it is written.
    #[error("a path is unknown")]
    Unknown(Place, Path),
    /// A module gets more or fewer parameters than it has.
    #[error("wrong number of parameters")]
    Arity(Place),
    /// The kinds of two operands that don't go together; or that of one, and the one that is wanted.
    #[error("operand types")]
    Operands(Place, TyWord, TyWord),
    /// A set where one value is wanted.
    #[error("a set where one value is wanted")]
    SetHere(Place),
    /// `next` where there is no next state.
    #[error("next is out of place")]
    NextHere(Place),
    /// A name that is an input or speaks of one, as it is written, where there is no input.
    #[error("an input is out of place")]
    InputHere(Place, Path),
    /// A second assignment of one variable.
    #[error("a variable is assigned twice")]
    Assigned(Place, Name),
    /// An assignment of a frozen variable in each or the next state.
    #[error("a frozen variable is assigned")]
    FrozenAssigned(Place, Name),
    /// A range whose first number is above its last.
    #[error("reversed range")]
    Reversed(Place),
    /// A width, or the number of a bit, out of range.
    #[error("width or bit number out of range")]
    Width(Place),
    /// An integer may be outside 64 bits: the first end that is.
    #[error("an integer is outside 64 bits")]
    Interval(Place, i128),
    /// Modules of which each has an instance of the next, the first again at the end.
    #[error("a module contains itself")]
    Contains(Place, Names),
    /// Defines and parameters of which each names the next, the first again at the end.
    #[error("defines in a cycle")]
    DefineCycle(Place, Paths),
    /// More than 100,000 instances.
    #[error("more than 100000 instances")]
    Instances,
    /// The first path of an instance that is too deep.
    #[error("instances nested deeper than 64")]
    Deep(Path),
    /// Memory was refused.
    #[error("out of memory")]
    NoMemory(AllocError),
}

impl From<AllocError> for TypeFault {
    ghost use Rattle.type_fault.specs.declared.fault.TypeFault.TheVariants.{NoMemory};

    ghost from_gives = { λ e f. f ≡ NoMemory e };

    fn from(error: AllocError) -> TypeFault {
        TypeFault::NoMemory(error)
    }
}

impl TypeFault {
    /// The number that the fault has for users.
    pub fn number(&self) -> u32
        ensures { result ≡ number_of self.now }
    {
        match self {
            TypeFault::NoMain => 201,
            TypeFault::Twice(..) => 202,
            TypeFault::Unknown(..) => 203,
            TypeFault::Arity(..) => 204,
            TypeFault::Operands(..) => 205,
            TypeFault::SetHere(..) => 206,
            TypeFault::NextHere(..) => 207,
            TypeFault::InputHere(..) => 208,
            TypeFault::Assigned(..) => 209,
            TypeFault::FrozenAssigned(..) => 210,
            TypeFault::Reversed(..) => 211,
            TypeFault::Width(..) => 212,
            TypeFault::Interval(..) => 213,
            TypeFault::Contains(..) => 214,
            TypeFault::DefineCycle(..) => 215,
            TypeFault::Instances => 216,
            TypeFault::Deep(..) => 217,
            TypeFault::NoMemory(_) => 900,
        }
    }

    /// The place that it names.
    pub fn place(&self) -> Option<Place>
        ensures { result ≡ place_of self.now }
    {
        match self {
            TypeFault::NoMain => Some(Place { line: 1, column: 1 }),
            TypeFault::Twice(place, _) => Some(*place),
            TypeFault::Unknown(place, _) => Some(*place),
            TypeFault::Arity(place) => Some(*place),
            TypeFault::Operands(place, _, _) => Some(*place),
            TypeFault::SetHere(place) => Some(*place),
            TypeFault::NextHere(place) => Some(*place),
            TypeFault::InputHere(place, _) => Some(*place),
            TypeFault::Assigned(place, _) => Some(*place),
            TypeFault::FrozenAssigned(place, _) => Some(*place),
            TypeFault::Reversed(place) => Some(*place),
            TypeFault::Width(place) => Some(*place),
            TypeFault::Interval(place, _) => Some(*place),
            TypeFault::Contains(place, _) => Some(*place),
            TypeFault::DefineCycle(place, _) => Some(*place),
            TypeFault::Instances | TypeFault::Deep(_) | TypeFault::NoMemory(_) => None,
        }
    }
}
