#![tactic(auto)]
//! Models as the parser reads them: values, types, places, expressions, formulas and programs.
//!
//! The types are plain trees. A clause that relates trees to text or to meaning speaks of their
//! twins in `specs`, which hold no pointers; `specs/Trees.antt` has the way from the one to the
//! other.

mod expr;
mod formula;
mod legality;
mod name;
mod place;
mod program;
mod value;

pub use expr::{Branch, Branches, Expr, Exprs, Op1, Op2};
pub use formula::{FormOp, Formula};
pub use legality::{legal, legal_words_fit};
pub use name::{Name, Path};
pub use place::Place;
pub use program::{
    Item, Items, Kind, Module, Modules, Moment, Param, Params, Program, Section, TypeSyntax,
    find_module,
};
pub use value::{Ty, Value, Values, WordVal, word_value};
