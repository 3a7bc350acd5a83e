#![tactic(auto)]
//! What the names of a model are, by tables that are made once: the parameters and the items of each
//! module, and the symbols of all enumerations; what the names of an expression lead to, and the first
//! name of an expression or a formula that is not known.
//!
//! The first of a name counts, as `smv_meaning` has it, and a look-up costs no more than the name's
//! length.

mod children;
mod declared;
mod laws;
mod making;
mod parameters;
mod references;
mod resolver;
mod scopes;
mod symbols;
mod table;
mod target;
mod unknown;
mod unknown_names;

pub use declared::Declared;
pub use laws::{modules_make_whole, tables_tell_members};
pub use parameters::parameter_numbers;
pub use references::{Lookup, with_references};
pub use resolver::Resolver;
pub use symbols::{Symbols, symbols_of};
pub use table::{Table, item_table};
pub use target::Target;
pub use unknown::{Known, unknown_in, unknown_in_formula};
pub use unknown_names::{first_unknown_name, unknown_in_expression, unknown_in_property};
