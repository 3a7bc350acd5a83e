//! The symbols of a model.
ghost use Rattle.std.specs.Prelude.{◌≡◌, [], ℕ, List, IfOk, map, position};
ghost use Rattle.smv_tree.specs.Models.{bodies, body_of, part_of};
ghost use Rattle.std.specs.List.{list_any};
ghost use Rattle.std.specs.Str.{bytes_eq};
ghost use Rattle.smv_meaning.specs.Names.{is_symbol, names_symbol};
ghost use Rattle.smv_names.specs.SymbolSets.{has, Gains};

use indexmap::IndexSet;
use smv_tree::{Item, Items, Modules, Program, Ty, TypeSyntax, Value};
use std::alloc::{AllocError, Global};
use std::marker::Model;

/// The symbols of all enumerations, each once and by number, from 0.
#[derive(Drop)]
pub struct Symbols {
    names: IndexSet<Vec<u8>>,
}

impl Model for Symbols {
    ghost use Rattle.std.specs.Prelude.{ℕ, List, map};

    ghost Value = { List (List ℕ) };

    ghost view = { λ s. map (λ n. n.items) s.names.keys };
}

impl Symbols {
    fn new(alloc: Global) -> Symbols
        ensures { result ≡ [] }
    {
        Symbols {
            names: IndexSet::new(alloc),
        }
    }

    /// The number of a symbol, if it is one.
    pub fn get(&self, name: &[u8]) -> Option<usize>
        ensures { result ≡ position (bytes_eq name.now) self.now }
    {
        self.names.get_index_of(name)
    }

    /// The symbols with one more.
    fn with(self, alloc: Global, name: &[u8]) -> Result<Symbols, AllocError>
        ensures { IfOk result (λ s. Gains (λ m. bytes_eq name.now m) self s) }
    {
        let mut names = self.names;
        names.insert(Vec::from_slice(alloc, name)?)?;
        Ok(Symbols { names })
    }
}

/// The symbols with a value, if it is one.
fn with_value(symbols: Symbols, alloc: Global, value: &Value) -> Result<Symbols, AllocError>
    ensures { IfOk result (λ s. Gains (λ m. is_symbol m value.now) symbols s) }
{
    match value {
        Value::Sym(name) => symbols.with(alloc, name.as_slice()),
        _ => Ok(symbols),
    }
}

/// The symbols with those among some values.
fn with_values(symbols: Symbols, alloc: Global, values: &[Value]) -> Result<Symbols, AllocError>
    ensures { IfOk result (λ s. Gains (λ m. list_any (is_symbol m) values.now) symbols s) }
{
    let mut symbols = symbols;
    for value in values {
        symbols = with_value(symbols, alloc, value)?;
    }
    Ok(symbols)
}

/// The symbols with those of the enumeration of an item, if it has one.
fn with_item(symbols: Symbols, alloc: Global, item: &Item) -> Result<Symbols, AllocError>
    ensures { IfOk result (λ s. Gains (λ m. names_symbol m (part_of item.now)) symbols s) }
{
    match item {
        Item::Var(_, _, _, TypeSyntax::Plain(Ty::Enum(values), _)) => {
            with_values(symbols, alloc, values.as_slice())
        }
        _ => Ok(symbols),
    }
}

/// The symbols with those of some items.
fn with_items(symbols: Symbols, alloc: Global, items: &Items) -> Result<Symbols, AllocError>
    ensures { IfOk result (λ s.
        Gains (λ m. list_any (names_symbol m) (map part_of items.now.items)) symbols s) }
{
    let mut symbols = symbols;
    for item in items {
        symbols = with_item(symbols, alloc, item)?;
    }
    Ok(symbols)
}

/// The symbols with those of some modules.
fn with_modules(symbols: Symbols, alloc: Global, modules: &Modules) -> Result<Symbols, AllocError>
    ensures { IfOk result (λ s. Gains
        (λ m. list_any (λ b. list_any (names_symbol m) b.parts) (map body_of modules.now.items)) symbols s) }
{
    let mut symbols = symbols;
    for one in modules {
        symbols = with_items(symbols, alloc, &one.items)?;
    }
    Ok(symbols)
}

/// The symbols of a program.
///
/// # Errors
///
/// `AllocError` where memory was refused.
pub fn symbols_of(alloc: Global, p: &Program) -> Result<Symbols, AllocError>
    ensures { IfOk result (λ s. (m : List ℕ) →
        has s m ≡ list_any (λ b. list_any (names_symbol m) b.parts) (bodies p.now)) }
{
    let symbols = with_modules(Symbols::new(alloc), alloc, &p.modules)?;
    Ok(symbols)
}
