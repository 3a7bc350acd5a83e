//! The names that the items of a module declare.
ghost use Rattle.std.specs.Prelude.{◌≡◌, [], ◌∷◌, IfOk, map, fold};
ghost use Rattle.std.specs.Map.{lookup};
ghost use Rattle.std.specs.Str.{bytes_eq};
ghost use Rattle.smv_tree.specs.Models.{part_of};
ghost use Rattle.smv_names.specs.Entries.{put};
ghost use Rattle.smv_names.specs.Tables.{AreSame, part_entry, part_entries, defines_of};

use crate::Declared;
use indexmap::IndexMap;
use smv_tree::{Item, Items, TypeSyntax};
use std::alloc::{AllocError, Global};
use std::marker::Model;

/// Names with what each of them is, each name once.
#[derive(Drop)]
pub struct Table {
    names: IndexMap<Vec<u8>, Declared>,
}

impl Model for Table {
    ghost use Rattle.std.specs.Prelude.{ℕ, List, map};
    ghost use Rattle.smv_names.specs.declared.declared.Declared.{Declared};

    ghost Value = { List (List ℕ × Declared) };

    ghost view = { λ t. map (λ e. (e.0.items, e.1)) t.names.entries };
}

impl Table {
    fn new(alloc: Global) -> Table
        ensures { result ≡ [] }
    {
        Table {
            names: IndexMap::new(alloc),
        }
    }

    /// What a name is, if it is declared.
    pub fn get(&self, name: &[u8]) -> Option<Declared>
        ensures { result ≡ lookup (bytes_eq name.now) self.now }
    {
        self.names.get(name).copied()
    }

    /// The table with one more name, unless it has that name.
    fn with(self, alloc: Global, name: &[u8], declared: Declared) -> Result<Table, AllocError>
        ensures { IfOk result (λ t. t ≡ put self (name.now, declared)) }
    {
        match self.get(name) {
            Some(_) => Ok(self),
            None => {
                let mut names = self.names;
                names.insert(Vec::from_slice(alloc, name)?, declared)?;
                Ok(Table { names })
            }
        }
    }
}

/// The table with the name of an item of this number, before which so many defines stand.
fn with_item(
    table: Table,
    alloc: Global,
    item: &Item,
    number: usize,
    defines: usize,
) -> Result<Table, AllocError>
    ensures { IfOk result (λ t. t ≡
        fold put table (part_entry number defines (part_of item.now))) }
{
    match item {
        Item::Var(_, name, _, TypeSyntax::Plain(..)) => {
            table.with(alloc, name.as_slice(), Declared::Variable(number))
        }
        Item::Var(_, name, _, TypeSyntax::Instance(..)) => {
            table.with(alloc, name.as_slice(), Declared::Instance(number))
        }
        Item::Define(name, ..) => {
            table.with(alloc, name.as_slice(), Declared::Define(number, defines))
        }
        _ => Ok(table),
    }
}

/// How many defines an item is.
fn defines_of(item: &Item) -> usize
    ensures { result ≡ defines_of (part_of item.now) }
{
    match item {
        Item::Define(..) => 1,
        _ => 0,
    }
}

/// What the items of a module declare, by name; the first of a name counts.
///
/// # Errors
///
/// `AllocError` where memory was refused.
pub fn item_table(alloc: Global, items: &Items) -> Result<Table, AllocError>
    ensures { IfOk result (λ t. AreSame t (part_entries 0 0 (map part_of items.now.items))) }
{
    let mut table = Table::new(alloc);
    let mut defines = 0;
    for (number, item) in items.iter().enumerate() {
        table = with_item(table, alloc, item, number, defines)?;
        defines += defines_of(item);
    }
    Ok(table)
}
