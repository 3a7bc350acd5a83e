//! Whether each name is declared once.
ghost use Rattle.std.specs.Prelude.{◌≡◌, ◌++◌, ◌∷◌, [], codes, fold, map, flat_map, IfOk};
ghost use Rattle.std.specs.List.{list_any};
ghost use Rattle.std.specs.Str.{bytes_eq};
ghost use Rattle.std.specs.Fmt.{signed_decimal};
ghost use Rattle.smv_tree.specs.Models.{bodies, body_of, formal_of, part_of};
ghost use Rattle.type_fault.specs.First.{earliest};
ghost use Rattle.smv_modules.specs.Declarations.{doubled, module_declaration, formal_declaration, part_declarations, declarations, value_declarations, enumeration_declarations, doubled_in, name_faults};
ghost use Rattle.smv_modules.specs.Scopes.{see};

use crate::scope::Scope;
use itoa::Buffer;
use smv_tree::{Item, Items, Module, Modules, Name, Params, Place, Program, Ty, TypeSyntax, Value};
use std::alloc::{AllocError, Global};
use type_fault::{TypeFault, earlier};

/// Whether one of some modules is the main one.
fn has_main(modules: &Modules) -> bool
    ensures { result ≡ list_any (λ m. bytes_eq m.name (codes "main")) modules.now.items }
{
    modules
        .iter()
        .any(|m| m.name.as_slice() == b"main".as_slice())
}

/// The first of the modules whose name an earlier one has.
fn doubled_modules(alloc: Global, modules: &Modules) -> Result<Option<TypeFault>, AllocError>
    ensures { IfOk result (λ f.
        f ≡ earliest (doubled (map module_declaration (map body_of modules.now.items)))) }
{
    let mut scope = Scope::new(alloc);
    for one in modules {
        scope = scope.with(alloc, &one.name, one.place)?;
    }
    Ok(scope.into_first())
}

/// Declares the parameters of a module.
fn declare_params(scope: Scope, alloc: Global, params: &Params) -> Result<Scope, AllocError>
    ensures { IfOk result (λ s. s ≡
        fold see scope (map formal_declaration (map formal_of params.now.items))) }
{
    let mut scope = scope;
    for param in params {
        scope = scope.with(alloc, &param.name, param.place)?;
    }
    Ok(scope)
}

/// Declares the name of an item, if it declares one.
fn declare_item(scope: Scope, alloc: Global, item: &Item) -> Result<Scope, AllocError>
    ensures { IfOk result (λ s. s ≡ fold see scope (part_declarations (part_of item.now))) }
{
    match item {
        Item::Var(_, name, place, _) => scope.with(alloc, name, *place),
        Item::Define(name, place, _) => scope.with(alloc, name, *place),
        _ => Ok(scope),
    }
}

/// Declares the names of some items.
fn declare_items(scope: Scope, alloc: Global, items: &Items) -> Result<Scope, AllocError>
    ensures { IfOk result (λ s. s ≡
        fold see scope (flat_map part_declarations (map part_of items.now.items))) }
{
    let mut scope = scope;
    for item in items {
        scope = declare_item(scope, alloc, item)?;
    }
    Ok(scope)
}

/// The first name that a module declares twice.
fn doubled_declarations(alloc: Global, one: &Module) -> Result<Option<TypeFault>, AllocError>
    ensures { IfOk result (λ f. f ≡ earliest (doubled (declarations (body_of one.now)))) }
{
    let scope = declare_params(Scope::new(alloc), alloc, &one.params)?;
    let scope = declare_items(scope, alloc, &one.items)?;
    Ok(scope.into_first())
}

/// The text of a number, as a name.
fn number_name(alloc: Global, number: i64) -> Result<Name, AllocError>
    ensures { IfOk result (λ n. n ≡ signed_decimal number) }
{
    let mut buffer = Buffer::new();
    let text = Vec::from_slice(alloc, buffer.format(number).as_bytes())?;
    Ok(Name::from_vec(text))
}

/// Declares a value of an enumeration.
fn declare_value(
    scope: Scope,
    alloc: Global,
    value: &Value,
    place: Place,
) -> Result<Scope, AllocError>
    ensures { IfOk result (λ s. s ≡ fold see scope (value_declarations place value.now)) }
{
    match value {
        Value::Int(number) => {
            let name = number_name(alloc, *number)?;
            scope.with(alloc, &name, place)
        }
        Value::Sym(name) => scope.with(alloc, name, place),
        _ => Ok(scope),
    }
}

/// The first value that an enumeration has twice.
fn doubled_values(
    alloc: Global,
    values: &[Value],
    place: Place,
) -> Result<Option<TypeFault>, AllocError>
    ensures { IfOk result (λ f. f ≡ earliest (doubled (flat_map (value_declarations place) values.now))) }
{
    let mut scope = Scope::new(alloc);
    for value in values {
        scope = declare_value(scope, alloc, value, place)?;
    }
    Ok(scope.into_first())
}

/// The first value that the enumeration of an item has twice.
#[tactic(auto, unfolding(type_fault::specs::First::earliest))]
fn doubled_enumeration(alloc: Global, item: &Item) -> Result<Option<TypeFault>, AllocError>
    ensures { IfOk result (λ f. f ≡ earliest (doubled (enumeration_declarations (part_of item.now)))) }
{
    match item {
        Item::Var(_, _, _, TypeSyntax::Plain(Ty::Enum(values), place)) => {
            doubled_values(alloc, values.as_slice(), *place)
        }
        _ => Ok(None),
    }
}

/// The first value that an enumeration of some items has twice.
fn doubled_enumerations(alloc: Global, items: &Items) -> Result<Option<TypeFault>, AllocError>
    ensures { IfOk result (λ f. f ≡ earliest (flat_map
        (λ part. doubled (enumeration_declarations part)) (map part_of items.now.items))) }
{
    let mut first = None;
    for item in items {
        first = earlier(first, doubled_enumeration(alloc, item)?);
    }
    Ok(first)
}

/// The first of what a module declares twice.
fn doubled_in(alloc: Global, one: &Module) -> Result<Option<TypeFault>, AllocError>
    ensures { IfOk result (λ f. f ≡ earliest (doubled_in (body_of one.now))) }
{
    let name = doubled_declarations(alloc, one)?;
    let value = doubled_enumerations(alloc, &one.items)?;
    Ok(earlier(name, value))
}

/// The first of what some modules declare twice.
fn doubled_within(alloc: Global, modules: &Modules) -> Result<Option<TypeFault>, AllocError>
    ensures { IfOk result (λ f.
        f ≡ earliest (flat_map doubled_in (map body_of modules.now.items))) }
{
    let mut first = None;
    for one in modules {
        first = earlier(first, doubled_in(alloc, one)?);
    }
    Ok(first)
}

/// The first fault of the names of a model: that it has no module `main`, or that a name is declared
/// twice, and nothing where each is declared once.
///
/// # Errors
///
/// `AllocError` where memory was refused.
pub fn first_name_fault(alloc: Global, p: &Program) -> Result<Option<TypeFault>, AllocError>
    ensures { IfOk result (λ f. f ≡ earliest (name_faults (bodies p.now))) }
{
    let main = if has_main(&p.modules) {
        None
    } else {
        Some(TypeFault::NoMain)
    };
    let module = doubled_modules(alloc, &p.modules)?;
    let within = doubled_within(alloc, &p.modules)?;
    Ok(earlier(main, earlier(module, within)))
}
