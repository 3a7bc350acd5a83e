//! The instances that items declare.
ghost use Rattle.std.specs.Prelude.{◌≡◌, length, map, IfOk};
ghost use Rattle.smv_tree.specs.Trees.{expr_tree};
ghost use Rattle.smv_tree.specs.Models.{bodies};
ghost use Rattle.smv_modules.specs.Told.{row_of};
ghost use Rattle.smv_names.specs.Declaring.{declaration_of, IsEntered, AreEntered, actuals_in, actuals_by};

use crate::Declared;
use crate::scopes::Scopes;
use indexmap::IndexMap;
use smv_modules::{Instance, Instances};
use smv_tree::{Expr, Item, Program, TypeSyntax};
use std::alloc::{AllocError, Global};

/// Instances by the items that declare them: the number of the instance around, and of its item.
pub(crate) type Children = IndexMap<(usize, usize), usize>;

impl Scopes {
    /// The item that declares an instance: the instance around it, and its item there. The main
    /// instance has none.
    fn declaration(&self, instance: &Instance) -> Option<(usize, usize)>
        ensures { result ≡ declaration_of self.now (row_of instance.now) }
    {
        let name = instance.path.as_slice().last()?;
        let around = instance.parent as usize;
        match self.declared(around, name)? {
            Declared::Instance(item) => Some((around, item)),
            _ => None,
        }
    }

    /// The actual parameters of an instance.
    pub(crate) fn actuals<'a>(&self, p: &'a Program, instance: &Instance) -> &'a [Expr]
        ensures { map expr_tree result.now
            ≡ actuals_by (bodies p.now) self.now (declaration_of self.now (row_of instance.now)) }
    {
        let Some((around, item)) = self.declaration(instance) else {
            return &[];
        };
        match self.module_numbers.get(around) {
            Some(number) => actuals_in(p, *number, item),
            None => &[],
        }
    }
}

/// The actual parameters that an item of a module gives.
fn actuals_in(p: &Program, number: usize, item: usize) -> &[Expr]
    ensures { map expr_tree result.now ≡ actuals_in (bodies p.now) number item }
{
    let Some(one) = p.modules.get(number) else {
        return &[];
    };
    match one.items.get(item) {
        Some(Item::Var(_, _, _, TypeSyntax::Instance(_, _, actuals))) => actuals.as_slice(),
        _ => &[],
    }
}

/// The instances with one more, if an item declares it.
fn with_child(
    children: Children,
    declaration: Option<(usize, usize)>,
    number: usize,
) -> Result<Children, AllocError>
    ensures { IfOk result (λ m. IsEntered children.entries declaration number m.entries) }
{
    let Some(key) = declaration else {
        return Ok(children);
    };
    let mut children = children;
    children.insert(key, number)?;
    Ok(children)
}

/// The instances by the items that declare them.
pub(crate) fn children_of(
    alloc: Global,
    scopes: &Scopes,
    instances: &Instances,
) -> Result<Children, AllocError>
    ensures { IfOk result (λ m.
        AreEntered scopes.now instances.now (length instances.now) m.entries) }
{
    let mut children = IndexMap::new(alloc);
    for number in 0..instances.instance_count() {
        let declaration = scopes.declaration(instances.instance(number));
        children = with_child(children, declaration, number)?;
    }
    Ok(children)
}
