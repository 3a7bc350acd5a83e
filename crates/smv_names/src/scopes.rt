//! The names that each instance declares.
ghost use Rattle.std.specs.Prelude.{◌≡◌, IfOk, map};
ghost use Rattle.std.specs.List.{AllZip};
ghost use Rattle.smv_tree.specs.Models.{bodies, body_of};
ghost use Rattle.smv_meaning.specs.Rows.{AreRows};
ghost use Rattle.smv_names.specs.Lookups.{declared_at, parameter_at};
ghost use Rattle.smv_names.specs.Ready.{AreNamesOf, AreScopes};

use crate::{Declared, Table, item_table, parameter_numbers};
use smv_graph::Numbers;
use smv_modules::Instances;
use smv_tree::{Module, Modules, Name, Program};
use std::alloc::{AllocError, Global};

/// The names of a module: its parameters, and what its items declare.
#[derive(Drop)]
pub(crate) struct ModuleNames {
    pub(crate) parameters: Numbers,
    pub(crate) items: Table,
}

/// The names that each instance of a program declares.
#[derive(Drop)]
pub(crate) struct Scopes {
    /// The names of each module.
    pub(crate) modules: Vec<ModuleNames>,
    /// The number of the module of each instance.
    pub(crate) module_numbers: Vec<usize>,
}

/// The names of a module.
fn names_of(alloc: Global, one: &Module) -> Result<ModuleNames, AllocError>
    ensures { IfOk result (AreNamesOf (body_of one.now)) }
{
    let parameters = parameter_numbers(alloc, &one.params)?;
    let items = item_table(alloc, &one.items)?;
    Ok(ModuleNames { parameters, items })
}

/// The names of each of some modules.
fn all_names(alloc: Global, modules: &Modules) -> Result<Vec<ModuleNames>, AllocError>
    ensures { IfOk result (λ v. AllZip AreNamesOf (map body_of modules.now.items) v.items) }
{
    let mut all = Vec::new(alloc);
    for one in modules {
        let names = names_of(alloc, one)?;
        all.push(names)?;
    }
    Ok(all)
}

/// The number of the module of each instance.
fn module_numbers(alloc: Global, instances: &Instances) -> Result<Vec<usize>, AllocError>
    ensures { IfOk result (λ v. v.items ≡ map (λ row. row.module_number) instances.now) }
{
    let mut numbers = Vec::new(alloc);
    for n in 0..instances.instance_count() {
        numbers.push(instances.instance(n).module_number)?;
    }
    Ok(numbers)
}

impl Scopes {
    /// The names that the instances of a program declare.
    pub(crate) fn of(
        alloc: Global,
        p: &Program,
        instances: &Instances,
    ) -> Result<Scopes, AllocError>
        requires { AreRows (bodies p.now) instances.now }
        ensures { IfOk result (AreScopes (bodies p.now)) }
    {
        let modules = all_names(alloc, &p.modules)?;
        let module_numbers = module_numbers(alloc, instances)?;
        Ok(Scopes {
            modules,
            module_numbers,
        })
    }

    /// What the items of an instance declare by a name.
    pub(crate) fn declared(&self, number: usize, name: &Name) -> Option<Declared>
        ensures { result ≡ declared_at self.now number name.now }
    {
        let module = self.module_numbers.get(number)?;
        let names = self.modules.get(*module)?;
        names.items.get(name.as_slice())
    }

    /// The parameter of an instance that has a name.
    pub(crate) fn parameter(&self, number: usize, name: &Name) -> Option<usize>
        ensures { result ≡ parameter_at self.now number name.now }
    {
        let module = self.module_numbers.get(number)?;
        let names = self.modules.get(*module)?;
        names.parameters.get(name.as_slice())
    }
}
