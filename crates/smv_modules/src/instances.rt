//! The instances of a model in order, each with its path, its module and the instance around it.
ghost use Rattle.std.specs.Prelude.{◌≡◌, ◌<◌, ◌++◌, ◌∷◌, [], Some, length, slice_get, IfErr, IfOk};
ghost use Rattle.smv_tree.specs.Models.{bodies};
ghost use Rattle.smv_meaning.specs.ModuleCycles.{HasModuleCycle};
ghost use Rattle.smv_meaning.specs.Rows.{AreRows};
ghost use Rattle.smv_modules.specs.Limits.{IsWithinLimits, IsLimitFault};
ghost use Rattle.smv_modules.specs.Listed.{IsPathIn, StandsIn, Lists};
ghost use Rattle.smv_modules.specs.Told.{row_of};

use crate::nodes::{Node, tree_nodes};
use smv_tree::{Name, Path, Program};
use std::alloc::{AllocError, Global};
use std::marker::Model;
use type_fault::TypeFault;

/// How many names a path may have.
const DEEPEST: usize = 64;

/// An instance of a module: its path from the main one, the number of its module in the program, and the
/// number of the instance around it. The main instance is its own parent.
#[derive(Debug, Drop)]
pub struct Instance {
    pub path: Path,
    pub module_number: usize,
    pub parent: u32,
}

/// The instances of a model by number, from 0: depth first, in the order of the text.
#[derive(Debug, Drop)]
pub struct Instances {
    list: Vec<Instance>,
}

impl Model for Instances {
    ghost use Rattle.std.specs.Prelude.{List, map};
    ghost use Rattle.smv_meaning.specs.Rows.{Row};
    ghost use Rattle.smv_modules.specs.Told.{row_of};

    ghost Value = { List Row };

    ghost view = { λ i. map row_of i.list.items };
}

/// A path with one more name.
fn longer_path(alloc: Global, path: &Path, name: &Name) -> Result<Path, AllocError>
    ensures { IfOk result (λ p. p ≡ path.now ++ name.now ∷ []) }
{
    let mut names = Vec::new(alloc);
    for one in path.as_slice() {
        names.push(one.copy(alloc)?)?;
    }
    names.push(name.copy(alloc)?)?;
    Ok(Path::from_vec(names))
}

/// The instance of a number.
fn instance_at(list: &[Instance], number: usize) -> &Instance
    requires { number < length list.now }
    ensures { slice_get list.now number ≡ Some result.now }
{
    &list[number]
}

/// The path of a node, by the instances before it.
fn node_path(alloc: Global, list: &[Instance], node: &Node) -> Result<Path, AllocError>
    requires { StandsIn list.now node.now }
    ensures { IfOk result (λ p. IsPathIn list.now node.now.name node.now.parent p) }
{
    match &node.name {
        Some(name) => {
            let around = instance_at(list, node.parent as usize);
            longer_path(alloc, &around.path, name)
        }
        None => Ok(Path::from_vec(Vec::new(alloc))),
    }
}

/// Lists the instance of a node, or answers its path where that has too many names.
fn list_node(
    alloc: Global,
    list: &mut Vec<Instance>,
    node: &Node,
) -> Result<Option<Path>, AllocError>
    requires { StandsIn list.old.items node.now }
    ensures { IfOk result (λ o. Lists list.old.items node.now o list.new.items) }
{
    let path = node_path(alloc, list.as_slice(), node)?;
    if path.as_slice().len() > DEEPEST {
        return Ok(Some(path));
    }
    list.push(Instance {
        path,
        module_number: node.number,
        parent: node.parent,
    })?;
    Ok(None)
}

impl Instances {
    /// The instances of a program in which no module contains itself.
    ///
    /// # Errors
    ///
    /// `Instances` where there are more than 100,000; otherwise `Deep` with the first path that has 65
    /// names, if there is one; `NoMemory` where memory was refused.
    pub fn of(alloc: Global, p: &Program) -> Result<Instances, TypeFault>
        requires { ¬ HasModuleCycle (bodies p.now) }
        ensures listed { IfOk result (AreRows (bodies p.now)) }
        ensures within { IfOk result (λ _. IsWithinLimits (bodies p.now)) }
        ensures refused { IfErr result (IsLimitFault (bodies p.now)) }
    {
        let Some(nodes) = tree_nodes(alloc, p)? else {
            return Err(TypeFault::Instances);
        };
        let mut list = Vec::new(alloc);
        for node in &nodes {
            if let Some(path) = list_node(alloc, &mut list, node)? {
                return Err(TypeFault::Deep(path));
            }
        }
        Ok(Instances { list })
    }

    /// How many instances there are.
    pub fn instance_count(&self) -> usize
        ensures { result ≡ length self.now }
    {
        self.list.len()
    }

    /// The instance of a number.
    pub fn instance(&self, n: usize) -> &Instance
        requires { n < length self.now }
        ensures { slice_get self.now n ≡ Some (row_of result.now) }
    {
        &self.list[n]
    }
}
