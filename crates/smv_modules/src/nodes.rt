//! The instances of a model as the nodes of a tree, depth first.
ghost use Rattle.std.specs.Prelude.{◌≡◌, ◌<◌, ◌++◌, ◌∷◌, ◌+◌, [], length, map, filter_map, reverse, codes, IfOk, OnOk, MatchOption};
ghost use Rattle.smv_tree.specs.Models.{bodies, part_of};
ghost use Rattle.smv_meaning.specs.Instances.{instances};
ghost use Rattle.smv_meaning.specs.ModuleCycles.{HasModuleCycle};
ghost use Rattle.smv_graph.specs.Graph.{IsNumbered};
ghost use Rattle.smv_modules.specs.Counts.{AreNumbers};
ghost use Rattle.smv_modules.specs.Nodes.{node_in, AreFewNodes, IsSearch};

use crate::references::module_at;
use smv_graph::{Numbers, module_numbers};
use smv_tree::{Item, Items, Name, Program, TypeSyntax};
use std::alloc::{AllocError, Global};

/// How many instances a model may have.
const MOST: usize = 100000;

/// An instance by its name in the instance around it, which the main one lacks, the number of its module
/// and the number of the instance around it, which is 0 for the main one.
#[derive(Drop)]
pub(crate) struct Node {
    pub(crate) name: Option<Name>,
    pub(crate) number: usize,
    pub(crate) parent: u32,
}

/// The node of an item below the instance of a number, if it is an instance of a module that is there.
fn node_in(
    alloc: Global,
    numbers: &Numbers,
    item: &Item,
    parent: u32,
) -> Result<Option<Node>, AllocError>
    ensures { IfOk result (λ n. n ≡ node_in numbers.now parent (part_of item.now)) }
{
    let Item::Var(_, name, _, TypeSyntax::Instance(of, _, _)) = item else {
        return Ok(None);
    };
    match numbers.get(of.as_slice()) {
        Some(number) => {
            let name = Some(name.copy(alloc)?);
            Ok(Some(Node {
                name,
                number,
                parent,
            }))
        }
        None => Ok(None),
    }
}

/// Pushes the nodes of some items, the first one last.
fn push_nodes(
    alloc: Global,
    waiting: &mut Vec<Node>,
    numbers: &Numbers,
    items: &Items,
    parent: u32,
) -> Result<(), AllocError>
    ensures { OnOk result (reverse waiting.new.items ≡
        filter_map (node_in numbers.now parent) (map part_of items.now.items) ++ reverse waiting.old.items) }
{
    let mut left = items.len();
    while left > 0 {
        left -= 1;
        if let Some(node) = node_in(alloc, numbers, &items[left], parent)? {
            waiting.push(node)?;
        }
    }
    Ok(())
}

/// Lists the next of the nodes that wait, and pushes those of the instances right within it.
fn list_next(
    alloc: Global,
    p: &Program,
    numbers: &Numbers,
    nodes: &mut Vec<Node>,
    waiting: &mut Vec<Node>,
    next: Node,
) -> Result<(), AllocError>
    requires numbers { AreNumbers numbers.now (bodies p.now) }
    requires acyclic { ¬ HasModuleCycle (bodies p.now) }
    requires few { length nodes.old.items < 100000 }
    requires search { IsSearch (bodies p.now) nodes.old.items (waiting.old.items ++ next ∷ []) }
    ensures search { OnOk result (IsSearch (bodies p.now) nodes.new.items waiting.new.items) }
    ensures longer { OnOk result (length nodes.new.items ≡ length nodes.old.items + 1) }
{
    let one = module_at(&p.modules, next.number);
    let parent = nodes.len() as u32;
    push_nodes(alloc, waiting, numbers, &one.items, parent)?;
    nodes.push(next)?;
    Ok(())
}

/// The nodes of the instances in a main module of this number, unless there are too many.
fn nodes_from(
    alloc: Global,
    p: &Program,
    numbers: &Numbers,
    main: usize,
) -> Result<Option<Vec<Node>>, AllocError>
    requires numbers { AreNumbers numbers.now (bodies p.now) }
    requires acyclic { ¬ HasModuleCycle (bodies p.now) }
    requires main { IsNumbered (bodies p.now) (codes "main") main }
    ensures { IfOk result (λ o. MatchOption o (100000 < length (instances (bodies p.now)))
        (λ v. AreFewNodes (bodies p.now) v.items)) }
{
    let mut nodes = Vec::new(alloc);
    let mut waiting = Vec::new(alloc);
    waiting.push(Node {
        name: None,
        number: main,
        parent: 0,
    })?;
    while let Some(next) = waiting.pop() {
        if nodes.len() == MOST {
            return Ok(None);
        }
        list_next(alloc, p, numbers, &mut nodes, &mut waiting, next)?;
    }
    Ok(Some(nodes))
}

/// The nodes of all instances, unless there are too many.
pub(crate) fn tree_nodes(alloc: Global, p: &Program) -> Result<Option<Vec<Node>>, AllocError>
    requires { ¬ HasModuleCycle (bodies p.now) }
    ensures { IfOk result (λ o. MatchOption o (100000 < length (instances (bodies p.now)))
        (λ v. AreFewNodes (bodies p.now) v.items)) }
{
    let numbers = module_numbers(alloc, p)?;
    match numbers.get(b"main".as_slice()) {
        Some(main) => nodes_from(alloc, p, &numbers, main),
        None => Ok(Some(Vec::new(alloc))),
    }
}
