//! What paths of names stand for in each instance.
ghost use Rattle.std.specs.Prelude.{◌≡◌, ℕ, List, Some, slice_get};
ghost use Rattle.smv_tree.specs.Models.{Body};
ghost use Rattle.smv_meaning.specs.Instances.{Instance, instances};
ghost use Rattle.smv_meaning.specs.Names.{resolve};
ghost use Rattle.smv_names.specs.Lookups.{item_target, target_behind, actual_at, outside_target, first_target, further_target, resolved};
ghost use Rattle.smv_names.specs.Targets.{meant};
ghost use Rattle.smv_names.specs.Ready.{IsReady};

use crate::scopes::Scopes;
use crate::{Declared, Symbols, Target};
use indexmap::IndexMap;
use smv_tree::{Name, Path};

/// What the names in each instance of a program stand for. Instances are numbered in their order.
#[derive(Drop)]
pub struct Resolver {
    /// The names that each instance declares.
    pub(crate) scopes: Scopes,
    /// The number of the instance that an item of an instance declares, by both.
    pub(crate) children: IndexMap<(usize, usize), usize>,
    /// The symbols of all enumerations.
    pub(crate) symbols: Symbols,
    /// What the actual of each parameter of an instance stands for.
    pub(crate) actuals: Vec<Vec<Option<Target>>>,
}

impl Resolver {
    /// What the name of an item of an instance stands for.
    fn item_target(&self, number: usize, declared: Declared) -> Option<Target>
        ensures { result ≡ item_target self.now number declared }
    {
        match declared {
            Declared::Variable(item) => Some(Target::Variable(number, item)),
            Declared::Define(item, _) => Some(Target::Define(number, item)),
            Declared::Instance(item) => {
                let child = self.children.get(&(number, item))?;
                Some(Target::Instance(*child))
            }
        }
    }

    /// What a name stands for behind a target: a variable, an instance or a define of an instance.
    fn behind(&self, target: Option<Target>, name: &Name) -> Option<Target>
        ensures { result ≡ target_behind self.now target name.now }
    {
        let Some(Target::Instance(number)) = target else {
            return None;
        };
        let declared = self.scopes.declared(number, name)?;
        self.item_target(number, declared)
    }

    /// What the actual of a parameter of an instance stands for.
    fn actual(&self, number: usize, parameter: usize) -> Option<Target>
        ensures { result ≡ actual_at self.now number parameter }
    {
        let targets = self.actuals.get(number)?;
        *targets.get(parameter)?
    }

    /// What a name stands for that an instance doesn't declare: the instance itself, or a symbol.
    fn outside(&self, number: usize, name: &Name) -> Option<Target>
        ensures { result ≡ outside_target self.now number name.now }
    {
        if name.as_slice() == b"self".as_slice() {
            return Some(Target::Instance(number));
        }
        let symbol = self.symbols.get(name.as_slice())?;
        Some(Target::Symbol(symbol))
    }

    /// What a name stands for at the head of a path.
    fn first(&self, number: usize, name: &Name) -> Option<Target>
        ensures { result ≡ first_target self.now number name.now }
    {
        if let Some(parameter) = self.scopes.parameter(number, name) {
            return self.actual(number, parameter);
        }
        match self.scopes.declared(number, name) {
            Some(declared) => self.item_target(number, declared),
            None => self.outside(number, name),
        }
    }

    /// What further names stand for behind a target.
    fn further(&self, target: Option<Target>, names: &[Name]) -> Option<Target>
        ensures { result ≡ further_target self.now target names.now }
    {
        let mut target = target;
        for name in names {
            target = self.behind(target, name);
        }
        target
    }

    /// What is found for a path of names in an instance.
    fn found(&self, number: usize, path: &Path) -> Option<Target>
        ensures { result ≡ resolved self.now number path.now }
    {
        let (name, names) = path.as_slice().split_first()?;
        self.further(self.first(number, name), names)
    }

    /// What a path of names stands for in the instance of a number, if it stands for something.
    pub fn resolve(&self, number: usize, path: &Path) -> Option<Target>
        ensures found { result ≡ resolved self.now number path.now }
        ensures meant { (program : List Body) (i : Instance) → IsReady program self.now →
            slice_get (instances program) number ≡ Some i →
            meant program self.now.symbols result ≡ Some (resolve program i.up path.now) }
    {
        self.found(number, path)
    }
}
