ghost use Rattle.std.specs.Prelude.{◌≡◌, slice_get};
ghost use Rattle.smv_flat.specs.FlatModels.{model_of};
ghost use Rattle.smv_flat.specs.Spots.{spots};
ghost use Rattle.smv_flat.specs.Answers.{IsFlat};

use crate::spots::{Spot, spots};
use crate::{FlatExpr, FlatFormula};
use smv_tree::{Formula, Kind, Name, Path, Place, Section, Ty};
use std::alloc::{AllocError, Global};
use std::marker::Model;

/// A variable.
#[derive(Debug, Drop)]
pub struct FlatVar {
    pub path: Path,
    pub kind: Kind,
    pub ty: Ty,
}

/// A define or a parameter of an instance. Its body names only definitions before it.
#[derive(Debug, Drop)]
pub struct FlatDef {
    pub path: Path,
    pub body: FlatExpr,
}

/// A constraint of the instance of this path, with the place of its section or, where it is an
/// assignment, of the name that is assigned.
#[derive(Debug, Drop)]
pub struct Constraint {
    pub section: Section,
    pub assigned: Option<Name>,
    pub path: Path,
    pub place: Place,
    pub body: FlatExpr,
}

/// A property of the instance of this path: as it is written, and over the numbers of the model.
#[derive(Debug, Drop)]
pub struct FlatSpec {
    pub name: Option<Name>,
    pub path: Path,
    pub formula: Formula,
    pub flat: FlatFormula,
}

/// What a flat model consists of.
#[derive(Debug, Drop)]
pub struct FlatLists {
    pub vars: Vec<FlatVar>,
    pub defs: Vec<FlatDef>,
    pub inits: Vec<Constraint>,
    pub invars: Vec<Constraint>,
    pub steps_to: Vec<Constraint>,
    pub specs: Vec<FlatSpec>,
}

/// Why there is no flat model.
#[derive(Debug, Drop)]
pub enum FlatFault {
    /// There are more than 100,000 variables.
    Variables,
    /// Memory was refused.
    NoMemory(AllocError),
}

/// A model whose names are numbers, with at most 100,000 variables.
#[derive(Drop)]
pub struct Flat {
    lists: FlatLists,
    places: Vec<Spot>,
}

impl Model for Flat {
    ghost use Rattle.std.specs.Prelude.{◌≡◌, ◌≤◌, length, map};
    ghost use Rattle.std.specs.Coded.{codes};
    ghost use Rattle.smv_tree.specs.contracts.expr.Expr as expr;
    ghost use Rattle.smv_tree.specs.contracts.formula.Formula as formula;
    ghost use Rattle.smv_flat.specs.contracts.flat_expr.FlatExpr as flat_expr;
    ghost use Rattle.smv_flat.specs.contracts.flat_formula.FlatFormula as flat_formula;
    ghost use Rattle.smv_flat.specs.declared.flat_model.FlatLists.{FlatLists as Lists};
    ghost use Rattle.smv_flat.specs.FlatModels.{variable_of};
    ghost use Rattle.smv_flat.specs.Spots.{spots};

    ghost Value = { Lists };

    ghost coded = { Prim.hlevel (
      codes,
      expr.the_row.coded,
      formula.the_row.coded,
      flat_expr.the_row.coded,
      flat_formula.the_row.coded,
    ) };

    ghost view = { λ f. f.lists };

    ghost invariant = { λ f.
        (length f.lists.vars.items ≤ 100000)
        × (f.places.items ≡ spots 0 0 (map variable_of f.lists.vars.items)) };
}

impl Flat {
    /// The model that consists of these lists.
    ///
    /// # Errors
    ///
    /// `Variables` exactly where there are more than 100,000; `NoMemory` where memory was refused.
    pub fn new(alloc: Global, lists: FlatLists) -> Result<Flat, FlatFault>
        ensures { IsFlat lists result }
    {
        if lists.vars.len() > 100_000 {
            return Err(FlatFault::Variables);
        }
        match spots(alloc, lists.vars.as_slice()) {
            Ok(places) => Ok(Flat { lists, places }),
            Err(fault) => Err(FlatFault::NoMemory(fault)),
        }
    }

    /// The variables in order.
    pub fn vars(&self) -> &[FlatVar]
        ensures { result.now ≡ self.now.vars.items }
    {
        self.lists.vars.as_slice()
    }

    /// The definitions in order.
    pub fn defs(&self) -> &[FlatDef]
        ensures { result.now ≡ self.now.defs.items }
    {
        self.lists.defs.as_slice()
    }

    /// What the first state meets.
    pub fn inits(&self) -> &[Constraint]
        ensures { result.now ≡ self.now.inits.items }
    {
        self.lists.inits.as_slice()
    }

    /// What each state meets.
    pub fn invars(&self) -> &[Constraint]
        ensures { result.now ≡ self.now.invars.items }
    {
        self.lists.invars.as_slice()
    }

    /// What each step meets.
    pub fn steps_to(&self) -> &[Constraint]
        ensures { result.now ≡ self.now.steps_to.items }
    {
        self.lists.steps_to.as_slice()
    }

    /// The properties in order.
    pub fn specs(&self) -> &[FlatSpec]
        ensures { result.now ≡ self.now.specs.items }
    {
        self.lists.specs.as_slice()
    }

    /// Where the value of a variable stands.
    pub(crate) fn spot(&self, number: u32) -> Option<Spot>
        ensures { result ≡ slice_get (spots 0 0 (model_of self.now).vars) number }
    {
        self.places.get(number as usize).copied()
    }
}
