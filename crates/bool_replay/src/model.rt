ghost use Rattle.std.specs.Prelude.{◌≡◌, ◌∷◌, [], true, false, map, IfOk, MatchOption, option_copied};
ghost use Rattle.std.specs.List.{list_all};
ghost use Rattle.smv_tree.specs.Trees.{expr_tree};
ghost use Rattle.smv_tree.specs.Models.{Body, bodies, part_of};
ghost use Rattle.bool_replay.specs.Plain.{is_declared, is_variable, is_plain, is_plain_part, is_plain_body, is_plain_program, names_of, are_distinct, declared_name};
ghost use Rattle.bool_replay.specs.ProgramNames.{program_names};

use crate::lines::equal;
use crate::names::Names;
use smv_tree::{Expr, Item, Kind, Name, Op1, Op2, Program, Section, Ty, TypeSyntax};
use std::alloc::{AllocError, Global};

/// A model of one boolean module, with the names of its variables.
#[derive(Drop)]
pub(crate) struct PlainModel {
    pub(crate) program: Program,
    pub(crate) names: Names,
    ghost plain: { is_plain_program (bodies program) ≡ true },
    ghost named: { names ≡ program_names (bodies program) },
}

/// Whether an expression is a declared variable.
fn is_variable(e: &Expr, names: &Names) -> bool
    ensures { result ≡ is_variable names.now (expr_tree e.now) }
{
    match e {
        Expr::Name(_, path) => match path.as_slice() {
            [name] => names.contains(name.as_slice()),
            _ => false,
        },
        _ => false,
    }
}

/// Whether an expression has just constants, declared variables, `!` and `=`, and `next` before a
/// variable where that may stand.
fn is_plain(e: &Expr, names: &Names, may_next: bool) -> bool
    ensures { result ≡ is_plain names.now may_next (expr_tree e.now) }
{
    match e {
        Expr::Truth(_, _) => true,
        Expr::Name(_, _) => is_variable(e, names),
        Expr::Next(_, operand) => may_next && is_variable(operand, names),
        Expr::One(_, Op1::Not, operand) => is_plain(operand, names, may_next),
        Expr::Two(_, Op2::Eq, left, right) => {
            is_plain(left, names, may_next) && is_plain(right, names, may_next)
        }
        _ => false,
    }
}

/// Whether an item is a boolean state variable, or a constraint on the first state or on a step.
fn is_plain_item(item: &Item, names: &Names) -> bool
    ensures { result ≡ is_plain_part names.now (part_of item.now) }
{
    match item {
        Item::Var(Kind::State, _, _, TypeSyntax::Plain(Ty::Bool, _)) => true,
        Item::Constraint(Section::Init, _, e) => is_plain(e, names, false),
        Item::Constraint(Section::Trans, _, e) => is_plain(e, names, true),
        _ => false,
    }
}

/// Whether each item is plain.
#[tactic(auto, using(crate::proofs::PlainLemmas::map_from))]
fn are_plain(items: &[Item], names: &Names) -> bool
    ensures { result ≡ list_all (is_plain_part names.now) (map part_of items.now) }
{
    for item in items {
        if !is_plain_item(item, names) {
            return false;
        }
    }
    true
}

/// The name that an item declares.
fn declared_name(item: &Item) -> Option<&Name>
    ensures { option_copied result ≡ declared_name (part_of item.now) }
{
    match item {
        Item::Var(_, name, _, _) => Some(name),
        _ => None,
    }
}

/// The names that the items declare, or none where a name is declared twice.
#[tactic(auto, using(crate::proofs::PlainLemmas::map_from, crate::proofs::PlainLemmas::comes_again, crate::proofs::PlainLemmas::name_added))]
fn declared_names(alloc: Global, items: &[Item]) -> Result<Option<Names>, AllocError>
    ensures { IfOk result (λ found. MatchOption found (are_distinct (names_of (map part_of items.now)) ≡ false)
        (λ names. (names ≡ names_of (map part_of items.now)) × (are_distinct names ≡ true))) }
{
    let mut names = Names::new(alloc);
    for item in items {
        let Some(name) = declared_name(item) else {
            continue;
        };
        if !names.insert(alloc, name.as_slice())? {
            return Ok(None);
        }
    }
    Ok(Some(names))
}

impl PlainModel {
    /// The model of a program, if it is one boolean module.
    pub(crate) fn of(alloc: Global, program: Program) -> Result<Option<PlainModel>, AllocError>
        ensures { IfOk result (λ found. MatchOption found (is_plain_program (bodies program) ≡ false) (λ m. bodies m.program ≡ bodies program)) }
    {
        let [module] = program.modules.as_slice() else {
            return Ok(None);
        };
        if !equal(module.name.as_slice(), b"main") || !module.params.as_slice().is_empty() {
            return Ok(None);
        }
        let items = module.items.as_slice();
        let Some(names) = declared_names(alloc, items)? else {
            return Ok(None);
        };
        if !are_plain(items, &names) {
            return Ok(None);
        }
        Ok(Some(PlainModel { program, names }))
    }

    /// The items of the one module.
    pub(crate) fn items(&self) -> &[Item]
        ensures { (b : Body) × (bodies self.now.program ≡ b ∷ []) × (b.parts ≡ map part_of result.now) × (is_plain_body b ≡ true) × (self.now.names ≡ names_of b.parts) }
    {
        match self.program.modules.as_slice() {
            [module] => module.items.as_slice(),
            _ => unreachable!(),
        }
    }
}
