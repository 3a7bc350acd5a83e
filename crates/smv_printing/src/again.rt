ghost use Rattle.std.specs.Prelude.{List, ℕ};
ghost use Rattle.smv_tree.specs.Models.{Claim};
ghost use Rattle.smv_tree.specs.Trees.{Tree};
ghost use Rattle.smv_printing.specs.Alike.{Reparsed, ReparsedFormula};
ghost use Rattle.smv_rules.specs.PartTexts.{SpellsExpr, SpellsFormulaText};

/// What is printed of an expression or a formula that a text spells spells it again, places aside.
pub fn same_when_printed()
    ensures expression { (bytes : List ℕ) (x : Tree) → SpellsExpr bytes x → Reparsed x }
    ensures formula { (bytes : List ℕ) (c : Claim) → SpellsFormulaText bytes c → ReparsedFormula c }
{}
