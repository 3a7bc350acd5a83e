ghost use Rattle.std.specs.Prelude.{◌≡◌, List, ℕ};
ghost use Rattle.smv_tree.specs.Models.{Body, Claim};
ghost use Rattle.smv_tree.specs.Trees.{Tree};
ghost use Rattle.smv_token.specs.declared.mark.Mark.TheVariants as marks;
ghost use Rattle.smv_token.specs.declared.token.Token.{Token};
ghost use Rattle.smv_rules.specs.Expressions.{branch, expr};
ghost use Rattle.smv_rules.specs.Follows.{Follows, plain};
ghost use Rattle.smv_rules.specs.Keys as key;
ghost use Rattle.smv_rules.specs.Keys.{Unseen};
ghost use Rattle.smv_rules.specs.Sorts.{Branches, some_branches};
ghost use Rattle.smv_rules.specs.Programs.{program};
ghost use Rattle.smv_rules.specs.Texts.{SpellsProgram};
ghost use Rattle.smv_rules.specs.PartTexts.{SpellsExpr, SpellsFormulaText, formula};
ghost use Rattle.smv_rules.specs.WholeReading.{Right};

/// The reading of texts by the rules, which decides by the next token what is left out and where what
/// comes again ends, is what the plain rules say, by which this may be wherever what follows can stand
/// there: it gives exactly what a text spells, and refuses exactly what a text shows, by the rules of
/// expressions, of formulas and of programs.
#[tactic(auto, using(crate::proofs::Verdicts::expression_right, crate::proofs::Verdicts::formula_right, crate::proofs::Verdicts::program_right))]
pub fn reading_is_right()
    ensures expression { Right expr }
    ensures formula { Right formula }
    ensures program { Right program }
{}

/// No branch of a case begins with `esac`: so behind a `;` the next token may tell a branch from the end.
#[tactic(auto, using(crate::proofs::ClearPrograms::branch_no_end))]
pub fn no_branch_begins_with_esac()
    ensures { (n : ℕ) (bs : Branches) (ts rest : List Token) (x : Branches) →
        Follows plain n some_branches (branch bs) ts rest x → Unseen (key.mark marks.Esac) ts }
{}

/// A text spells at most one expression, at most one formula and at most one program.
pub fn one_spelling()
    ensures expression { (bytes : List ℕ) (x y : Tree) → SpellsExpr bytes x → SpellsExpr bytes y → x ≡ y }
    ensures formula { (bytes : List ℕ) (x y : Claim) → SpellsFormulaText bytes x → SpellsFormulaText bytes y → x ≡ y }
    ensures program { (bytes : List ℕ) (ms ns : List Body) → SpellsProgram bytes ms → SpellsProgram bytes ns → ms ≡ ns }
{}
