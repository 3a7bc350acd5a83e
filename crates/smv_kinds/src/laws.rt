//! A law of all nodes.
ghost use Rattle.std.specs.Prelude.{ℕ, Bool, List};
ghost use Rattle.smv_tree.specs.Word.{Word};
ghost use Rattle.smv_tree.specs.declared.expr.Op1.{Op1};
ghost use Rattle.smv_tree.specs.declared.expr.Op2.{Op2};
ghost use Rattle.smv_kinds.specs.declared.typing.Typing.{Typing};
ghost use Rattle.smv_kinds.specs.Operators.{one_typing, two_typing};
ghost use Rattle.smv_kinds.specs.Nodes.{word_typing, const_typing, select_typing, widen_typing, next_typing, set_typing, cases_typing};
ghost use Rattle.smv_kinds.specs.Widths.{GivesWidth};

/// A result that is a word has a width within its limits, also where operands have none.
pub fn results_have_a_width()
    ensures one { (o : Op1) (t : Typing) → GivesWidth (one_typing o t) }
    ensures two { (o : Op2) (t u : Typing) → GivesWidth (two_typing o t u) }
    ensures word { (w : Word) → GivesWidth (word_typing w) }
    ensures constant { (signed : Bool) (n : ℕ) → GivesWidth (const_typing signed n) }
    ensures bits { (high low : ℕ) (t : Typing) → GivesWidth (select_typing high low t) }
    ensures widened { (resize : Bool) (n : ℕ) (t : Typing) → GivesWidth (widen_typing resize n t) }
    ensures next { (t : Typing) → GivesWidth (next_typing t) }
    ensures set { (ts : List Typing) → GivesWidth (set_typing ts) }
    ensures cases { (cs ts : List Typing) → GivesWidth (cases_typing cs ts) }
{}
