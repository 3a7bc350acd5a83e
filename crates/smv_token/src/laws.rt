ghost use Rattle.std.specs.Prelude.{List, ℕ};
ghost use Rattle.smv_token.specs.LongestSymbol.{BeginsWith};
ghost use Rattle.smv_token.specs.Marks.{symbol_at};

/// The symbol that is read at the front of bytes is the longest that stands there.
#[tactic(auto, using(crate::proofs::LongestSymbols::longest))]
pub fn symbol_is_longest()
    ensures { (bytes : List ℕ) → BeginsWith bytes (symbol_at bytes) }
{}
