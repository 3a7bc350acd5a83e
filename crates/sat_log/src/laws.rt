//! Laws of the definitions, each the contract of a function that does nothing.

ghost use Rattle.std.specs.Prelude.{◌<◌, ◌^◌, ◌++◌, ℕ, Bool, List, length, IsTrue};
ghost use Rattle.sat_log.specs.Literal.{Literal};
ghost use Rattle.sat_log.specs.Clauses.{Satisfies, clause_value, clauses};
ghost use Rattle.sat_log.specs.Accepted.{IsLog, Accepts, originals};
ghost use Rattle.sat_log.specs.Checking.{AreUpTo};
ghost use Rattle.sat_log.specs.Learned.{IsFresh, IsNeeded, AllFresh, conflict_clauses};
ghost use Rattle.sat_log.specs.declared.line.LogLine.{LogLine};

/// Where the originals of a log are true, so are its conflict lines.
pub fn conflict_lines_are_implied()
    ensures { (v : ℕ → Bool) (log : List LogLine) →
        IsLog log → Satisfies v (originals log) → Satisfies v (clauses log) }
{}

/// Where the originals of a log are true, so is each line that it accepts.
pub fn accepted_line_is_implied()
    ensures { (v : ℕ → Bool) (log : List LogLine) (line : LogLine) →
        IsLog log → Accepts log line → Satisfies v (originals log) →
        IsTrue (clause_value v line.lits) }
{}

/// A line that is needed is fresh.
pub fn needed_line_is_fresh()
    ensures { (before : List (List Literal)) (c : List Literal) →
        IsNeeded before c → IsFresh before c }
{}

/// Fresh conflict lines over `n` variables are fewer than `3 ^ n`: each variable is positive in a
/// line, negative, or absent, of two lines with the same choices each contains the other, and a
/// clause from which the first line follows has choices of its own.
pub fn fresh_lines_are_few()
    ensures { (n : ℕ) (before gained : List LogLine) →
        IsLog (before ++ gained) → AreUpTo n (before ++ gained) → AllFresh before gained →
        length (conflict_clauses gained) < 3 ^ n }
{}
