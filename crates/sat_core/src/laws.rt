//! Laws of the definitions, each the contract of a function that does nothing.

ghost use Rattle.std.specs.Prelude.{◌<◌, ◌≤◌, ◌+◌, ◌^◌, ℕ, List};
ghost use Rattle.sat_log.specs.Literal.{Literal};
ghost use Rattle.sat_log.specs.Accepted.{IsLog, Accepts};
ghost use Rattle.sat_log.specs.Checking.{AreUpTo};
ghost use Rattle.sat_log.specs.Learned.{AllFresh};
ghost use Rattle.sat_log.specs.declared.line.LogLine.{LogLine};
ghost use Rattle.sat_analysis.specs.Analysis.{AreNegationsOf};
ghost use Rattle.sat_core.specs.Assignment.{HasNoSolution};
ghost use Rattle.sat_core.specs.Gained.{gained, conflicts, IsLonger, AreLearned};

use sat_log::laws::{accepted_line_is_implied, fresh_lines_are_few, needed_line_is_fresh};

/// Over `n` variables fewer than `3 ^ n` conflict lines are learned, so a search ends.
pub fn learned_lines_are_few()
    ensures { (n : ℕ) (old new : List LogLine) →
        IsLog new → AreUpTo n new → IsLonger old new → AreLearned old (gained old new) →
        conflicts (gained old new) < 3 ^ n }
{
    needed_line_is_fresh();
    fresh_lines_are_few();
}

/// Learned conflict lines are fresh.
pub fn learned_lines_are_fresh()
    ensures { (old new : List LogLine) → AreLearned old (gained old new) →
        AllFresh old (gained old new) }
{
    needed_line_is_fresh();
}

/// Where a line over negations of what is wanted is accepted, what is wanted can't be true.
pub fn final_line_refutes()
    ensures { (want : List Literal) (log : List LogLine) (line : LogLine) →
        IsLog log → Accepts log line → AreNegationsOf want line.lits → HasNoSolution log want }
{
    accepted_line_is_implied();
}
