//! Laws of the definitions, each the contract of a function that does nothing.

ghost use Rattle.std.specs.Prelude.{ℕ, List, option_to_list};
ghost use Rattle.sat_log.specs.Accepted.{clause_at};
ghost use Rattle.sat_log.specs.declared.line.LogLine.{LogLine};
ghost use Rattle.sat_trail.specs.Trail.{literals};
ghost use Rattle.sat_trail.specs.Units.{AreQuiet};
ghost use Rattle.sat_trail.specs.declared.trail.Entry.{Entry};
ghost use Rattle.sat_propagation.specs.Watching.{Propagated, id_of, IsUsed, AreStanding, KeepsRule};

/// Where the watch rule holds and all of the trail was looked at, each clause that is watched is
/// true or has two unset literals.
pub fn watched_clauses_are_quiet()
    ensures { (log : List LogLine) (entries : List Entry) (p : Propagated) (w : ℕ) →
        AreStanding log p → KeepsRule entries entries p → IsUsed p w →
        AreQuiet (literals entries) (option_to_list (clause_at log (id_of p w))) }
{}
