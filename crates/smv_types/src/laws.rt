//! What a reader would ask of the definitions.
ghost use Rattle.std.specs.Prelude.{◌≡◌, List};
ghost use Rattle.smv_tree.specs.Models.{Body};
ghost use Rattle.smv_meaning.specs.Cycles.{HasDefinitionCycle};
ghost use Rattle.smv_types.specs.Standings.{Standings, AreStandings};

/// Where no definition is defined by itself, each name stands for exactly one thing in each instance.
pub fn names_stand_for_one_thing()
    ensures there { (program : List Body) → ¬ HasDefinitionCycle program →
        (s : Standings) × AreStandings program s }
    ensures one { (program : List Body) (s r : Standings) → ¬ HasDefinitionCycle program →
        AreStandings program s → AreStandings program r → s ≡ r }
{}
