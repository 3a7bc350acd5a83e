//! What the tables say of the meaning.
ghost use Rattle.std.specs.Prelude.{◌≡◌, ℕ, List, []};
ghost use Rattle.std.specs.Map.{lookup};
ghost use Rattle.std.specs.Str.{bytes_eq};
ghost use Rattle.smv_tree.specs.Models.{Part, Body};
ghost use Rattle.smv_meaning.specs.ModuleCycles.{HasModuleCycle};
ghost use Rattle.smv_modules.specs.Declarations.{name_faults};
ghost use Rattle.smv_modules.specs.References.{AreReferenceFaults};
ghost use Rattle.smv_names.specs.Whole.{IsWhole};
ghost use Rattle.smv_meaning.specs.Names.{Target, member_of};
ghost use Rattle.smv_names.specs.Tables.{part_entries};
ghost use Rattle.smv_names.specs.Members.{Tells};

/// What the table of a module's items tells of a name is what the declarations make of it.
pub fn tables_tell_members()
    ensures { (path up : List (List ℕ)) (m : List ℕ) (parts : List Part) (other : Target) →
        Tells path up m parts other (lookup (bytes_eq m) (part_entries 0 0 parts))
        (member_of path up m parts other) }
{}

/// Where each name is declared once, the modules that are reached refer to what is there, and none
/// contains itself, the instances of a program are as their declarations say.
pub fn modules_make_whole()
    ensures { (program : List Body) → name_faults program ≡ [] → AreReferenceFaults program [] →
        ¬ HasModuleCycle program → IsWhole program }
{}
