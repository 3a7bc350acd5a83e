ghost use Rattle.std.specs.Prelude.{◌≡◌, ◌≤◌, ◌⊎◌, ℕ, List, [], length, codes, Contains, Some, slice_get};
ghost use Rattle.smv_tree.specs.Models.{Body};
ghost use Rattle.smv_meaning.specs.Instances.{Instance, entries_below, entries, instances};
ghost use Rattle.smv_meaning.specs.ModuleCycles.{HasModuleCycle};
ghost use Rattle.smv_meaning.specs.Rows.{Row, IsRow, AreRows, IsMain, IsBehind};

/// Each instance is the main one, or stands right behind another.
pub fn instances_stand_behind_others()
    ensures { (program : List Body) (i : Instance) → Contains (instances program) i →
        IsMain i ⊎ ((j : Instance) × (n : List ℕ) × IsBehind program i j n) }
{}

/// Each instance has a row, and the number of its module leads to its module.
pub fn instances_have_rows()
    ensures there { (program : List Body) → (rows : List Row) × AreRows program rows }
    ensures right { (program : List Body) (i : Instance) (r : Row) → Contains (instances program) i →
        IsRow program i r → slice_get program r.module_number ≡ Some i.body }
{}

/// Where no module contains itself, going down further than there are modules brings nothing more.
pub fn no_instance_is_left_out()
    ensures { (program : List Body) (n : ℕ) → ¬ HasModuleCycle program → length program ≤ n →
        entries_below n program [] [] (codes "main") [] ≡ entries program }
{}
