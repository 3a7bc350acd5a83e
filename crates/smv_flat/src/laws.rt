ghost use Rattle.std.specs.Prelude.{◌≡◌, ℕ, [], map, List, Some};
ghost use Rattle.std.specs.List.{IsDistinct};
ghost use Rattle.smv_tree.specs.declared.value.Value.{Value};
ghost use Rattle.smv_tree.specs.Trees.{Tree};
ghost use Rattle.smv_tree.specs.Models.{Body};
ghost use Rattle.smv_meaning.specs.FlatTrees.{Flat, Numbers, eval};
ghost use Rattle.smv_meaning.specs.Instances.{Variable, variables};
ghost use Rattle.smv_meaning.specs.Names.{same_names};
ghost use Rattle.smv_meaning.specs.Values.{Snapshot, variable_values};
ghost use Rattle.smv_meaning.specs.Runs.{HasValues};
ghost use Rattle.smv_meaning.specs.Definitions.{Definition};
ghost use Rattle.smv_meaning.specs.FlatLines.{Fits, IsLine};
ghost use Rattle.smv_flat.specs.Fitting.{fitting_eval};
ghost use Rattle.smv_flat.specs.FlatModels.{FlatModel, bodies_of};
ghost use Rattle.smv_flat.specs.Slots.{slots_of};
ghost use Rattle.smv_flat.specs.Moments.{flat_numbers, fitting_numbers, fitting_at};

/// Where the program can hold each value that is looked at, the values are those of the expression.
#[tactic(auto, using(crate::proofs::Held::eval_law))]
pub fn held_values_are_those_of_the_expression()
    ensures { (now later : Numbers) (e : Flat) (vs : List Value) →
        fitting_eval now later e ≡ Some vs → vs ≡ eval now later e }
{}

/// The same in a state, an input and a next state: each definition has the values of its body over
/// the definitions before it.
#[tactic(auto, using(crate::proofs::Moments::numbers_law, crate::proofs::Moments::at_law))]
pub fn held_values_are_those_of_the_model()
    ensures names { (flat : FlatModel) (state input : List Value) (now : Numbers) →
        fitting_numbers flat state input ≡ Some now → now ≡ flat_numbers flat state input }
    ensures expressions { (flat : FlatModel) (state input next : List Value) (e : Flat)
        (vs : List Value) → fitting_at flat state input next e ≡ Some vs →
        vs ≡ eval (flat_numbers flat state input) (flat_numbers flat next []) e }
{}

/// The values of variables by number are those by path, where no two variables have one path.
#[tactic(auto, using(crate::proofs::SlotPaths::path_law))]
pub fn values_by_number_are_those_by_path()
    ensures { (vars : List Variable) (m : Snapshot) → IsDistinct same_names (map (λ v. v.path) vars) →
        slots_of vars m.state m.input ≡ map (λ v. variable_values vars m v.path) vars }
{}

/// Where the definitions of a flat model are a line for those of a program, with its variables, an
/// expression of the program has the values that are told of the flat one that it fits.
#[tactic(auto, using(crate::proofs::Programs::program_law))]
pub fn held_values_are_those_of_the_program()
    ensures { (program : List Body) (defs : List Definition) (flat : FlatModel)
        (state input next : List Value) (up : List (List ℕ)) (e : Tree) (f : Flat)
        (vs : List Value) → flat.vars ≡ variables program →
        IsDistinct same_names (map (λ v. v.path) (variables program)) →
        IsLine program defs (bodies_of flat) → Fits program defs up e f →
        fitting_at flat state input next f ≡ Some vs →
        HasValues program (record { state = state; input = input })
        (record { state = next; input = [] }) up e vs }
{}
