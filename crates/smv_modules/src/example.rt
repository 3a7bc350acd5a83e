ghost use Rattle.std.specs.Prelude.{◌≡◌, [], ◌∷◌, codes};
ghost use Rattle.type_fault.specs.declared.fault.TypeFault.TheVariants.{NoMain, Twice};
ghost use Rattle.smv_modules.specs.Declarations.{name_faults};
ghost use Rattle.smv_modules.specs.Example.{at_column, x, variable_twice, parameter_and_value};

/// What the definitions say of an empty text, of a variable that is declared twice, and of a parameter
/// whose name a variable has, with a value that its enumeration has twice: worked examples.
pub fn names_are_declared_twice()
    ensures empty { name_faults [] ≡ NoMain ∷ [] }
    ensures variable { name_faults variable_twice ≡ Twice (at_column 30) x ∷ [] }
    ensures both { name_faults parameter_and_value ≡
        Twice (at_column 20) x ∷ Twice (at_column 24) (codes "a") ∷ [] }
{}
