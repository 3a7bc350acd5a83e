//! What the lists of faults say.
ghost use Rattle.std.specs.Prelude.{◌↔◌, List, Contains};
ghost use Rattle.type_fault.specs.declared.fault.TypeFault.{TypeFault};
ghost use Rattle.smv_modules.specs.Declarations.{Declaration, doubled};
ghost use Rattle.smv_modules.specs.Again.{IsAgain};

/// What is listed as declared twice are the declarations whose name is declared before them.
pub fn doubled_names_are_declared_again()
    ensures { (ds : List Declaration) (f : TypeFault) → Contains (doubled ds) f ↔ IsAgain ds f }
{}
