//! Worked rows: operators on some operands, computed from the definitions.
ghost use Rattle.std.specs.Prelude.{◌≡◌, pos, negsuc, Ok, Err, true, false};
ghost use Rattle.smv_tree.specs.declared.expr.Op1.TheVariants as one;
ghost use Rattle.smv_tree.specs.declared.expr.Op2.TheVariants as two;
ghost use Rattle.smv_kinds.specs.declared.sort.Sort.TheVariants as sort;
ghost use Rattle.smv_kinds.specs.declared.sort.TyWord.TheVariants as named;
ghost use Rattle.smv_kinds.specs.declared.typing.NodeFault.TheVariants as faults;
ghost use Rattle.smv_kinds.specs.Intervals.{between};
ghost use Rattle.smv_kinds.specs.Results.{single, set_of};
ghost use Rattle.smv_kinds.specs.Operators.{one_typing, two_typing};

/// Operands of kinds that an operator takes, with the integers that it makes of theirs.
pub fn integers_are_made()
    ensures product { two_typing two.Mul
        (single (sort.Integer (between (negsuc 2) (pos 2))))
        (single (sort.Integer (between (pos 4) (pos 5))))
        ≡ Ok (single (sort.Integer (between (negsuc 14) (pos 10)))) }
    ensures quotient { two_typing two.Div
        (single (sort.Integer (between (negsuc 6) (pos 3))))
        (single (sort.Integer (between (pos 1) (pos 2))))
        ≡ Ok (single (sort.Integer (between (negsuc 6) (pos 7)))) }
    ensures remainder { two_typing two.Mod
        (single (sort.Integer (between (pos 0) (pos 9))))
        (single (sort.Integer (between (negsuc 3) (pos 3))))
        ≡ Ok (single (sort.Integer (between (pos 0) (pos 3)))) }
    ensures number { one_typing one.ToInt
        (single (sort.Word true 4))
        ≡ Ok (single (sort.Integer (between (negsuc 7) (pos 7)))) }
    ensures outside { two_typing two.Add
        (single (sort.Integer (between (pos 0) (pos 9223372036854775807))))
        (single (sort.Integer (between (pos 1) (pos 1))))
        ≡ Err (faults.Interval (pos 9223372036854775808)) }
{}

/// Operands of which one is a set, or has another kind.
pub fn others_are_refused()
    ensures kinds { two_typing two.And
        (single (sort.Integer (between (pos 0) (pos 3))))
        (single sort.Boolean)
        ≡ Err (faults.Operands named.Integer named.Boolean) }
    ensures kind { one_typing one.Signed
        (single sort.Mixed)
        ≡ Err (faults.Operands named.Mixed named.AnyWord) }
    ensures set { two_typing two.Eq
        (set_of sort.Symbolic)
        (single sort.Mixed)
        ≡ Err faults.SetHere }
    ensures member { two_typing two.In
        (single sort.Mixed)
        (set_of sort.Symbolic)
        ≡ Ok (single sort.Boolean) }
    ensures wide { two_typing two.Concat
        (single (sort.Word false 40))
        (single (sort.Word true 25))
        ≡ Err faults.Width }
{}
