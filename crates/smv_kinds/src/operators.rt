//! Nodes of operators, by the table.
ghost use Rattle.std.specs.Prelude.{◌≡◌, filter, length};
ghost use denote.Enum.Bare.{sameb};
ghost use Rattle.smv_tree.specs.declared.expr.Op1.{Op1};
ghost use Rattle.smv_tree.specs.declared.expr.Op2.{Op2};
ghost use Rattle.smv_tree.specs.contracts.expr.Op1.{the_type as type_of_one};
ghost use Rattle.smv_tree.specs.contracts.expr.Op2.{the_type as type_of_two};
ghost use Rattle.smv_kinds.specs.Table.{one_entry, two_entry, fits_one, wanted_by, one_sort, fits_two, allows, ends_of, two_sort, gives_set, one_by_line, two_by_line};
ghost use Rattle.smv_kinds.specs.Operators.{one_typing, two_typing};
ghost use Rattle.smv_kinds.specs.Intervals.{kept};

use crate::result::{given, integers, node, number_of_word, words};
use crate::table::{
    Ends, OPERATORS, OneEntry, OneGives, Operand, Operands, Sets, TwoEntry, TwoGives,
};
use crate::{Interval, NodeFault, Sort, TyWord, Typing};
use smv_tree::{Op1, Op2};

impl Operand {
    /// Whether an operand of this kind is taken.
    fn fits(self, sort: Sort) -> bool
        ensures { result ≡ fits_one self sort }
    {
        match (self, sort) {
            (Operand::Boolean, Sort::Boolean) => true,
            (Operand::BooleanOrWord, Sort::Boolean | Sort::Word(..)) => true,
            (Operand::IntegerOrWord, Sort::Integer(_) | Sort::Word(..)) => true,
            (Operand::Word, Sort::Word(..)) => true,
            (Operand::BooleanIntegerOrBit, Sort::Boolean | Sort::Integer(_)) => true,
            (Operand::BooleanIntegerOrBit, Sort::Word(false, width)) => width == 1,
            (Operand::BooleanIntegerOrWord, Sort::Boolean | Sort::Integer(_) | Sort::Word(..)) =>
                true,
            _ => false,
        }
    }

    /// The kind that a refusal says is wanted.
    fn wanted(self) -> TyWord
        ensures { result ≡ wanted_by self }
    {
        match self {
            Operand::Boolean | Operand::BooleanOrWord => TyWord::Boolean,
            Operand::IntegerOrWord => TyWord::Integer,
            Operand::Word => TyWord::AnyWord,
            Operand::BooleanIntegerOrBit | Operand::BooleanIntegerOrWord => TyWord::Boolean,
        }
    }
}

impl OneGives {
    /// The kind of the result.
    fn sort(self, operand: Sort) -> Result<Sort, NodeFault>
        ensures { result ≡ one_sort self operand }
    {
        match (self, operand) {
            (OneGives::Negated, Sort::Integer(interval)) => integers(interval.negated()),
            (OneGives::Boolean, _) => Ok(Sort::Boolean),
            (OneGives::Bit, _) => words(false, 1),
            (OneGives::SignedWord, Sort::Word(_, width)) => words(true, width as u64),
            (OneGives::UnsignedWord, Sort::Word(_, width)) => words(false, width as u64),
            (OneGives::Number, Sort::Boolean) => Ok(Sort::Integer(Interval { low: 0, high: 1 })),
            (OneGives::Number, Sort::Word(signed, width)) => number_of_word(signed, width),
            _ => given(operand),
        }
    }
}

impl Operands {
    /// Whether operands of these kinds are taken.
    fn fit(self, left: Sort, right: Sort) -> bool
        ensures { result ≡ fits_two self left right }
    {
        match (self, left, right) {
            (Operands::Words, Sort::Word(..), Sort::Word(..)) => true,
            (Operands::BooleansOrWords, Sort::Boolean, Sort::Boolean) => true,
            (Operands::BooleansOrWords, Sort::Word(..), Sort::Word(..)) => left.agrees(right),
            (Operands::IntegersOrWords, Sort::Integer(_), Sort::Integer(_)) => true,
            (Operands::IntegersOrWords, Sort::Word(..), Sort::Word(..)) => left.agrees(right),
            (Operands::WordAndAmount, Sort::Word(..), Sort::Integer(_) | Sort::Word(false, _)) =>
                true,
            (Operands::Agreeing, _, _) => left.agrees(right),
            _ => false,
        }
    }
}

impl Sets {
    /// Whether these operands may be sets.
    fn allow(self, left: bool, right: bool) -> bool
        ensures { result ≡ allows self left right }
    {
        match self {
            Sets::Neither => !left && !right,
            Sets::Right => !left,
            Sets::Both => true,
        }
    }
}

impl Ends {
    /// The integers made of two intervals.
    fn of(self, left: Interval, right: Interval) -> Result<Interval, i128>
        ensures { result ≡ kept (ends_of self left right) }
    {
        match self {
            Ends::Sums => left.plus(right),
            Ends::Differences => left.minus(right),
            Ends::Products => left.times(right),
            Ends::Quotients => left.quotient(),
            Ends::Remainders => left.remainder(right),
        }
    }
}

impl TwoGives {
    /// The kind of the result.
    fn sort(self, left: Sort, right: Sort) -> Result<Sort, NodeFault>
        ensures { result ≡ two_sort self left right }
    {
        match (self, left, right) {
            (TwoGives::Boolean, _, _) => Ok(Sort::Boolean),
            (TwoGives::Concatenated, Sort::Word(_, high), Sort::Word(_, low)) => {
                words(false, high as u64 + low as u64)
            }
            (TwoGives::Arithmetic(ends), Sort::Integer(a), Sort::Integer(b)) => integers(ends.of(
                a, b,
            )),
            (TwoGives::Joined, _, _) => given(left.joined(right)),
            _ => given(left),
        }
    }

    /// Whether the result is a set.
    fn is_set(self) -> bool
        ensures { result ≡ gives_set self }
    {
        matches!(self, TwoGives::Joined)
    }
}

impl OneEntry {
    /// The line of an operator.
    #[tactic(auto, unfolding(crate::specs::Table::one_entry))]
    fn find(operator: Op1) -> Option<OneEntry>
        ensures { result ≡ one_entry operator }
    {
        OPERATORS
            .one
            .iter()
            .copied()
            .find(|entry| entry.operator == operator)
    }

    fn typing(self, operand: Typing) -> Result<Typing, NodeFault>
        ensures { result ≡ one_by_line self operand }
    {
        if !self.takes.fits(operand.sort) {
            Err(NodeFault::Operands(operand.sort.word(), self.takes.wanted()))
        } else if operand.is_set {
            Err(NodeFault::SetHere)
        } else {
            node(false, self.gives.sort(operand.sort))
        }
    }
}

impl TwoEntry {
    /// The line of an operator between two operands.
    #[tactic(auto, unfolding(crate::specs::Table::two_entry))]
    fn find(operator: Op2) -> Option<TwoEntry>
        ensures { result ≡ two_entry operator }
    {
        OPERATORS
            .two
            .iter()
            .copied()
            .find(|entry| entry.operator == operator)
    }

    fn typing(self, left: Typing, right: Typing) -> Result<Typing, NodeFault>
        ensures { result ≡ two_by_line self left right }
    {
        if !self.takes.fit(left.sort, right.sort) {
            Err(NodeFault::Operands(left.sort.word(), right.sort.word()))
        } else if !self.sets.allow(left.is_set, right.is_set) {
            Err(NodeFault::SetHere)
        } else {
            node(self.gives.is_set(), self.gives.sort(left.sort, right.sort))
        }
    }
}

/// A node of an operator or a function of one operand.
///
/// # Errors
///
/// The fault of the node: kinds go before sets, and sets before widths and ends; so for all that is
/// like it.
pub fn one_typing(operator: Op1, operand: Typing) -> Result<Typing, NodeFault>
    ensures { result ≡ one_typing operator operand }
{
    match OneEntry::find(operator) {
        Some(line) => line.typing(operand),
        None => unreachable!(),
    }
}

/// A node of an operator between two operands.
pub fn two_typing(operator: Op2, left: Typing, right: Typing) -> Result<Typing, NodeFault>
    ensures { result ≡ two_typing operator left right }
{
    match TwoEntry::find(operator) {
        Some(line) => line.typing(left, right),
        None => unreachable!(),
    }
}

/// Each operator has exactly one line in the table.
pub fn each_operator_has_one_line()
    ensures one { (o : Op1) → length (filter (λ e. sameb type_of_one e.operator o) OPERATORS.one) ≡ 1 }
    ensures two { (o : Op2) → length (filter (λ e. sameb type_of_two e.operator o) OPERATORS.two) ≡ 1 }
{}
