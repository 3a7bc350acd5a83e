use smv_tree::FormOp;

/// A formula of linear temporal logic whose atoms are numbers.
///
/// Who keeps the atoms numbers them, as in the order of the text.
#[derive(Debug, Drop)]
pub enum NumberedFormula {
    Atom(u64),
    Not(Box<NumberedFormula>),
    Next(Box<NumberedFormula>),
    Always(Box<NumberedFormula>),
    Eventually(Box<NumberedFormula>),
    Two(FormOp, Box<NumberedFormula>, Box<NumberedFormula>),
}
