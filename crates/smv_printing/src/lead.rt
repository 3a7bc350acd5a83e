/// What stands before the text of a part: nothing that it could be misread with, the `-` of an
/// operand, or the beginning of a formula's atom.
#[derive(Clone, Copy, Debug, PartialEq, Eq)]
pub enum Lead {
    Free,
    Minus,
    Atom,
}
