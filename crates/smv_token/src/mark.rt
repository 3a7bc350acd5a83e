ghost use Rattle.std.specs.Prelude.{◌≡◌, ◌≤◌, IfSome, length, nat_eq};
ghost use Rattle.std.specs.List.{find, starts_with};
ghost use Rattle.std.specs.Str.{bytes_eq};
ghost use Rattle.smv_token.specs.Marks.{text, symbol_at, word_of};

/// A symbol or a reserved word of the language.
#[derive(Clone, Copy, Debug, PartialEq, Eq)]
pub enum Mark {
    Iff,
    Arrow,
    Becomes,
    Concat,
    Dots,
    Differs,
    AtMost,
    AtLeast,
    ShiftLeft,
    ShiftRight,
    OpenRound,
    CloseRound,
    OpenCurly,
    CloseCurly,
    OpenSquare,
    CloseSquare,
    Comma,
    Semicolon,
    Colon,
    Dot,
    Bang,
    Ampersand,
    Bar,
    Equals,
    Less,
    Greater,
    Plus,
    Minus,
    Star,
    Slash,
    Question,
    Module,
    Var,
    InputVar,
    FrozenVar,
    Define,
    Assign,
    Init,
    Trans,
    Invar,
    LtlSpec,
    NameWord,
    True,
    False,
    Boolean,
    WordType,
    Signed,
    Unsigned,
    WordOne,
    BoolOf,
    Extend,
    Resize,
    ToInt,
    UwConst,
    SwConst,
    Count,
    Case,
    Esac,
    Next,
    InitOf,
    SelfWord,
    Mod,
    Union,
    InWord,
    Xor,
    Xnor,
    WordX,
    WordG,
    WordF,
    WordU,
    WordV,
}

/// The symbols, longer ones before those that begin them.
const SYMBOLS: [Mark; 31] = [
    Mark::Iff,
    Mark::Arrow,
    Mark::Becomes,
    Mark::Concat,
    Mark::Dots,
    Mark::Differs,
    Mark::AtMost,
    Mark::AtLeast,
    Mark::ShiftLeft,
    Mark::ShiftRight,
    Mark::OpenRound,
    Mark::CloseRound,
    Mark::OpenCurly,
    Mark::CloseCurly,
    Mark::OpenSquare,
    Mark::CloseSquare,
    Mark::Comma,
    Mark::Semicolon,
    Mark::Colon,
    Mark::Dot,
    Mark::Bang,
    Mark::Ampersand,
    Mark::Bar,
    Mark::Equals,
    Mark::Less,
    Mark::Greater,
    Mark::Plus,
    Mark::Minus,
    Mark::Star,
    Mark::Slash,
    Mark::Question,
];

/// The reserved words.
const WORDS: [Mark; 40] = [
    Mark::Module,
    Mark::Var,
    Mark::InputVar,
    Mark::FrozenVar,
    Mark::Define,
    Mark::Assign,
    Mark::Init,
    Mark::Trans,
    Mark::Invar,
    Mark::LtlSpec,
    Mark::NameWord,
    Mark::True,
    Mark::False,
    Mark::Boolean,
    Mark::WordType,
    Mark::Signed,
    Mark::Unsigned,
    Mark::WordOne,
    Mark::BoolOf,
    Mark::Extend,
    Mark::Resize,
    Mark::ToInt,
    Mark::UwConst,
    Mark::SwConst,
    Mark::Count,
    Mark::Case,
    Mark::Esac,
    Mark::Next,
    Mark::InitOf,
    Mark::SelfWord,
    Mark::Mod,
    Mark::Union,
    Mark::InWord,
    Mark::Xor,
    Mark::Xnor,
    Mark::WordX,
    Mark::WordG,
    Mark::WordF,
    Mark::WordU,
    Mark::WordV,
];

impl Mark {
    /// How the mark is written.
    #[tactic(auto, unfolding(crate::specs::Marks::text))]
    pub fn text(self) -> &'static [u8]
        ensures text { result.now ≡ text self }
        ensures some { 1 ≤ length result.now }
    {
        match self {
            Mark::Iff => b"<->",
            Mark::Arrow => b"->",
            Mark::Becomes => b":=",
            Mark::Concat => b"::",
            Mark::Dots => b"..",
            Mark::Differs => b"!=",
            Mark::AtMost => b"<=",
            Mark::AtLeast => b">=",
            Mark::ShiftLeft => b"<<",
            Mark::ShiftRight => b">>",
            Mark::OpenRound => b"(",
            Mark::CloseRound => b")",
            Mark::OpenCurly => b"{",
            Mark::CloseCurly => b"}",
            Mark::OpenSquare => b"[",
            Mark::CloseSquare => b"]",
            Mark::Comma => b",",
            Mark::Semicolon => b";",
            Mark::Colon => b":",
            Mark::Dot => b".",
            Mark::Bang => b"!",
            Mark::Ampersand => b"&",
            Mark::Bar => b"|",
            Mark::Equals => b"=",
            Mark::Less => b"<",
            Mark::Greater => b">",
            Mark::Plus => b"+",
            Mark::Minus => b"-",
            Mark::Star => b"*",
            Mark::Slash => b"/",
            Mark::Question => b"?",
            Mark::Module => b"MODULE",
            Mark::Var => b"VAR",
            Mark::InputVar => b"IVAR",
            Mark::FrozenVar => b"FROZENVAR",
            Mark::Define => b"DEFINE",
            Mark::Assign => b"ASSIGN",
            Mark::Init => b"INIT",
            Mark::Trans => b"TRANS",
            Mark::Invar => b"INVAR",
            Mark::LtlSpec => b"LTLSPEC",
            Mark::NameWord => b"NAME",
            Mark::True => b"TRUE",
            Mark::False => b"FALSE",
            Mark::Boolean => b"boolean",
            Mark::WordType => b"word",
            Mark::Signed => b"signed",
            Mark::Unsigned => b"unsigned",
            Mark::WordOne => b"word1",
            Mark::BoolOf => b"bool",
            Mark::Extend => b"extend",
            Mark::Resize => b"resize",
            Mark::ToInt => b"toint",
            Mark::UwConst => b"uwconst",
            Mark::SwConst => b"swconst",
            Mark::Count => b"count",
            Mark::Case => b"case",
            Mark::Esac => b"esac",
            Mark::Next => b"next",
            Mark::InitOf => b"init",
            Mark::SelfWord => b"self",
            Mark::Mod => b"mod",
            Mark::Union => b"union",
            Mark::InWord => b"in",
            Mark::Xor => b"xor",
            Mark::Xnor => b"xnor",
            Mark::WordX => b"X",
            Mark::WordG => b"G",
            Mark::WordF => b"F",
            Mark::WordU => b"U",
            Mark::WordV => b"V",
        }
    }
}

/// The first of the marks with which the bytes begin.
fn first_before(marks: &[Mark], bytes: &[u8]) -> Option<Mark>
    ensures within { IfSome result (λ m. length (text m) ≤ length bytes.now) }
    ensures first { result ≡ find (λ m. starts_with nat_eq bytes.now (text m)) marks.now }
{
    for mark in marks {
        if bytes.starts_with(mark.text()) {
            return Some(*mark);
        }
    }
    None
}

/// The first of the marks that is written so.
fn first_spelled(marks: &[Mark], name: &[u8]) -> Option<Mark>
    ensures { result ≡ find (λ m. bytes_eq (text m) name.now) marks.now }
{
    for mark in marks {
        if mark.text() == name {
            return Some(*mark);
        }
    }
    None
}

/// The longest symbol that the bytes begin with.
#[tactic(auto, unfolding(crate::specs::Marks::symbol_at, crate::specs::Marks::symbols))]
pub fn symbol_at(bytes: &[u8]) -> Option<Mark>
    ensures within { IfSome result (λ m. length (text m) ≤ length bytes.now) }
    ensures longest { result ≡ symbol_at bytes.now }
{
    first_before(&SYMBOLS, bytes)
}

/// The reserved word that is written so.
#[tactic(auto, unfolding(crate::specs::Marks::word_of, crate::specs::Marks::words))]
pub fn word_of(name: &[u8]) -> Option<Mark>
    ensures { result ≡ word_of name.now }
{
    first_spelled(&WORDS, name)
}
