ghost use Rattle.std.specs.Prelude.{◌≡◌};
ghost use Rattle.std.specs.List.{find};
ghost use Rattle.std.specs.Str.{bytes_eq};
ghost use Rattle.smv_token.specs.LeftOut.{text, left_out};

/// A word that NuSMV reserves and this program has no use for.
#[derive(Clone, Copy, Debug, PartialEq, Eq)]
pub enum LeftOut {
    Process,
    Array,
    OfWord,
    MDefine,
    Constants,
    Real,
    Integer,
    IsA,
    Pred,
    Predicates,
    Mirror,
    Spec,
    CtlSpec,
    PslSpec,
    Compute,
    Compassion,
    Constraint,
    InSection,
    MinCompute,
    MaxCompute,
    Absolute,
    Maximum,
    Minimum,
    SizeOf,
    CtlEx,
    CtlAx,
    CtlEf,
    CtlAf,
    CtlEg,
    CtlAg,
    QuantE,
    QuantA,
    CtlBu,
    CtlEbf,
    CtlAbf,
    CtlEbg,
    CtlAbg,
    Justice,
    Fairness,
    PastY,
    PastZ,
    PastH,
    PastO,
    PastS,
    PastT,
    InvarSpec,
}

/// All of these words.
const LEFT_OUT: [LeftOut; 46] = [
    LeftOut::Process,
    LeftOut::Array,
    LeftOut::OfWord,
    LeftOut::MDefine,
    LeftOut::Constants,
    LeftOut::Real,
    LeftOut::Integer,
    LeftOut::IsA,
    LeftOut::Pred,
    LeftOut::Predicates,
    LeftOut::Mirror,
    LeftOut::Spec,
    LeftOut::CtlSpec,
    LeftOut::PslSpec,
    LeftOut::Compute,
    LeftOut::Compassion,
    LeftOut::Constraint,
    LeftOut::InSection,
    LeftOut::MinCompute,
    LeftOut::MaxCompute,
    LeftOut::Absolute,
    LeftOut::Maximum,
    LeftOut::Minimum,
    LeftOut::SizeOf,
    LeftOut::CtlEx,
    LeftOut::CtlAx,
    LeftOut::CtlEf,
    LeftOut::CtlAf,
    LeftOut::CtlEg,
    LeftOut::CtlAg,
    LeftOut::QuantE,
    LeftOut::QuantA,
    LeftOut::CtlBu,
    LeftOut::CtlEbf,
    LeftOut::CtlAbf,
    LeftOut::CtlEbg,
    LeftOut::CtlAbg,
    LeftOut::Justice,
    LeftOut::Fairness,
    LeftOut::PastY,
    LeftOut::PastZ,
    LeftOut::PastH,
    LeftOut::PastO,
    LeftOut::PastS,
    LeftOut::PastT,
    LeftOut::InvarSpec,
];

impl LeftOut {
    /// How the word is written.
    #[tactic(auto, unfolding(crate::specs::LeftOut::text))]
    pub fn text(self) -> &'static [u8]
        ensures { result.now ≡ text self }
    {
        match self {
            LeftOut::Process => b"process",
            LeftOut::Array => b"array",
            LeftOut::OfWord => b"of",
            LeftOut::MDefine => b"MDEFINE",
            LeftOut::Constants => b"CONSTANTS",
            LeftOut::Real => b"real",
            LeftOut::Integer => b"integer",
            LeftOut::IsA => b"ISA",
            LeftOut::Pred => b"PRED",
            LeftOut::Predicates => b"PREDICATES",
            LeftOut::Mirror => b"MIRROR",
            LeftOut::Spec => b"SPEC",
            LeftOut::CtlSpec => b"CTLSPEC",
            LeftOut::PslSpec => b"PSLSPEC",
            LeftOut::Compute => b"COMPUTE",
            LeftOut::Compassion => b"COMPASSION",
            LeftOut::Constraint => b"CONSTRAINT",
            LeftOut::InSection => b"IN",
            LeftOut::MinCompute => b"MIN",
            LeftOut::MaxCompute => b"MAX",
            LeftOut::Absolute => b"abs",
            LeftOut::Maximum => b"max",
            LeftOut::Minimum => b"min",
            LeftOut::SizeOf => b"sizeof",
            LeftOut::CtlEx => b"EX",
            LeftOut::CtlAx => b"AX",
            LeftOut::CtlEf => b"EF",
            LeftOut::CtlAf => b"AF",
            LeftOut::CtlEg => b"EG",
            LeftOut::CtlAg => b"AG",
            LeftOut::QuantE => b"E",
            LeftOut::QuantA => b"A",
            LeftOut::CtlBu => b"BU",
            LeftOut::CtlEbf => b"EBF",
            LeftOut::CtlAbf => b"ABF",
            LeftOut::CtlEbg => b"EBG",
            LeftOut::CtlAbg => b"ABG",
            LeftOut::Justice => b"JUSTICE",
            LeftOut::Fairness => b"FAIRNESS",
            LeftOut::PastY => b"Y",
            LeftOut::PastZ => b"Z",
            LeftOut::PastH => b"H",
            LeftOut::PastO => b"O",
            LeftOut::PastS => b"S",
            LeftOut::PastT => b"T",
            LeftOut::InvarSpec => b"INVARSPEC",
        }
    }
}

/// The first of the words that is written so.
fn first_spelled(words: &[LeftOut], name: &[u8]) -> Option<LeftOut>
    ensures { result ≡ find (λ w. bytes_eq (text w) name.now) words.now }
{
    for word in words {
        if word.text() == name {
            return Some(*word);
        }
    }
    None
}

/// The left-out word that is written so.
#[tactic(auto, unfolding(crate::specs::LeftOut::left_out, crate::specs::LeftOut::words))]
pub fn left_out(name: &[u8]) -> Option<LeftOut>
    ensures { result ≡ left_out name.now }
{
    first_spelled(&LEFT_OUT, name)
}
