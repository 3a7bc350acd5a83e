ghost use Rattle.std.specs.Prelude.{◌≡◌, ◌<◌, length};
ghost use Rattle.smv_grammar.specs.Faults.{fault_of, left_out_fault, place_at};
ghost use Rattle.smv_parse.specs.Halting.{HaltFault, StopsWithin};
ghost use Rattle.smv_rules.specs.Verdicts.{Unless, end_fault};

use smv_grammar::ParseFault;
use smv_reader::Halt;
use smv_token::{Flaw, LeftOut, ScannedText, Token};
use smv_tree::{Name, Place};
use std::alloc::{AllocError, Global};

/// The fault that a left-out word is.
#[tactic(auto, using(crate::proofs::Places::text_within))]
fn left_out_fault(alloc: Global, place: Place, word: LeftOut) -> ParseFault
    ensures { Unless result (result ≡ left_out_fault place word) }
{
    match word {
        LeftOut::Justice | LeftOut::Fairness => ParseFault::Fairness(place),
        LeftOut::PastY
        | LeftOut::PastZ
        | LeftOut::PastH
        | LeftOut::PastO
        | LeftOut::PastS
        | LeftOut::PastT => ParseFault::Past(place),
        LeftOut::InvarSpec => ParseFault::InvarSpec(place),
        _ => match Vec::from_slice(alloc, word.text()) {
            Ok(text) => ParseFault::LeftOut(place, Name::from_vec(text)),
            Err(error) => ParseFault::NoMemory(error),
        },
    }
}

/// The fault that a place where no token begins is.
pub fn fault_of(alloc: Global, place: Place, flaw: Flaw) -> ParseFault
    ensures { Unless result (result ≡ fault_of place flaw) }
{
    match flaw {
        Flaw::BadByte => ParseFault::BadByte(place),
        Flaw::BadWord => ParseFault::BadWord(place),
        Flaw::NumberRange => ParseFault::NumberRange(place),
        Flaw::LeftOut(word) => left_out_fault(alloc, place, word),
        Flaw::LongName => ParseFault::LongName(place),
    }
}

/// The place of a token by its number.
#[tactic(auto, using(crate::proofs::Places::place_of))]
fn place_at(tokens: &[Token], index: usize) -> Place
    requires { index < length tokens.now }
    ensures { result ≡ place_at tokens.now index }
{
    tokens[index].place
}

/// The fault where all tokens of a text are read, and more is wanted.
fn end_fault(alloc: Global, text: &ScannedText) -> ParseFault
    ensures { Unless result (result ≡ end_fault text.now.stop text.now.end) }
{
    match text.stop {
        None => ParseFault::End(text.end),
        Some((place, flaw)) => fault_of(alloc, place, flaw),
    }
}

/// The fault of a text where the reading of its tokens halted.
pub fn halt_fault(alloc: Global, text: &ScannedText, halt: Halt) -> ParseFault
    requires { StopsWithin (length text.now.tokens.items) halt }
    ensures { HaltFault text.now.tokens.items text.now.stop text.now.end halt result }
{
    let tokens = text.tokens.as_slice();
    match halt {
        Halt::Wrong(0) => end_fault(alloc, text),
        Halt::Wrong(left) => ParseFault::Unexpected(place_at(tokens, tokens.len() - left)),
        Halt::Deep(left) => ParseFault::Deep(place_at(tokens, tokens.len() - left - 1)),
        Halt::NoMemory(error) => ParseFault::NoMemory(error),
    }
}
