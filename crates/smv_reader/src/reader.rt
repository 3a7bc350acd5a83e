ghost use Rattle.std.specs.Prelude.{◌≡◌};
ghost use Rattle.smv_reader.specs.Halts.{Reads};
ghost use Rattle.smv_rules.specs.Expressions.{an_int, mark, name, number, optional};
ghost use Rattle.smv_rules.specs.Keys.{begins_with};
ghost use Rattle.smv_rules.specs.Running.{run};

use crate::halt::Halt;
use smv_grammar::integer;
use smv_token::{Lexeme, Mark, Token};
use smv_tree::{Name, Place};
use std::alloc::Global;

/// How tokens are read: where memory comes from, and how many nestings may still be opened.
#[derive(Clone, Copy, Debug)]
pub struct Reader {
    pub alloc: Global,
    pub room: u32,
}

impl Reader {
    /// The place of a mark, and the tokens behind it.
    #[tactic(auto, unfolding(smv_rules::specs::Running::run, smv_rules::specs::Keys::sees, smv_grammar::specs::IsMark::same_mark))]
    pub fn expect(self, wanted: Mark, tokens: &[Token]) -> Result<(Place, &[Token]), Halt>
        ensures { Reads (λ x. (x.0, x.1.now)) result (run self.room (mark wanted) tokens.now) }
    {
        let [first, rest @ ..] = tokens else {
            return Err(Halt::Wrong(0));
        };
        match first.lexeme {
            Lexeme::Mark(found) if wanted == found => Ok((first.place, rest)),
            _ => Err(Halt::Wrong(tokens.len())),
        }
    }

    /// Whether a mark that may be left out stands there, and the tokens behind it.
    #[tactic(auto, unfolding(smv_rules::specs::Running::run, smv_rules::specs::Keys::sees, smv_grammar::specs::IsMark::same_mark))]
    pub fn eat(self, wanted: Mark, tokens: &[Token]) -> Result<(bool, &[Token]), Halt>
        ensures { Reads (λ x. (x.0, x.1.now)) result (run self.room (optional wanted) tokens.now) }
    {
        let [first, rest @ ..] = tokens else {
            return Ok((false, tokens));
        };
        match first.lexeme {
            Lexeme::Mark(found) if wanted == found => Ok((true, rest)),
            _ => Ok((false, tokens)),
        }
    }

    /// A number, and the tokens behind it.
    #[tactic(auto, unfolding(smv_rules::specs::Running::run, smv_rules::specs::Keys::sees))]
    pub fn number(self, tokens: &[Token]) -> Result<(u64, &[Token]), Halt>
        ensures { Reads (λ x. (x.0, x.1.now)) result (run self.room number tokens.now) }
    {
        let [first, rest @ ..] = tokens else {
            return Err(Halt::Wrong(0));
        };
        match first.lexeme {
            Lexeme::Number(number) => Ok((number, rest)),
            _ => Err(Halt::Wrong(tokens.len())),
        }
    }

    /// A name with its place, and the tokens behind it.
    #[tactic(auto, unfolding(smv_rules::specs::Running::run, smv_rules::specs::Keys::sees))]
    pub fn name(self, tokens: &[Token]) -> Result<(Name, Place, &[Token]), Halt>
        ensures { Reads (λ x. ((x.0, x.1), x.2.now)) result (run self.room name tokens.now) }
    {
        let [first, rest @ ..] = tokens else {
            return Err(Halt::Wrong(0));
        };
        match &first.lexeme {
            Lexeme::Name(name) => Ok((name.copy(self.alloc)?, first.place, rest)),
            _ => Err(Halt::Wrong(tokens.len())),
        }
    }

    /// An integer, a number with a `-` before it or not, and the tokens behind it.
    #[tactic(auto, unfolding(smv_rules::specs::Running::run))]
    pub fn integer(self, tokens: &[Token]) -> Result<(i64, &[Token]), Halt>
        ensures { Reads (λ x. (x.0, x.1.now)) result (run self.room an_int tokens.now) }
    {
        let (minus, rest) = self.eat(Mark::Minus, tokens)?;
        let (number, rest) = self.number(rest)?;
        Ok((integer(minus, number), rest))
    }
}

/// Whether a mark stands at the front.
#[tactic(auto, unfolding(smv_grammar::specs::IsMark::same_mark))]
pub fn begins_with(wanted: Mark, tokens: &[Token]) -> bool
    ensures { result ≡ begins_with wanted tokens.now }
{
    let [first, ..] = tokens else {
        return false;
    };
    match first.lexeme {
        Lexeme::Mark(found) => wanted == found,
        _ => false,
    }
}
