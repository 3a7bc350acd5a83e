ghost use Rattle.std.specs.Prelude.{◌≡◌, IfOk};
ghost use Rattle.smv_token.specs.Tokens.{scanned};
ghost use Rattle.smv_parse.specs.FirstForm.{behind, closes, first_from, free, is_first, opens};

use smv_token::{Lexeme, Mark, Token, scan};
use std::alloc::{AllocError, Global};

/// What may come next: anything, or a part of `next` around a name.
#[derive(Clone, Copy, Debug)]
enum Stage {
    Free,
    Open,
    Inside,
    Close,
}

/// The stage behind a mark that may stand anywhere.
fn free(mark: Mark) -> Option<Stage>
    ensures { result ≡ free mark }
{
    match mark {
        Mark::Module | Mark::Var | Mark::Init | Mark::Trans => Some(Stage::Free),
        Mark::Boolean | Mark::Colon | Mark::Semicolon => Some(Stage::Free),
        Mark::True | Mark::False | Mark::Bang | Mark::Equals => Some(Stage::Free),
        Mark::Next => Some(Stage::Open),
        _ => None,
    }
}

/// The stage behind a bracket that opens.
fn opens(mark: Mark) -> Option<Stage>
    ensures { result ≡ opens mark }
{
    match mark {
        Mark::OpenRound => Some(Stage::Inside),
        _ => None,
    }
}

/// The stage behind a bracket that closes.
fn closes(mark: Mark) -> Option<Stage>
    ensures { result ≡ closes mark }
{
    match mark {
        Mark::CloseRound => Some(Stage::Free),
        _ => None,
    }
}

/// The stage behind a token.
fn behind(stage: Stage, lexeme: &Lexeme) -> Option<Stage>
    ensures { result ≡ behind stage lexeme.now }
{
    match (stage, lexeme) {
        (Stage::Free, Lexeme::Name(_)) => Some(Stage::Free),
        (Stage::Free, Lexeme::Mark(mark)) => free(*mark),
        (Stage::Open, Lexeme::Mark(mark)) => opens(*mark),
        (Stage::Inside, Lexeme::Name(_)) => Some(Stage::Close),
        (Stage::Close, Lexeme::Mark(mark)) => closes(*mark),
        _ => None,
    }
}

/// Whether the tokens are those of a model of the first form.
#[tactic(auto, unfolding(crate::specs::FirstForm::first_from))]
pub fn is_first(tokens: &[Token]) -> bool
    ensures { result ≡ is_first tokens.now }
{
    let mut stage = Stage::Free;
    for token in tokens {
        match behind(stage, &token.lexeme) {
            Some(next) => stage = next,
            None => return false,
        }
    }
    true
}

/// Whether the tokens of a text are those of a model of the first form, as far as the text has tokens.
///
/// # Errors
///
/// `AllocError` where memory is refused.
pub fn is_first_form(alloc: Global, bytes: &[u8]) -> Result<bool, AllocError>
    ensures { IfOk result (λ first. first ≡ is_first (scanned bytes.now).tokens) }
{
    let text = scan(alloc, bytes)?;
    Ok(is_first(text.tokens.as_slice()))
}
