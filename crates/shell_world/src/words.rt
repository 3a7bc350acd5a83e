ghost use Rattle.std.specs.Prelude.{◌≡◌, ◌++◌, ◌∷◌, flat_map, option_copied, IfOk, OnOk};
ghost use Rattle.shell_world.specs.Texts.{joined};

use outside::Text;
use std::alloc::{AllocError, Global};

// Adds words, each behind a blank.
fn append(text: &mut Text, words: &[Text]) -> Result<(), AllocError>
    ensures { OnOk result (text.new ≡ text.old ++ flat_map (λ word. 32 ∷ word) words.now) }
{
    for word in words {
        text.push(b' ')?;
        text.extend(word.as_slice())?;
    }
    Ok(())
}

/// Words with a blank between any two.
///
/// # Errors
///
/// `AllocError` where memory is refused.
pub fn join(alloc: Global, words: &[Text]) -> Result<Text, AllocError>
    ensures { IfOk result (λ text. text ≡ joined words.now) }
{
    match words {
        [] => Ok(Text::new(alloc)),
        [first, rest @ ..] => {
            let mut text = first.copy(alloc)?;
            append(&mut text, rest)?;
            Ok(text)
        }
    }
}

/// A copy of a text, if there is one.
///
/// # Errors
///
/// `AllocError` where memory is refused.
pub fn copy_of(alloc: Global, text: Option<&Text>) -> Result<Option<Text>, AllocError>
    ensures { IfOk result (λ copy. copy ≡ option_copied text.entry) }
{
    match text {
        Some(text) => Ok(Some(text.copy(alloc)?)),
        None => Ok(None),
    }
}
