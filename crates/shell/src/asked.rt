ghost use Rattle.std.specs.Prelude.{◌≡◌, ◌≤◌, drop, length, option_map};
ghost use Rattle.shell.specs.AskedViews.{asked_of};
ghost use Rattle.shell.specs.Sessions.{asked_by, nothing_asked, with_model_file, with_prompts, with_script, with_word};

use cmd_table::begins_with_dash;
use outside::Text;

/// What the words of the program ask for.
#[derive(Clone, Copy, Debug)]
pub struct Wanted<'a> {
    /// A prompt is written before each line of input.
    pub prompts: bool,
    /// The file of the script that is done first.
    pub script: Option<&'a Text>,
    /// The model's file.
    pub model: Option<&'a Text>,
}

// Prompts are asked for, which may be done once.
fn with_prompts(wanted: Wanted<'_>) -> Option<Wanted<'_>>
    ensures { option_map asked_of result ≡ with_prompts (asked_of wanted.entry) }
{
    if wanted.prompts {
        None
    } else {
        Some(Wanted {
            prompts: true,
            script: wanted.script,
            model: wanted.model,
        })
    }
}

// A script is asked for, which may be done once.
fn with_script<'a>(wanted: Wanted<'a>, file: &'a Text) -> Option<Wanted<'a>>
    ensures { option_map asked_of result ≡ with_script (asked_of wanted.entry) file.now }
{
    if wanted.script.is_some() {
        None
    } else {
        Some(Wanted {
            prompts: wanted.prompts,
            script: Some(file),
            model: wanted.model,
        })
    }
}

// A model is named, which may be done once.
fn with_model_file<'a>(wanted: Wanted<'a>, file: &'a Text) -> Option<Wanted<'a>>
    ensures { option_map asked_of result ≡ with_model_file (asked_of wanted.entry) file.now }
{
    if begins_with_dash(file.as_slice()) || wanted.model.is_some() {
        None
    } else {
        Some(Wanted {
            prompts: wanted.prompts,
            script: wanted.script,
            model: Some(file),
        })
    }
}

// A word that takes none behind it.
fn with_word<'a>(wanted: Wanted<'a>, word: &'a Text) -> Option<Wanted<'a>>
    ensures { option_map asked_of result ≡ with_word (asked_of wanted.entry) word.now }
{
    if word.as_slice() == b"-int".as_slice() {
        with_prompts(wanted)
    } else {
        with_model_file(wanted, word)
    }
}

// The words behind the first two.
fn behind_two(words: &[Text]) -> &[Text]
    requires { 2 ≤ length words.now }
    ensures { result.now ≡ drop 2 words.now }
{
    let (_, rest) = words.split_at(2);
    rest
}

/// What the words ask for, after what was asked for before them; none where they are wrong.
pub fn wanted_by<'a>(wanted: Wanted<'a>, words: &'a [Text]) -> Option<Wanted<'a>>
    ensures { option_map asked_of result ≡ asked_by (Some (asked_of wanted.entry)) words.now }
{
    match words {
        [] => Some(wanted),
        [word] => with_word(wanted, word),
        [word, next, ..] => {
            if word.as_slice() == b"-source".as_slice() {
                match with_script(wanted, next) {
                    Some(wanted) => wanted_by(wanted, behind_two(words)),
                    None => None,
                }
            } else {
                match with_word(wanted, word) {
                    Some(wanted) => {
                        let (_, rest) = words.split_at(1);
                        wanted_by(wanted, rest)
                    }
                    None => None,
                }
            }
        }
    }
}
