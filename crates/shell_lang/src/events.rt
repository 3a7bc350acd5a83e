ghost use Rattle.std.specs.Prelude.{◌≡◌, ◌≤◌, length, option_copied};
ghost use Rattle.shell_lang.specs.Answers.{Answers};
ghost use Rattle.shell_lang.specs.Recall.{event_len, event_line, recalled, recalled_from};

use crate::run::Run;
use crate::{History, LangFault};
use outside::{Text, read_number};
use std::alloc::Global;

/// The line that a line stands for. One that begins with `!`, after blanks, is `!!`, the last
/// remembered line, or `!n`, line `n`, and what follows is appended. Any other line stands for itself.
///
/// # Errors
///
/// `NoEvent` where a `!` is followed by neither, or where that line is not kept; `NoMemory` where
/// memory is refused.
pub fn recall(alloc: Global, line: &Text, history: &History) -> Result<Text, LangFault>
    ensures { Answers (recalled history.now line.now) result }
{
    let bytes = line.as_slice();
    let (_, start) = bytes.split_at(Run::Blanks.len(bytes));
    recall_from(alloc, line, start, history)
}

// What the line stands for that reads like `start` after its blanks.
fn recall_from(
    alloc: Global,
    line: &Text,
    start: &[u8],
    history: &History,
) -> Result<Text, LangFault>
    ensures { Answers (recalled_from history.now line.now start.now) result }
{
    match start {
        [b'!', rest @ ..] => match event_line(history, rest) {
            Some(old) => {
                let mut text = old.copy(alloc)?;
                let (_, more) = rest.split_at(event_len(rest));
                text.extend(more)?;
                Ok(text)
            }
            None => Err(LangFault::NoEvent(Text::from_slice(alloc, start)?)),
        },
        _ => Ok(line.copy(alloc)?),
    }
}

// How many bytes after a `!` name the event.
fn event_len(rest: &[u8]) -> usize
    ensures value { result ≡ event_len rest.now }
    ensures within { result ≤ length rest.now }
{
    match rest {
        [b'!', ..] => 1,
        _ => Run::Digits.len(rest),
    }
}

// The line of the event that stands after a `!`.
fn event_line<'a>(history: &'a History, rest: &[u8]) -> Option<&'a Text>
    ensures { option_copied result ≡ event_line history.now rest.now }
{
    match rest {
        [b'!', ..] => history.line(history.count()),
        _ => {
            let (digits, _) = rest.split_at(Run::Digits.len(rest));
            match read_number(digits) {
                Some(number) => history.line(number),
                None => None,
            }
        }
    }
}
