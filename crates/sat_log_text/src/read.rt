//! A log is read from its text.

ghost use Rattle.std.specs.Prelude.{◌≡◌, ◌≢◌, ◌≤◌, ◌<◌, ◌+◌, ◌^◌, ◌++◌, ℕ, true, false, List, [], ◌∷◌, length, decimal, Err, IfSome, IfNone, OnOk};
ghost use Rattle.sat_log.specs.declared.log.AppendFault.{AppendFault};
ghost use Rattle.sat_log_text.specs.Page.{words, page};
ghost use Rattle.sat_log_text.specs.Reading.{items, number_of, literal_of, hints_of, after_letter, line_of, same_bytes, end_of, is_header, at_end, all_named, may_follow, with_words, read_page};
ghost use Rattle.sat_log_text.specs.Answers.{IsAnswer, IsAnswerAt, IsLogAnswer, words_after};

use crate::LogFault;
use crate::words::{kind, literal, number, piece_at, same_bytes};
use itoa::Buffer;
use sat_log::{AppendFault, Ids, LineKind, Log, LogLine, SLits};
use std::alloc::{AllocError, Global};

impl From<AllocError> for LogFault {
    ghost use Rattle.std.specs.Prelude.{◌≡◌};
    ghost use Rattle.sat_log_text.specs.declared.fault.LogFault.TheVariants.{NoMemory};

    ghost from_gives = { λ e f. f ≡ NoMemory e };

    fn from(error: AllocError) -> LogFault {
        LogFault::NoMemory(error)
    }
}

/// The literals of a line, up to the 0 behind them, and how many bytes they take. They stand behind
/// what is left of a line.
fn literals(alloc: Global, rest: &[u8], line: u64) -> Result<(SLits, usize), LogFault>
    ensures { IsAnswerAt rest.now result (items literal_of line (words_after rest.now)) }
{
    let mut literals = SLits::new(alloc);
    let mut at = 0;
    while at < rest.len() {
        let word = piece_at(rest, at + 1, b' ');
        if same_bytes(word, b"0") {
            return Ok((literals, at + 1 + word.len()));
        }
        let Some(item) = literal(word) else {
            return Err(LogFault::BadNumber(line));
        };
        literals.push(item)?;
        at += 1 + word.len();
    }
    Err(LogFault::MissingZero(line))
}

/// The hints of a line, up to the 0 behind them, and how many bytes they take.
fn ids(alloc: Global, rest: &[u8], line: u64) -> Result<(Ids, usize), LogFault>
    ensures { IsAnswerAt rest.now result (items number_of line (words_after rest.now)) }
{
    let mut ids = Ids::new(alloc);
    let mut at = 0;
    while at < rest.len() {
        let word = piece_at(rest, at + 1, b' ');
        if same_bytes(word, b"0") {
            return Ok((ids, at + 1 + word.len()));
        }
        let Some(item) = number(word) else {
            return Err(LogFault::BadNumber(line));
        };
        ids.push(item)?;
        at += 1 + word.len();
    }
    Err(LogFault::MissingZero(line))
}

/// The hints of a line of this kind, which an original lacks, and how many bytes they take.
fn hints(alloc: Global, rest: &[u8], line: u64, kind: LineKind) -> Result<(Ids, usize), LogFault>
    ensures { IsAnswerAt rest.now result (hints_of line kind (words_after rest.now)) }
{
    match kind {
        LineKind::Original => Ok((Ids::new(alloc), 0)),
        LineKind::Conflict | LineKind::Final => ids(alloc, rest, line),
    }
}

/// The line of a log of which the id and the letter were read.
fn clause_behind(alloc: Global, rest: &[u8], line: u64, kind: LineKind) -> Result<LogLine, LogFault>
    ensures { IsAnswer result (after_letter line (Some kind) (words_after rest.now)) }
{
    let (lits, taken) = literals(alloc, rest, line)?;
    let (_, rest) = rest.split_at(taken);
    let (hints, taken) = hints(alloc, rest, line, kind)?;
    if taken < rest.len() {
        return Err(LogFault::BadNumber(line));
    }
    Ok(LogLine { kind, lits, hints })
}

/// Whether a word is the decimal text of this number.
fn is_number(word: &[u8], number: u64) -> bool
    ensures { result ≡ same_bytes word.now (decimal number) }
{
    let mut buffer = Buffer::new();
    same_bytes(word, buffer.format(number).as_bytes())
}

/// The line of a log with this id, in the line of the text behind that of the id before.
fn clause(alloc: Global, text: &[u8], id: u64) -> Result<LogLine, LogFault>
    requires { id ≤ 2 ^ 63 }
    ensures { IsAnswer result (line_of (id + 1) id (words text.now)) }
{
    let line = id + 1;
    let first = piece_at(text, 0, b' ');
    if first.len() == text.len() {
        return Err(LogFault::BadNumber(line));
    }
    if !is_number(first, id) {
        return Err(LogFault::BadNumber(line));
    }
    let second = piece_at(text, first.len() + 1, b' ');
    let Some(kind) = kind(second) else {
        return Err(LogFault::BadNumber(line));
    };
    let (_, rest) = text.split_at(first.len() + 1 + second.len());
    clause_behind(alloc, rest, line, kind)
}

/// The two words of a line that has two.
fn two_words(text: &[u8]) -> Option<(&[u8], &[u8])>
    ensures two { IfSome result (λ pair. words text.now ≡ pair.0.now ∷ pair.1.now ∷ []) }
    ensures other { IfNone result ((a b : List ℕ) → words text.now ≢ a ∷ b ∷ []) }
{
    let first = piece_at(text, 0, b' ');
    if first.len() == text.len() {
        return None;
    }
    let second = piece_at(text, first.len() + 1, b' ');
    if first.len() + 1 + second.len() < text.len() {
        return None;
    }
    Some((first, second))
}

/// The number of clauses that a last line states.
fn end_count(text: &[u8]) -> Option<u64>
    ensures { result ≡ end_of (words text.now) }
{
    let (first, second) = two_words(text)?;
    if same_bytes(first, b"end") {
        number(second)
    } else {
        None
    }
}

/// Whether a line is the first of a log's text.
fn is_header(text: &[u8]) -> bool
    ensures { result ≡ is_header (words text.now) }
{
    match two_words(text) {
        Some((first, second)) => same_bytes(first, b"log") && same_bytes(second, b"1"),
        None => false,
    }
}

/// Whether each hint names an original or a conflict line.
fn all_named(log: &Log, hints: &[u64]) -> bool
    ensures { result ≡ all_named log.now hints.now }
{
    for id in hints {
        if log.clause(*id).is_none() {
            return false;
        }
    }
    true
}

/// Takes a line of any kind if it may come next.
fn extend(log: &mut Log, line: LogLine) -> Result<u64, AppendFault>
    ensures taken { OnOk result (may_follow line.kind log.old line ≡ true) }
    ensures refused { result ≡ Err AppendFault.NotAccepted → may_follow line.kind log.old line ≡ false }
    ensures ok { OnOk result (log.new ≡ log.old ++ line ∷ []) }
{
    log.extend(line)
}

/// Takes the next line of a text into the log.
fn read_line(alloc: Global, log: &mut Log, text: &[u8]) -> Result<(), LogFault>
    ensures { IsLogAnswer log.new result
        (with_words log.old (line_of (length log.old + 2) (length log.old + 1) (words text.now))) }
{
    let id = log.count() + 1;
    let line = clause(alloc, text, id)?;
    if !all_named(log, line.hints.as_slice()) {
        return Err(LogFault::BadHint(id + 1));
    }
    match extend(log, line) {
        Ok(_) => Ok(()),
        Err(AppendFault::NotAccepted) => Err(LogFault::NotAccepted(id)),
        Err(AppendFault::NoMemory(error)) => Err(LogFault::NoMemory(error)),
    }
}

/// The log at a last line that states this number of clauses, and behind which there may be more.
fn finish(log: Log, count: u64, more: bool) -> Result<Log, LogFault>
    ensures end { more ≡ false → IsAnswer result (at_end log count []) }
    ensures further { (line : List (List ℕ)) (rest : List (List (List ℕ))) →
        more ≡ true → IsAnswer result (at_end log count (line ∷ rest)) }
{
    if count != log.count() {
        return Err(LogFault::Truncated);
    }
    if more {
        return Err(LogFault::BadNumber(log.count() + 3));
    }
    Ok(log)
}

/// The log of a text, or the first fault of the text.
pub(crate) fn read(alloc: Global, text: &[u8]) -> Result<Log, LogFault>
    ensures { IsAnswer result (read_page (page text.now)) }
{
    let first = piece_at(text, 0, b'\n');
    if !is_header(first) {
        return Err(LogFault::BadNumber(1));
    }
    let mut log = Log::new(alloc)?;
    let mut at = first.len() + 1;
    while at < text.len() {
        let line = piece_at(text, at, b'\n');
        at += line.len() + 1;
        if let Some(count) = end_count(line) {
            return finish(log, count, at < text.len());
        }
        read_line(alloc, &mut log, line)?;
    }
    Err(LogFault::Truncated)
}
