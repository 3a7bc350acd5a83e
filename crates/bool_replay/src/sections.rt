ghost use Rattle.std.specs.Prelude.{◌≡◌, ◌++◌, ◌∷◌, [], ℕ, List, Bool, false, None, Some, MatchOption, IfOk, codes, map, vec_len, ◌<◌, ◌≤◌, ◌+◌, IfSome, length};
ghost use Rattle.std.specs.Option.{option_copied, option_map};
ghost use Rattle.std.specs.Str.{bytes_eq};
ghost use Rattle.bool_replay.specs.TraceTexts.{add_line, add_lines, add_statement, opened, section_text, statement_of, trimmed, unless_empty, value_of, within, without_suffix, IsTraceText, Section};
ghost use Rattle.bool_replay.specs.SectionViews.{AreRead, progress_of, section_of, sections_in};

use crate::lines::{equal, trimmed};
use crate::names::Names;
use indexmap::IndexMap;
use itoa::Buffer;
use std::alloc::{AllocError, Global};
use text_lines::first_line;

/// A section of a trace: the number of its line, and the values that it states, by name.
#[derive(Drop)]
pub(crate) struct Kept {
    pub(crate) line: u64,
    pub(crate) stated: IndexMap<Vec<u8>, bool>,
}

/// The sections that were read so far.
#[derive(Drop)]
pub(crate) enum Reading {
    Begun,
    /// The complete ones, and the last one.
    Within(Vec<Kept>, Kept),
}

/// The text behind this front, if it has it.
#[tactic(auto, using(crate::proofs::SectionLemmas::front_split))]
fn behind<'a>(text: &'a [u8], front: &[u8]) -> Option<&'a [u8]>
    ensures { MatchOption result ((rest : List ℕ) → bytes_eq (front.now ++ rest) text.now ≡ false) (λ rest. text.now ≡ front.now ++ rest.now) }
{
    if text.len() < front.len() {
        return None;
    }
    let (begin, rest) = text.split_at(front.len());
    if equal(begin, front) {
        Some(rest)
    } else {
        None
    }
}

/// Whether a line begins the section of this number.
#[tactic(auto, using(crate::proofs::SectionLemmas::same_front))]
fn is_section(line: &[u8], number: u64) -> bool
    ensures { result ≡ bytes_eq (section_text number) line.now }
{
    let mut buffer = Buffer::new();
    let Some(rest) = behind(line, b"-> State: 1.") else {
        return false;
    };
    let Some(end) = behind(rest, buffer.format(number).as_bytes()) else {
        return false;
    };
    equal(b" <-", end)
}

/// The line without this end, if it has it.
fn without_suffix<'a>(suffix: &[u8], line: &'a [u8]) -> Option<&'a [u8]>
    ensures { option_copied result ≡ without_suffix suffix.now line.now }
{
    let (front, end) = line.split_at(line.len().saturating_sub(suffix.len()));
    if equal(end, suffix) {
        Some(front)
    } else {
        None
    }
}

/// The name and the truth value that a line states.
fn statement_of(line: &[u8]) -> Option<(&[u8], bool)>
    ensures { option_map (λ s. (s.0.now, s.1)) result ≡ statement_of line.now }
{
    if let Some(name) = without_suffix(b" = TRUE", line) {
        return Some((name, true));
    }
    if let Some(name) = without_suffix(b" = FALSE", line) {
        return Some((name, false));
    }
    None
}

/// The value that a section states for a name.
pub(crate) fn value_of(section: &Kept, name: &[u8]) -> Option<bool>
    ensures { result ≡ value_of (section_of section.now).stated name.now }
{
    section.stated.get(name).copied()
}

/// A section with one more statement, if its name is declared and not stated yet.
fn add_statement(
    alloc: Global,
    names: &Names,
    section: Kept,
    name: &[u8],
    value: bool,
) -> Result<Option<Kept>, AllocError>
    ensures { IfOk result (λ more. option_map section_of more ≡ add_statement names.now (section_of section) (name.now, value)) }
{
    if !names.contains(name) || value_of(&section, name).is_some() {
        return Ok(None);
    }
    let mut section = section;
    section.stated.insert(Vec::from_slice(alloc, name)?, value)?;
    Ok(Some(section))
}

/// A section without statements.
fn opened(alloc: Global, line: u64) -> Kept
    ensures { section_of result ≡ record { line = line; stated = [] } }
{
    Kept {
        line,
        stated: IndexMap::new(alloc),
    }
}

/// The sections after one more line, behind the first section's.
fn add_within(
    alloc: Global,
    names: &Names,
    done: Vec<Kept>,
    last: Kept,
    number: u64,
    text: &[u8],
) -> Result<Option<Reading>, AllocError>
    requires { vec_len done < 4294967296 }
    ensures count { IfOk result (λ more. IfSome more (λ r. sections_in r ≤ vec_len done + 2)) }
    ensures progress { IfOk result (λ more. option_map progress_of more ≡ add_line names.now (record { number = number; text = text.now }) (within (map section_of done.items) (section_of last))) }
{
    if is_section(text, done.len() as u64 + 2) {
        let mut done = done;
        done.push(last)?;
        return Ok(Some(Reading::Within(done, opened(alloc, number))));
    }
    let Some((name, value)) = statement_of(text) else {
        return Ok(None);
    };
    match add_statement(alloc, names, last, name, value)? {
        Some(last) => Ok(Some(Reading::Within(done, last))),
        None => Ok(None),
    }
}

/// The sections after one more line of a text.
#[tactic(auto, using(crate::proofs::SectionLemmas::empty_line, crate::proofs::SectionLemmas::full_line))]
fn add_line(
    alloc: Global,
    names: &Names,
    reading: Reading,
    number: u64,
    line: &[u8],
) -> Result<Option<Reading>, AllocError>
    requires { sections_in reading < 4294967296 }
    ensures count { IfOk result (λ more. IfSome more (λ r. sections_in r ≤ sections_in reading + 1)) }
    ensures progress { IfOk result (λ more. option_map progress_of more ≡ add_lines names.now (unless_empty number (trimmed line.now) []) (progress_of reading)) }
{
    let text = trimmed(line);
    if text.is_empty() {
        return Ok(Some(reading));
    }
    match reading {
        Reading::Begun => {
            if is_section(text, 1) {
                Ok(Some(Reading::Within(Vec::new(alloc), opened(alloc, number))))
            } else {
                Ok(None)
            }
        }
        Reading::Within(done, last) => add_within(alloc, names, done, last, number, text),
    }
}

/// The sections of a trace's text, if it is one.
///
/// # Errors
///
/// `AllocError` where memory is refused.
#[tactic(auto, using(crate::proofs::ReadingLemmas::lines_over))]
pub(crate) fn read(
    alloc: Global,
    names: &Names,
    text: &[u8],
) -> Result<Option<Vec<Kept>>, AllocError>
    requires { length text.now ≤ 4194304 }
    ensures { IfOk result (λ found. MatchOption found ((sections : List Section) → IsTraceText names.now text.now sections → ⊥) (λ kept. AreRead names.now text.now kept.items)) }
{
    let mut reading = Reading::Begun;
    let mut number = 0;
    let mut rest = text;
    while !rest.is_empty() {
        let (line, behind) = first_line(rest);
        number += 1;
        match add_line(alloc, names, reading, number, line)? {
            Some(more) => reading = more,
            None => return Ok(None),
        }
        rest = behind;
    }
    match reading {
        Reading::Begun => Ok(None),
        Reading::Within(done, last) => {
            let mut done = done;
            done.push(last)?;
            Ok(Some(done))
        }
    }
}
