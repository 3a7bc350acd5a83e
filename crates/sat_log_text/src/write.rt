//! The text of a log, as it is written and how long it is.

ghost use Rattle.std.specs.Prelude.{◌≡◌, ◌++◌, ◌∷◌, ◌≤◌, [], map, decimal, length, min};
ghost use Rattle.std.specs.List.{flat_map};
ghost use Rattle.outside.specs.Calls.{Writes};
ghost use Rattle.sat_log_text.specs.LogText.{letter, literal_word, zero_word, spaced, hint_words, line_words, line_text, clause_lines, text_of};

use itoa::Buffer;
use outside::{Failed, Sink, put_all, put_numbered};
use sat_log::{LineKind, LogLine, SLit};

/// Writes a literal behind a blank.
fn put_literal<S: Sink>(out: &mut S, literal: SLit) -> Result<(), Failed>
    ensures { Writes (32 ∷ literal_word literal) (S.told out.old) result (S.told out.new) }
{
    if literal.is_negative() {
        put_numbered(out, b" -", literal.var(), b"")
    } else {
        put_numbered(out, b" ", literal.var(), b"")
    }
}

/// Writes literals, each behind a blank.
fn put_literals<S: Sink>(out: &mut S, literals: &[SLit]) -> Result<(), Failed>
    ensures { Writes
        (flat_map (λ l. 32 ∷ literal_word l) literals.now)
        (S.told out.old) result (S.told out.new) }
{
    for literal in literals {
        put_literal(out, *literal)?;
    }
    Ok(())
}

/// Writes ids, each behind a blank.
fn put_ids<S: Sink>(out: &mut S, ids: &[u64]) -> Result<(), Failed>
    ensures { Writes
        (flat_map (λ n. 32 ∷ decimal n) ids.now)
        (S.told out.old) result (S.told out.new) }
{
    for id in ids {
        put_numbered(out, b" ", *id, b"")?;
    }
    Ok(())
}

/// Writes hints and the 0 behind them.
fn put_hint_list<S: Sink>(out: &mut S, hints: &[u64]) -> Result<(), Failed>
    ensures { Writes
        (spaced (map decimal hints.now ++ zero_word ∷ []))
        (S.told out.old) result (S.told out.new) }
{
    put_ids(out, hints)?;
    put_all(out, b" 0")
}

/// Writes the hints of a line, unless it is an original.
fn put_hints<S: Sink>(out: &mut S, kind: LineKind, hints: &[u64]) -> Result<(), Failed>
    ensures { Writes (spaced (hint_words kind hints.now)) (S.told out.old) result (S.told out.new) }
{
    match kind {
        LineKind::Original => Ok(()),
        LineKind::Conflict | LineKind::Final => put_hint_list(out, hints),
    }
}

/// What stands behind the id of a line of this kind.
fn letter(kind: LineKind) -> &'static [u8]
    ensures { result.now ≡ 32 ∷ letter kind }
{
    match kind {
        LineKind::Original => b" o",
        LineKind::Conflict => b" c",
        LineKind::Final => b" f",
    }
}

/// Writes a line of a log.
fn put_line<S: Sink>(out: &mut S, id: u64, line: &LogLine) -> Result<(), Failed>
    ensures { Writes (line_text (line_words id line.now)) (S.told out.old) result (S.told out.new) }
{
    put_numbered(out, b"", id, letter(line.kind))?;
    put_literals(out, line.lits.as_slice())?;
    put_all(out, b" 0")?;
    put_hints(out, line.kind, line.hints.as_slice())?;
    put_all(out, b"\n")
}

/// Writes the lines of a log, which are numbered from 1.
fn put_lines<S: Sink>(out: &mut S, lines: &[LogLine]) -> Result<(), Failed>
    ensures { Writes
        (flat_map line_text (clause_lines 1 lines.now))
        (S.told out.old) result (S.told out.new) }
{
    for (i, line) in lines.iter().enumerate() {
        put_line(out, i as u64 + 1, line)?;
    }
    Ok(())
}

/// How many decimal digits a number has.
fn decimal_len(number: u64) -> u64
    ensures length { result ≡ length (decimal number) }
    ensures short { result ≤ 40 }
{
    let mut buffer = Buffer::new();
    buffer.format(number).len() as u64
}

/// How long the text of these literals is, each behind a blank.
fn literals_len(literals: &[SLit]) -> u64
    ensures { result ≡ min (length (flat_map (λ l. 32 ∷ literal_word l) literals.now)) u64.MAX }
{
    let mut total: u64 = 0;
    for literal in literals {
        let signs = if literal.is_negative() { 2 } else { 1 };
        total = total.saturating_add(signs + decimal_len(literal.var()));
    }
    total
}

/// How long the text of these ids is, each behind a blank.
fn ids_len(ids: &[u64]) -> u64
    ensures { result ≡ min (length (flat_map (λ n. 32 ∷ decimal n) ids.now)) u64.MAX }
{
    let mut total: u64 = 0;
    for id in ids {
        total = total.saturating_add(1 + decimal_len(*id));
    }
    total
}

/// How long the text of hints is, with the 0 behind them.
fn hint_list_len(hints: &[u64]) -> u64
    ensures { result ≡ min (length (spaced (map decimal hints.now ++ zero_word ∷ []))) u64.MAX }
{
    ids_len(hints).saturating_add(2)
}

/// How long the text of a line's hints is, which an original lacks.
fn hints_len(kind: LineKind, hints: &[u64]) -> u64
    ensures { result ≡ min (length (spaced (hint_words kind hints.now))) u64.MAX }
{
    match kind {
        LineKind::Original => 0,
        LineKind::Conflict | LineKind::Final => hint_list_len(hints),
    }
}

/// How long the text of a line is.
fn line_len(id: u64, line: &LogLine) -> u64
    ensures { result ≡ min (length (line_text (line_words id line.now))) u64.MAX }
{
    (decimal_len(id) + 5)
        .saturating_add(literals_len(line.lits.as_slice()))
        .saturating_add(hints_len(line.kind, line.hints.as_slice()))
}

/// How long the text of these lines is, which are numbered from 1.
fn lines_len(lines: &[LogLine]) -> u64
    ensures { result ≡ min (length (flat_map line_text (clause_lines 1 lines.now))) u64.MAX }
{
    let mut total: u64 = 0;
    for (i, line) in lines.iter().enumerate() {
        total = total.saturating_add(line_len(i as u64 + 1, line));
    }
    total
}

/// How long the text of a log is.
pub(crate) fn log_len(lines: &[LogLine]) -> u64
    ensures { result ≡ min (length (text_of lines.now)) u64.MAX }
{
    lines_len(lines).saturating_add(11 + decimal_len(lines.len() as u64))
}

/// Writes the text of a log.
pub(crate) fn put_log<S: Sink>(out: &mut S, lines: &[LogLine]) -> Result<(), Failed>
    ensures { Writes (text_of lines.now) (S.told out.old) result (S.told out.new) }
{
    put_all(out, b"log 1\n")?;
    put_lines(out, lines)?;
    put_numbered(out, b"end ", lines.len() as u64, b"\n")
}
