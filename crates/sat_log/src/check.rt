//! The check of a line: reverse unit propagation over its hints.

ghost use Rattle.std.specs.Prelude.{◌≡◌, ◌++◌, ◌≤◌, ◌↔◌, [], IsTrue, map};
ghost use Rattle.std.specs.Bool.{OnTrue};
ghost use Rattle.std.specs.Option.{option_copied};
ghost use Rattle.sat_log.specs.Literal.{negated};
ghost use Rattle.sat_log.specs.Clause.{AreLiterals};
ghost use Rattle.sat_log.specs.Accepted.{Accepts, clause_at, line_at};
ghost use Rattle.sat_log.specs.Checking.{last_of, can_assume, look, refutes, accepts, LooksWithin};
ghost use Rattle.sat_log.specs.Marked.{HasRoomFor, HasRoomForAll};

use crate::marks::{Look, Marks};
use crate::{LineKind, LogLine, SLit};

/// The line of this id, counted from 1.
pub(crate) fn line_at(lines: &[LogLine], id: u64) -> Option<&LogLine>
    ensures { option_copied result ≡ line_at lines.now id }
{
    if id == 0 {
        return None;
    }
    lines.get(id as usize - 1)
}

/// The clause that a hint names: an original or a conflict line.
pub(crate) fn clause_at(lines: &[LogLine], id: u64) -> Option<&[SLit]>
    ensures { option_copied result ≡ clause_at lines.now id }
{
    let line = line_at(lines, id)?;
    match line.kind {
        LineKind::Final => None,
        _ => Some(line.lits.as_slice()),
    }
}

/// The greatest variable of the clause, or 0.
pub(crate) fn last_variable(literals: &[SLit]) -> u64
    ensures last { result ≡ last_of literals.now }
    ensures literals { AreLiterals literals.now }
{
    let mut last = 0;
    for literal in literals {
        last = literal.var().max(last);
    }
    last
}

/// Sets all of these literals false, up to the first whose variable is set already.
fn assume_false(marks: &mut Marks, literals: &[SLit]) -> bool
    requires { HasRoomFor marks.old literals.now }
    ensures value { result ≡ can_assume marks.old.set literals.now }
    ensures set { OnTrue result (marks.new.set ≡ marks.old.set ++ map negated literals.now) }
    ensures room { marks.new.room ≡ marks.old.room }
    ensures far { marks.new.far ≡ marks.old.far }
{
    for &literal in literals {
        let negation = literal.negated();
        if marks.is_set(literal) || marks.is_set(negation) {
            return false;
        }
        marks.set(negation);
    }
    true
}

/// What the clause is under the marks.
fn look(marks: &Marks, clause: &[SLit]) -> Look
    requires { HasRoomFor marks.now clause.now }
    ensures value { result ≡ look marks.now.set clause.now }
    ensures within { LooksWithin marks.now result }
{
    let mut unset = None;
    for &literal in clause {
        if marks.is_set(literal.negated()) {
            continue;
        }
        if unset.is_some() || marks.is_set(literal) {
            return Look::Unresolved;
        }
        unset = Some(literal);
    }
    match unset {
        Some(literal) => Look::Propagates(literal),
        None => Look::Falsified,
    }
}

/// Whether each hint but the last is unit in its turn, and the last is false. The literals that the
/// units set stay set.
fn refutes(marks: &mut Marks, lines: &[LogLine], hints: &[u64]) -> bool
    requires { HasRoomForAll marks.old lines.now }
    ensures value { result ≡ refutes lines.now marks.old.set hints.now }
    ensures room { marks.new.room ≡ marks.old.room }
    ensures far { marks.new.far ≡ marks.old.far }
{
    for (i, &id) in hints.iter().enumerate() {
        let Some(clause) = clause_at(lines, id) else {
            return false;
        };
        match look(marks, clause) {
            Look::Falsified => return i + 1 == hints.len(),
            Look::Propagates(literal) => marks.set(literal),
            Look::Unresolved => return false,
        }
    }
    false
}

/// Whether the line is accepted after these lines. What is set on the way stays set.
fn follows(marks: &mut Marks, lines: &[LogLine], line: &LogLine) -> bool
    requires clear { marks.old.set ≡ [] }
    requires line { HasRoomFor marks.old line.now.lits }
    requires lines { HasRoomForAll marks.old lines.now }
    ensures value { result ≡ accepts lines.now line.now }
    ensures room { marks.new.room ≡ marks.old.room }
    ensures far { marks.new.far ≡ marks.old.far }
{
    assume_false(marks, line.lits.as_slice()) && refutes(marks, lines, line.hints.as_slice())
}

/// Whether the line is accepted after these lines. The marks are clear afterwards, as before.
pub(crate) fn accepts_line(lines: &[LogLine], line: &LogLine, marks: &mut Marks) -> bool
    requires clear { marks.old.set ≡ [] }
    requires line { HasRoomFor marks.old line.now.lits }
    requires lines { HasRoomForAll marks.old lines.now }
    ensures answer { IsTrue result ↔ Accepts lines.now line.now }
    ensures marks { marks.new ≡ marks.old }
{
    let accepted = follows(marks, lines, line);
    marks.clear();
    accepted
}

/// Whether no variable stands twice among the literals. The marks are clear afterwards, as before.
pub(crate) fn is_distinct(literals: &[SLit], marks: &mut Marks) -> bool
    requires clear { marks.old.set ≡ [] }
    requires room { HasRoomFor marks.old literals.now }
    ensures value { result ≡ can_assume [] literals.now }
    ensures marks { marks.new ≡ marks.old }
{
    let distinct = assume_false(marks, literals);
    marks.clear();
    distinct
}
