ghost use Rattle.std.specs.Prelude.{◌≡◌, ◌≢◌, ◌++◌, ◌∷◌, ◌↔◌, ◌<◌, ◌^◌, [], Err, length, map, take, IsTrue, IfOk, OnOk, OnErr};
ghost use Rattle.std.specs.Option.{option_copied};
ghost use Rattle.sat_log.specs.Clause.{HasDistinctVariables};
ghost use Rattle.sat_log.specs.Accepted.{Accepts, IsOriginal, IsOfKind, IsLog, line_at, clause_at, originals};
ghost use Rattle.sat_log.specs.Checking.{IsUpTo, AreUpTo, last_variable};
ghost use Rattle.sat_log.specs.Lines.{original, AreProper};
ghost use Rattle.sat_log.specs.declared.line.LineKind.TheVariants.{Original};

use crate::check::{accepts_line, clause_at, is_distinct, last_variable, line_at};
use crate::line::count_originals;
use crate::{Ids, LineKind, LogLine, Marks, SLit, SLits};
use std::alloc::{AllocError, AllocFailed, Global};
use std::marker::Model;

/// Why a line was not appended.
#[derive(Debug, Drop)]
pub enum AppendFault {
    /// The log doesn't accept it.
    NotAccepted,
    /// Memory was refused.
    NoMemory(AllocError),
}

impl From<AllocError> for AppendFault {
    ghost use Rattle.std.specs.Prelude.{◌≡◌};
    ghost use Rattle.sat_log.specs.declared.log.AppendFault.TheVariants.{NoMemory};

    ghost from_gives = { λ e f. f ≡ NoMemory e };

    fn from(error: AllocError) -> AppendFault {
        AppendFault::NoMemory(error)
    }
}

impl<T: Drop> From<AllocFailed<T>> for AppendFault {
    ghost use Rattle.std.specs.Prelude.{◌≡◌, alloc_error};
    ghost use Rattle.sat_log.specs.declared.log.AppendFault.TheVariants.{NoMemory};

    ghost from_gives = { λ _ f. f ≡ NoMemory alloc_error };

    fn from(_error: AllocFailed<T>) -> AppendFault {
        AppendFault::NoMemory(AllocError)
    }
}

/// Up to which variable a log of so many lines has the marks of a variable at its number. The table
/// of those marks is thus as long as the log, but for a fixed length, however great the variables
/// are.
fn near_limit(lines: usize) -> u64 {
    (lines as u64).saturating_mul(2).saturating_add(1 << 16)
}

/// A log of clauses: originals, and lines of which each follows from the clauses before it, which
/// was checked when it was appended. Lines have ids from 1.
#[derive(Debug, Drop)]
pub struct Log {
    alloc: Global,
    lines: Vec<LogLine>,
    /// They are clear, and have room for the variables of the lines.
    marks: Marks,
    /// The greatest variable of the lines, or 0.
    last: u64,
}

impl Model for Log {
    ghost use Rattle.std.specs.Prelude.{List};
    ghost use Rattle.sat_log.specs.Lines.{KeepsLog};
    ghost use Rattle.sat_log.specs.declared.line.LogLine.{LogLine};

    ghost Value = { List LogLine };

    ghost view = { λ l. l.lines.items };

    ghost invariant = { λ l. KeepsLog l.lines.items l.marks l.last };
}

impl Log {
    /// A log without lines.
    ///
    /// # Errors
    ///
    /// `AllocError` where memory is refused.
    pub fn new(alloc: Global) -> Result<Log, AllocError>
        ensures { IfOk result (λ log. log ≡ []) }
    {
        Ok(Log {
            alloc,
            lines: Vec::new(alloc),
            marks: Marks::new(alloc, 0)?,
            last: 0,
        })
    }

    /// Adds an original clause, and answers its id.
    ///
    /// # Errors
    ///
    /// `AllocError` where memory is refused; the log stays as it was.
    pub fn add_original(&mut self, lits: &SLits) -> Result<u64, AllocError>
        requires nonempty { lits.now ≢ [] }
        requires distinct { HasDistinctVariables lits.now }
        ensures ok { OnOk result (self.new ≡ self.old ++ original lits.now ∷ []) }
        ensures id { IfOk result (λ id. id ≡ length self.new) }
        ensures err { OnErr result (self.new ≡ self.old) }
    {
        let line = LogLine {
            kind: LineKind::Original,
            lits: lits.copy(self.alloc)?,
            hints: Ids::new(self.alloc),
        };
        let limit = near_limit(self.lines.len());
        self.marks.make_room_for(line.lits.as_slice(), limit)?;
        let last = last_variable(line.lits.as_slice()).max(self.last);
        self.lines.push(line)?;
        self.last = last;
        Ok(self.lines.len() as u64)
    }

    /// Adds original clauses in their order: all of them, or none.
    ///
    /// # Errors
    ///
    /// `AllocError` where memory is refused; the log stays as it was.
    pub fn add_originals(&mut self, clauses: &[SLits]) -> Result<(), AllocError>
        requires { AreProper clauses.now }
        ensures ok { OnOk result (self.new ≡ self.old ++ map original clauses.now) }
        ensures err { OnErr result (self.new ≡ self.old) }
    {
        let (count, last) = (self.lines.len(), self.variables());
        for clause in clauses {
            if let Err(error) = self.add_original(clause) {
                self.take_back(count, last);
                return Err(error);
            }
        }
        Ok(())
    }

    /// Takes all lines away but the first ones, in which this is the greatest variable.
    fn take_back(&mut self, count: usize, last: u64)
        requires { last ≡ last_variable (take count self.old) }
        ensures { self.new ≡ take count self.old }
    {
        self.lines.truncate(count);
        self.last = last;
    }

    /// Appends a conflict line or a final line if the log accepts it, and answers its id.
    ///
    /// # Errors
    ///
    /// `NotAccepted` exactly where the log doesn't accept the line, and `NoMemory` where memory is
    /// refused; the log stays as it was.
    pub fn append(&mut self, line: LogLine) -> Result<u64, AppendFault>
        requires { line.kind ≢ Original }
        ensures accepted { OnOk result (Accepts self.old line) }
        ensures refused { result ≡ Err AppendFault.NotAccepted → ¬ Accepts self.old line }
        ensures ok { OnOk result (self.new ≡ self.old ++ line ∷ []) }
        ensures id { IfOk result (λ id. id ≡ length self.new) }
        ensures err { OnErr result (self.new ≡ self.old) }
    {
        let limit = near_limit(self.lines.len());
        self.marks.make_room_for(line.lits.as_slice(), limit)?;
        if !accepts_line(self.lines.as_slice(), &line, &mut self.marks) {
            return Err(AppendFault::NotAccepted);
        }
        let last = last_variable(line.lits.as_slice()).max(self.last);
        self.lines.push(line)?;
        self.last = last;
        Ok(self.lines.len() as u64)
    }

    /// Appends an original line if it is one: it has a literal, no variable twice, and no hint.
    fn append_original(&mut self, line: LogLine) -> Result<u64, AppendFault>
        requires { line.kind ≡ Original }
        ensures original { OnOk result (IsOriginal line) }
        ensures refused { result ≡ Err AppendFault.NotAccepted → ¬ IsOriginal line }
        ensures ok { OnOk result (self.new ≡ self.old ++ line ∷ []) }
        ensures id { IfOk result (λ id. id ≡ length self.new) }
        ensures err { OnErr result (self.new ≡ self.old) }
    {
        if line.lits.len() == 0 || line.hints.len() > 0 {
            return Err(AppendFault::NotAccepted);
        }
        let limit = near_limit(self.lines.len());
        self.marks.make_room_for(line.lits.as_slice(), limit)?;
        if !is_distinct(line.lits.as_slice(), &mut self.marks) {
            return Err(AppendFault::NotAccepted);
        }
        let last = last_variable(line.lits.as_slice()).max(self.last);
        self.lines.push(line)?;
        self.last = last;
        Ok(self.lines.len() as u64)
    }

    /// Appends a line of any kind if it may come next, and answers its id. An original may where it
    /// has a literal, no variable twice and no hint, and another line where the log accepts it.
    ///
    /// # Errors
    ///
    /// `NotAccepted` exactly where the line may not come next, and `NoMemory` where memory is
    /// refused; the log stays as it was.
    pub fn extend(&mut self, line: LogLine) -> Result<u64, AppendFault>
        ensures accepted { OnOk result (IsOfKind line.kind self.old line) }
        ensures refused { result ≡ Err AppendFault.NotAccepted →
            ¬ IsOfKind line.kind self.old line }
        ensures ok { OnOk result (self.new ≡ self.old ++ line ∷ []) }
        ensures id { IfOk result (λ id. id ≡ length self.new) }
        ensures err { OnErr result (self.new ≡ self.old) }
    {
        match line.kind {
            LineKind::Original => self.append_original(line),
            LineKind::Conflict => self.append(line),
            LineKind::Final => self.append(line),
        }
    }

    /// The line of this id, if there is one.
    pub fn line(&self, id: u64) -> Option<&LogLine>
        ensures { option_copied result ≡ line_at self.now id }
    {
        line_at(self.lines.as_slice(), id)
    }

    /// The clause that a hint to this id means: that of an original or of a conflict line.
    pub fn clause(&self, id: u64) -> Option<&[SLit]>
        ensures { option_copied result ≡ clause_at self.now id }
    {
        clause_at(self.lines.as_slice(), id)
    }

    /// The lines, in the order of their ids.
    pub fn lines(&self) -> &[LogLine]
        ensures { result.now ≡ self.now }
    {
        self.lines.as_slice()
    }

    /// How many lines there are.
    pub fn count(&self) -> u64
        ensures count { result ≡ length self.now }
        ensures small { result < 2 ^ 63 }
        ensures log { IsLog self.now }
    {
        self.lines.len() as u64
    }

    /// How many of its lines are originals.
    pub fn count_originals(&self) -> u64
        ensures { result ≡ length (originals self.now) }
    {
        count_originals(self.lines.as_slice())
    }

    /// The greatest variable of the log, or 0: marks that check a line need room up to it.
    pub fn variables(&self) -> u64
        ensures greatest { result ≡ last_variable self.now }
        ensures within { AreUpTo result self.now }
    {
        self.last
    }
}

/// Whether the log accepts a conflict line or a final line. It takes no memory, and costs the
/// literals of the line and of the clauses that its hints name.
pub fn accepts(log: &Log, line: &LogLine, marks: &mut Marks) -> bool
    requires clear { marks.old.set ≡ [] }
    requires line { IsUpTo marks.old.room line.now.lits }
    requires log { AreUpTo marks.old.room log.now }
    ensures answer { IsTrue result ↔ Accepts log.now line.now }
    ensures marks { marks.new ≡ marks.old }
{
    accepts_line(log.lines.as_slice(), line, marks)
}
