ghost use Rattle.std.specs.Prelude.{◌≡◌, ◌≤◌, length, option_to_list};
ghost use Rattle.sat_log.specs.Accepted.{given, originals};

use crate::{Ids, SLits};

/// What a line of a log is.
#[derive(Clone, Copy, Debug, PartialEq, Eq)]
pub enum LineKind {
    /// A clause that was given.
    Original,
    /// A clause that was learned from a conflict.
    Conflict,
    /// A clause over literals that were wanted: they cannot all be true.
    Final,
}

/// A line of a log: a clause, and the earlier lines from which it follows, in the order in which
/// unit propagation goes through them.
#[derive(Debug, Drop)]
pub struct LogLine {
    pub kind: LineKind,
    pub lits: SLits,
    pub hints: Ids,
}

/// How many original clauses a line gives.
fn originals_of(line: &LogLine) -> u64
    ensures value { result ≡ length (option_to_list (given line.now.kind line.now.lits)) }
    ensures one { result ≤ 1 }
{
    match line.kind {
        LineKind::Original => 1,
        LineKind::Conflict | LineKind::Final => 0,
    }
}

/// How many original clauses the lines give.
pub(crate) fn count_originals(lines: &[LogLine]) -> u64
    ensures { result ≡ length (originals lines.now) }
{
    let mut count = 0;
    for line in lines {
        count += originals_of(line);
    }
    count
}
