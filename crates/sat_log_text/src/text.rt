ghost use Rattle.std.specs.Prelude.{List, ◌⊎◌, ◌≡◌, length, min, Ok, Err, IfOk, IfErr};
ghost use Rattle.outside.specs.Calls.{Writes};
ghost use Rattle.sat_log.specs.Accepted.{IsLog};
ghost use Rattle.sat_log.specs.declared.line.LogLine.{LogLine};
ghost use Rattle.sat_log_text.specs.LogText.{text_of, IsTextOf};
ghost use Rattle.sat_log_text.specs.Answers.{IsAnswer, IsNoMemory};
ghost use Rattle.sat_log_text.specs.TextFault.{HasFault};
ghost use Rattle.sat_log_text.specs.declared.fault.LogFault.{LogFault};

use crate::LogFault;
use crate::read::read;
use crate::write::{log_len, put_log};
use outside::{Failed, Sink};
use sat_log::Log;
use std::alloc::Global;

/// How long the text of a log is, or 18446744073709551615 if it is longer.
pub fn text_len(log: &Log) -> u64
    ensures { result ≡ min (length (text_of log.now)) u64.MAX }
{
    log_len(log.lines())
}

/// Writes the text of a log.
///
/// # Errors
///
/// `Failed` after a fault of the sink; a front of the text was written then.
pub fn write_text<S: Sink>(log: &Log, out: &mut S) -> Result<(), Failed>
    ensures { Writes (text_of log.now) (S.told out.old) result (S.told out.new) }
{
    put_log(out, log.lines())
}

/// Reads a log from its text, and checks each of its lines.
///
/// # Errors
///
/// The first line with a fault decides, and in it the fault of the smallest number; `NoMemory` where
/// memory is refused.
pub fn read_text(alloc: Global, bytes: &[u8]) -> Result<Log, LogFault>
    ensures read { IfOk result (λ log. IsLog log × IsTextOf log bytes.now) }
    ensures log { (log : List LogLine) → IsLog log → IsTextOf log bytes.now → IsAnswer result (Ok log) }
    ensures refused { IfErr result (λ fault. IsNoMemory fault ⊎ HasFault bytes.now fault) }
    ensures fault { (fault : LogFault) → HasFault bytes.now fault → IsAnswer result (Err fault) }
    ensures written { (log : List LogLine) → IsLog log → bytes.now ≡ text_of log → IsAnswer result (Ok log) }
{
    match read(alloc, bytes) {
        Ok(log) => Ok(log),
        Err(fault) => Err(fault),
    }
}
