//! What a session writes.
ghost use Rattle.std.specs.Prelude.{◌≡◌, ◌<◌};

use outside::{MemFiles, MemSink, MemSource, Text, Words};
use shell::run_shell;
use std::alloc::{AllocError, Global};
use std::marker::Brand;
use std::sync::ledger::{Blank, Ledger};
use step_count::Steps;

/// A model of one variable, which is false at first and then changes at each step.
pub(crate) const TOGGLE: &str = "MODULE main\nVAR x : boolean;\nINIT !x\nTRANS next(x) = !x\n";

/// Two states of a trace, and the begin of a third.
pub(crate) const TWO_STATES: &str =
    "-> State: 1.1 <-\nx = FALSE\n-> State: 1.2 <-\nx = TRUE\n-> State: 1.3 <-\n";

pub(crate) fn text(alloc: Global, bytes: &str) -> Result<Text, AllocError> {
    Text::from_slice(alloc, bytes.as_bytes())
}

/// The words of a line, cut at blanks.
fn words_of(alloc: Global, line: &[u8]) -> Result<Words, AllocError> {
    let mut words = Words::new(alloc);
    let mut word = Text::new(alloc);
    for byte in line {
        if *byte != b' ' {
            word.push(*byte)?;
        } else {
            words.push(word)?;
            word = Text::new(alloc);
        }
    }
    if !word.as_slice().is_empty() {
        words.push(word)?;
    }
    Ok(words)
}

/// The files of a session: a model in `m.smv`, a script in `s`, a trace or a log in `t`.
fn files_of(
    alloc: Global,
    model: &[u8],
    script: &[u8],
    trace: &[u8],
    fails: &[u64],
) -> Result<MemFiles, AllocError> {
    let mut files = MemFiles::new(alloc, fails)?;
    files.put(&text(alloc, "m.smv")?, model)?;
    files.put(&text(alloc, "s")?, script)?;
    files.put(&text(alloc, "t")?, trace)?;
    Ok(files)
}

/// What a session writes on these objects, with steps counted in this ledger.
fn session<L: Ledger>(
    alloc: Global,
    words: &Words,
    files: &mut MemFiles,
    input: &mut MemSource,
    out: &mut MemSink,
    err: &mut MemSink,
    blank: Blank,
) -> Result<Text, AllocError>
    requires name { blank.name ≡ L.name }
    requires parts { blank.parts ≡ L.parts }
    requires some { 0 < blank.parts }
{
    let mut steps: Steps<L> = Steps::new(blank);
    let status = run_shell(alloc, words, input, files, out, err, &mut steps);
    let mut said = Text::new(alloc);
    said.extend(out.bytes())?;
    said.extend(err.bytes())?;
    said.push(b'0'.saturating_add(status))?;
    Ok(said)
}

/// What a session on these objects writes: its output, its refusals, and its status as a digit.
pub(crate) fn said_on(
    alloc: Global,
    words: &[u8],
    files: &mut MemFiles,
    input: &mut MemSource,
    out: &mut MemSink,
    err: &mut MemSink,
) -> Result<Text, AllocError> {
    let words = words_of(alloc, words)?;
    session::<Brand>(alloc, &words, files, input, out, err, Blank::new(1))
}

/// The same of a session on this input, with a model in `m.smv`, a script in `s`, and a trace or a
/// log in `t`.
pub(crate) fn said(
    alloc: Global,
    words: &[u8],
    model: &[u8],
    script: &[u8],
    trace: &[u8],
    input: &[u8],
) -> Result<Text, AllocError> {
    let mut files = files_of(alloc, model, script, trace, &[])?;
    let mut input = MemSource::new(alloc, input, &[])?;
    let mut out = MemSink::new(alloc, 10_000, &[])?;
    let mut err = MemSink::new(alloc, 10_000, &[])?;
    said_on(alloc, words, &mut files, &mut input, &mut out, &mut err)
}

/// What a session without a model and files writes on this input.
pub(crate) fn answer(alloc: Global, input: &str) -> Result<Text, AllocError> {
    said(alloc, b"", b"", b"", b"", input.as_bytes())
}
