#![tactic(auto)]
//! The program: the words of the command line, the streams and the files of the system, handed to
//! the session of the shell.

ghost use Rattle.std.specs.Prelude.{◌≡◌, ◌<◌};

mod files;
mod retry;
mod sink;
mod source;
#[cfg(test)]
mod tests;

use files::SystemFiles;
use outside::{Text, Words, put_all};
use shell::{USAGE, run_shell};
use sink::StreamSink;
use source::StreamSource;
use std::alloc::Global;
use std::io::{ErrorKind, IsTerminal, Lock, Read, Write};
use std::marker::Brand;
use std::process::ExitCode;
use std::sync::ledger::{Blank, Ledger};
use std::{env, io, rt};
use step_count::Steps;

/// The status of a faulty command line.
const FAULTY_WORDS: u8 = 2;

/// The status of an output that failed.
const SINK_FAILED: u8 = 4;

/// The status of want of memory.
const NO_MEMORY: u8 = 5;

const OUT_OF_MEMORY: &[u8] = b"error 900: out of memory\n";

/// The words of the command line, without the program's name.
fn read_words<R: rt::Env + AllocGlobal>(system: &R) -> io::Result<Words> {
    let alloc = system.alloc();
    let mut words = Words::new(alloc);
    for arg in env::args(system)?.skip(1) {
        words.push(Text::from_slice(alloc, arg.as_bytes())?)?;
    }
    Ok(words)
}

/// Whether one of the words asks for prompts.
fn has_prompts(words: &Words) -> bool {
    for word in words.as_slice() {
        if word.as_slice() == b"-int".as_slice() {
            return true;
        }
    }
    false
}

/// Runs the session on these words and streams, and answers its status.
fn run<R: rt::Files + Drop, I: Read + Drop, O: Write + Drop, E: Write + Drop, L: Ledger>(
    alloc: Global,
    words: &Words,
    system: R,
    streams: (I, O, E),
    at_terminal: bool,
    blank: Blank,
) -> io::Result<u8>
    requires name { blank.name ≡ L.name }
    requires parts { blank.parts ≡ L.parts }
    requires some { 0 < blank.parts }
{
    let (input, out, err) = streams;
    let prompts = has_prompts(words);
    let mut input = StreamSource::new(alloc, input)?;
    let mut files = SystemFiles::new(system);
    let mut out = StreamSink::new(alloc, out, prompts)?;
    let mut err = StreamSink::new(alloc, err, true)?;
    let mut steps: Steps<L> = Steps::new(blank);
    let status = run_shell(
        alloc, words, &mut input, &mut files, &mut out, &mut err, &mut steps,
    );
    if status == SINK_FAILED {
        return Ok(status);
    }
    // Where Ctrl-D ends the input, the cursor stands behind a prompt.
    if at_terminal && prompts && input.has_ended() && put_all(&mut out, b"\n").is_err() {
        return Ok(SINK_FAILED);
    }
    Ok(match out.flush() {
        Ok(()) => status,
        Err(_) => SINK_FAILED,
    })
}

/// Runs the session, or says why it can't begin, and answers the status.
fn main(rt: HostRuntime) -> ExitCode {
    let alloc = rt.alloc();
    let at_terminal = rt.stdin().is_terminal();
    let streams = (rt.stdin().lock(), rt.stdout().lock(), rt.stderr().lock());
    let status = match read_words(&rt) {
        Ok(words) => run::<_, _, _, _, Brand>(
            alloc,
            &words,
            &rt,
            streams,
            at_terminal,
            Blank::new(1),
        ),
        Err(e) => Err(e),
    };
    ExitCode::from(match status {
        Ok(status) => status,
        Err(e) => refuse(&mut rt.stderr(), e.kind()),
    })
}

/// Writes why no session begins: a word is no text, or memory is refused.
fn refuse<W: Write>(err: &mut W, why: ErrorKind) -> u8 {
    let (text, status) = if why == ErrorKind::InvalidData {
        (USAGE, FAULTY_WORDS)
    } else {
        (OUT_OF_MEMORY, NO_MEMORY)
    };
    match err.write_all(text) {
        Ok(()) => status,
        Err(_) => SINK_FAILED,
    }
}
