//! A session line by line, and sessions over objects that never fail.
ghost use Rattle.std.specs.Prelude.{◌≡◌, ◌+◌, ◌<◌, ◌≤◌};

use crate::said::text;
use outside::{MemFiles, MemSink, SoundFiles, SoundSource, Text, Words};
use shell::{Next, Session, run_sound};
use std::alloc::{AllocError, Global};
use std::marker::Brand;
use std::sync::ledger::{Blank, Ledger};
use step_count::Steps;

/// What comes of a line, on files that are empty.
fn step<L: Ledger>(
    alloc: Global,
    session: &mut Session,
    line: &str,
    out: &mut MemSink,
    steps: &mut Steps<L>,
) -> Result<Next, AllocError>
    requires { session.old.past.count < 1000000 }
    ensures { session.new.past.count ≤ session.old.past.count + 1 }
{
    let line = text(alloc, line)?;
    let mut files = MemFiles::new(alloc, &[])?;
    let mut err = MemSink::new(alloc, 100, &[])?;
    Ok(session.step_line(&line, &mut files, out, &mut err, steps))
}

/// Three lines: the session goes on, is refused, and stops.
fn three_lines<L: Ledger>(
    alloc: Global,
    out: &mut MemSink,
    blank: Blank,
) -> Result<[Next; 3], AllocError>
    requires name { blank.name ≡ L.name }
    requires parts { blank.parts ≡ L.parts }
    requires some { 0 < blank.parts }
{
    let mut steps: Steps<L> = Steps::new(blank);
    let mut session = Session::new(alloc)?;
    let went = step(
        alloc,
        &mut session,
        "set on_failure_script_quits; echo a",
        out,
        &mut steps,
    )?;
    let refused = step(alloc, &mut session, "nope", out, &mut steps)?;
    let quit = step(alloc, &mut session, "quit", out, &mut steps)?;
    Ok([went, refused, quit])
}

/// The same with steps that nobody reads.
fn stepped(alloc: Global, out: &mut MemSink) -> Result<[Next; 3], AllocError> {
    three_lines::<Brand>(alloc, out, Blank::new(1))
}

#[test]
fn steps_line_by_line(rt: HostRuntime) -> Result<(), AllocError> {
    let alloc = rt.alloc();
    let mut out = MemSink::new(alloc, 100, &[])?;
    let next = stepped(alloc, &mut out)?;
    assert!(rt; next == [Next::Go, Next::Stop(1), Next::Stop(0)]);
    assert!(rt; out.bytes() == b"a\n".as_slice());
    Ok(())
}

/// The status of a session over objects that never fail, on this input.
fn sound_status<L: Ledger>(alloc: Global, input: &Text, blank: Blank) -> Result<u8, AllocError>
    requires name { blank.name ≡ L.name }
    requires parts { blank.parts ≡ L.parts }
    requires some { 0 < blank.parts }
{
    let mut steps: Steps<L> = Steps::new(blank);
    let mut input = SoundSource::new(alloc, input.as_slice())?;
    let mut files = SoundFiles::new(alloc)?;
    let words = Words::new(alloc);
    Ok(run_sound(alloc, &words, &mut input, &mut files, &mut steps))
}

/// The same with steps that nobody reads.
fn status_on(alloc: Global, input: &str) -> Result<u8, AllocError> {
    let input = text(alloc, input)?;
    sound_status::<Brand>(alloc, &input, Blank::new(1))
}

#[test]
fn ends_well_over_objects_that_never_fail(rt: HostRuntime) -> Result<(), AllocError> {
    let alloc = rt.alloc();
    let rows = [
        ("echo a", 0),
        ("nope\nquit", 0),
        ("set on_failure_script_quits 1\nnope\nquit", 1),
    ];
    for (input, want) in rows {
        let status = status_on(alloc, input)?;
        assert!(rt; status == want, "{input}");
    }
    Ok(())
}
