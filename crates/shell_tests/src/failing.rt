//! Objects that fail: which events are written, and with which status a session ends.
use crate::said::{TOGGLE, said_on, text};
use outside::{MemFiles, MemSink, MemSource, Text};
use std::alloc::{AllocError, Global};

/// What a session writes where these calls of the files, the input and the two sinks fail, and where
/// the output has this room.
fn said_failing(
    alloc: Global,
    lines: &[u8],
    room: usize,
    fails: [&[u64]; 4],
) -> Result<Text, AllocError> {
    let [file_fails, input_fails, out_fails, err_fails] = fails;
    let mut files = MemFiles::new(alloc, file_fails)?;
    files.put(&text(alloc, "m.smv")?, TOGGLE.as_bytes())?;
    let mut input = MemSource::new(alloc, lines, input_fails)?;
    let mut out = MemSink::new(alloc, room, out_fails)?;
    let mut err = MemSink::new(alloc, 10_000, err_fails)?;
    said_on(alloc, b"", &mut files, &mut input, &mut out, &mut err)
}

#[test]
fn stops_where_an_object_fails(rt: HostRuntime) -> Result<(), AllocError> {
    let alloc = rt.alloc();
    let said = said_failing(
        alloc,
        b"echo hello; echo world wide\necho c",
        10,
        [&[], &[], &[], &[]],
    )?;
    assert!(rt; said.as_slice() == b"hello\nworl4".as_slice());
    // The first event that is refused a write ends the session, and the other sink gets nothing more.
    let said = said_failing(alloc, b"echo a\nnope\necho b", 99, [&[], &[], &[1], &[]])?;
    assert!(rt; said.as_slice() == b"4".as_slice());
    let said = said_failing(alloc, b"echo a\nnope\necho b", 99, [&[], &[], &[], &[1]])?;
    assert!(rt; said.as_slice() == b"a\n4".as_slice());
    Ok(())
}

#[test]
fn says_where_an_input_or_a_file_fails(rt: HostRuntime) -> Result<(), AllocError> {
    let alloc = rt.alloc();
    let said = said_failing(alloc, b"echo a", 99, [&[], &[1], &[], &[]])?;
    assert!(rt; said.as_slice() == b"error 801: the input failed\n3".as_slice());
    let lines = b"read_model -i m.smv\nread_model -i m.smv\necho a";
    let said = said_failing(alloc, lines, 99, [&[1], &[], &[], &[]])?;
    assert!(rt; said.as_slice() == b"a\nerror 647: m.smv: file fault\n0".as_slice());
    let said = said_failing(alloc, b"echo -o w a\necho b", 99, [&[1], &[], &[], &[]])?;
    assert!(rt; said.as_slice() == b"b\nerror 647: w: file fault\n0".as_slice());
    Ok(())
}
