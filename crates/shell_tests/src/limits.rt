//! Limits of lines, files, aliases and scripts.
use crate::said::{answer, said, text};
use outside::Text;
use std::alloc::{AllocError, Global};

/// This many of a text.
fn repeated(alloc: Global, one: &str, count: usize) -> Result<Text, AllocError> {
    let mut all = Text::new(alloc);
    for _ in 0..count {
        all.extend(one.as_bytes())?;
    }
    Ok(all)
}

#[test]
fn reads_lines_to_their_limit(rt: HostRuntime) -> Result<(), AllocError> {
    let alloc = rt.alloc();
    let line = repeated(alloc, "a", 65_537)?;
    let said = said(alloc, b"", b"", b"", b"", line.as_slice())?;
    assert!(rt; said.as_slice() == b"error 802: line longer than 65536 bytes\n3".as_slice());
    Ok(())
}

#[test]
fn reads_a_line_of_the_most_bytes(rt: HostRuntime) -> Result<(), AllocError> {
    let alloc = rt.alloc();
    let mut line = text(alloc, "#")?;
    line.extend(repeated(alloc, "a", 65_535)?.as_slice())?;
    line.extend(b"\necho b")?;
    let said = said(alloc, b"", b"", b"", b"", line.as_slice())?;
    assert!(rt; said.as_slice() == b"b\n0".as_slice());
    Ok(())
}

#[test]
fn drops_the_oldest_line(rt: HostRuntime) -> Result<(), AllocError> {
    let alloc = rt.alloc();
    let mut lines = text(alloc, "echo a\n")?;
    lines.extend(repeated(alloc, "set b\n", 9_999)?.as_slice())?;
    // The first of these is line 10001, which drops line 1.
    lines.extend(b"!1\n!1\n!2 c\necho $b")?;
    let said = said(alloc, b"", b"", b"", b"", lines.as_slice())?;
    assert!(rt; said.as_slice() == b"a\na\nc\nerror 633: no such event\n0".as_slice());
    Ok(())
}

/// Lines that write this many scripts, of which each runs the one before it, and run the last.
fn nested(alloc: Global, count: u32) -> Result<Text, AllocError> {
    let mut lines = text(alloc, "echo -o x echo a\n")?;
    let mut last = text(alloc, "x")?;
    for _ in 1..count {
        lines.extend(b"echo -o x")?;
        lines.extend(last.as_slice())?;
        lines.extend(b" source ")?;
        lines.extend(last.as_slice())?;
        lines.push(b'\n')?;
        last.push(b'x')?;
    }
    lines.extend(b"source ")?;
    lines.extend(last.as_slice())?;
    Ok(lines)
}

#[test]
fn nests_sixteen_scripts(rt: HostRuntime) -> Result<(), AllocError> {
    let alloc = rt.alloc();
    let most = said(alloc, b"", b"", b"", b"", nested(alloc, 16)?.as_slice())?;
    assert!(rt; most.as_slice() == b"a\n0".as_slice());
    let more = said(alloc, b"", b"", b"", b"", nested(alloc, 17)?.as_slice())?;
    assert!(rt; more.as_slice() == b"error 634: more than 16 scripts are nested\n0".as_slice());
    Ok(())
}

#[test]
fn reads_a_million_lines(rt: HostRuntime) -> Result<(), AllocError> {
    let alloc = rt.alloc();
    let lines = repeated(alloc, "\n", 1_000_000)?;
    let all = said(alloc, b"", b"", b"", b"", lines.as_slice())?;
    assert!(rt; all.as_slice() == b"0".as_slice());
    let mut more = lines;
    more.extend(b"echo a")?;
    let refused = said(alloc, b"", b"", b"", b"", more.as_slice())?;
    assert!(rt; refused.as_slice() == b"error 803: more than 1000000 lines\n3".as_slice());
    Ok(())
}

#[test]
fn reads_files_to_their_limit(rt: HostRuntime) -> Result<(), AllocError> {
    let alloc = rt.alloc();
    let long = repeated(alloc, "-- a comment of 16\n", 220_753)?;
    let said = said(alloc, b"m.smv", long.as_slice(), b"", b"", b"read_model")?;
    assert!(rt; said.as_slice() == b"error 648: m.smv: longer than 4194304 bytes\n0".as_slice());
    Ok(())
}

#[test]
fn keeps_a_thousand_aliases(rt: HostRuntime) -> Result<(), AllocError> {
    let alloc = rt.alloc();
    let mut script = text(alloc, "")?;
    for number in 0..1_001u32 {
        script.extend(b"alias a")?;
        for place in [1_000, 100, 10, 1] {
            script.push(b'0' + (number / place % 10) as u8)?;
        }
        script.extend(b" quit\n")?;
    }
    let said = said(
        alloc,
        b"",
        b"",
        script.as_slice(),
        b"",
        b"source s\nalias a0000 echo b; a0000",
    )?;
    assert!(rt; said.as_slice() == b"b\nerror 637: more than 1000 aliases\n0".as_slice());
    Ok(())
}
