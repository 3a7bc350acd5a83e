use crate::{
    Failed, FileFault, Files, Line, LineFault, MemFiles, MemSink, MemSource, NullSink, SoundFiles,
    SoundSource, Source, Text, put_integer, put_number, put_parts, read_line,
};
use std::alloc::{AllocError, Global};

/// What three reads of a line find: each line with a semicolon, `E` for the end, `R` for a read
/// fault, `T` for a line that is too long.
fn three_lines<S: Source>(alloc: Global, source: &mut S, limit: usize) -> Result<Text, AllocError> {
    let mut found = Text::new(alloc);
    for _ in 0..3 {
        let letter = match read_line(alloc, source, limit) {
            Ok(Line::Line(line)) => {
                found.extend(line.as_slice())?;
                b';'
            }
            Ok(Line::End) => b'E',
            Err(LineFault::ReadFault) => b'R',
            Err(LineFault::TooLong) => b'T',
            Err(LineFault::NoMemory(e)) => return Err(e),
        };
        found.push(letter)?;
    }
    Ok(found)
}

#[test]
fn finds_lines(rt: HostRuntime) -> Result<(), AllocError> {
    let rows = [
        ("", 4, 0, "EEE"),
        ("ab\n", 4, 0, "ab;EE"),
        ("ab", 4, 0, "ab;EE"),
        ("\n\na", 4, 0, ";;a;"),
        ("abcd\n", 4, 0, "abcd;EE"),
        ("abcd", 4, 0, "abcd;EE"),
        ("abcde\nf\n", 4, 0, "T;f;"),
        ("\na", 0, 0, ";TE"),
        ("ab\n", 4, 2, "Rb;E"),
        ("", 4, 1, "REE"),
    ];
    for (bytes, limit, failing, want) in rows {
        let mut source = MemSource::new(rt.alloc(), bytes.as_bytes(), &[failing])?;
        let found = three_lines(rt.alloc(), &mut source, limit)?;
        assert!(rt; found.as_slice() == want.as_bytes(), "{bytes:?}");
    }
    Ok(())
}

#[test]
fn writes_what_fits(rt: HostRuntime) -> Result<(), AllocError> {
    let rows = [
        (9, 0, true, "abcd"),
        (4, 0, true, "abcd"),
        (3, 0, false, "abc"),
        (9, 2, false, "ab"),
        (0, 0, false, ""),
    ];
    for (capacity, failing, want_ok, want) in rows {
        let mut sink = MemSink::new(rt.alloc(), capacity, &[failing])?;
        let parts = ["ab".as_bytes(), "cd".as_bytes()];
        let ok = put_parts(&mut sink, &parts) != Err(Failed);
        assert_eq!(rt; ok, want_ok, "{want}");
        assert!(rt; sink.bytes() == want.as_bytes(), "{want}");
    }
    Ok(())
}

/// What a file holds, or a word for why it was not read.
fn content<F: Files>(
    alloc: Global,
    files: &mut F,
    name: &Text,
    limit: usize,
) -> Result<Text, AllocError> {
    let word = match files.read_all(alloc, name, limit) {
        Ok(bytes) => return Ok(bytes),
        Err(FileFault::NotThere) => "not there",
        Err(FileFault::TooLong(_)) => "too long",
        Err(FileFault::Failed) => "failed",
        Err(FileFault::NoMemory(e)) => return Err(e),
    };
    Text::from_slice(alloc, word.as_bytes())
}

#[test]
fn keeps_files(rt: HostRuntime) -> Result<(), AllocError> {
    let alloc = rt.alloc();
    let mut files = MemFiles::new(alloc, &[4])?;
    let name = Text::from_slice(alloc, "a".as_bytes())?;
    files.put(&name, "first".as_bytes())?;
    files.put(&name, "two".as_bytes())?;
    let other = Text::from_slice(alloc, "b".as_bytes())?;
    let rows = [
        (&name, 3, "two"),
        (&name, 2, "too long"),
        (&other, 3, "not there"),
        (&name, 3, "failed"),
        (&name, 3, "two"),
    ];
    for (which, limit, want) in rows {
        let found = content(alloc, &mut files, which, limit)?;
        assert!(rt; found.as_slice() == want.as_bytes(), "{want}");
    }
    Ok(())
}

#[test]
fn sound_objects_never_fail(rt: HostRuntime) -> Result<(), AllocError> {
    let alloc = rt.alloc();
    let mut source = SoundSource::new(alloc, "ab\nc".as_bytes())?;
    let found = three_lines(alloc, &mut source, 4)?;
    assert!(rt; found.as_slice() == "ab;c;E".as_bytes());
    let mut files = SoundFiles::new(alloc)?;
    let name = Text::from_slice(alloc, "a".as_bytes())?;
    assert!(rt; matches!(files.write_all(alloc, &name, "two".as_bytes()), Ok(())));
    let found = content(alloc, &mut files, &name, 3)?;
    assert!(rt; found.as_slice() == "two".as_bytes());
    assert!(rt; put_number(&mut NullSink, 7) == Ok(()));
    Ok(())
}

#[test]
fn writes_numbers_and_faults(rt: HostRuntime) -> Result<(), AllocError> {
    let mut sink = MemSink::new(rt.alloc(), 99, &[])?;
    let largest = put_number(&mut sink, u64::MAX);
    let least = put_integer(&mut sink, &i64::MIN);
    let fault = LineFault::TooLong;
    let number = put_number(&mut sink, u64::from(fault.number()));
    let text = fault.print_text(&mut sink);
    assert!(rt; largest.is_ok() && least.is_ok() && number.is_ok() && text.is_ok());
    let want = "18446744073709551615-9223372036854775808802line longer than 65536 bytes";
    assert!(rt; sink.bytes() == want.as_bytes());
    Ok(())
}
