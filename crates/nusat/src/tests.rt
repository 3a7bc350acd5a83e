use crate::files::SystemFiles;
use crate::sink::StreamSink;
use crate::source::StreamSource;
use outside::{Failed, FileFault, Files, Sink, Source, Text};
use std::io;
use std::io::{ErrorKind, Read, Write};

/// A device that gives no byte and takes none.
#[derive(Drop)]
struct Broken;

impl Read for Broken {
    fn read(&mut self, _buf: &mut [u8]) -> io::Result<usize> {
        Err(io::Error::from(ErrorKind::Other))
    }
}

impl Write for Broken {
    fn write(&mut self, _bytes: &[u8]) -> io::Result<usize> {
        Ok(0)
    }

    fn flush(&mut self) -> io::Result<()> {
        Ok(())
    }
}

#[test]
fn reads_files(rt: HostRuntime) -> io::Result<()> {
    let alloc = rt.alloc();
    let mut files = SystemFiles::new(&rt);
    // The second has no end: it is read no further than the limit and one byte.
    let rows: [(&[u8], &str); 4] = [
        ("no/such/file".as_bytes(), "not there"),
        ("/dev/zero".as_bytes(), "too long"),
        ([255u8].as_slice(), "failed"),
        ("/dev/null".as_bytes(), "read"),
    ];
    for (name, want) in rows {
        let name = Text::from_slice(alloc, name)?;
        let found = match files.read_all(alloc, &name, 3) {
            Ok(_) => "read",
            Err(FileFault::NotThere) => "not there",
            Err(FileFault::TooLong(_)) => "too long",
            Err(FileFault::Failed) => "failed",
            Err(FileFault::NoMemory(_)) => "no memory",
        };
        assert_eq!(rt; found, want);
    }
    let full = Text::from_slice(alloc, "/dev/full".as_bytes())?;
    let written = files.write_all(alloc, &full, "ab".as_bytes());
    assert!(rt; matches!(&written, Err(FileFault::Failed)));
    Ok(())
}

#[test]
fn counts_faults_of_streams(rt: HostRuntime) -> io::Result<()> {
    let alloc = rt.alloc();
    let mut sink = StreamSink::new(alloc, Broken, true)?;
    let taken = sink.write("a\n".as_bytes());
    assert!(rt; taken == Err(Failed));
    let mut broken = StreamSource::new(alloc, Broken)?;
    let mut piece = [0u8; 2];
    let read = broken.read(&mut piece);
    assert!(rt; read == Err(Failed));
    let mut source = StreamSource::new(alloc, "abc".as_bytes())?;
    let first = source.read(&mut piece);
    assert!(rt; first == Ok(2));
    assert!(rt; piece == [97u8, 98]);
    Ok(())
}
