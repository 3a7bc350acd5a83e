ghost use Rattle.std.specs.Prelude.{◌≡◌, IfOk};
ghost use Rattle.sat_log.specs.Checking.{IsUpTo};
ghost use Rattle.sat_log.specs.declared.line.LineKind.TheVariants.{Conflict};

use outside::{MemSink, Text, put_numbered};
use sat_log::{Ids, LineKind, LogLine, Marks, SLit, SLits, accepts};
use sat_log_text::{read_text, text_len, write_text};
use std::alloc::{AllocError, Global};
use std::test::Fail;

/// Room for what a test writes.
const ROOM: usize = 300;

/// What comes of a text: the text that its log writes, or the number and the text of its fault.
fn outcome(alloc: Global, text: &[u8]) -> Result<Text, AllocError> {
    let mut out = MemSink::new(alloc, ROOM, &[])?;
    match read_text(alloc, text) {
        Ok(log) => {
            let _written = write_text(&log, &mut out);
            if text_len(&log) != out.bytes().len() as u64 {
                return Text::from_slice(alloc, b"another length");
            }
        }
        Err(fault) => {
            let _number = put_numbered(&mut out, b"", fault.number() as u64, b": ");
            let _text = fault.print_text(&mut out);
        }
    }
    Text::from_slice(alloc, out.bytes())
}

#[test]
fn reads_logs_and_writes_them_again(rt: HostRuntime) -> Result<(), AllocError> {
    let alloc = rt.alloc();
    let rows = [
        "log 1\nend 0\n",
        "log 1\n1 o 1 2 0\n2 o 1 -2 0\n3 c 1 0 1 2 0\nend 3\n",
        "log 1\n1 o 1 0\n2 o -1 0\n3 c 0 1 2 0\nend 3\n",
        "log 1\n1 o 1 0\n2 o -1 0\n3 f 0 1 2 0\nend 3\n",
        "log 1\n1 o 1 0\n2 o -1 2 0\n3 f 2 0 1 2 0\n4 c 2 0 1 2 0\nend 4\n",
        "log 1\n1 o 5 4 3 2 1 -6 0\nend 1\n",
        "log 1\n1 o 9223372036854775807 0\n2 o -9223372036854775807 0\n3 c 0 2 1 0\nend 3\n",
        "log 1\n1 o 70000 -80000 0\n2 o 80000 3 0\n3 c 3 70000 0 1 2 0\nend 3\n",
    ];
    for text in rows {
        let text = text.as_bytes();
        assert_eq!(rt; outcome(alloc, text)?.as_slice(), text, "at {text:?}");
        let (front, _) = text.split_at(text.len().saturating_sub(1));
        assert_eq!(rt; outcome(alloc, front)?.as_slice(), text, "at {front:?}");
    }
    Ok(())
}

#[test]
fn names_the_first_fault(rt: HostRuntime) -> Result<(), AllocError> {
    let alloc = rt.alloc();
    let rows = [
        (
            "log 1\n1 o 1 2 0\n2 o 1 -2 0\n3 c 1 0 1 0\nend 3\n",
            "504: clause 3 is not accepted",
        ),
        (
            "log 1\n1 o 1 2 0\n2 o 1 -2 0\n3 c 1 0 1 2 0\n",
            "505: the log ends too early",
        ),
        (
            "log 1\n1 o 1 0\n2 o -1 0\n3 c 0 1 2 1 0\nend 3\n",
            "504: clause 3 is not accepted",
        ),
        (
            "log 1\n1 o 1 0\n2 o -1 0\n3 c 0 1 2\nend 3\n",
            "502: line 4: missing 0",
        ),
        (
            "log 1\n1 o 1 0\n2 o -1 0\n3 c 0 3 0\nend 3\n",
            "503: line 4: hint to no earlier clause",
        ),
        (
            "log 1\n1 o 1 0\n2 o -1 0\n3 q 0 1 2 0\nend 3\n",
            "501: line 4: bad number or word",
        ),
        // the first line of all, and the last
        ("", "501: line 1: bad number or word"),
        ("log 2\nend 0\n", "501: line 1: bad number or word"),
        ("log 1 \nend 0\n", "501: line 1: bad number or word"),
        ("log 1\r\nend 0\r\n", "501: line 1: bad number or word"),
        ("log 1", "505: the log ends too early"),
        ("log 1\n1 o 1 0\nend 2\n", "505: the log ends too early"),
        (
            "log 1\n1 o 1 0\nend 2\nmore\n",
            "505: the log ends too early",
        ),
        (
            "log 1\n1 o 1 0\nend 1\n\n",
            "501: line 4: bad number or word",
        ),
        (
            "log 1\n1 o 1 0\nend 1\n2 o 1 0\n",
            "501: line 4: bad number or word",
        ),
        (
            "log 1\n1 o 1 0\nend 1 \n",
            "501: line 3: bad number or word",
        ),
        (
            "log 1\n1 o 1 0\nend 01\n",
            "501: line 3: bad number or word",
        ),
        ("log 1\n1 o 1 0\nend\n", "501: line 3: bad number or word"),
        // ids and letters
        ("log 1\n\nend 0\n", "501: line 2: bad number or word"),
        ("log 1\n1\nend 1\n", "501: line 2: bad number or word"),
        ("log 1\n2 o 1 0\nend 1\n", "501: line 2: bad number or word"),
        (
            "log 1\n01 o 1 0\nend 1\n",
            "501: line 2: bad number or word",
        ),
        (
            "log 1\n1 o 1 0\n1 o 2 0\nend 2\n",
            "501: line 3: bad number or word",
        ),
        (
            "log 1\n1 oo 1 0\nend 1\n",
            "501: line 2: bad number or word",
        ),
        // lists
        ("log 1\n1 o\nend 1\n", "502: line 2: missing 0"),
        ("log 1\n1 o 1\nend 1\n", "502: line 2: missing 0"),
        ("log 1\n1 o 1 0\n2 c 1 0\nend 2\n", "502: line 3: missing 0"),
        ("log 1\n1 o 1 x\nend 1\n", "501: line 2: bad number or word"),
        (
            "log 1\n1 o 1  0\nend 1\n",
            "501: line 2: bad number or word",
        ),
        (
            "log 1\n1 o 1 0 \nend 1\n",
            "501: line 2: bad number or word",
        ),
        (
            "log 1\n1 o 1 0 0\nend 1\n",
            "501: line 2: bad number or word",
        ),
        (
            "log 1\n1 o 1 0\n2 c 0 1 0 0\nend 2\n",
            "501: line 3: bad number or word",
        ),
        // clauses
        ("log 1\n1 o 0\nend 1\n", "504: clause 1 is not accepted"),
        ("log 1\n1 o 1 1 0\nend 1\n", "504: clause 1 is not accepted"),
        (
            "log 1\n1 o 1 -1 0\nend 1\n",
            "504: clause 1 is not accepted",
        ),
        (
            "log 1\n1 o 1 0\n2 c 1 0 0\nend 2\n",
            "504: clause 2 is not accepted",
        ),
        (
            "log 1\n1 o 1 0\n2 o -1 0\n3 c 0 2 1 2 0\nend 3\n",
            "504: clause 3 is not accepted",
        ),
        (
            "log 1\n1 o 1 0\n2 o -1 0\n3 f 0 1 2 0\n4 c 0 3 0\nend 4\n",
            "503: line 5: hint to no earlier clause",
        ),
    ];
    for (text, fault) in rows {
        assert_eq!(rt;
            outcome(alloc, text.as_bytes())?.as_slice(),
            fault.as_bytes(),
            "at {text}"
        );
    }
    Ok(())
}

#[test]
fn bounds_its_numbers(rt: HostRuntime) -> Result<(), AllocError> {
    let alloc = rt.alloc();
    let rows = [
        (
            "log 1\n1 o -0 0\nend 1\n",
            "501: line 2: bad number or word",
        ),
        (
            "log 1\n1 o 01 0\nend 1\n",
            "501: line 2: bad number or word",
        ),
        (
            "log 1\n1 o -01 0\nend 1\n",
            "501: line 2: bad number or word",
        ),
        (
            "log 1\n1 o 9223372036854775808 0\nend 1\n",
            "501: line 2: bad number or word",
        ),
        (
            "log 1\n1 o -9223372036854775808 0\nend 1\n",
            "501: line 2: bad number or word",
        ),
        (
            "log 1\n1 o 1 0\n2 c 0 9223372036854775807 0\nend 2\n",
            "503: line 3: hint to no earlier clause",
        ),
        (
            "log 1\n1 o 1 0\n2 c 0 9223372036854775808 0\nend 2\n",
            "501: line 3: bad number or word",
        ),
        (
            "log 1\n1 o 1 0\n2 c 0 -1 0\nend 2\n",
            "501: line 3: bad number or word",
        ),
        (
            "log 1\n1 o 1 0\nend 9223372036854775807\n",
            "505: the log ends too early",
        ),
        (
            "log 1\n1 o 1 0\nend 9223372036854775808\n",
            "501: line 3: bad number or word",
        ),
    ];
    for (text, fault) in rows {
        assert_eq!(rt;
            outcome(alloc, text.as_bytes())?.as_slice(),
            fault.as_bytes(),
            "at {text}"
        );
    }
    Ok(())
}

/// The conflict line of the literal 2 with these two hints.
fn unit(alloc: Global, first: u64, second: u64) -> Result<LogLine, AllocError>
    ensures kind { IfOk result (λ line. line.kind ≡ Conflict) }
    ensures last { IfOk result (λ line. IsUpTo 2 line.lits) }
{
    Ok(LogLine {
        kind: LineKind::Conflict,
        lits: SLits::from_slice(alloc, &[SLit::new(2, false)])?,
        hints: Ids::from_slice(alloc, &[first, second])?.copy(alloc)?,
    })
}

#[test]
fn takes_what_it_accepts(rt: HostRuntime) -> Result<(), Fail> {
    let alloc = rt.alloc();
    let text = "log 1\n1 o 1 2 0\n2 o -1 0\nend 2\n";
    let mut log = read_text(alloc, text.as_bytes())?;
    assert_eq!(rt; log.variables(), 2);
    let mut marks = Marks::new(alloc, 2)?;
    assert!(rt; !accepts(&log, &unit(alloc, 1, 1)?, &mut marks));
    assert!(rt; accepts(&log, &unit(alloc, 2, 1)?, &mut marks));
    assert!(rt; log.append(unit(alloc, 1, 1)?).is_err());
    assert!(rt; log.append(unit(alloc, 2, 1)?).is_ok());
    assert_eq!(rt; log.count(), 3);
    assert_eq!(rt; log.count_originals(), 2);
    assert_eq!(rt; text_len(&log), 45);
    assert!(rt; log.line(3).is_some());
    assert!(rt; log.line(4).is_none());
    Ok(())
}
