use crate::texts::seen;
use smv_parse::parse_model;
use std::alloc::Global;
use std::test::Fail;

/// The number and the place of the fault of a program, or zeros.
fn fault(alloc: Global, text: &[u8]) -> (u32, u32, u32) {
    if text.len() > 4194304 {
        return (0, 0, 0);
    }
    match parse_model(alloc, text) {
        Ok(_) => (0, 0, 0),
        Err(fault) => seen(fault),
    }
}

#[test]
fn modules_and_types_have_their_faults(rt: HostRuntime) -> Result<(), Fail> {
    let read = (0, 0, 0);
    let texts: [(&[u8], (u32, u32, u32)); 21] = [
        (b"", read),
        (b"MODULE main", read),
        (b"MODULE main()", read),
        (b"MODULE main(a, b) VAR", read),
        (b"MODULE m VAR x : boolean; MODULE n INIT y", read),
        (b"VAR x : boolean;", (104, 1, 1)),
        (b"MODULE main(a,)", (104, 1, 15)),
        (b"MODULE main(", (105, 1, 13)),
        (b"MODULE main JUSTICE x", (108, 1, 13)),
        (b"MODULE main INVARSPEC x", (110, 1, 13)),
        (b"MODULE m VAR x : boolean", (105, 1, 25)),
        (
            b"MODULE m VAR x : {a, -1, b-1}; y : -3 .. 4; z : 0 .. 1;",
            read,
        ),
        (b"MODULE m VAR x : {}", (104, 1, 19)),
        (
            b"MODULE m VAR x : word[8]; y : unsigned word[300]; z : signed word[1];",
            read,
        ),
        (b"MODULE m VAR x : signed boolean;", (104, 1, 25)),
        (b"MODULE m VAR x : word[n];", (104, 1, 23)),
        (
            b"MODULE m VAR x : cell; y : cell(); z : cell(a & b, next(c));",
            read,
        ),
        (b"MODULE m VAR x : cell(a,);", (104, 1, 25)),
        (b"MODULE m IVAR x : cell;", (104, 1, 19)),
        (b"MODULE m FROZENVAR x : cell();", (104, 1, 24)),
        (b"MODULE m\nVAR\n  x : 1 ..\n", (105, 4, 1)),
    ];
    for (text, seen) in texts {
        assert_eq!(rt; fault(rt.alloc(), text), seen);
    }
    Ok(())
}

#[test]
fn sections_have_their_faults(rt: HostRuntime) -> Result<(), Fail> {
    let read = (0, 0, 0);
    let texts: [(&[u8], (u32, u32, u32)); 13] = [
        (
            b"MODULE m DEFINE d := a; e := d + 1; ASSIGN init(x) := 1; next(x) := {1, 2}; y := x;",
            read,
        ),
        (b"MODULE m ASSIGN next(x + 1) := 2;", (104, 1, 24)),
        (b"MODULE m DEFINE init(x) := 2;", (104, 1, 17)),
        (b"MODULE m INIT a TRANS next(a) INVAR a; INVAR b", read),
        (b"MODULE m INIT a;;", (104, 1, 17)),
        (b"MODULE m INIT a b", (104, 1, 17)),
        (b"MODULE m INIT", (105, 1, 14)),
        (
            b"MODULE m LTLSPEC NAME p := G x; LTLSPEC (x U y) LTLSPEC !x",
            read,
        ),
        (b"MODULE m LTLSPEC NAME p : G x", (104, 1, 25)),
        (b"MODULE m LTLSPEC x ? y : z", (104, 1, 20)),
        // the group of a bracket goes on behind its property
        (b"MODULE m LTLSPEC (a ? b : c LTLSPEC X d", (104, 1, 21)),
        (b"MODULE m LTLSPEC (a ? b : c LTLSPEC d", (104, 1, 29)),
        (b"MODULE m INIT X a", (104, 1, 15)),
    ];
    for (text, seen) in texts {
        assert_eq!(rt; fault(rt.alloc(), text), seen);
    }
    Ok(())
}
