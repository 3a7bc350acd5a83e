use crate::texts::{repeated, seen};
use smv_parse::parse_formula;
use std::alloc::Global;
use std::test::Fail;

/// The number and the place of the fault of a formula, or zeros.
fn fault(alloc: Global, text: &[u8]) -> (u32, u32, u32) {
    match parse_formula(alloc, text) {
        Ok(_) => (0, 0, 0),
        Err(fault) => seen(fault),
    }
}

#[test]
fn formulas_have_their_faults(rt: HostRuntime) -> Result<(), Fail> {
    let read = (0, 0, 0);
    let texts: [(&[u8], (u32, u32, u32)); 31] = [
        (b"G !x=4", read),
        (b"(a|b)U c", read),
        (b"(!x = y)", read),
        (b"O p", (109, 1, 1)),
        (b"a U b V c & d = e | f xor g xnor h <-> i -> j -> k", read),
        (b"G F X !!(a U !b)", read),
        (b"a & (b U c) | (d ? e : f)", read),
        (b"((a ? b : c) U d) & (e) = f", read),
        // a bracket opens a formula where its group holds a word of formulas
        (b"(G a) = b", (104, 1, 7)),
        (b"(a ? b : c U d)", (104, 1, 4)),
        (b"(a ? b : c) U d", read),
        (b"(a ? b : c", (105, 1, 11)),
        (b"(a ? b ) ) X", (104, 1, 8)),
        // the group ends at a place where no token begins
        (b"(a ? b @ X c)", (101, 1, 8)),
        (b"(a ? b : 0b2_9 X c)", (102, 1, 10)),
        (b"(a ? b EX X c)", (107, 1, 8)),
        (b"(a ? X c @", (104, 1, 4)),
        // elsewhere a bracket is that of an expression
        (b"x = (b U c)", (104, 1, 8)),
        (b"next(X a)", (104, 1, 6)),
        (b"a ? b : c", (104, 1, 3)),
        (b"a -> G b ? c", (104, 1, 10)),
        (b"(a) X", (104, 1, 5)),
        (b"a = !b U -c", read),
        (b"F x in -1..3 U (1..3) = y", read),
        (b"G -1 = x & -1 .. 3 = y", read),
        (b"X 1..3..5", (104, 1, 7)),
        (b"(1.. U x)", (104, 1, 6)),
        (b"", (105, 1, 1)),
        (b"X", (105, 1, 2)),
        (b"a U", (105, 1, 4)),
        (b"(a U b", (105, 1, 7)),
    ];
    for (text, seen) in texts {
        assert_eq!(rt; fault(rt.alloc(), text), seen);
    }
    Ok(())
}

#[test]
fn deep_formulas_have_their_faults(rt: HostRuntime) -> Result<(), Fail> {
    let read = (0, 0, 0);
    let texts: [(&[u8], usize, &[u8], (u32, u32, u32)); 11] = [
        (b"G ", 999, b"x", read),
        (b"G ", 1000, b"x", (106, 1, 2001)),
        (b"G ", 1001, b"", (106, 1, 2001)),
        (b"G ", 990, b"(((((((((x)))))))))", read),
        (b"G ", 990, b"((((((((((x))))))))))", (106, 1, 2001)),
        (b"G ", 998, b"(1..3)", read),
        (b"G ", 999, b"(1..3)", (106, 1, 2004)),
        (b"(", 999, b"X x", (105, 1, 1003)),
        (b"(", 1000, b"X x", (106, 1, 1001)),
        (b"x U ", 1000, b"x", (106, 1, 4001)),
        (b"x -> ", 3000, b"x", (106, 1, 5006)),
    ];
    for (part, count, end, seen) in texts {
        let text = repeated(rt.alloc(), part, count, end)?;
        assert_eq!(rt; fault(rt.alloc(), text.as_slice()), seen);
    }
    Ok(())
}
