use crate::texts::{repeated, seen};
use smv_parse::parse_expr;
use std::alloc::{AllocError, Global};
use std::test::Fail;

/// The number and the place of the fault of an expression, or zeros.
fn fault(alloc: Global, text: &[u8]) -> (u32, u32, u32) {
    match parse_expr(alloc, text) {
        Ok(_) => (0, 0, 0),
        Err(fault) => seen(fault),
    }
}

#[test]
fn expressions_have_their_faults(rt: HostRuntime) -> Result<(), Fail> {
    let read = (0, 0, 0);
    let texts: [(&[u8], (u32, u32, u32)); 77] = [
        (b"x ? y : z ? TRUE : a -> b -> c <-> d", read),
        (b"!(a | b) xor -x * -3 mod 0ub4_1010 :: 0sh_fF >> 2", read),
        (b"word1(x) = 0b1_1 & next(toint(y)) in 7", read),
        (
            b"-x[3:0] :: extend(y[1:1], 4) + resize(z, 99999999999)",
            read,
        ),
        (b"9223372036854775807", read),
        (b"self.a . b[1:0] = self -- self\n & x.y", read),
        (b"x in {1, y + 2, {TRUE}} union {a}", read),
        (b"count(a, b = c, !d) > 2", read),
        (b"case a : b; TRUE : case c : d; esac; esac + 1", read),
        (b"uwconst(-5, 8) :: swconst(3, 99999999999)", read),
        (b"1..3 union -1 .. 3 = {- 2..-1, 4}", read),
        (b"x - 1..3 > -1..3[1:0]", read),
        (b"x :: -1..3 :: ((1..3)) - - - 1..3", read),
        (b"x @ y", (101, 1, 3)),
        (b"x /-- y", (101, 1, 3)),
        (b"x & 0b2_111", (102, 1, 5)),
        (b"0d_1", (102, 1, 1)),
        (b"0ub129_1", (102, 1, 1)),
        (b"9223372036854775808", (103, 1, 1)),
        (b"x y", (104, 1, 3)),
        (b"0b2_12", (104, 1, 6)),
        (b"x :: -y", (104, 1, 7)),
        (b"x :: -1 y", (104, 1, 9)),
        (b"!-1 x", (104, 1, 5)),
        (b"1 .. x", (104, 1, 6)),
        (b"1..3..5", (104, 1, 5)),
        (b"-1..-3..5", (104, 1, 7)),
        (b"(1..3..4)", (104, 1, 6)),
        (b"uwconst(-3..4)", (104, 1, 11)),
        (b"x..3", (104, 1, 2)),
        (b"-x..3", (104, 1, 3)),
        (b"1.3", (104, 1, 2)),
        (b"x[1:0][2]", (104, 1, 9)),
        (b"resize(z)", (104, 1, 9)),
        (b"next x", (104, 1, 6)),
        (b"a ? b c", (104, 1, 7)),
        (b"x\n  + -- y\n  )", (104, 3, 3)),
        (b"x.self", (104, 1, 3)),
        (b"x.3", (104, 1, 3)),
        (b"(x).y", (104, 1, 4)),
        (b"x[1:0].y", (104, 1, 7)),
        (b"TRUE.x", (104, 1, 5)),
        (b"{}", (104, 1, 2)),
        (b"{a, }", (104, 1, 5)),
        (b"{a b}", (104, 1, 4)),
        (b"{a; b}", (104, 1, 3)),
        (b"count()", (104, 1, 7)),
        (b"count{a}", (104, 1, 6)),
        (b"case esac", (104, 1, 6)),
        (b"case a : b esac", (104, 1, 12)),
        (b"case a : b; esac c", (104, 1, 18)),
        (b"uwconst(x, 3)", (104, 1, 9)),
        (b"swconst(- - 5, 3)", (104, 1, 11)),
        (b"x y @", (104, 1, 3)),
        (b"", (105, 1, 1)),
        (b"x +", (105, 1, 4)),
        (b"!-", (105, 1, 3)),
        (b"x :: -1", (105, 1, 8)),
        (b"x :: 1 ..", (105, 1, 10)),
        (b"1..-", (105, 1, 5)),
        (b"-x :: (1..3", (105, 1, 12)),
        (b"(x", (105, 1, 3)),
        (b"x.", (105, 1, 3)),
        (b"self.a.", (105, 1, 8)),
        (b"{a,", (105, 1, 4)),
        (b"case a : b; ", (105, 1, 13)),
        (b"swconst(--5, 3)", (105, 1, 16)),
        (b"x[1:\n", (105, 2, 1)),
        (b"a ? b", (105, 1, 6)),
        (b"x EX y", (107, 1, 3)),
        (b"process", (107, 1, 1)),
        (b"JUSTICE", (108, 1, 1)),
        (b"x & FAIRNESS", (108, 1, 5)),
        (b"O p", (109, 1, 1)),
        (b"(x T y)", (109, 1, 4)),
        (b"INVARSPEC x", (110, 1, 1)),
        (b"( MODULE", (104, 1, 3)),
    ];
    for (text, seen) in texts {
        assert_eq!(rt; fault(rt.alloc(), text), seen);
    }
    Ok(())
}

#[test]
fn long_texts_have_their_faults(rt: HostRuntime) -> Result<(), Fail> {
    let read = (0, 0, 0);
    let texts: [(&[u8], usize, &[u8], (u32, u32, u32)); 20] = [
        (b"n", 255, b"", read),
        (b"n", 256, b"", (111, 1, 1)),
        (b"!", 999, b"x", read),
        (b"!", 1000, b"x @", (106, 1, 1001)),
        (b"!", 1001, b"", (106, 1, 1001)),
        (b"(", 1000, b"", (105, 1, 1001)),
        (b"(", 3000, b"", (106, 1, 1001)),
        (b"case x : ", 1000, b"", (105, 1, 9001)),
        (b"case x : ", 1001, b"", (106, 1, 9001)),
        (b"x+", 999, b"x", read),
        (b"x+", 1000, b"x", (106, 1, 2001)),
        (b"x+", 1000, b"x*y", (106, 1, 2003)),
        (b"x+", 3000, b"x", (106, 1, 2001)),
        (b"x -> ", 999, b"x", read),
        (b"x -> ", 3000, b"x", (106, 1, 5006)),
        (b"!", 998, b"-1..3", read),
        (b"!", 999, b"-1..3", (106, 1, 1004)),
        (b"!", 1000, b"-1 x", (104, 1, 1004)),
        (b"(", 1000, b"-1..3)", (105, 1, 1007)),
        (b"(", 1000, b"-1)", (106, 1, 1001)),
    ];
    for (part, count, end, seen) in texts {
        let text = repeated(rt.alloc(), part, count, end)?;
        assert_eq!(rt; fault(rt.alloc(), text.as_slice()), seen);
    }
    Ok(())
}

#[test]
fn names_that_are_too_long_have_their_faults(rt: HostRuntime) -> Result<(), Fail> {
    for (front, seen) in [
        ("x & ", (111, 1, 5)),
        ("x ", (104, 1, 3)),
        ("x.", (111, 1, 3)),
    ] {
        let mut text = Vec::from_slice(rt.alloc(), front.as_bytes())?;
        let name = repeated(rt.alloc(), b"n", 256, b" )")?;
        text.extend_from_slice(name.as_slice())?;
        assert_eq!(rt; fault(rt.alloc(), text.as_slice()), seen);
    }
    Ok(())
}

/// So many times a byte, some bytes, and so many times another byte.
fn nested(
    alloc: Global,
    open: u8,
    inner: &[u8],
    close: u8,
    count: usize,
) -> Result<Vec<u8>, AllocError> {
    let mut text = Vec::new(alloc);
    for _i in 0..count {
        text.push(open)?;
    }
    for byte in inner {
        text.push(*byte)?;
    }
    for _i in 0..count {
        text.push(close)?;
    }
    Ok(text)
}

#[test]
fn brackets_have_their_faults(rt: HostRuntime) -> Result<(), Fail> {
    for (count, seen) in [
        (999, (0, 0, 0)),
        (1000, (106, 1, 2001)),
        (3000, (106, 1, 1001)),
    ] {
        let text = nested(rt.alloc(), b'(', b"x", b')', count)?;
        assert_eq!(rt; fault(rt.alloc(), text.as_slice()), seen);
        let text = nested(rt.alloc(), b'{', b"x", b'}', count)?;
        assert_eq!(rt; fault(rt.alloc(), text.as_slice()), seen);
    }
    Ok(())
}

#[test]
fn brackets_add_nothing_to_a_range(rt: HostRuntime) -> Result<(), Fail> {
    for (count, seen) in [(999, (0, 0, 0)), (1000, (106, 1, 2004))] {
        let text = nested(rt.alloc(), b'(', b"1..3", b')', count)?;
        assert_eq!(rt; fault(rt.alloc(), text.as_slice()), seen);
    }
    for (count, seen) in [(998, (0, 0, 0)), (999, (106, 1, 2002))] {
        let text = nested(rt.alloc(), b'{', b"1..3", b'}', count)?;
        assert_eq!(rt; fault(rt.alloc(), text.as_slice()), seen);
    }
    Ok(())
}
