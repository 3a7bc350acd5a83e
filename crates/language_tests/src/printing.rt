use outside::{MemSink, put_parts};
use smv_parse::{parse_expr, parse_formula};
use smv_print::{print_expr, print_formula};
use smv_tree::{Expr, Op1, Op2, Place};
use std::alloc::{AllocError, Global};
use std::test::Fail;

/// Room for what a test prints.
const ROOM: usize = 200;

/// What an expression of this text is printed as.
fn expr_again(alloc: Global, text: &[u8]) -> Result<MemSink, AllocError> {
    let mut out = MemSink::new(alloc, ROOM, &[])?;
    if text.len() <= 4194304
        && let Ok(e) = parse_expr(alloc, text)
    {
        let _printed = print_expr(&e, &mut out);
    }
    Ok(out)
}

/// What a formula of this text is printed as.
fn formula_again(alloc: Global, text: &[u8]) -> Result<MemSink, AllocError> {
    let mut out = MemSink::new(alloc, ROOM, &[])?;
    if text.len() <= 4194304
        && let Ok(f) = parse_formula(alloc, text)
    {
        let _printed = print_formula(&f, &mut out);
    }
    Ok(out)
}

#[test]
fn expressions_are_printed(rt: HostRuntime) -> Result<(), AllocError> {
    let alloc = rt.alloc();
    let rows = [
        (
            "x--y&!(a|b)-> -(1..3)in c",
            "x--y & !(a | b) -> -(1..3) in c",
        ),
        ("-(1..3)[2:1]", "-(1..3)[2:1]"),
        ("1 .. 3[2:1]", "1..3[2:1]"),
        ("- 1 .. -3 + 2", "-1..-3 + 2"),
        ("0sd8_128", "0sd8_128"),
        ("0uh8_fF", "0ud8_255"),
        ("0ub4_1010", "0ud4_10"),
        ("007", "7"),
        ("((x))", "x"),
        ("TRUE&(FALSE)", "TRUE & FALSE"),
        ("{a,b}", "{a, b}"),
        ("{(a | b)}", "{a | b}"),
        ("count(a,b,c)", "count(a, b, c)"),
        ("case a:b;c:d;esac", "case a : b; c : d; esac"),
        (
            "case a : case b : c; esac; esac",
            "case a : case b : c; esac; esac",
        ),
        ("- - - x", "- - -x"),
        ("-(-x)", "- -x"),
        ("a - -b", "a - -b"),
        ("-(-x+y)", "-(-x + y)"),
        ("!(!x&y)", "!(!x & y)"),
        ("!!x", "!!x"),
        ("!x = y", "!x = y"),
        ("!(x = y)", "!(x = y)"),
        ("!(-x)", "!(-x)"),
        ("-!x", "-!x"),
        ("-x::y", "-x :: y"),
        ("(-x)::y", "(-x) :: y"),
        ("!x::y", "!x :: y"),
        ("-x[1:0]", "-x[1:0]"),
        ("(-x)[1:0]", "(-x)[1:0]"),
        ("(a -> b)->c", "(a -> b) -> c"),
        ("a -> (b -> c)", "a -> b -> c"),
        ("(a?b:c)?d:e", "(a ? b : c) ? d : e"),
        ("a?b:(c?d:e)", "a ? b : c ? d : e"),
        ("a?(b?c:d):e", "a ? b ? c : d : e"),
        ("(a ? b : c) & d", "(a ? b : c) & d"),
        ("a ? b -> c : d <-> e", "a ? b -> c : d <-> e"),
        ("a ? b : (c <-> d)", "a ? b : (c <-> d)"),
        ("x.y[3:1]", "x.y[3:1]"),
        ("(a+b)[1:0]", "(a + b)[1:0]"),
        ("x[3:1][1:0]", "x[3:1][1:0]"),
        ("extend(a,3)", "extend(a, 3)"),
        ("resize((a|b),3)", "resize(a | b, 3)"),
        ("uwconst(-3,4)", "uwconst(-3, 4)"),
        ("swconst(3,4)", "swconst(3, 4)"),
        ("self.x", "self.x"),
        ("next(next(x))", "next(next(x))"),
        ("toint(a)+word1(b)", "toint(a) + word1(b)"),
        ("signed(a)-unsigned(b)", "signed(a) - unsigned(b)"),
        ("bool(a | b)", "bool(a | b)"),
    ];
    for (text, printed) in rows {
        let printed = printed.as_bytes();
        assert_eq!(rt;
            expr_again(alloc, text.as_bytes())?.bytes(),
            printed,
            "at {text:?}"
        );
        assert_eq!(rt;
            expr_again(alloc, printed)?.bytes(),
            printed,
            "at {text:?} again"
        );
    }
    Ok(())
}

#[test]
fn formulas_are_printed(rt: HostRuntime) -> Result<(), AllocError> {
    let alloc = rt.alloc();
    let rows = [
        ("G !x=4", "G !x = 4"),
        ("(a|b)U c", "(a | b) U c"),
        ("(!x = y)", "(!x) = y"),
        ("!x", "!x"),
        ("(!x)", "(!x)"),
        ("(!x[1:0]) = y", "(!x[1:0]) = y"),
        ("(!x)[1:0]", "(!x)[1:0]"),
        ("(!x::y = z)", "(!x) :: y = z"),
        ("(!x&y)U z", "(!x & y) U z"),
        ("(!x ? a : b) = c", "(!x ? a : b) = c"),
        ("y = !x", "y = !x"),
        ("!!(a U!b)", "!!(a U !b)"),
        ("X(a)", "X a"),
        ("X(a U b)", "X (a U b)"),
        ("G F X a", "G F X a"),
        ("!(X a)", "!X a"),
        ("(a&b)", "(a & b)"),
        ("a&b", "a & b"),
        ("- -x=y", "- -x = y"),
    ];
    for (text, printed) in rows {
        let printed = printed.as_bytes();
        assert_eq!(rt;
            formula_again(alloc, text.as_bytes())?.bytes(),
            printed,
            "at {text:?}"
        );
        assert_eq!(rt;
            formula_again(alloc, printed)?.bytes(),
            printed,
            "at {text:?} again"
        );
    }
    Ok(())
}

/// Two operators and three operands, the first two or the last two of them in parentheses or not.
fn beside<'a>(
    alloc: Global,
    operators: (&'a [u8], &'a [u8]),
    first: &'a [u8],
    enclosed: bool,
    left: bool,
) -> Result<MemSink, AllocError> {
    let (inner, outer) = operators;
    let (open, close): (&'a [u8], &'a [u8]) = if enclosed { (b"(", b")") } else { (b"", b"") };
    let mut out = MemSink::new(alloc, ROOM, &[])?;
    let _put = if left {
        put_parts(&mut out, &[open, first, inner, b"b", close, outer, b"c"])
    } else {
        put_parts(&mut out, &[b"a", outer, open, first, inner, b"c", close])
    };
    Ok(out)
}

/// Whether a row says of the operator at an index that it stands in parentheses.
fn encloses(row: &[u8], index: usize) -> bool {
    row.get(index) == Some(&b'(')
}

// A row has an operator, and says of each one in the order of the rows whether its operands and it
// stand in parentheses to the left of the row's operator, and to the right of it.

#[test]
fn operands_of_expressions_are_enclosed(rt: HostRuntime) -> Result<(), AllocError> {
    let alloc = rt.alloc();
    let rows: [(&[u8], &[u8], &[u8]); 11] = [
        (b" :: ", b".((((((((((", b"((((((((((("),
        (b" * ", b"..(((((((((", b".(((((((((("),
        (b" - ", b"...((((((((", b"..((((((((("),
        (b" << ", b"....(((((((", b"...(((((((("),
        (b" union ", b".....((((((", b"....((((((("),
        (b" in ", b"......(((((", b".....(((((("),
        (b" = ", b".......((((", b"......((((("),
        (b" & ", b"........(((", b".......(((("),
        (b" xor ", b".........((", b"........((("),
        (b" <-> ", b"..........(", b".........(("),
        (b" -> ", b"..........(", b"..........."),
    ];
    for (outer, before, behind) in rows {
        for (i, (inner, _, _)) in rows.iter().enumerate() {
            for (row, left) in [(before, true), (behind, false)] {
                let operators = (*inner, outer);
                let text = beside(alloc, operators, b"x", true, left)?;
                let printed = beside(alloc, operators, b"x", encloses(row, i), left)?;
                assert_eq!(rt; expr_again(alloc, text.bytes())?.bytes(), printed.bytes());
                assert_eq!(rt;
                    expr_again(alloc, printed.bytes())?.bytes(),
                    printed.bytes()
                );
            }
        }
    }
    Ok(())
}

#[test]
fn operands_of_formulas_are_enclosed(rt: HostRuntime) -> Result<(), AllocError> {
    let alloc = rt.alloc();
    let rows: [(&[u8], &[u8], &[u8]); 8] = [
        (b" U ", b"..((((((", b"(((((((("),
        (b" V ", b"..((((((", b"(((((((("),
        (b" & ", b"...(((((", b"..(((((("),
        (b" | ", b"......((", b"...((((("),
        (b" xor ", b"......((", b"...((((("),
        (b" xnor ", b"......((", b"...((((("),
        (b" <-> ", b".......(", b"......(("),
        (b" -> ", b".......(", b"........"),
    ];
    for (outer, before, behind) in rows {
        for (i, (inner, _, _)) in rows.iter().enumerate() {
            for (row, left) in [(before, true), (behind, false)] {
                let operators = (*inner, outer);
                let text = beside(alloc, operators, b"X x", true, left)?;
                let printed = beside(alloc, operators, b"X x", encloses(row, i), left)?;
                assert_eq!(rt;
                    formula_again(alloc, text.bytes())?.bytes(),
                    printed.bytes()
                );
                assert_eq!(rt;
                    formula_again(alloc, printed.bytes())?.bytes(),
                    printed.bytes()
                );
            }
        }
    }
    Ok(())
}

const PLACE: Place = Place { line: 1, column: 1 };

/// A range.
fn range(low: i64, high: i64) -> Expr {
    Expr::Span(PLACE, low, high)
}

/// A `-` before an expression.
fn negated(alloc: Global, operand: Expr) -> Result<Expr, AllocError> {
    Ok(Expr::One(PLACE, Op1::Neg, Box::new(alloc, operand)?))
}

/// Bits of an expression.
fn bits(alloc: Global, operand: Expr) -> Result<Expr, AllocError> {
    Ok(Expr::Select(PLACE, Box::new(alloc, operand)?, 2, 1))
}

/// An operator between two expressions.
fn joined(alloc: Global, left: Expr, op: Op2, right: Expr) -> Result<Expr, AllocError> {
    Ok(Expr::Two(PLACE, op, Box::new(alloc, left)?, Box::new(alloc, right)?))
}

#[test]
fn ranges_are_printed(rt: HostRuntime) -> Result<(), Fail> {
    let alloc = rt.alloc();
    let head = parse_expr(alloc, b"x--y & !(a | b)")?;
    let within = joined(
        alloc,
        negated(alloc, range(1, 3))?,
        Op2::In,
        parse_expr(alloc, b"c")?,
    )?;
    let pair = joined(alloc, range(1, 2), Op2::Concat, range(3, 4))?;
    let sum = joined(alloc, range(-3, -1), Op2::Add, range(-2, 0))?;
    let rows: [(Expr, &[u8]); 7] = [
        (range(-3, 3), b"-3..3"),
        (
            joined(alloc, head, Op2::Implies, within)?,
            b"x--y & !(a | b) -> -(1..3) in c",
        ),
        (negated(alloc, bits(alloc, range(1, 3))?)?, b"-(1..3)[2:1]"),
        (
            bits(alloc, negated(alloc, range(-1, 3))?)?,
            b"(-(-1..3))[2:1]",
        ),
        (negated(alloc, pair)?, b"-(1..2) :: 3..4"),
        (negated(alloc, sum)?, b"-(-3..-1 + -2..0)"),
        (
            joined(alloc, range(1, 2), Op2::Sub, range(-3, -3))?,
            b"1..2 - -3..-3",
        ),
    ];
    for (e, printed) in rows {
        let mut out = MemSink::new(alloc, ROOM, &[])?;
        print_expr(&e, &mut out)?;
        assert_eq!(rt; out.bytes(), printed);
    }
    Ok(())
}

#[test]
fn a_broken_sink_has_a_front(rt: HostRuntime) -> Result<(), Fail> {
    let alloc = rt.alloc();
    let e = parse_expr(alloc, b"extend(a, 3) in {b, -c}")?;
    let f = parse_formula(alloc, b"G (a U extend(b, 3))")?;
    let rows: [(usize, &[u64], &[u8], &[u8]); 4] = [
        (6, &[], b"extend", b"G (a U"),
        (9, &[], b"extend(a,", b"G (a U ex"),
        (100, &[3], b"extend(", b"G "),
        (100, &[9], b"extend(a, 3) ", b"G (a U extend"),
    ];
    for (room, fails, of_expr, of_formula) in rows {
        let mut out = MemSink::new(alloc, room, fails)?;
        assert!(rt; print_expr(&e, &mut out).is_err());
        assert_eq!(rt; out.bytes(), of_expr);
        let mut out = MemSink::new(alloc, room, fails)?;
        assert!(rt; print_formula(&f, &mut out).is_err());
        assert_eq!(rt; out.bytes(), of_formula);
    }
    Ok(())
}
