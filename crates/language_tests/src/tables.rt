use smv_parse::{ParseFault, parse_expr, parse_formula};
use smv_tree::Expr;
use std::alloc::{AllocError, Global};
use std::test::Fail;

/// The texts, one after the other.
fn joined(alloc: Global, parts: &[&str]) -> Result<Vec<u8>, AllocError> {
    let mut text = Vec::new(alloc);
    for part in parts {
        text.extend_from_slice(part.as_bytes())?;
    }
    Ok(text)
}

/// The number and the column of a fault.
fn seen(fault: &ParseFault) -> (u32, u32) {
    match fault.place() {
        Some(place) => (fault.number(), place.column),
        None => (fault.number(), 0),
    }
}

/// The number and the column of the fault of an expression, or zeros.
fn of_expr(alloc: Global, text: &str) -> (u32, u32) {
    match parse_expr(alloc, text.as_bytes()) {
        Ok(_) => (0, 0),
        Err(fault) => seen(&fault),
    }
}

#[test]
fn reserved_words_have_their_uses(rt: HostRuntime) -> Result<(), Fail> {
    let alone = "TRUE FALSE self";
    let begins = "next word1 bool signed unsigned toint extend resize uwconst swconst count case";
    let elsewhere =
        "MODULE VAR IVAR FROZENVAR DEFINE ASSIGN INIT TRANS INVAR LTLSPEC NAME boolean word esac init mod union in xor xnor X G F U V";
    let left_out =
        "process array of MDEFINE CONSTANTS real integer ISA PRED PREDICATES MIRROR SPEC CTLSPEC PSLSPEC COMPUTE COMPASSION CONSTRAINT IN MIN MAX abs max min sizeof EX AX EF AF EG AG E A BU EBF ABF EBG ABG";
    let rows = [
        (alone, (0, 0)),
        (begins, (105, 0)),
        (elsewhere, (104, 1)),
        (left_out, (107, 1)),
        ("JUSTICE FAIRNESS", (108, 1)),
        ("Y Z H O S T", (109, 1)),
        ("INVARSPEC", (110, 1)),
    ];
    for (words, (number, column)) in rows {
        for word in words.split(' ') {
            let column = if number == 105 {
                u32::try_from(word.len()).unwrap_or(0).saturating_add(1)
            } else {
                column
            };
            assert!(rt; of_expr(rt.alloc(), word) == (number, column), "{word}");
        }
    }
    Ok(())
}

#[test]
fn refusals_come_at_the_first_and_at_the_last_token(rt: HostRuntime) -> Result<(), Fail> {
    let rows = [
        ("@", (101, 1)),
        ("x@", (101, 2)),
        ("0d_1", (102, 1)),
        ("x=0d_1", (102, 3)),
        ("9223372036854775808", (103, 1)),
        ("x=9223372036854775808", (103, 3)),
        (")", (104, 1)),
        ("x)", (104, 2)),
        ("", (105, 1)),
        ("x+", (105, 3)),
        ("EX", (107, 1)),
        ("x EX", (107, 3)),
        ("FAIRNESS", (108, 1)),
        ("x FAIRNESS", (108, 3)),
        ("Y", (109, 1)),
        ("x Y", (109, 3)),
        ("INVARSPEC", (110, 1)),
        ("x INVARSPEC", (110, 3)),
    ];
    for (text, fault) in rows {
        assert!(rt; of_expr(rt.alloc(), text) == fault, "{text}");
    }
    Ok(())
}

/// An operator as it is written, its level, and whether it groups to the right.
type Row = (&'static str, u32, bool);

/// The column of the root's operator in `a FIRST b SECOND c`: that of the looser one, and of two of
/// one level that of the second, or of the first where they group to the right.
fn root_column(first: Row, second: Row) -> u32 {
    let behind = u32::try_from(first.0.len()).unwrap_or(0).saturating_add(6);
    let is_first = first.1 > second.1 || (first.1 == second.1 && first.2);
    if is_first { 3 } else { behind }
}

fn expr_column(e: &Expr) -> u32 {
    match e {
        Expr::Two(place, _, _, _) => place.column,
        _ => 0,
    }
}

#[test]
fn operators_bind_in_their_order(rt: HostRuntime) -> Result<(), Fail> {
    let rows: [Row; 22] = [
        ("::", 3, false),
        ("*", 5, false),
        ("/", 5, false),
        ("mod", 5, false),
        ("+", 6, false),
        ("-", 6, false),
        ("<<", 7, false),
        (">>", 7, false),
        ("union", 8, false),
        ("in", 9, false),
        ("=", 10, false),
        ("!=", 10, false),
        ("<", 10, false),
        (">", 10, false),
        ("<=", 10, false),
        (">=", 10, false),
        ("&", 11, false),
        ("|", 12, false),
        ("xor", 12, false),
        ("xnor", 12, false),
        ("<->", 14, false),
        ("->", 15, true),
    ];
    for first in rows {
        for second in rows {
            let text = joined(rt.alloc(), &["a ", first.0, " b ", second.0, " c"])?;
            let column = match parse_expr(rt.alloc(), text.as_slice()) {
                Ok(e) => expr_column(&e),
                Err(_) => 0,
            };
            assert!(rt;
                column == root_column(first, second),
                "{} {}",
                first.0,
                second.0
            );
        }
    }
    Ok(())
}

/// So many nestings, and what closes them behind an `x`.
fn nested(
    alloc: Global,
    open: &str,
    count: usize,
    closes: (&str, usize),
) -> Result<Vec<u8>, AllocError> {
    let mut text = Vec::new(alloc);
    for _i in 0..count {
        text.extend_from_slice(open.as_bytes())?;
    }
    text.push(b'x')?;
    for _i in 0..closes.1 {
        text.extend_from_slice(closes.0.as_bytes())?;
    }
    Ok(text)
}

/// The number of the fault of an expression, or 0.
fn number(alloc: Global, text: &[u8]) -> u32 {
    match parse_expr(alloc, text) {
        Ok(_) => 0,
        Err(fault) => fault.number(),
    }
}

/// The number of the fault of a formula, or 0.
fn formula_number(alloc: Global, text: &[u8]) -> u32 {
    match parse_formula(alloc, text) {
        Ok(_) => 0,
        Err(fault) => fault.number(),
    }
}

#[test]
fn deep_operators_fit_the_stack(rt: HostRuntime) -> Result<(), Fail> {
    let every = "b<->c|d&e=f in g union h<<i+j*k::(";
    let rows = [
        (every, 1000, ("", 0), 105),
        (every, 1001, ("", 0), 106),
        (every, 80, (")", 79), 105),
        (every, 80, (")", 80), 0),
        ("(", 999, (")", 999), 0),
        ("!", 999, ("", 0), 0),
        ("{", 999, ("}", 999), 0),
        ("next(", 999, (")", 999), 0),
        ("extend(", 999, (",1)", 999), 0),
        ("a -> ", 999, ("", 0), 0),
        ("a ? ", 999, (" : b", 999), 0),
        ("case x : ", 999, ("; esac", 999), 0),
        ("count(", 999, (")", 999), 0),
    ];
    for (open, count, closes, fault) in rows {
        let text = nested(rt.alloc(), open, count, closes)?;
        assert!(rt;
            number(rt.alloc(), text.as_slice()) == fault,
            "{open} {count}"
        );
    }
    Ok(())
}

#[test]
fn deep_formulas_fit_the_stack(rt: HostRuntime) -> Result<(), Fail> {
    let every = "(X a<->b|c&d U ";
    let rows = [
        (every, 999, ("", 0), 105),
        (every, 1000, ("", 0), 106),
        (every, 80, (")", 80), 0),
        ("X ", 999, ("", 0), 0),
        ("G (", 499, (")", 499), 0),
    ];
    for (open, count, closes, fault) in rows {
        let text = nested(rt.alloc(), open, count, closes)?;
        assert!(rt;
            formula_number(rt.alloc(), text.as_slice()) == fault,
            "{open} {count}"
        );
    }
    Ok(())
}
