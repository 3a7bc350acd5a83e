use itoa::Buffer;
use smv_parse::{ParseFault, parse_model};
use smv_tree::{
    Expr, Formula, Item, Kind, Module, Moment, Name, Place, Program, Section, Ty, TypeSyntax, Value,
};
use std::alloc::{AllocError, Global};
use std::test::Fail;

/// Writes a word and a blank.
fn put(out: &mut Vec<u8>, word: &[u8]) -> Result<(), AllocError> {
    for byte in word {
        out.push(*byte)?;
    }
    out.push(b' ')?;
    Ok(())
}

/// Writes a number and a blank.
fn put_number(out: &mut Vec<u8>, number: i64) -> Result<(), AllocError> {
    let mut buffer = Buffer::new();
    put(out, buffer.format(number).as_bytes())
}

/// Writes a name and the column of its place.
fn put_name(out: &mut Vec<u8>, name: &Name, place: Place) -> Result<(), AllocError> {
    put(out, name.as_slice())?;
    put_number(out, i64::from(place.column))
}

/// Writes the names of a path, a number, or a sign for another expression.
fn put_expr(out: &mut Vec<u8>, expr: &Expr) -> Result<(), AllocError> {
    match expr {
        Expr::Name(_, path) => {
            for name in path.as_slice() {
                put(out, name.as_slice())?;
            }
            Ok(())
        }
        Expr::Truth(_, true) => put(out, b"TRUE"),
        Expr::Truth(_, false) => put(out, b"FALSE"),
        Expr::Two(_, _, _, _) => put(out, b"two"),
        _ => put(out, b"other"),
    }
}

/// Writes what a formula begins with.
fn put_formula(out: &mut Vec<u8>, formula: &Formula) -> Result<(), AllocError> {
    match formula {
        Formula::Atom(expr) => put_expr(out, expr),
        Formula::Always(_) => put(out, b"G"),
        Formula::Two(_, _, _) => put(out, b"joined"),
        _ => put(out, b"other"),
    }
}

/// Writes a type.
fn put_type(out: &mut Vec<u8>, ty: &Ty) -> Result<(), AllocError> {
    match ty {
        Ty::Bool => put(out, b"boolean"),
        Ty::Range(low, high) => {
            put_number(out, *low)?;
            put(out, b"..")?;
            put_number(out, *high)
        }
        Ty::Word(signed, width) => {
            put(out, if *signed { b"signed" } else { b"word" })?;
            put_number(out, i64::from(*width))
        }
        Ty::Enum(values) => {
            for value in values.as_slice() {
                match value {
                    Value::Sym(name) => put(out, name.as_slice())?,
                    Value::Int(number) => put_number(out, *number)?,
                    _ => put(out, b"other")?,
                }
            }
            Ok(())
        }
    }
}

/// Writes what a variable is declared as.
fn put_shape(out: &mut Vec<u8>, shape: &TypeSyntax) -> Result<(), AllocError> {
    match shape {
        TypeSyntax::Plain(ty, place) => {
            put_number(out, i64::from(place.column))?;
            put_type(out, ty)
        }
        TypeSyntax::Instance(name, place, exprs) => {
            put(out, b"of")?;
            put_name(out, name, *place)?;
            for expr in exprs {
                put_expr(out, expr)?;
            }
            Ok(())
        }
    }
}

/// The word of a declaration.
fn kind_word(kind: Kind) -> &'static [u8] {
    match kind {
        Kind::State => b"VAR".as_slice(),
        Kind::Input => b"IVAR".as_slice(),
        Kind::Frozen => b"FROZENVAR".as_slice(),
    }
}

/// A word for the moment of an assignment.
fn moment_word(moment: Moment) -> &'static [u8] {
    match moment {
        Moment::First => b"init".as_slice(),
        Moment::Each => b"each".as_slice(),
        Moment::Next => b"next".as_slice(),
    }
}

/// The word of a constraint.
fn section_word(section: Section) -> &'static [u8] {
    match section {
        Section::Init => b"INIT".as_slice(),
        Section::Invar => b"INVAR".as_slice(),
        Section::Trans => b"TRANS".as_slice(),
    }
}

/// Writes a part of a module.
fn put_item(out: &mut Vec<u8>, item: &Item) -> Result<(), AllocError> {
    match item {
        Item::Var(kind, name, place, shape) => {
            put(out, kind_word(*kind))?;
            put_name(out, name, *place)?;
            put_shape(out, shape)
        }
        Item::Define(name, place, expr) => {
            put(out, b"DEFINE")?;
            put_name(out, name, *place)?;
            put_expr(out, expr)
        }
        Item::Assign(moment, name, place, expr) => {
            put(out, moment_word(*moment))?;
            put_name(out, name, *place)?;
            put_expr(out, expr)
        }
        Item::Constraint(section, place, expr) => {
            put(out, section_word(*section))?;
            put_number(out, i64::from(place.column))?;
            put_expr(out, expr)
        }
        Item::Spec(name, place, formula) => {
            put(out, b"LTLSPEC")?;
            put_number(out, i64::from(place.column))?;
            if let Some(name) = name {
                put(out, name.as_slice())?;
            }
            put_formula(out, formula)
        }
    }
}

/// Writes a module.
fn put_module(out: &mut Vec<u8>, module: &Module) -> Result<(), AllocError> {
    put(out, b"MODULE")?;
    put_name(out, &module.name, module.place)?;
    for param in &module.params {
        put_name(out, &param.name, param.place)?;
    }
    for item in &module.items {
        put_item(out, item)?;
    }
    Ok(())
}

/// Writes a program.
fn put_program(out: &mut Vec<u8>, program: &Program) -> Result<(), AllocError> {
    for module in &program.modules {
        put_module(out, module)?;
    }
    Ok(())
}

/// Writes the column at which a text is no program, behind `at`, or that it ends too early.
fn put_fault(out: &mut Vec<u8>, fault: &ParseFault) -> Result<(), AllocError> {
    match fault {
        ParseFault::Unexpected(place) => {
            put(out, b"at")?;
            put_number(out, i64::from(place.column))
        }
        ParseFault::End(_) => put(out, b"end"),
        _ => put(out, b"fault"),
    }
}

/// What is read of a text, in words and columns: its program, or its fault.
fn seen(alloc: Global, text: &[u8]) -> Result<Vec<u8>, AllocError> {
    let mut out = Vec::new(alloc);
    if text.len() > 4194304 {
        return Ok(out);
    }
    match parse_model(alloc, text) {
        Ok(program) => put_program(&mut out, &program)?,
        Err(fault) => put_fault(&mut out, &fault)?,
    }
    Ok(out)
}

#[test]
fn programs_are_read(rt: HostRuntime) -> Result<(), Fail> {
    let texts: [(&[u8], &[u8]); 20] = [
        (b"", b""),
        (b"MODULE m", b"MODULE m 8 "),
        (
            b"MODULE m(a, b) MODULE n() MODULE o(c)",
            b"MODULE m 8 a 10 b 13 MODULE n 23 MODULE o 34 c 36 ",
        ),
        (
            b"MODULE m VAR x : boolean; y : {a, -1, 2}; IVAR z : {b};",
            b"MODULE m 8 VAR x 14 18 boolean VAR y 27 31 a -1 2 IVAR z 48 52 b ",
        ),
        (
            b"MODULE m VAR x : -1 .. 2; y : 0..-3; FROZENVAR z:3 ..4;",
            b"MODULE m 8 VAR x 14 18 -1 .. 2 VAR y 27 31 0 .. -3 FROZENVAR z 48 50 3 .. 4 ",
        ),
        (
            b"MODULE m IVAR x : word[8]; y:unsigned word[255];z:signed word[256];",
            b"MODULE m 8 IVAR x 15 19 word 8 IVAR y 28 30 word 255 IVAR z 49 51 signed 255 ",
        ),
        (
            b"MODULE m VAR x : n; y : n(); z : n(a.b, TRUE);",
            b"MODULE m 8 VAR x 14 of n 18 VAR y 21 of n 25 VAR z 30 of n 34 a b TRUE ",
        ),
        (
            b"MODULE m DEFINE x := a; y := b & c; DEFINE",
            b"MODULE m 8 DEFINE x 17 a DEFINE y 25 two ",
        ),
        (
            b"MODULE m ASSIGN x := a; init(x) := b; next(y) := c; ASSIGN",
            b"MODULE m 8 each x 17 a init x 30 b next y 44 c ",
        ),
        (
            b"MODULE m INIT a; TRANS b INVAR c; INIT d",
            b"MODULE m 8 INIT 10 a TRANS 18 b INVAR 26 c INIT 35 d ",
        ),
        (
            b"MODULE m LTLSPEC a LTLSPEC NAME p := (a U b) & c; LTLSPEC G a;",
            b"MODULE m 8 LTLSPEC 10 a LTLSPEC 20 p joined LTLSPEC 51 G ",
        ),
        (
            b"MODULE m VAR FROZENVAR IVAR DEFINE ASSIGN MODULE n VAR",
            b"MODULE m 8 MODULE n 50 ",
        ),
        (
            b"MODULE m INIT (a)MODULE n",
            b"MODULE m 8 INIT 10 a MODULE n 25 ",
        ),
        (b"m", b"at 1 "),
        (b"MODULE", b"end "),
        (b"MODULE VAR", b"at 8 "),
        (b"MODULE m(", b"end "),
        (b"MODULE m(a b)", b"at 12 "),
        (b"MODULE m(a,)", b"at 12 "),
        (b"MODULE m x", b"at 10 "),
    ];
    for (text, want) in texts {
        assert_eq!(rt; seen(rt.alloc(), text)?.as_slice(), want);
    }
    Ok(())
}

#[test]
fn no_programs_end_where_they_cannot_go_on(rt: HostRuntime) -> Result<(), Fail> {
    let texts: [(&[u8], &[u8]); 26] = [
        (b"MODULE m VAR x y", b"at 16 "),
        (b"MODULE m VAR x : boolean", b"end "),
        (b"MODULE m VAR x : boolean VAR", b"at 26 "),
        (b"MODULE m VAR x : {};", b"at 19 "),
        (b"MODULE m VAR x : {a,};", b"at 21 "),
        (b"MODULE m VAR x : {a b};", b"at 21 "),
        (b"MODULE m VAR x : {- a};", b"at 21 "),
        (b"MODULE m VAR x : 3;", b"at 19 "),
        (b"MODULE m VAR x : - a;", b"at 20 "),
        (b"MODULE m VAR x : 1 .. a;", b"at 23 "),
        (b"MODULE m VAR x : word;", b"at 22 "),
        (b"MODULE m VAR x : word[a];", b"at 23 "),
        (b"MODULE m VAR x : signed [8];", b"at 25 "),
        (b"MODULE m VAR x : n(a;", b"at 21 "),
        (b"MODULE m VAR x : n(a,);", b"at 22 "),
        (b"MODULE m VAR x : TRUE;", b"at 18 "),
        (b"MODULE m IVAR x : n;", b"at 19 "),
        (b"MODULE m FROZENVAR x : n();", b"at 24 "),
        (b"MODULE m DEFINE x : a;", b"at 19 "),
        (b"MODULE m DEFINE x := a VAR", b"at 24 "),
        (b"MODULE m DEFINE next(x) := a;", b"at 17 "),
        (b"MODULE m ASSIGN next(3) := a;", b"at 22 "),
        (b"MODULE m ASSIGN next(x := a;", b"at 24 "),
        (b"MODULE m INIT a; ;", b"at 18 "),
        (b"MODULE m LTLSPEC NAME := a", b"at 23 "),
        (b"MODULE m LTLSPEC NAME p a", b"at 25 "),
    ];
    for (text, want) in texts {
        assert_eq!(rt; seen(rt.alloc(), text)?.as_slice(), want);
    }
    Ok(())
}
