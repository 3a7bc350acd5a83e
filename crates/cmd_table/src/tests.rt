use crate::commands::*;
use crate::{FreeWord, Given, Opt, OptFault, OptWord, Table, Takes, read_options};
use outside::{MemSink, Text, Words};
use std::alloc::{AllocError, Global};
use std::process::Abort;

// A table with every feature.
const ALL: Table<5> = Table {
    opts: [
        Opt {
            word: OptWord::A,
            takes: Takes::Nothing,
            excludes: 0,
            required: false,
        },
        Opt {
            word: OptWord::K,
            takes: Takes::Number(1, 10),
            excludes: 0,
            required: true,
        },
        Opt {
            word: OptWord::O,
            takes: Takes::Word,
            excludes: 1 << 3,
            required: false,
        },
        Opt {
            word: OptWord::P,
            takes: Takes::Nothing,
            excludes: 0,
            required: false,
        },
        Opt {
            word: OptWord::CapitalP,
            takes: Takes::Nothing,
            excludes: 1 << 2,
            required: false,
        },
    ],
    least: 1,
    most: 2,
    alone: 1 << 4,
    free: FreeWord::File,
    raw: false,
};

// The words of a line that blanks part.
fn words(alloc: Global, line: &[u8]) -> Result<Words, AllocError> {
    let mut words = Words::new(alloc);
    let mut word = Text::new(alloc);
    for byte in line {
        if *byte == b' ' {
            words.push(word)?;
            word = Text::new(alloc);
        } else {
            word.push(*byte)?;
        }
    }
    if !word.is_empty() {
        words.push(word)?;
    }
    Ok(words)
}

// What the words of a line give by a table, as text: each option that is given, by its place, with its
// word, and then the free words; or the number and the text of the refusal.
fn shown<const N: usize>(alloc: Global, table: &Table<N>, line: &[u8]) -> Result<Text, AllocError> {
    let words = words(alloc, line)?;
    match read_options(alloc, table, &words) {
        Ok(given) => shown_given(alloc, N, &given),
        Err(fault) => shown_fault(alloc, &fault),
    }
}

fn shown_given(alloc: Global, count: usize, given: &Given) -> Result<Text, AllocError> {
    let mut text = Text::new(alloc);
    for place in 0..count {
        if let Some(value) = given.values.get(place) {
            text.push(b'0' + (place % 10) as u8)?;
            text.push(b'=')?;
            text.extend(value.as_slice())?;
            text.push(b' ')?;
        }
    }
    for word in given.rest.as_slice() {
        text.push(b'+')?;
        text.extend(word.as_slice())?;
    }
    Ok(text)
}

fn shown_fault(alloc: Global, fault: &OptFault) -> Result<Text, AllocError> {
    let mut text = Text::new(alloc);
    text.extend(format!(in alloc; "{} ", fault.number())?.as_bytes())?;
    let mut sink = MemSink::new(alloc, 1000, &[])?;
    if fault.print_text(&mut sink).is_ok() {
        text.extend(sink.bytes())?;
    }
    Ok(text)
}

const LINES: [(&str, &str); 16] = [
    ("-k 3 f", "1=3 +f"),
    ("f -a -k 007 -o -k g", "0= 1=007 2=-k +f+g"),
    ("-x f", "621 -x: unknown option"),
    ("g -", "621 -: unknown option"),
    ("-k", "622 -k: argument missing"),
    ("-k 3 -k", "623 -k: given twice"),
    ("-k 0 -k", "625 0: number unreadable or out of range"),
    ("-k 11 f", "625 11: number unreadable or out of range"),
    ("-k -3 f", "625 -3: number unreadable or out of range"),
    ("-k 3 f g h -x", "626 h: too many words"),
    ("-o x -p f", "624 -o and -p exclude each other"),
    ("-P -o x", "624 -o and -P exclude each other"),
    ("-P f", "624 -P and f exclude each other"),
    ("-o x -p -x", "621 -x: unknown option"),
    ("f", "627 -k: missing"),
    ("-k 3", "627 file: missing"),
];

#[test]
fn every_feature(rt: HostRuntime) {
    for (line, want) in &LINES {
        gives(&rt, rt.alloc(), &ALL, line, want);
    }
}

// The words of a line give this by the table of a command.
fn gives<const N: usize>(rt: &impl Abort, alloc: Global, table: &Table<N>, line: &str, want: &str) {
    let text = shown(alloc, table, line.as_bytes())
        .ok()
        .expect(rt, "memory");
    assert_eq!(rt; text.as_slice(), want.as_bytes(), "{line}");
}

#[test]
fn commands_on_models(rt: HostRuntime) {
    let alloc = rt.alloc();
    gives(&rt, alloc, &READ_MODEL, "-i a.smv", "0=a.smv ");
    gives(
        &rt,
        alloc,
        &READ_MODEL,
        "a.smv",
        "626 a.smv: too many words",
    );
    gives(&rt, alloc, &FLATTEN_HIERARCHY, "x", "626 x: too many words");
    gives(&rt, alloc, &ENCODE_VARIABLES, "", "");
    gives(&rt, alloc, &BUILD_BOOLEAN_MODEL, "", "");
    gives(&rt, alloc, &BMC_SETUP, "", "");
    gives(&rt, alloc, &GO_BMC, "-i a", "621 -i: unknown option");
    gives(&rt, alloc, &SHOW_VARS, "", "");
    gives(&rt, alloc, &SHOW_PROPERTY, "", "");
    gives(&rt, alloc, &RESET, "", "");
}

#[test]
fn commands_that_check(rt: HostRuntime) {
    let alloc = rt.alloc();
    gives(
        &rt,
        alloc,
        &CHECK_LTLSPEC_BMC,
        "-k 11 -l -1 -n 0",
        "0=11 1=-1 2=0 ",
    );
    gives(
        &rt,
        alloc,
        &CHECK_LTLSPEC_BMC,
        "-k 10001",
        "625 10001: number unreadable or out of range",
    );
    gives(
        &rt,
        alloc,
        &CHECK_LTLSPEC_BMC_INC,
        "-P a -n 1",
        "624 -n and -P exclude each other",
    );
    gives(&rt, alloc, &CHECK_LTLSPEC_BMC_ONEPB, "-p f", "3=f ");
    gives(&rt, alloc, &WRITE_LOG, "f", "+f");
    gives(&rt, alloc, &CHECK_LOG, "", "627 file: missing");
    gives(&rt, alloc, &PRINT_BMC_STATS, "", "");
}

#[test]
fn commands_that_simulate(rt: HostRuntime) {
    let alloc = rt.alloc();
    gives(&rt, alloc, &BMC_PICK_STATE, "-v -c e", "0=e 1= ");
    gives(
        &rt,
        alloc,
        &BMC_SIMULATE,
        "-k 0",
        "625 0: number unreadable or out of range",
    );
    gives(&rt, alloc, &BMC_SIMULATE, "-k 1 -c e -p", "0=1 1=e 3= ");
    gives(
        &rt,
        alloc,
        &BMC_INC_SIMULATE,
        "-t e -c e",
        "624 -c and -t exclude each other",
    );
    gives(
        &rt,
        alloc,
        &BMC_INC_SIMULATE,
        "-k 10000 -t e -v",
        "0=10000 2=e 4= ",
    );
    gives(&rt, alloc, &GOTO_STATE, "1.3", "+1.3");
    gives(&rt, alloc, &GOTO_STATE, "", "627 t.s: missing");
    gives(&rt, alloc, &PRINT_CURRENT_STATE, "-v", "0= ");
}

#[test]
fn commands_on_traces(rt: HostRuntime) {
    let alloc = rt.alloc();
    gives(
        &rt,
        alloc,
        &SHOW_TRACES,
        "-p 1 -o f 2.1:3",
        "2=1 3=f +2.1:3",
    );
    gives(
        &rt,
        alloc,
        &SHOW_TRACES,
        "-a 1",
        "624 -a and 1 exclude each other",
    );
    gives(
        &rt,
        alloc,
        &SHOW_TRACES,
        "-t 1",
        "624 -t and 1 exclude each other",
    );
    gives(
        &rt,
        alloc,
        &READ_TEXT_TRACE,
        "-c -p f",
        "624 -c and -p exclude each other",
    );
    gives(&rt, alloc, &READ_TEXT_TRACE, "-p f", "1= +f");
    gives(&rt, alloc, &EXECUTE_TEXT_TRACE, "-c f", "0= +f");
    gives(&rt, alloc, &EXECUTE_TRACES, "-a", "627 -e: missing");
    gives(&rt, alloc, &EXECUTE_TRACES, "-e sat 3", "0=sat +3");
    gives(
        &rt,
        alloc,
        &EXECUTE_PARTIAL_TRACES,
        "-e sat -a 1",
        "624 -a and 1 exclude each other",
    );
}

#[test]
fn commands_on_the_session(rt: HostRuntime) {
    let alloc = rt.alloc();
    gives(&rt, alloc, &SET, "bmc_loopback -1", "+bmc_loopback+-1");
    gives(&rt, alloc, &SET, "-x", "621 -x: unknown option");
    gives(&rt, alloc, &UNSET, "a", "+a");
    gives(
        &rt,
        alloc,
        &ALIAS,
        "sim bmc_simulate -k 10",
        "+sim+bmc_simulate+-k+10",
    );
    gives(&rt, alloc, &UNALIAS, "a c", "626 c: too many words");
    gives(&rt, alloc, &SOURCE, "-p -s -x f", "0= 1= 2= +f");
    gives(&rt, alloc, &HISTORY, "5", "+5");
    gives(&rt, alloc, &ECHO, "-x", "621 -x: unknown option");
    gives(&rt, alloc, &ECHO, "-2 -n -o f a b", "0= 1= 2=f +a+b");
    gives(&rt, alloc, &HELP, "goto_state", "+goto_state");
    gives(&rt, alloc, &QUIT, "", "");
}
