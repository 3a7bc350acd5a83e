//! The tables of the commands. Before each stands the command as a user writes it.
ghost use Rattle.std.specs.Prelude.{IsTrue};
ghost use Rattle.cmd_table.specs.Distinct.{is_sound};

use crate::{FreeWord, Opt, OptWord, Table, Takes};

// An option that may be left out, by its word: one that takes nothing, one that takes a word, and one
// that takes a number from the first to the last. Then, the bits of the options that it excludes.
macro_rules! flag {
    ($word:ident) => {
        flag!($word, excludes 0)
    };
    ($word:ident, excludes $others:expr) => {
        Opt { word: OptWord::$word, takes: Takes::Nothing, excludes: $others, required: false }
    };
}

macro_rules! word {
    ($word:ident) => {
        word!($word, excludes 0)
    };
    ($word:ident, excludes $others:expr) => {
        Opt { word: OptWord::$word, takes: Takes::Word, excludes: $others, required: false }
    };
}

macro_rules! number {
    ($word:ident, $least:expr, $most:expr) => {
        number!($word, $least, $most, excludes 0)
    };
    ($word:ident, $least:expr, $most:expr, excludes $others:expr) => {
        Opt {
            word: OptWord::$word,
            takes: Takes::Number($least, $most),
            excludes: $others,
            required: false,
        }
    };
}

/// `read_model [-i file]`
pub const READ_MODEL: Table<1> = Table {
    opts: [word!(I)],
    least: 0,
    most: 0,
    alone: 0,
    free: FreeWord::Nothing,
    raw: false,
};

/// `flatten_hierarchy`
pub const FLATTEN_HIERARCHY: Table<0> = Table {
    opts: [],
    least: 0,
    most: 0,
    alone: 0,
    free: FreeWord::Nothing,
    raw: false,
};

/// `encode_variables`
pub const ENCODE_VARIABLES: Table<0> = FLATTEN_HIERARCHY;

/// `build_boolean_model`
pub const BUILD_BOOLEAN_MODEL: Table<0> = FLATTEN_HIERARCHY;

/// `bmc_setup`
pub const BMC_SETUP: Table<0> = FLATTEN_HIERARCHY;

/// `go_bmc`
pub const GO_BMC: Table<0> = FLATTEN_HIERARCHY;

/// `show_vars`
pub const SHOW_VARS: Table<0> = FLATTEN_HIERARCHY;

/// `show_property`
pub const SHOW_PROPERTY: Table<0> = FLATTEN_HIERARCHY;

/// `check_ltlspec_bmc [-k n] [-l c] [-n i | -p f | -P name]`
pub const CHECK_LTLSPEC_BMC: Table<5> = Table {
    opts: [
        number!(K, 0, 10_000),
        word!(L),
        number!(N, 0, i64::MAX, excludes 1 << 3 | 1 << 4),
        word!(P, excludes 1 << 2 | 1 << 4),
        word!(CapitalP, excludes 1 << 2 | 1 << 3),
    ],
    least: 0,
    most: 0,
    alone: 0,
    free: FreeWord::Nothing,
    raw: false,
};

/// `check_ltlspec_bmc_inc [-k n] [-l c] [-n i | -p f | -P name]`
pub const CHECK_LTLSPEC_BMC_INC: Table<5> = CHECK_LTLSPEC_BMC;

/// `check_ltlspec_bmc_onepb [-k n] [-l c] [-n i | -p f | -P name]`
pub const CHECK_LTLSPEC_BMC_ONEPB: Table<5> = CHECK_LTLSPEC_BMC;

/// `bmc_pick_state [-c e] [-v]`
pub const BMC_PICK_STATE: Table<2> = Table {
    opts: [word!(C), flag!(V)],
    least: 0,
    most: 0,
    alone: 0,
    free: FreeWord::Nothing,
    raw: false,
};

/// `bmc_simulate [-k n] [-c e | -t e] [-p | -v]`
pub const BMC_SIMULATE: Table<5> = Table {
    opts: [
        number!(K, 1, 10_000),
        word!(C, excludes 1 << 2),
        word!(T, excludes 1 << 1),
        flag!(P, excludes 1 << 4),
        flag!(V, excludes 1 << 3),
    ],
    least: 0,
    most: 0,
    alone: 0,
    free: FreeWord::Nothing,
    raw: false,
};

/// `bmc_inc_simulate [-k n] [-c e | -t e] [-p | -v]`
pub const BMC_INC_SIMULATE: Table<5> = BMC_SIMULATE;

/// `goto_state t.s`
pub const GOTO_STATE: Table<0> = Table {
    opts: [],
    least: 1,
    most: 1,
    alone: 0,
    free: FreeWord::State,
    raw: false,
};

/// `print_current_state [-v]`
pub const PRINT_CURRENT_STATE: Table<1> = Table {
    opts: [flag!(V)],
    least: 0,
    most: 0,
    alone: 0,
    free: FreeWord::Nothing,
    raw: false,
};

/// `show_traces [-a | -t] [-p n] [-o file] [t[.s[:e]]]`
pub const SHOW_TRACES: Table<4> = Table {
    opts: [
        flag!(A, excludes 1 << 1),
        flag!(T, excludes 1 << 0),
        number!(P, 0, i64::MAX),
        word!(O),
    ],
    least: 0,
    most: 1,
    alone: 1 << 0 | 1 << 1,
    free: FreeWord::States,
    raw: false,
};

/// `read_text_trace [-c | -p] file`
pub const READ_TEXT_TRACE: Table<2> = Table {
    opts: [flag!(C, excludes 1 << 1), flag!(P, excludes 1 << 0)],
    least: 1,
    most: 1,
    alone: 0,
    free: FreeWord::File,
    raw: false,
};

/// `execute_text_trace [-c] file`
pub const EXECUTE_TEXT_TRACE: Table<1> = Table {
    opts: [flag!(C)],
    least: 1,
    most: 1,
    alone: 0,
    free: FreeWord::File,
    raw: false,
};

/// `execute_traces -e sat [-a | t]`
pub const EXECUTE_TRACES: Table<2> = Table {
    opts: [
        Opt {
            word: OptWord::E,
            takes: Takes::Word,
            excludes: 0,
            required: true,
        },
        flag!(A),
    ],
    least: 0,
    most: 1,
    alone: 1 << 1,
    free: FreeWord::Trace,
    raw: false,
};

/// `execute_partial_traces -e sat [-a | t]`
pub const EXECUTE_PARTIAL_TRACES: Table<2> = EXECUTE_TRACES;

/// `write_log file`
pub const WRITE_LOG: Table<0> = Table {
    opts: [],
    least: 1,
    most: 1,
    alone: 0,
    free: FreeWord::File,
    raw: false,
};

/// `check_log file`
pub const CHECK_LOG: Table<0> = WRITE_LOG;

/// `print_bmc_stats`
pub const PRINT_BMC_STATS: Table<0> = FLATTEN_HIERARCHY;

/// `set [name [value]]`
pub const SET: Table<0> = Table {
    opts: [],
    least: 0,
    most: 2,
    alone: 0,
    free: FreeWord::Name,
    raw: true,
};

/// `unset name`
pub const UNSET: Table<0> = Table {
    opts: [],
    least: 1,
    most: 1,
    alone: 0,
    free: FreeWord::Name,
    raw: false,
};

/// `alias [name [words]]`
pub const ALIAS: Table<0> = Table {
    opts: [],
    least: 0,
    most: u32::MAX,
    alone: 0,
    free: FreeWord::Name,
    raw: true,
};

/// `unalias name`
pub const UNALIAS: Table<0> = UNSET;

/// `source [-p] [-s] [-x] file`
pub const SOURCE: Table<3> = Table {
    opts: [flag!(P), flag!(S), flag!(X)],
    least: 1,
    most: 1,
    alone: 0,
    free: FreeWord::File,
    raw: false,
};

/// `history [n]`
pub const HISTORY: Table<0> = Table {
    opts: [],
    least: 0,
    most: 1,
    alone: 0,
    free: FreeWord::Count,
    raw: false,
};

/// `echo [-2] [-n] [-o file] [words]`
pub const ECHO: Table<3> = Table {
    opts: [flag!(Two), flag!(N), word!(O)],
    least: 0,
    most: u32::MAX,
    alone: 0,
    free: FreeWord::Words,
    raw: false,
};

/// `help [command]`
pub const HELP: Table<0> = Table {
    opts: [],
    least: 0,
    most: 1,
    alone: 0,
    free: FreeWord::Command,
    raw: false,
};

/// `reset`
pub const RESET: Table<0> = FLATTEN_HIERARCHY;

/// `quit`
pub const QUIT: Table<0> = FLATTEN_HIERARCHY;

/// In no table do two options have one word, and none has more than 32 options. The tables that have
/// options are named; of equal ones the first.
pub fn words_differ()
    ensures read_model { IsTrue (is_sound READ_MODEL) }
    ensures check_ltlspec_bmc { IsTrue (is_sound CHECK_LTLSPEC_BMC) }
    ensures bmc_pick_state { IsTrue (is_sound BMC_PICK_STATE) }
    ensures bmc_simulate { IsTrue (is_sound BMC_SIMULATE) }
    ensures print_current_state { IsTrue (is_sound PRINT_CURRENT_STATE) }
    ensures show_traces { IsTrue (is_sound SHOW_TRACES) }
    ensures read_text_trace { IsTrue (is_sound READ_TEXT_TRACE) }
    ensures execute_text_trace { IsTrue (is_sound EXECUTE_TEXT_TRACE) }
    ensures execute_traces { IsTrue (is_sound EXECUTE_TRACES) }
    ensures source { IsTrue (is_sound SOURCE) }
    ensures echo { IsTrue (is_sound ECHO) }
{}
