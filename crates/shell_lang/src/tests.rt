use crate::{Aliases, Command, History, LangFault, Vars, expand, recall, split_line};
use outside::{MemSink, Text, Words};
use std::alloc::{AllocError, Global};
use std::test::Fail;

// What a small shell keeps. Its commands are `set`, `unset`, `alias`, `unalias` and `names`; the words of
// any other one are shown.
#[derive(Drop)]
struct Shell {
    vars: Vars,
    aliases: Aliases,
    history: History,
}

fn text(alloc: Global, bytes: &str) -> Result<Text, AllocError> {
    Text::from_slice(alloc, bytes.as_bytes())
}

// A refusal's number and text.
fn shown_fault(alloc: Global, fault: &LangFault) -> Result<Text, Fail> {
    let mut sink = MemSink::new(alloc, 1000, &[])?;
    let mut text = Text::new(alloc);
    let number = fault.number();
    text.push(b'0' + (number / 100 % 10) as u8)?;
    text.push(b'0' + (number / 10 % 10) as u8)?;
    text.push(b'0' + (number % 10) as u8)?;
    text.push(b' ')?;
    fault.print_text(&mut sink)?;
    text.extend(sink.bytes())?;
    Ok(text)
}

// The words, each in brackets.
fn shown_words(alloc: Global, words: &[Text]) -> Result<Text, AllocError> {
    let mut text = Text::new(alloc);
    for word in words {
        text.push(b'[')?;
        text.extend(word.as_slice())?;
        text.push(b']')?;
    }
    Ok(text)
}

// The names of the variables, and behind them those of the aliases.
fn shown_names(alloc: Global, shell: &Shell) -> Result<Text, AllocError> {
    let mut text = Text::new(alloc);
    for (name, _) in shell.vars.entries().iter() {
        text.extend(name.as_slice())?;
        text.push(b' ')?;
    }
    for (name, _) in shell.aliases.entries().iter() {
        text.push(b'(')?;
        text.extend(name.as_slice())?;
        text.push(b')')?;
    }
    Ok(text)
}

// Does what the words say to variables and aliases, if they say that, and answers whether they did.
fn change(alloc: Global, shell: &mut Shell, words: &[Text]) -> Result<bool, LangFault> {
    let [command, name, rest @ ..] = words else {
        return Ok(false);
    };
    let command = command.as_slice();
    if command == b"set".as_slice() {
        match rest.first() {
            Some(value) => shell.vars.set(name, value)?,
            None => shell.vars.set(name, &Text::new(alloc))?,
        }
    } else if command == b"unset".as_slice() {
        shell.vars.unset(name)?;
    } else if command == b"alias".as_slice() {
        let mut body = Words::new(alloc);
        for word in rest {
            body.push(word.copy(alloc)?)?;
        }
        shell.aliases.put(name, &body)?;
    } else if command == b"unalias".as_slice() {
        shell.aliases.remove(name)?;
    } else {
        return Ok(false);
    }
    Ok(true)
}

// The answer to a command.
fn answer(alloc: Global, shell: &mut Shell, command: &Command) -> Result<Text, Fail> {
    let words = match expand(alloc, command, &shell.vars, &shell.aliases) {
        Ok(words) => words,
        Err(fault) => return shown_fault(alloc, &fault),
    };
    match change(alloc, shell, words.as_slice()) {
        Ok(true) => Ok(Text::new(alloc)),
        Ok(false) => match words.as_slice() {
            [only] if only.as_slice() == b"names".as_slice() => Ok(shown_names(alloc, shell)?),
            all => Ok(shown_words(alloc, all)?),
        },
        Err(fault) => shown_fault(alloc, &fault),
    }
}

// The answers to the commands of a line, each followed by a `;`, or the refusal of the line.
fn answers(alloc: Global, shell: &mut Shell, line: &Text) -> Result<Text, Fail> {
    let commands = match split_line(alloc, line) {
        Ok(commands) => commands,
        Err(fault) => return shown_fault(alloc, &fault),
    };
    let mut all = Text::new(alloc);
    for command in commands.as_slice() {
        all.extend(answer(alloc, shell, command)?.as_slice())?;
        all.push(b';')?;
    }
    Ok(all)
}

// What is answered to a line that is entered. The line that it stands for is remembered.
fn enter(alloc: Global, shell: &mut Shell, line: &str) -> Result<Text, Fail> {
    match recall(alloc, &text(alloc, line)?, &shell.history) {
        Ok(line) => {
            if shell.history.count() < 1_000_000 {
                shell.history.add(&line)?;
            }
            answers(alloc, shell, &line)
        }
        Err(fault) => shown_fault(alloc, &fault),
    }
}

const LINES: [(&str, &str); 58] = [
    // A session.
    ("set bmc_length 2", ";"),
    ("set bmc_length 10001", "636 bmc_length: illegal value;"),
    ("unset nope", "635 nope is unknown;"),
    ("alias e echo", ";"),
    ("e \"a;b\" $bmc_length # c", "[echo][a;b][2];"),
    ("echo -x", "[echo][-x];"),
    ("help goto_state", "[help][goto_state];"),
    ("set bmc_loopback -1", ";"),
    // Words and commands.
    ("", ""),
    (" \t ;; # only blanks", ""),
    ("a  b\tc", "[a][b][c];"),
    ("a;b ; c", "[a];[b];[c];"),
    ("a\"b c\"d", "[ab cd];"),
    ("\"\" \"x;y # $x\"", "[][x;y # $x];"),
    ("a#b", "[a];"),
    ("echo \"a", "631 unclosed quote"),
    ("# \"a", ""),
    // Variables in words.
    ("set x \"a b\"", ";"),
    ("p $x q", "[p][a b][q];"),
    ("p$x.q $x$x", "[pa b.q][a ba b];"),
    ("p $ $. $xy", "632 xy is not set;"),
    ("p $ $.", "[p][$][$.];"),
    ("p $default_trace_plugin", "[p][0];"),
    ("p $conflict_budget", "632 conflict_budget is not set;"),
    // Aliases.
    ("alias one two 1; alias two one 2", ";;"),
    ("one x", "[one][2][1][x];"),
    ("alias self self again; self x", ";[self][again][x];"),
    ("alias nothing; nothing e x", ";[echo][x];"),
    ("x e", "[x][e];"),
    ("unalias self; unalias self", ";635 self is unknown;"),
    // Values.
    ("set bmc_length 10000; p $bmc_length", ";[p][10000];"),
    ("set bmc_loopback -0", "636 bmc_loopback: illegal value;"),
    ("set bmc_loopback 4294967295", ";"),
    (
        "set bmc_loopback 4294967296",
        "636 bmc_loopback: illegal value;",
    ),
    ("set bmc_loopback X", ";"),
    (
        "set default_simulation_steps 0",
        "636 default_simulation_steps: illegal value;",
    ),
    (
        "set default_trace_plugin 3; p $default_trace_plugin",
        ";[p][3];",
    ),
    ("set shown_states 1001", "636 shown_states: illegal value;"),
    ("set conflict_budget 9223372036854775807", ";"),
    (
        "set conflict_budget 9223372036854775808",
        "636 conflict_budget: illegal value;",
    ),
    (
        "set conflict_budget 0",
        "636 conflict_budget: illegal value;",
    ),
    ("p $conflict_budget", "[p][9223372036854775807];"),
    ("set on_failure_script_quits", ";"),
    (
        "set on_failure_script_quits 2",
        "636 on_failure_script_quits: illegal value;",
    ),
    ("p a$on_failure_script_quits", "[p][a];"),
    (
        "unset bmc_length; unset conflict_budget; unset input_file",
        ";;;",
    ),
    (
        "p $bmc_length $shown_states $conflict_budget",
        "632 conflict_budget is not set;",
    ),
    ("p $bmc_length $shown_states", "[p][10][25];"),
    ("unset x; p $x", ";632 x is not set;"),
    (
        "names",
        "bmc_length bmc_loopback default_simulation_steps default_trace_plugin on_failure_script_quits shown_states (e)(nothing)(one)(two);",
    ),
    // Earlier lines.
    ("!5", "[echo][a;b][10];"),
    (" !! b", "[echo][a;b][10];"),
    ("!00006 b;c", "[echo][-x][b];[c];"),
    ("!! d", "[echo][-x][b];[c][d];"),
    ("!", "633 no such event"),
    ("!999", "633 no such event"),
    ("!x", "633 no such event"),
    ("  x !1", "[x][!1];"),
];

#[test]
fn lines(rt: HostRuntime) -> Result<(), Fail> {
    let alloc = rt.alloc();
    let mut shell = Shell {
        vars: Vars::new(alloc)?,
        aliases: Aliases::new(alloc)?,
        history: History::new(alloc)?,
    };
    for (line, want) in &LINES {
        let text = enter(alloc, &mut shell, line)?;
        assert_eq!(rt; text.as_slice(), want.as_bytes(), "{line}");
    }
    Ok(())
}
