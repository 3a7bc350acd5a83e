//! The commands of the shell and of its settings, and what each refuses.
use crate::said::answer;
use std::alloc::AllocError;

#[test]
fn keeps_settings(rt: HostRuntime) -> Result<(), AllocError> {
    let alloc = rt.alloc();
    let rows = [
        (
            "set bmc_length 2\nset bmc_length 10001\nunset nope\nalias e echo\n\
             e \"a;b\" $bmc_length # c\necho -x\nhelp goto_state",
            "a;b 2\nerror 636: bmc_length: illegal value\nerror 635: nope is unknown\n\
             error 621: -x: unknown option\nerror 641: goto_state is no command\n0",
        ),
        (
            "set bmc_length 2; unset bmc_length; echo $bmc_length",
            "10\n0",
        ),
        ("set bmc_loopback -1; echo x$bmc_loopback", "x-1\n0"),
        (
            "set bmc_loopback -1\ncheck_ltlspec_bmc -k 1",
            "error 641: check_ltlspec_bmc is no command\n0",
        ),
        (
            "set conflict_budget 0\nset conflict_budget 1",
            "error 636: conflict_budget: illegal value\n0",
        ),
        ("set a 1; unset a; echo $a", "error 632: a is not set\n0"),
        (
            "set",
            "bmc_length = 10\nbmc_loopback = *\ndefault_simulation_steps = 10\n\
             default_trace_plugin = 0\non_failure_script_quits = 0\nshown_states = 25\n0",
        ),
        (
            "alias b echo x y; alias a b; alias; alias b",
            "a = b\nb = echo x y\nb = echo x y\n0",
        ),
        ("alias nope", "error 635: nope is unknown\n0"),
        ("unalias nope", "error 635: nope is unknown\n0"),
        (
            "set a 1; alias b echo; reset; b $a; history 1",
            "1\n1\tset a 1; alias b echo; reset; b $a; history 1\n0",
        ),
        (
            "set on_failure_script_quits 1; nope; echo b",
            "error 641: nope is no command\n1",
        ),
        (
            "set on_failure_script_quits 2\nnope\necho b",
            "b\nerror 636: on_failure_script_quits: illegal value\nerror 641: nope is no command\n0",
        ),
        (
            "set on_failure_script_quits 1\necho \"a\necho b",
            "error 631: unclosed quote\n1",
        ),
        (
            "set on_failure_script_quits 1\n!9\necho b",
            "error 633: no such event\n1",
        ),
        ("history 0", "0"),
    ];
    for (input, want) in rows {
        let said = answer(alloc, input)?;
        assert!(rt; said.as_slice() == want.as_bytes(), "{want}");
    }
    Ok(())
}

#[test]
fn echoes_and_helps(rt: HostRuntime) -> Result<(), AllocError> {
    let alloc = rt.alloc();
    let rows = [
        ("echo", "\n0"),
        ("echo -n a", "a0"),
        ("echo -2 a\necho b", "b\na\n0"),
        ("echo -o u a b\nsource u", "error 641: a is no command\n0"),
        ("echo -o u echo c\nsource u", "c\n0"),
        ("echo -2 -o u echo c\nsource u", "c\n0"),
        ("echo -o u -n echo \"d e\"; source u", "d e\n0"),
        ("help echo", "echo [-2] [-n] [-o file] [words]\n0"),
        ("help nope", "error 641: nope is no command\n0"),
        (
            "help",
            "alias\ncheck_log\necho\nexecute_text_trace\nhelp\nhistory\nquit\nread_model\nreset\n\
             set\nsource\nunalias\nunset\n0",
        ),
        ("quit; echo a", "0"),
    ];
    for (input, want) in rows {
        let said = answer(alloc, input)?;
        assert!(rt; said.as_slice() == want.as_bytes(), "{want}");
    }
    Ok(())
}

#[test]
fn refuses_options(rt: HostRuntime) -> Result<(), AllocError> {
    let alloc = rt.alloc();
    let rows = [
        ("quit -x", "error 621: -x: unknown option\n0"),
        ("read_model -i", "error 622: -i: argument missing\n0"),
        ("echo -n -n", "error 623: -n: given twice\n0"),
        (
            "history x",
            "error 625: x: number unreadable or out of range\n0",
        ),
        ("quit now", "error 626: now: too many words\n0"),
        ("check_log", "error 627: file: missing\n0"),
        ("read_model", "error 627: -i: missing\n0"),
    ];
    for (input, want) in rows {
        let said = answer(alloc, input)?;
        assert!(rt; said.as_slice() == want.as_bytes(), "{want}");
    }
    Ok(())
}
