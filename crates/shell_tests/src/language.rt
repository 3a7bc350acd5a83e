//! Lines, words, aliases, recall and scripts.
use crate::said::{answer, said};
use std::alloc::AllocError;

#[test]
fn splits_lines(rt: HostRuntime) -> Result<(), AllocError> {
    let alloc = rt.alloc();
    let rows = [
        ("", "0"),
        ("  \t\n;;\n", "0"),
        ("# a comment ; echo a\necho b # c", "b\n0"),
        ("echo a  b\tc", "a b c\n0"),
        ("echo \"a  b\"c;echo d", "a  bc\nd\n0"),
        ("echo \"a;b\" \"#\" \"$x\" \"!!\"", "a;b # $x !!\n0"),
        ("echo \"\" a", " a\n0"),
        ("echo \"a\necho b", "b\nerror 631: unclosed quote\n0"),
        ("echo a; echo \"b", "error 631: unclosed quote\n0"),
        (
            "nope a; echo b\necho c",
            "c\nerror 641: nope is no command\n0",
        ),
        ("ECHO a", "error 641: ECHO is no command\n0"),
    ];
    for (input, want) in rows {
        let said = answer(alloc, input)?;
        assert!(rt; said.as_slice() == want.as_bytes(), "{want}");
    }
    Ok(())
}

#[test]
fn fills_variables(rt: HostRuntime) -> Result<(), AllocError> {
    let alloc = rt.alloc();
    let rows = [
        ("set a b\necho x$a.y$a", "xb.yb\n0"),
        ("set a \"b c;d\"\necho $a", "b c;d\n0"),
        ("set a\necho [$a]", "[]\n0"),
        ("echo $bmc_length $default_trace_plugin", "10 0\n0"),
        ("echo $nope\necho b", "b\nerror 632: nope is not set\n0"),
        ("set a 1; set a 2; echo $a", "2\n0"),
        ("echo $ a$", "$ a$\n0"),
    ];
    for (input, want) in rows {
        let said = answer(alloc, input)?;
        assert!(rt; said.as_slice() == want.as_bytes(), "{want}");
    }
    Ok(())
}

#[test]
fn replaces_aliases(rt: HostRuntime) -> Result<(), AllocError> {
    let alloc = rt.alloc();
    let rows = [
        ("alias e echo\ne a e", "a e\n0"),
        ("alias e echo a\nalias f e b\nf c", "a b c\n0"),
        ("alias a b; alias b a; a", "error 641: a is no command\n0"),
        ("alias echo echo x\necho y", "x y\n0"),
        (
            "alias e echo\nunalias e\ne a",
            "error 641: e is no command\n0",
        ),
        (
            "alias e \"echo a\"\ne",
            "error 641: echo a is no command\n0",
        ),
        ("set v e\nalias e echo\n$v a", "a\n0"),
        ("set v x\nalias e echo \"$v\"\ne", "$v\n0"),
        (
            "alias e echo $v\nset v 1\ne",
            "error 632: v is not set\nerror 641: e is no command\n0",
        ),
    ];
    for (input, want) in rows {
        let said = answer(alloc, input)?;
        assert!(rt; said.as_slice() == want.as_bytes(), "{want}");
    }
    Ok(())
}

#[test]
fn recalls_lines(rt: HostRuntime) -> Result<(), AllocError> {
    let alloc = rt.alloc();
    let rows = [
        (
            "echo a\n!!\nhistory",
            "a\na\n1\techo a\n2\techo a\n3\thistory\n0",
        ),
        ("echo a\necho b\n!1 c\n!! d", "a\nb\na c\na c d\n0"),
        ("!!", "error 633: no such event\n0"),
        (
            "echo a\n!2\n!x\nhistory 1",
            "a\n2\thistory 1\nerror 633: no such event\nerror 633: no such event\n0",
        ),
        ("echo a\n\n  \nhistory", "a\n1\techo a\n2\thistory\n0"),
        ("echo a; !!", "a\nerror 641: !! is no command\n0"),
    ];
    for (input, want) in rows {
        let said = answer(alloc, input)?;
        assert!(rt; said.as_slice() == want.as_bytes(), "{want}");
    }
    Ok(())
}

#[test]
fn runs_scripts(rt: HostRuntime) -> Result<(), AllocError> {
    let alloc = rt.alloc();
    let rows = [
        ("", "echo a\necho b", "source s", "a\nb\n0"),
        (
            "",
            "echo a",
            "source s\nhistory",
            "a\n1\tsource s\n2\thistory\n0",
        ),
        (
            "",
            "echo a\n!!\n",
            "source s",
            "a\nerror 641: !! is no command\n0",
        ),
        ("", "echo a\nquit\necho b", "source s\necho c", "a\n0"),
        (
            "",
            "nope; echo a\necho b",
            "source s; echo c",
            "b\nc\nerror 641: nope is no command\n0",
        ),
        ("", "echo a", "source -x s", "echo a\na\n0"),
        ("", "echo a", "source -p s", "NuSMV > a\n0"),
        ("", "echo a", "source -p -x s", "NuSMV > echo a\na\n0"),
        (
            "",
            "set on_failure_script_quits\nnope\necho a",
            "source s\necho b",
            "error 641: nope is no command\n1",
        ),
        ("", "", "source -s u; echo a", "a\n0"),
        ("", "", "source u; echo a", "error 646: u: no such file\n0"),
        (
            "",
            "source s",
            "source s",
            "error 634: more than 16 scripts are nested\n0",
        ),
        ("-source s", "echo a", "echo b", "a\n0"),
        (
            "-source s -int",
            "echo a",
            "echo b",
            "a\nNuSMV > b\nNuSMV > 0",
        ),
        ("-source u", "", "echo b", "error 646: u: no such file\n0"),
    ];
    for (words, script, input, want) in rows {
        let said = said(
            alloc,
            words.as_bytes(),
            b"",
            script.as_bytes(),
            b"",
            input.as_bytes(),
        )?;
        assert!(rt; said.as_slice() == want.as_bytes(), "{want}");
    }
    Ok(())
}

#[test]
fn answers_words(rt: HostRuntime) -> Result<(), AllocError> {
    let alloc = rt.alloc();
    let usage = "usage: nusat [-int] [-source file] [model.smv] | nusat -gen n\n2";
    let rows = [
        ("", "", "0"),
        ("-int", "", "NuSMV > 0"),
        ("-int", "echo a\n", "NuSMV > a\nNuSMV > 0"),
        ("-int", "quit", "NuSMV > 0"),
        ("-x", "", usage),
        ("-source", "", usage),
        ("-int -int", "", usage),
        ("m.smv m.smv", "", usage),
        ("-source s -source s", "", usage),
    ];
    for (words, input, want) in rows {
        let said = said(alloc, words.as_bytes(), b"", b"", b"", input.as_bytes())?;
        assert!(rt; said.as_slice() == want.as_bytes(), "{want}");
    }
    Ok(())
}
