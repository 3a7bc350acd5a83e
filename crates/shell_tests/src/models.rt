//! Models, traces and logs.
use crate::said::{TOGGLE, TWO_STATES, said, text};
use outside::Text;
use std::alloc::{AllocError, Global};

/// What is said of a trace of two states with this end, on this model.
fn said_of(alloc: Global, model: &[u8], end: &str, input: &str) -> Result<Text, AllocError> {
    let mut trace = text(alloc, TWO_STATES)?;
    trace.extend(end.as_bytes())?;
    said(
        alloc,
        b"m.smv",
        model,
        b"",
        trace.as_slice(),
        input.as_bytes(),
    )
}

#[test]
fn executes_traces(rt: HostRuntime) -> Result<(), AllocError> {
    let alloc = rt.alloc();
    let rows = [
        (
            "x = FALSE\n",
            "execute_text_trace t",
            "-- the trace is executed, states: 3\n0",
        ),
        (
            "x = TRUE\n",
            "execute_text_trace t",
            "-- the trace stops at state 3: TRANS at 4:1\n0",
        ),
        (
            "",
            "execute_text_trace t",
            "error 616: line 5: no value for x\n0",
        ),
        (
            "x = 1\n",
            "execute_text_trace t",
            "error 899: not built yet\n0",
        ),
        (
            "",
            "execute_text_trace -c t\nexecute_text_trace -c u",
            "error 899: not built yet\nerror 646: u: no such file\n0",
        ),
        ("", "execute_text_trace u", "error 646: u: no such file\n0"),
        (
            "x = FALSE\n",
            "execute_text_trace t\nread_model\nreset\nread_model\nexecute_text_trace t",
            "-- the trace is executed, states: 3\n-- the trace is executed, states: 3\n\
             error 643: a model is already there\n0",
        ),
        // A refused trace leaves no model behind.
        (
            "",
            "execute_text_trace t\nread_model",
            "error 616: line 5: no value for x\n0",
        ),
        (
            "x = FALSE\n",
            "unset input_file\nexecute_text_trace t\nread_model -i m.smv\n\
             execute_text_trace t\necho $input_file",
            "-- the trace is executed, states: 3\nm.smv\nerror 642: no model\n0",
        ),
        (
            "x = FALSE\n",
            "read_model -i t\nread_model -i u\nread_model\necho $input_file",
            "m.smv\nerror 104: 1:1: unexpected token\nerror 646: u: no such file\n0",
        ),
    ];
    for (end, input, want) in rows {
        let said = said_of(alloc, TOGGLE.as_bytes(), end, input)?;
        assert!(rt; said.as_slice() == want.as_bytes(), "{want}");
    }
    Ok(())
}

#[test]
fn needs_a_model(rt: HostRuntime) -> Result<(), AllocError> {
    let alloc = rt.alloc();
    let said = said(alloc, b"", b"", b"", b"", b"execute_text_trace -c t")?;
    assert!(rt; said.as_slice() == b"error 642: no model\n0".as_slice());
    Ok(())
}

/// What is said of a model that is read.
fn said_of_model(alloc: Global, model: &[u8]) -> Result<Text, AllocError> {
    said(alloc, b"m.smv", model, b"", b"", b"read_model")
}

#[test]
fn checks_logs(rt: HostRuntime) -> Result<(), AllocError> {
    let alloc = rt.alloc();
    let rows = [
        (
            "1 o 1 2 0\n2 o 1 -2 0\n3 c 1 0 1 2 0\nend 3\n",
            "-- the log is accepted, originals: 2, lines: 1\n0",
        ),
        (
            "1 o 1 2 0\n2 o 1 -2 0\n3 c 1 0 1 0\nend 3\n",
            "error 504: clause 3 is not accepted\n0",
        ),
        (
            "1 o 1 2 0\n2 o 1 -2 0\n3 c 1 0 1 2 0\n",
            "error 505: the log ends too early\n0",
        ),
        (
            "1 o 1 0\n2 o -1 0\n3 c 0 1 2 0\nend 3",
            "-- the log is accepted, originals: 2, lines: 1\n0",
        ),
        (
            "1 o 1 0\n2 o -1 0\n3 c 0 1 2 1 0\nend 3\n",
            "error 504: clause 3 is not accepted\n0",
        ),
        (
            "1 o 1 0\n2 o -1 0\n3 c 0 1 2\nend 3\n",
            "error 502: line 4: missing 0\n0",
        ),
        (
            "1 o 1 0\n2 o -1 0\n3 c 0 3 0\nend 3\n",
            "error 503: line 4: hint to no earlier clause\n0",
        ),
        (
            "1 o 1 0\n2 o -1 0\n3 q 0 1 2 0\nend 3\n",
            "error 501: line 4: bad number or word\n0",
        ),
    ];
    for (lines, want) in rows {
        let mut log = text(alloc, "log 1\n")?;
        log.extend(lines.as_bytes())?;
        let said = said(alloc, b"", b"", b"", log.as_slice(), b"check_log t")?;
        assert!(rt; said.as_slice() == want.as_bytes(), "{want}");
    }
    Ok(())
}

#[test]
fn refuses_models(rt: HostRuntime) -> Result<(), AllocError> {
    let alloc = rt.alloc();
    let rows = [
        (
            "MODULE main\nVAR x : boolean;\nINIT !x\nTRANS next(x) = = x\n",
            "error 104: 4:17: unexpected token\n0",
        ),
        ("@", "error 101: 1:1: unexpected byte\n0"),
        (
            "MODULE main\nINIT 0b2_111",
            "error 102: 2:6: bad word constant\n0",
        ),
        (
            "MODULE main\nINIT 9223372036854775808",
            "error 103: 2:6: number out of range\n0",
        ),
        ("MODULE main\nINIT x =", "error 105: 2:9: unexpected end\n0"),
        (
            "MODULE main\nINIT array",
            "error 107: 2:6: array is left out\n0",
        ),
        (
            "MODULE main JUSTICE x",
            "error 108: 1:13: fairness is left out\n0",
        ),
        (
            "MODULE main LTLSPEC O x",
            "error 109: 1:21: past operator is left out\n0",
        ),
        (
            "MODULE main INVARSPEC x",
            "error 110: 1:13: INVARSPEC is left out\n0",
        ),
        ("MODULE main INIT (TRUE)", "error 899: not built yet\n0"),
        ("MODULE main() INIT TRUE", "error 899: not built yet\n0"),
        (
            "MODULE main INIT TRUE & TRUE",
            "error 899: not built yet\n0",
        ),
        ("MODULE main INIT x", "error 899: not built yet\n0"),
        ("", "error 899: not built yet\n0"),
    ];
    for (model, want) in rows {
        let said = said_of_model(alloc, model.as_bytes())?;
        assert!(rt; said.as_slice() == want.as_bytes(), "{want}");
    }
    Ok(())
}

/// A model with this many bytes of one kind behind its front.
fn long_model(alloc: Global, front: &str, byte: u8, count: usize) -> Result<Text, AllocError> {
    let mut model = text(alloc, front)?;
    for _ in 0..count {
        model.push(byte)?;
    }
    Ok(model)
}

#[test]
fn refuses_models_past_a_limit(rt: HostRuntime) -> Result<(), AllocError> {
    let alloc = rt.alloc();
    let deep = long_model(alloc, "MODULE main INIT ", b'!', 1001)?;
    let said = said_of_model(alloc, deep.as_slice())?;
    assert!(rt; said.as_slice() == b"error 106: 1:1018: nested too deep\n0".as_slice());
    let long = long_model(alloc, "MODULE ", b'm', 256)?;
    let said = said_of_model(alloc, long.as_slice())?;
    assert!(rt; said.as_slice() == b"error 111: 1:8: name longer than 255 bytes\n0".as_slice());
    Ok(())
}
