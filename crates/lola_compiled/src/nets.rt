// What a text is compiled to.
use lola_compile::{CompileError, Counts, compile};
use std::alloc::Global;
use std::process::Abort;
use std::test::Fail;

/// The counts of a net in one line, and then its text; or that there is none, and why.
fn answer(alloc: Global, text: &[u8]) -> Result<String, Fail> {
    if text.len() > 1_048_576 {
        return Ok(String::from_str(alloc, "too long")?);
    }
    match compile(alloc, text) {
        Ok(compiled) => {
            let line = counts_line(alloc, compiled.counts)?;
            match str::from_utf8(compiled.text.as_slice()) {
                Ok(text) => Ok(format!(in alloc; "{line}{text}")?),
                Err(_) => Ok(String::from_str(alloc, "no text")?),
            }
        }
        Err(CompileError::Refused { refusal: _ }) => Ok(String::from_str(alloc, "refused")?),
        Err(CompileError::TooManyGates) => Ok(String::from_str(alloc, "gates")?),
        Err(CompileError::Memory) => Ok(String::from_str(alloc, "memory")?),
    }
}

/// The counts of a net.
fn counts_line(alloc: Global, counts: Counts) -> Result<String, Fail> {
    let Counts {
        inputs,
        outputs,
        pads,
        registers,
        gates,
    } = counts;
    Ok(format!(in alloc;
        "inputs={inputs} outputs={outputs} pads={pads} registers={registers} gates={gates}\n"
    )?)
}

/// A text is compiled to this.
fn compiles(rt: &impl Abort, alloc: Global, text: &str, expected: &str) -> Result<(), Fail> {
    let found = answer(alloc, text.as_bytes())?;
    assert_eq!(rt; found.as_str(), expected, "of {text}");
    Ok(())
}

// A full adder of two half adders: gates are shared and numbered in the order of equations.
#[test]
fn a_full_adder(rt: HostRuntime) -> Result<(), Fail> {
    compiles(
        &rt,
        rt.alloc(),
        "MODULE HA(IN a, b: BIT; OUT s, c: BIT); BEGIN s := a ^ b; c := a & b END HA. MODULE FA(IN x, y, z: BIT; OUT s, c: BIT); VAR u, v: HA; s1, c1, c2: BIT; BEGIN u(x, y, s1, c1); v(s1, z, s, c2); c := c1 | c2 END FA.",
        "inputs=3 outputs=2 pads=0 registers=0 gates=7\nmodule FA(x_0,y_0,z_0,s_0,c_0);\ninput x_0;\ninput y_0;\ninput z_0;\noutput s_0;\noutput c_0;\nwire _4;\nwire _5;\nwire _6;\nwire _7;\nwire _8;\nwire _9;\nwire _10;\nassign _4 = x_0 & y_0;\nassign _5 = ~x_0 & ~y_0;\nassign _6 = ~_4 & ~_5;\nassign _7 = z_0 & _6;\nassign _8 = ~z_0 & ~_6;\nassign _9 = ~_7 & ~_8;\nassign _10 = ~_4 & ~_7;\nassign s_0 = _9;\nassign c_0 = ~_10;\nendmodule\n",
    )
}

// The clock is a port and no input. The exclusive or of q and t makes the gate of both, that of neither, and the
// one of neither of these.
#[test]
fn a_toggler(rt: HostRuntime) -> Result<(), Fail> {
    compiles(
        &rt,
        rt.alloc(),
        "MODULE Tog(IN clk, rst, t: BIT; OUT o: BIT); REG (clk) q: BIT; BEGIN q := ~rst & (q ^ t); o := q END Tog.",
        "inputs=2 outputs=1 pads=0 registers=1 gates=4\nmodule Tog(clk_0,rst_0,t_0,o_0);\ninput clk_0;\ninput rst_0;\ninput t_0;\noutput o_0;\nwire _4;\nwire _5;\nwire _6;\nwire _7;\nreg q_0;\nassign _4 = t_0 & q_0;\nassign _5 = ~t_0 & ~q_0;\nassign _6 = ~_4 & ~_5;\nassign _7 = ~rst_0 & _6;\nassign o_0 = q_0;\nalways @(posedge clk_0) begin\nq_0 <= _7;\nend\nendmodule\n",
    )
}

// A pad has the value of `d` where `z` is 0, and is left to the outside where it is 1. Bits stand from the highest
// down.
#[test]
fn a_pad(rt: HostRuntime) -> Result<(), Fail> {
    compiles(
        &rt,
        rt.alloc(),
        "MODULE P(INOUT p: [2] BIT; IN z: BIT; d: [2] BIT; OUT i: [2] BIT); VAR c: [2] BIT; BEGIN TS(p, c, d, z); i := c END P.",
        "inputs=3 outputs=2 pads=2 registers=0 gates=0\nmodule P(p_1,p_0,z_0,d_1,d_0,i_1,i_0);\ninout p_1;\ninout p_0;\ninput z_0;\ninput d_1;\ninput d_0;\noutput i_1;\noutput i_0;\nassign p_1 = z_0 ? 1'bz : d_1;\nassign p_0 = z_0 ? 1'bz : d_0;\nassign i_1 = p_1;\nassign i_0 = p_0;\nendmodule\n",
    )
}

// What is no accepted source is not compiled.
#[test]
fn refusals(rt: HostRuntime) -> Result<(), Fail> {
    let alloc = rt.alloc();
    compiles(
        &rt,
        alloc,
        "MODULE L(OUT x: BIT); BEGIN x := ~x END L.",
        "refused",
    )?;
    compiles(
        &rt,
        alloc,
        "MODULE W(IN a: [8] BIT; b: [4] BIT; OUT o: [8] BIT); BEGIN o := a + b END W.",
        "refused",
    )?;
    compiles(&rt, alloc, "", "refused")
}
