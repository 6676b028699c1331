// A flat design as lines: its root and clock, the ports, each signal, and the order of the equations.
//
//     Top clock clk
//     ports clk d o
//     clk input 1
//     o wire 1 = R[5'3]
//     R register 8 of 4 [1'2] := mux(d, u.q, R[1'2])
//     order o
//
// A line of a signal has its path, kind and width, of an array also the count of its elements, the place that is
// written, and what gives the value or next value. In expressions 5'3 is 5 in width 3, x[7:4] a slice, {x!2, y!1}
// a concatenation with how often each part stands there, and outside(p) the outside value of a pad.
use lola_bits::{Name, Op, Seq};
use lola_flat::{FExpr, Flat, SigKind, Signal};
use std::alloc::Global;
use std::test::Fail;

/// The names of a path with dots between.
fn push_path(out: &mut String, path: &[Name]) -> Result<(), Fail> {
    for (at, name) in path.iter().enumerate() {
        if at > 0 {
            out.push_str(".")?;
        }
        out.push_str(name.text())?;
    }
    Ok(())
}

/// The path of a signal by its number.
fn push_signal(out: &mut String, signals: &[Signal], number: u32) -> Result<(), Fail> {
    match signals.get(number as usize) {
        Some(signal) => push_path(out, signal.path.items()),
        None => Err(Fail::from("no signal of a number")),
    }
}

fn push_number(alloc: Global, out: &mut String, number: u128) -> Result<(), Fail> {
    let text = format!(in alloc; "{number}")?;
    out.push_str(text.as_str())?;
    Ok(())
}

fn operator(op: Op) -> &'static str {
    match op {
        Op::Not => "not",
        Op::And => "and",
        Op::Or => "or",
        Op::Xor => "xor",
        Op::Add => "add",
        Op::Sub => "sub",
        Op::Eq => "eq",
        Op::Ne => "ne",
        Op::Lt => "lt",
        Op::Le => "le",
        Op::Gt => "gt",
        Op::Ge => "ge",
        Op::Mux => "mux",
        Op::Shl => "shl",
        Op::Shr => "shr",
        Op::Asr => "asr",
        Op::Ror => "ror",
    }
}

/// Expressions with commas between.
#[cycle(expr)]
fn push_exprs(
    alloc: Global,
    out: &mut String,
    signals: &[Signal],
    exprs: &[FExpr],
) -> Result<(), Fail> {
    for (at, expr) in exprs.iter().enumerate() {
        if at > 0 {
            out.push_str(", ")?;
        }
        push_expr(alloc, out, signals, expr)?;
    }
    Ok(())
}

#[cycle(expr)]
fn push_expr(
    alloc: Global,
    out: &mut String,
    signals: &[Signal],
    expr: &FExpr,
) -> Result<(), Fail> {
    match expr {
        FExpr::Number { value } => {
            push_number(alloc, out, value.value)?;
            out.push_str("'")?;
            push_number(alloc, out, value.width as u128)?;
        }
        FExpr::Signal { number } => push_signal(out, signals, *number)?,
        FExpr::Outside { number } => {
            out.push_str("outside(")?;
            push_signal(out, signals, *number)?;
            out.push_str(")")?;
        }
        FExpr::Element { number, place } => {
            push_signal(out, signals, *number)?;
            out.push_str("[")?;
            push_expr(alloc, out, signals, place)?;
            out.push_str("]")?;
        }
        FExpr::Slice { of, high, low } => {
            push_expr(alloc, out, signals, of)?;
            let bits = format!(in alloc; "[{high}:{low}]")?;
            out.push_str(bits.as_str())?;
        }
        FExpr::Join { parts } => {
            out.push_str("{")?;
            push_exprs(alloc, out, signals, parts.items())?;
            out.push_str("}")?;
        }
        FExpr::Repeat { part, times } => {
            push_expr(alloc, out, signals, part)?;
            out.push_str("!")?;
            push_number(alloc, out, *times as u128)?;
        }
        FExpr::Apply { op, args } => {
            out.push_str(operator(*op))?;
            out.push_str("(")?;
            push_exprs(alloc, out, signals, args.items())?;
            out.push_str(")")?;
        }
    }
    Ok(())
}

fn kind_name(kind: SigKind) -> &'static str {
    match kind {
        SigKind::Input => " input ",
        SigKind::Pad => " pad ",
        SigKind::Wire => " wire ",
        SigKind::Register => " register ",
    }
}

fn equals(kind: SigKind) -> &'static str {
    match kind {
        SigKind::Register => " := ",
        _ => " = ",
    }
}

/// What gives a signal its value, and a register its next value.
fn push_equation(
    alloc: Global,
    out: &mut String,
    signals: &[Signal],
    signal: &Signal,
) -> Result<(), Fail> {
    match &signal.place {
        Some(place) => {
            out.push_str(" [")?;
            push_expr(alloc, out, signals, place)?;
            out.push_str("]")?;
        }
        None => {}
    }
    match &signal.equation {
        Some(equation) => {
            out.push_str(equals(signal.kind))?;
            push_expr(alloc, out, signals, equation)?;
        }
        None => {}
    }
    Ok(())
}

/// The line of a signal.
fn push_line(
    alloc: Global,
    out: &mut String,
    signals: &[Signal],
    signal: &Signal,
) -> Result<(), Fail> {
    push_path(out, signal.path.items())?;
    out.push_str(kind_name(signal.kind))?;
    if signal.count != 1 {
        push_number(alloc, out, signal.count as u128)?;
        out.push_str(" of ")?;
    }
    push_number(alloc, out, signal.width as u128)?;
    push_equation(alloc, out, signals, signal)?;
    out.push_str("\n")?;
    Ok(())
}

/// A word and the paths of some signals.
fn push_row(
    out: &mut String,
    word: &str,
    signals: &[Signal],
    numbers: &Seq<u32>,
) -> Result<(), Fail> {
    out.push_str(word)?;
    for number in numbers.items() {
        out.push_str(" ")?;
        push_signal(out, signals, *number)?;
    }
    out.push_str("\n")?;
    Ok(())
}

/// The lines of a flat design.
pub(crate) fn flat_text(alloc: Global, flat: &Flat) -> Result<String, Fail> {
    let signals = flat.signals.items();
    let mut out = String::from_str(alloc, flat.root.text())?;
    match &flat.clock {
        Some(clock) => {
            out.push_str(" clock ")?;
            out.push_str(clock.text())?;
        }
        None => {}
    }
    out.push_str("\n")?;
    push_row(&mut out, "ports", signals, &flat.ports)?;
    for signal in signals {
        push_line(alloc, &mut out, signals, signal)?;
    }
    push_row(&mut out, "order", signals, &flat.order)?;
    Ok(out)
}
