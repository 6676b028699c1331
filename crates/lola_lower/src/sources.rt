ghost use Rattle.std.specs.Prelude.{◌≡◌, ◌≢◌, ◌≤◌, ◌<◌, ◌+◌, ◌*◌, ◌^◌, ◌++◌, List, ℕ, suc, map, length, IfOk, OnOk, Err};
ghost use Rattle.lola_net.specs.declared.node.Node.TheVariants.{Free, Latch};
ghost use Rattle.lola_flat.specs.Tree.{flat_tree, signal_tree};
ghost use Rattle.lola_lower.specs.Sources.{is_alone, is_clock_path, is_input, is_register, has_input, has_latch, input_nodes, latch_nodes, all_inputs, all_latches, source_nodes, bits_at, elements_at, given_row, given_from};

use crate::names::signal_names;
use lola_alg::AlgError;
use lola_bits::{Name, Seq};
use lola_flat::{Flat, SigKind, Signal};
use lola_gate::Gates;
use std::alloc::Global;

/// Whether a path is one name alone.
fn is_alone(path: &[Name], name: &Name) -> bool
    ensures { result ≡ is_alone path.now name.now }
{
    match path {
        [] => false,
        [first, more @ ..] => more.is_empty() && first.text() == name.text(),
    }
}

/// Whether a signal's path is the clock's.
fn is_clock(flat: &Flat, signal: &Signal) -> bool
    ensures { result ≡ is_clock_path flat.now.clock signal.now.path }
{
    match &flat.clock {
        Some(name) => is_alone(signal.path.items(), name),
        None => false,
    }
}

/// Whether a signal is an input but the clock.
fn has_input(flat: &Flat, signal: &Signal) -> bool
    ensures { result ≡ has_input (flat_tree flat.now) (signal_tree signal.now) }
{
    match signal.kind {
        SigKind::Input => !is_clock(flat, signal),
        SigKind::Pad => false,
        SigKind::Wire => false,
        SigKind::Register => false,
    }
}

/// Whether a signal is a register.
fn has_latch(signal: &Signal) -> bool
    ensures { result ≡ has_latch (signal_tree signal.now) }
{
    match signal.kind {
        SigKind::Input => false,
        SigKind::Pad => false,
        SigKind::Wire => false,
        SigKind::Register => true,
    }
}

/// Adds a free node for each name.
fn add_frees(alloc: Global, gates: &mut Gates, names: &[Name]) -> Result<(), AlgError>
    ensures ok { OnOk result (gates.new ≡ gates.old ++ map (λ (name : List ℕ). Free name) names.now) }
    ensures err { result ≢ Err AlgError.Full }
{
    for name in names {
        match gates.free(alloc, name) {
            Ok(_) => {}
            Err(_) => return Err(AlgError::Memory),
        }
    }
    Ok(())
}

/// Adds a latch for each name.
fn add_states(alloc: Global, gates: &mut Gates, names: &[Name]) -> Result<(), AlgError>
    ensures ok { OnOk result (gates.new ≡ gates.old ++ map (λ (name : List ℕ). Latch name 0) names.now) }
    ensures err { result ≢ Err AlgError.Full }
{
    for name in names {
        match gates.latch(alloc, name) {
            Ok(_) => {}
            Err(_) => return Err(AlgError::Memory),
        }
    }
    Ok(())
}

/// Adds the nodes of a signal where it is an input.
fn add_input(alloc: Global, gates: &mut Gates, flat: &Flat, signal: &Signal) -> Result<(), AlgError>
    ensures ok { OnOk result (gates.new ≡ gates.old ++ input_nodes (flat_tree flat.now) (signal_tree signal.now)) }
    ensures err { result ≢ Err AlgError.Full }
{
    if !has_input(flat, signal) {
        return Ok(());
    }
    match signal_names(alloc, signal) {
        Ok(names) => add_frees(alloc, gates, names.as_slice()),
        Err(_) => Err(AlgError::Memory),
    }
}

/// Adds the nodes of a signal where it is a register.
fn add_latch(alloc: Global, gates: &mut Gates, signal: &Signal) -> Result<(), AlgError>
    ensures ok { OnOk result (gates.new ≡ gates.old ++ latch_nodes (signal_tree signal.now)) }
    ensures err { result ≢ Err AlgError.Full }
{
    if !has_latch(signal) {
        return Ok(());
    }
    match signal_names(alloc, signal) {
        Ok(names) => add_states(alloc, gates, names.as_slice()),
        Err(_) => Err(AlgError::Memory),
    }
}

/// Adds a free node for each bit of the inputs but the clock.
pub(crate) fn add_inputs(alloc: Global, gates: &mut Gates, flat: &Flat) -> Result<(), AlgError>
    ensures ok { OnOk result (gates.new ≡ gates.old ++ all_inputs (flat_tree flat.now)) }
    ensures err { result ≢ Err AlgError.Full }
{
    let signals = flat.signals.items();
    for signal in signals {
        match add_input(alloc, gates, flat, signal) {
            Ok(()) => {}
            Err(error) => return Err(error),
        }
    }
    Ok(())
}

/// Adds a latch for each bit of the registers.
pub(crate) fn add_latches(alloc: Global, gates: &mut Gates, flat: &Flat) -> Result<(), AlgError>
    ensures ok { OnOk result (gates.new ≡ gates.old ++ all_latches (flat_tree flat.now)) }
    ensures err { result ≢ Err AlgError.Full }
{
    let signals = flat.signals.items();
    for signal in signals {
        match add_latch(alloc, gates, signal) {
            Ok(()) => {}
            Err(error) => return Err(error),
        }
    }
    Ok(())
}

/// The literals of a vector whose nodes have the numbers from `first` on, the highest bit first.
pub(crate) fn bits_at(alloc: Global, first: u32, width: u32) -> Result<Seq<u32>, AlgError>
    requires few { first + width ≤ 2 ^ 31 }
    ensures ok { IfOk result (λ bits. bits ≡ bits_at first width) }
    ensures err { result ≢ Err AlgError.Full }
{
    let mut bits = Vec::new(alloc);
    for place in 0..width {
        if let Err(_) = bits.push(2 * (first + (width - 1 - place))) {
            return Err(AlgError::Memory);
        }
    }
    Ok(Seq::of(bits))
}

/// The literals of so many elements, one behind another.
fn elements_at(alloc: Global, first: u32, width: u32, count: u32) -> Result<Seq<Seq<u32>>, AlgError>
    requires few { first + count * width ≤ 2 ^ 31 }
    ensures ok { IfOk result (λ elements. elements ≡ elements_at first width count) }
    ensures err { result ≢ Err AlgError.Full }
{
    let mut elements = Vec::new(alloc);
    let mut next = first;
    for element in 0..count {
        let bits = match bits_at(alloc, next, width) {
            Ok(bits) => bits,
            Err(error) => return Err(error),
        };
        if let Err(_) = elements.push(bits) {
            return Err(AlgError::Memory);
        }
        next += width;
    }
    Ok(Seq::of(elements))
}

/// What a signal has before the equations are made, where the next inputs and latches have these numbers.
fn given_row(
    alloc: Global,
    flat: &Flat,
    input: u32,
    latch: u32,
    signal: &Signal,
) -> Result<Seq<Seq<u32>>, AlgError>
    requires inputs { input + length (input_nodes (flat_tree flat.now) (signal_tree signal.now)) ≤ 2 ^ 31 }
    requires latches { latch + length (latch_nodes (signal_tree signal.now)) ≤ 2 ^ 31 }
    ensures ok { IfOk result (λ row. row ≡ given_row (flat_tree flat.now) input latch (signal_tree signal.now)) }
    ensures err { result ≢ Err AlgError.Full }
{
    if has_input(flat, signal) {
        elements_at(alloc, input, signal.width, signal.count)
    } else if has_latch(signal) {
        elements_at(alloc, latch, signal.width, signal.count)
    } else {
        Ok(Seq::new(alloc))
    }
}

/// The number of nodes that a signal has as an input.
fn input_size(flat: &Flat, signal: &Signal) -> u32
    requires { length (input_nodes (flat_tree flat.now) (signal_tree signal.now)) < 2 ^ 32 }
    ensures { result ≡ length (input_nodes (flat_tree flat.now) (signal_tree signal.now)) }
{
    if has_input(flat, signal) {
        signal.count * signal.width
    } else {
        0
    }
}

/// The number of nodes that a signal has as a register.
fn latch_size(signal: &Signal) -> u32
    requires { length (latch_nodes (signal_tree signal.now)) < 2 ^ 32 }
    ensures { result ≡ length (latch_nodes (signal_tree signal.now)) }
{
    if has_latch(signal) {
        signal.count * signal.width
    } else {
        0
    }
}

/// What the signals have before their equations are made: inputs the literals of the nodes from 1 on, and
/// registers those of the nodes from `first` on.
pub(crate) fn given_literals(
    alloc: Global,
    flat: &Flat,
    first: u32,
) -> Result<Vec<Seq<Seq<u32>>>, AlgError>
    requires inputs { 1 + length (all_inputs (flat_tree flat.now)) ≤ 2 ^ 31 }
    requires latches { first + length (all_latches (flat_tree flat.now)) ≤ 2 ^ 31 }
    ensures ok { IfOk result (λ table. table.items ≡ given_from (flat_tree flat.now) 1 first (flat_tree flat.now).signals) }
    ensures err { result ≢ Err AlgError.Full }
{
    let mut table = Vec::new(alloc);
    let mut input = 1;
    let mut latch = first;
    let signals = flat.signals.items();
    for signal in signals {
        let row = match given_row(alloc, flat, input, latch, signal) {
            Ok(row) => row,
            Err(error) => return Err(error),
        };
        if let Err(_) = table.push(row) {
            return Err(AlgError::Memory);
        }
        input += input_size(flat, signal);
        latch += latch_size(signal);
    }
    Ok(table)
}
