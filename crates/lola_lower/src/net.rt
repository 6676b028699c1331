ghost use Rattle.std.specs.Prelude.{◌≡◌, ◌<◌, ◌+◌, ◌^◌, ◌++◌, length, reverse, flat_map, get_or, slice_get, Some, IfOk, OnOk};
ghost use Rattle.lola_flat.specs.Tree.{flat_tree, signal_tree};
ghost use Rattle.lola_flat.specs.Formed.{IsFormed};
ghost use Rattle.lola_lower.specs.Steps.{literals_down, outputs_down, outputs_from, port_names, outputs_in, port_outputs, clock_name, net_with, Lowers};

use crate::names::{bit_name, push_names, stem};
use crate::signals::{are_few, lower_order};
use crate::sources::{add_inputs, add_latches, given_literals};
use lola_alg::AlgError;
use lola_bits::{Memory, Name, Seq};
use lola_eval::lower_state;
use lola_flat::{Flat, SigKind, Signal};
use lola_gate::Gates;
use lola_net::Net;
use std::alloc::Global;

/// Puts the literals of a vector behind others, from its highest bit on.
fn push_down(literals: &mut Vec<u32>, bits: &[u32]) -> Result<(), Memory>
    ensures { OnOk result (literals.new.items ≡ literals.old.items ++ reverse bits.now) }
{
    match bits {
        [] => Ok(()),
        [lowest, more @ ..] => {
            push_down(literals, more)?;
            literals.push(*lowest)?;
            Ok(())
        }
    }
}

/// Puts the literals of elements behind others, from element 0 on and each from its highest bit.
fn push_literals(literals: &mut Vec<u32>, elements: &[Seq<u32>]) -> Result<(), Memory>
    ensures { OnOk result (literals.new.items ≡ literals.old.items ++ literals_down elements.now) }
{
    for bits in elements {
        push_down(literals, bits.items())?;
    }
    Ok(())
}

/// The next literals of all latches.
fn next_literals(alloc: Global, next: &[Seq<Seq<u32>>]) -> Result<Seq<u32>, Memory>
    ensures { IfOk result (λ literals. literals ≡ flat_map literals_down next.now) }
{
    let mut literals = Vec::new(alloc);
    for elements in next {
        push_literals(&mut literals, elements.items())?;
    }
    Ok(Seq::of(literals))
}

/// Puts the names of a port's bits behind others.
fn push_port(alloc: Global, names: &mut Vec<Name>, flat: &Flat, port: usize) -> Result<(), Memory>
    ensures { OnOk result (names.new.items ≡ names.old.items ++ port_names (flat_tree flat.now) port) }
{
    match flat.signals.items().get(port) {
        Some(signal) => push_names(alloc, names, signal),
        None => Ok(()),
    }
}

/// The names of the bits of all ports.
fn port_names(alloc: Global, flat: &Flat) -> Result<Seq<Name>, Memory>
    ensures { IfOk result (λ names. names ≡ flat_map (port_names (flat_tree flat.now)) flat.now.ports) }
{
    let mut names = Vec::new(alloc);
    let ports = flat.ports.items();
    for port in ports {
        push_port(alloc, &mut names, flat, *port as usize)?;
    }
    Ok(Seq::of(names))
}

/// Puts the names and literals of a vector's bits from one on behind others, the highest first.
fn push_bits(
    alloc: Global,
    outputs: &mut Vec<(Name, u32)>,
    text: &str,
    bit: usize,
    bits: &[u32],
) -> Result<(), Memory>
    requires { bit + length bits.now < 2 ^ 64 }
    ensures { OnOk result (outputs.new.items ≡ outputs.old.items ++ outputs_down text.now bit bits.now) }
{
    match bits {
        [] => Ok(()),
        [literal, more @ ..] => {
            push_bits(alloc, outputs, text, bit + 1, more)?;
            outputs.push((bit_name(alloc, text, bit)?, *literal))?;
            Ok(())
        }
    }
}

/// Puts the names and literals of a signal's bits behind others.
fn push_elements(
    alloc: Global,
    outputs: &mut Vec<(Name, u32)>,
    signal: &Signal,
    elements: &[Seq<u32>],
) -> Result<(), Memory>
    ensures { OnOk result (outputs.new.items ≡ outputs.old.items ++ outputs_from (signal_tree signal.now) 0 elements.now) }
{
    for element in 0..elements.len() {
        let text = stem(alloc, signal, element)?;
        push_bits(alloc, outputs, text.as_str(), 0, elements[element].items())?;
    }
    Ok(())
}

/// Puts the outputs of a port behind others, where it is an OUT port.
fn push_outputs(
    alloc: Global,
    outputs: &mut Vec<(Name, u32)>,
    signal: &Signal,
    elements: &[Seq<u32>],
) -> Result<(), Memory>
    ensures { OnOk result (outputs.new.items ≡ outputs.old.items ++ outputs_in (Some (signal_tree signal.now)) elements.now) }
{
    match signal.kind {
        SigKind::Wire => push_elements(alloc, outputs, signal, elements),
        SigKind::Input => Ok(()),
        SigKind::Pad => Ok(()),
        SigKind::Register => Ok(()),
    }
}

/// Puts the outputs of a port by its number behind others.
fn push_port_outputs(
    alloc: Global,
    outputs: &mut Vec<(Name, u32)>,
    flat: &Flat,
    signals: &[Seq<Seq<u32>>],
    port: usize,
) -> Result<(), Memory>
    requires { length signals.now ≡ length flat.now.signals }
    ensures { OnOk result (outputs.new.items ≡ outputs.old.items ++ port_outputs (flat_tree flat.now) signals.now port) }
{
    match flat.signals.items().get(port) {
        Some(signal) => push_outputs(alloc, outputs, signal, signals[port].items()),
        None => Ok(()),
    }
}

/// The outputs of all OUT ports.
fn outputs(
    alloc: Global,
    flat: &Flat,
    signals: &[Seq<Seq<u32>>],
) -> Result<Seq<(Name, u32)>, Memory>
    requires { length signals.now ≡ length flat.now.signals }
    ensures { IfOk result (λ outputs. outputs ≡ flat_map (port_outputs (flat_tree flat.now) signals.now) flat.now.ports) }
{
    let mut outputs = Vec::new(alloc);
    let ports = flat.ports.items();
    for port in ports {
        push_port_outputs(alloc, &mut outputs, flat, signals, *port as usize)?;
    }
    Ok(Seq::of(outputs))
}

/// The name of the clock.
fn clock_name(alloc: Global, flat: &Flat) -> Result<Option<Name>, Memory>
    ensures { IfOk result (λ name. name ≡ clock_name flat.now.clock) }
{
    match &flat.clock {
        Some(name) => Ok(Some(bit_name(alloc, name.text(), 0)?)),
        None => Ok(None),
    }
}

/// The net of the nodes of a design, whose signals have these literals, and whose registers these next ones.
fn finish(
    alloc: Global,
    gates: Gates,
    flat: &Flat,
    signals: &[Seq<Seq<u32>>],
    next: &[Seq<Seq<u32>>],
) -> Result<Net, Memory>
    requires { length signals.now ≡ length flat.now.signals }
    ensures { IfOk result (λ net. net ≡ net_with (flat_tree flat.now) gates signals.now next.now) }
{
    let name = Name::new(alloc, flat.root.text())?;
    let clock = clock_name(alloc, flat)?;
    let ports = port_names(alloc, flat)?;
    let next = next_literals(alloc, next)?;
    let outputs = outputs(alloc, flat, signals)?;
    gates.into_net(alloc, name, clock, ports, next, outputs)
}

/// The net of a well formed flat design: exactly `net_of`. Its nodes are the
/// inputs but the clock and the registers, in signal order, then the signals in the order of equations, a pad
/// being its value, its release and then its pad nodes, and then the next values of the registers. All names
/// but the net's own are bit names; the ports stand in text order, the clock among them, and the outputs are
/// those of the OUT ports. `Full` comes exactly where a gate of it has no place, and `Memory` for want of
/// memory.
pub fn lower(alloc: Global, flat: &Flat) -> Result<Net, AlgError>
    requires formed { IsFormed (flat_tree flat.now) }
    ensures net { Lowers (flat_tree flat.now) result }
{
    let mut gates = Gates::new(alloc);
    match add_inputs(alloc, &mut gates, flat) {
        Ok(()) => {}
        Err(error) => return Err(error),
    }
    let latch = gates.node_count() + 1;
    match add_latches(alloc, &mut gates, flat) {
        Ok(()) => {}
        Err(error) => return Err(error),
    }
    are_few(&gates);
    let given = match given_literals(alloc, flat, latch) {
        Ok(given) => given,
        Err(error) => return Err(error),
    };
    let signals = match lower_order(alloc, &mut gates, flat, flat.order.items(), given) {
        Ok(signals) => signals,
        Err(error) => return Err(error),
    };
    let next = match lower_state(alloc, &mut gates, flat, signals.as_slice()) {
        Ok(next) => next,
        Err(error) => return Err(error),
    };
    match finish(alloc, gates, flat, signals.as_slice(), next.as_slice()) {
        Ok(net) => Ok(net),
        Err(_) => Err(AlgError::Memory),
    }
}
