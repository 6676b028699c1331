ghost use Rattle.std.specs.Prelude.{◌≡◌, ◌∷◌, ◌++◌, length, drop, map, replicate, false, IfOk, Some};
ghost use Rattle.std.specs.Option.{option_to_list};
ghost use Rattle.lola_net.specs.Literals.{at_place, at_node, at_literal};
ghost use Rattle.lola_net.specs.Counts.{latches, pads};
ghost use Rattle.lola_net.specs.Run.{Sources, first, value_of, rest_of, node_values, pad_bit, next_bit, picked, cycle_of};
ghost use Rattle.lola_net.specs.Parts.{sources_of, part_bit};

use crate::net::{Cycle, Kind, Net, counted};
use crate::node::Node;
use lola_bits::{Memory, Name, Seq};
use std::alloc::Global;

/// The bits that are still to be taken by latches, free nodes and pads.
#[derive(Clone, Copy)]
struct Bits<'a> {
    state: &'a [bool],
    inputs: &'a [bool],
    outside: &'a [bool],
}

/// What a node gives to the answer of a cycle.
#[derive(Clone, Copy)]
enum Part {
    /// What a pad carries.
    Pad,
    /// The next state of a latch.
    Next,
}

/// The bit at a place, and false past the end.
fn bit_at(bits: &[bool], place: usize) -> bool
    ensures { result ≡ at_place bits.now place }
{
    if place < bits.len() {
        bits[place]
    } else {
        false
    }
}

/// The value of a node; that of node 0, or of one that has no value yet, is false.
fn node_at(values: &[bool], node: u32) -> bool
    ensures { result ≡ at_node values.now node }
{
    if node == 0 {
        false
    } else {
        bit_at(values, node as usize - 1)
    }
}

/// The value of a literal.
fn literal_at(values: &[bool], literal: u32) -> bool
    ensures { result ≡ at_literal values.now literal }
{
    let value = node_at(values, literal / 2);
    if literal % 2 == 0 { value } else { !value }
}

/// The first of some bits, and the rest.
fn taken(bits: &[bool]) -> (bool, &[bool])
    ensures bit { result.0 ≡ first bits.now }
    ensures rest { result.1.now ≡ drop 1 bits.now }
{
    match bits {
        [] => (false, bits),
        [bit, rest @ ..] => (*bit, rest),
    }
}

/// The value of the next node, and the bits that are left then.
fn node_value<'a>(node: &Node, bits: Bits<'a>, made: &[bool]) -> (bool, Bits<'a>)
    ensures value { result.0 ≡ value_of (sources_of bits.entry) made.now node.now }
    ensures rest { sources_of result.1 ≡ rest_of (sources_of bits.entry) node.now }
{
    match node {
        Node::Free { .. } => {
            let (bit, inputs) = taken(bits.inputs);
            (bit, Bits { inputs, ..bits })
        }
        Node::Latch { .. } => {
            let (bit, state) = taken(bits.state);
            (bit, Bits { state, ..bits })
        }
        Node::Pad { value, release, .. } => {
            let (bit, outside) = taken(bits.outside);
            let carried = if literal_at(made, *release) {
                bit
            } else {
                literal_at(made, *value)
            };
            (carried, Bits { outside, ..bits })
        }
        Node::Gate { a, b } => (literal_at(made, *a) & literal_at(made, *b), bits),
    }
}

/// Puts the values of the nodes into a room of their length.
fn put_values(nodes: &[Node], bits: Bits, room: &mut [bool])
    requires { length room.old ≡ length nodes.now }
    ensures { room.new ≡ node_values (sources_of bits.entry) nodes.now }
{
    let mut left = bits;
    for (at, node) in nodes.iter().enumerate() {
        let (made, _) = room.split_at(at);
        let (value, rest) = node_value(node, left, made);
        left = rest;
        room[at] = value;
    }
}

/// Puts the values of the outputs into a room of their length.
fn put_outputs(outputs: &[(Name, u32)], values: &[bool], into: &mut [bool])
    requires { length into.old ≡ length outputs.now }
    ensures { into.new ≡ map (λ o. at_literal values.now o.1) outputs.now }
{
    for (at, output) in outputs.iter().enumerate() {
        into[at] = literal_at(values, output.1);
    }
}

/// What a node gives to a part of the answer.
fn part_of(part: Part, node: &Node, value: bool, values: &[bool]) -> Option<bool>
    ensures { result ≡ part_bit part values.now node.now value }
{
    match (part, node) {
        (Part::Pad, Node::Pad { .. }) => Some(value),
        (Part::Next, Node::Latch { next, .. }) => Some(literal_at(values, *next)),
        _ => None,
    }
}

/// Puts a part of the answer into a room of its length.
fn put_part(part: Part, nodes: &[Node], values: &[bool], into: &mut [bool])
    requires values { length values.now ≡ length nodes.now }
    requires into { length into.old ≡ length (picked (part_bit part values.now) nodes.now values.now) }
    ensures { into.new ≡ picked (part_bit part values.now) nodes.now values.now }
{
    let mut count = 0usize;
    for (at, node) in nodes.iter().enumerate() {
        if let Some(bit) = part_of(part, node, values[at], values) {
            into[count] = bit;
            count += 1;
        }
    }
}

/// So many bits, all false.
fn falses(alloc: Global, count: usize) -> Result<Vec<bool>, Memory>
    ensures { IfOk result (λ v. length v.items ≡ count) }
{
    match vec![in alloc; false; count] {
        Ok(bits) => Ok(bits),
        Err(_) => Err(Memory),
    }
}

/// What a net shows in a cycle: its outputs, pads and next state, given the bits of its latches, of its free
/// nodes and from outside of its pads, each in the order of their nodes. A bit that is missing is false, and
/// so is the value of a node that a gate uses before it is made. The only refusal is want of memory.
pub fn cycle(
    alloc: Global,
    net: &Net,
    state: &[bool],
    inputs: &[bool],
    outside: &[bool],
) -> Result<Cycle, Memory>
    ensures { IfOk result (λ c. c ≡ cycle_of net.now state.now inputs.now outside.now) }
{
    let mut room = falses(alloc, net.nodes.items().len())?;
    let outputs = falses(alloc, net.outputs.items().len())?;
    let pads = falses(alloc, counted(Kind::Pad, net.nodes.items()))?;
    let next = falses(alloc, counted(Kind::Latch, net.nodes.items()))?;
    let mut into = Cycle {
        outputs: Seq::of(outputs),
        pads: Seq::of(pads),
        next: Seq::of(next),
    };
    cycle_into(net, state, inputs, outside, &mut room, &mut into);
    Ok(into)
}

/// The same into lists of the answer's lengths, with a room as long as the nodes, which has the values of
/// the nodes afterwards. Takes no memory.
pub fn cycle_into(
    net: &Net,
    state: &[bool],
    inputs: &[bool],
    outside: &[bool],
    room: &mut [bool],
    into: &mut Cycle,
)
    requires room { length room.old ≡ length net.now.nodes }
    requires outputs { length into.old.outputs ≡ length net.now.outputs }
    requires pads { length into.old.pads ≡ pads net.now.nodes }
    requires next { length into.old.next ≡ latches net.now.nodes }
    ensures values { room.new ≡ node_values (record { state = state.now; inputs = inputs.now; outside = outside.now }) net.now.nodes }
    ensures cycle { into.new ≡ cycle_of net.now state.now inputs.now outside.now }
{
    let bits = Bits {
        state,
        inputs,
        outside,
    };
    put_values(net.nodes.items(), bits, room);
    put_outputs(net.outputs.items(), room, into.outputs.items_mut());
    put_part(Part::Pad, net.nodes.items(), room, into.pads.items_mut());
    put_part(Part::Next, net.nodes.items(), room, into.next.items_mut());
}
