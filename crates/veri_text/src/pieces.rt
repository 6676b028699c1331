ghost use Rattle.std.specs.Prelude.{◌≡◌, ◌++◌, OnOk};
ghost use Rattle.veri_text.specs.Layout.{node_name, node_text, literal_text, wire_text, port_line, wire_line, reg_line, gate_line, pad_line, assign_line, output_line, next_line, has_capital_letter, module_name};
ghost use Rattle.veri_text.specs.Names.{taken_in, role_of};

use crate::names::Names;
use itoa::Buffer;
use lola_bits::Name;
use lola_net::Node;
use std::alloc::AllocError;

/// How a port is declared.
#[derive(Clone, Copy)]
pub(crate) enum Role {
    Input,
    Output,
    Inout,
}

/// How a port is declared: as an output, as a pad, and else as an input.
pub(crate) fn port_role(name: &str, outputs: &Names, pads: &Names) -> Role
    ensures { result ≡ role_of (taken_in outputs.now) (taken_in pads.now) name.now }
{
    if outputs.has(name) {
        Role::Output
    } else if pads.has(name) {
        Role::Inout
    } else {
        Role::Input
    }
}

/// Appends the name of a gate's wire.
fn push_wire(out: &mut Vec<u8>, number: usize) -> Result<(), AllocError>
    ensures { OnOk result (out.new.items ≡ out.old.items ++ wire_text number) }
{
    let mut buffer = Buffer::new();
    out.extend_from_slice(b"_")?;
    out.extend_from_slice(buffer.format(number).as_bytes())?;
    Ok(())
}

/// Appends the name of a node with a number.
fn push_name(out: &mut Vec<u8>, number: usize, node: &Node) -> Result<(), AllocError>
    ensures { OnOk result (out.new.items ≡ out.old.items ++ node_name number node.now) }
{
    match node {
        Node::Free { name } => out.extend_from_slice(name.text().as_bytes()),
        Node::Latch { name, .. } => out.extend_from_slice(name.text().as_bytes()),
        Node::Pad { name, .. } => out.extend_from_slice(name.text().as_bytes()),
        Node::Gate { .. } => push_wire(out, number),
    }
}

/// Appends the name of the node of a number.
fn push_node(out: &mut Vec<u8>, nodes: &[Node], number: u32) -> Result<(), AllocError>
    ensures { OnOk result (out.new.items ≡ out.old.items ++ node_text nodes.now number) }
{
    let number = number as usize;
    if number == 0 || number > nodes.len() {
        return Ok(());
    }
    push_name(out, number, &nodes[number - 1])
}

/// Appends a literal: a constant, a name, or `~` and a name.
fn push_literal(out: &mut Vec<u8>, nodes: &[Node], literal: u32) -> Result<(), AllocError>
    ensures { OnOk result (out.new.items ≡ out.old.items ++ literal_text nodes.now literal) }
{
    if literal == 0 {
        out.extend_from_slice(b"1'b0")
    } else if literal == 1 {
        out.extend_from_slice(b"1'b1")
    } else if literal % 2 == 0 {
        push_node(out, nodes, literal / 2)
    } else {
        out.extend_from_slice(b"~")?;
        push_node(out, nodes, literal / 2)
    }
}

/// Appends the declaration of a port.
pub(crate) fn push_port(out: &mut Vec<u8>, role: Role, name: &str) -> Result<(), AllocError>
    ensures { OnOk result (out.new.items ≡ out.old.items ++ port_line role name.now) }
{
    match role {
        Role::Input => out.extend_from_slice(b"input ")?,
        Role::Output => out.extend_from_slice(b"output ")?,
        Role::Inout => out.extend_from_slice(b"inout ")?,
    }
    out.extend_from_slice(name.as_bytes())?;
    out.extend_from_slice(b";\n")?;
    Ok(())
}

/// Appends the declaration of a gate's wire; other nodes have none.
pub(crate) fn push_wire_line(
    out: &mut Vec<u8>,
    number: usize,
    node: &Node,
) -> Result<(), AllocError>
    ensures { OnOk result (out.new.items ≡ out.old.items ++ wire_line number node.now) }
{
    if let Node::Gate { .. } = node {
        out.extend_from_slice(b"wire ")?;
        push_wire(out, number)?;
        out.extend_from_slice(b";\n")?;
    }
    Ok(())
}

/// Appends the declaration of a register; other nodes have none.
pub(crate) fn push_reg_line(out: &mut Vec<u8>, node: &Node) -> Result<(), AllocError>
    ensures { OnOk result (out.new.items ≡ out.old.items ++ reg_line node.now) }
{
    if let Node::Latch { name, .. } = node {
        out.extend_from_slice(b"reg ")?;
        out.extend_from_slice(name.text().as_bytes())?;
        out.extend_from_slice(b";\n")?;
    }
    Ok(())
}

/// Appends the `assign` of a gate or a pad; other nodes have none.
pub(crate) fn push_assign(
    out: &mut Vec<u8>,
    nodes: &[Node],
    number: usize,
    node: &Node,
) -> Result<(), AllocError>
    ensures { OnOk result (out.new.items ≡ out.old.items ++ assign_line nodes.now number node.now) }
{
    match node {
        Node::Gate { a, b } => push_gate(out, nodes, number, *a, *b),
        Node::Pad {
            name,
            value,
            release,
        } => push_pad(out, nodes, name.text(), *value, *release),
        _ => Ok(()),
    }
}

/// Appends the `assign` of a gate.
fn push_gate(
    out: &mut Vec<u8>,
    nodes: &[Node],
    number: usize,
    a: u32,
    b: u32,
) -> Result<(), AllocError>
    ensures { OnOk result (out.new.items ≡ out.old.items ++ gate_line nodes.now number a b) }
{
    out.extend_from_slice(b"assign ")?;
    push_wire(out, number)?;
    out.extend_from_slice(b" = ")?;
    push_literal(out, nodes, a)?;
    out.extend_from_slice(b" & ")?;
    push_literal(out, nodes, b)?;
    out.extend_from_slice(b";\n")?;
    Ok(())
}

/// Appends the `assign` of a pad.
fn push_pad(
    out: &mut Vec<u8>,
    nodes: &[Node],
    name: &str,
    value: u32,
    release: u32,
) -> Result<(), AllocError>
    ensures { OnOk result (out.new.items ≡ out.old.items ++ pad_line nodes.now name.now value release) }
{
    out.extend_from_slice(b"assign ")?;
    out.extend_from_slice(name.as_bytes())?;
    out.extend_from_slice(b" = ")?;
    push_literal(out, nodes, release)?;
    out.extend_from_slice(b" ? 1'bz : ")?;
    push_literal(out, nodes, value)?;
    out.extend_from_slice(b";\n")?;
    Ok(())
}

/// Appends the `assign` of an output.
pub(crate) fn push_output(
    out: &mut Vec<u8>,
    nodes: &[Node],
    name: &str,
    literal: u32,
) -> Result<(), AllocError>
    ensures { OnOk result (out.new.items ≡ out.old.items ++ output_line nodes.now (name.now, literal)) }
{
    out.extend_from_slice(b"assign ")?;
    out.extend_from_slice(name.as_bytes())?;
    out.extend_from_slice(b" = ")?;
    push_literal(out, nodes, literal)?;
    out.extend_from_slice(b";\n")?;
    Ok(())
}

/// Appends the line of a register's next value; other nodes have none.
pub(crate) fn push_next(out: &mut Vec<u8>, nodes: &[Node], node: &Node) -> Result<(), AllocError>
    ensures { OnOk result (out.new.items ≡ out.old.items ++ next_line nodes.now node.now) }
{
    if let Node::Latch { name, next } = node {
        out.extend_from_slice(name.text().as_bytes())?;
        out.extend_from_slice(b" <= ")?;
        push_literal(out, nodes, *next)?;
        out.extend_from_slice(b";\n")?;
    }
    Ok(())
}

/// Whether a name has a capital letter.
fn has_capital(name: &[u8]) -> bool
    ensures { result ≡ has_capital_letter name.now }
{
    name.iter().any(|b| b.is_ascii_uppercase())
}

/// Appends the name of the module, with a `_` behind it where it has no capital letter, so that it is no
/// word of Verilog.
pub(crate) fn push_module(out: &mut Vec<u8>, name: &Name) -> Result<(), AllocError>
    ensures { OnOk result (out.new.items ≡ out.old.items ++ module_name name.now) }
{
    out.extend_from_slice(name.text().as_bytes())?;
    if !has_capital(name.text().as_bytes()) {
        out.extend_from_slice(b"_")?;
    }
    Ok(())
}
