ghost use Rattle.std.specs.Prelude.{◌≡◌, ◌++◌, OnOk, IfOk};
ghost use Rattle.veri_text.specs.Layout.{ports_list, more_ports, ports_lines, wires_from, regs_lines, assigns_from, outputs_lines, nexts_lines, block_text, always_text, head_text, body_text, net_text};
ghost use Rattle.veri_text.specs.Names.{taken_in, none_taken, pad_taken, outputs_taken, pads_taken};

use crate::names::Names;
use crate::pieces::{
    port_role, push_assign, push_module, push_next, push_output, push_port, push_reg_line,
    push_wire_line,
};
use lola_bits::{Memory, Name};
use lola_net::{Net, Node};
use std::alloc::{AllocError, Global};

/// The names of the outputs.
fn named_outputs(alloc: Global, outputs: &[(Name, u32)]) -> Result<Names, Memory>
    ensures { IfOk result (λ names. taken_in names ≡ outputs_taken none_taken outputs.now) }
{
    let mut names = Names::new(alloc);
    for output in outputs {
        names.add(alloc, output.0.text())?;
    }
    Ok(names)
}

/// Puts the name of a pad into a set; other nodes have none there.
fn add_pad(alloc: Global, names: &mut Names, node: &Node) -> Result<(), Memory>
    ensures { OnOk result (taken_in names.new ≡ pad_taken (taken_in names.old) node.now) }
{
    match node {
        Node::Pad { name, .. } => names.add(alloc, name.text()),
        _ => Ok(()),
    }
}

/// The names of the pads.
fn named_pads(alloc: Global, nodes: &[Node]) -> Result<Names, Memory>
    ensures { IfOk result (λ names. taken_in names ≡ pads_taken none_taken nodes.now) }
{
    let mut names = Names::new(alloc);
    for node in nodes {
        add_pad(alloc, &mut names, node)?;
    }
    Ok(names)
}

/// Appends further names of the list of ports, each behind a comma.
fn push_more_ports(out: &mut Vec<u8>, ports: &[Name]) -> Result<(), AllocError>
    ensures { OnOk result (out.new.items ≡ out.old.items ++ more_ports ports.now) }
{
    for port in ports {
        out.extend_from_slice(b",")?;
        out.extend_from_slice(port.text().as_bytes())?;
    }
    Ok(())
}

/// Appends the list of ports.
fn push_ports(out: &mut Vec<u8>, ports: &[Name]) -> Result<(), AllocError>
    ensures { OnOk result (out.new.items ≡ out.old.items ++ ports_list ports.now) }
{
    match ports {
        [] => Ok(()),
        [first, more @ ..] => {
            out.extend_from_slice(first.text().as_bytes())?;
            push_more_ports(out, more)
        }
    }
}

/// Appends the declarations of the ports.
fn push_port_lines(
    out: &mut Vec<u8>,
    ports: &[Name],
    outputs: &Names,
    pads: &Names,
) -> Result<(), AllocError>
    ensures { OnOk result (out.new.items ≡ out.old.items ++ ports_lines (taken_in outputs.now) (taken_in pads.now) ports.now) }
{
    for port in ports {
        push_port(out, port_role(port.text(), outputs, pads), port.text())?;
    }
    Ok(())
}

/// Appends the declarations of the gates' wires.
fn push_wires(out: &mut Vec<u8>, nodes: &[Node]) -> Result<(), AllocError>
    ensures { OnOk result (out.new.items ≡ out.old.items ++ wires_from 1 nodes.now) }
{
    for (at, node) in nodes.iter().enumerate() {
        push_wire_line(out, at + 1, node)?;
    }
    Ok(())
}

/// Appends the declarations of the registers.
fn push_regs(out: &mut Vec<u8>, nodes: &[Node]) -> Result<(), AllocError>
    ensures { OnOk result (out.new.items ≡ out.old.items ++ regs_lines nodes.now) }
{
    for node in nodes {
        push_reg_line(out, node)?;
    }
    Ok(())
}

/// Appends the assignments of gates and pads.
fn push_assigns(out: &mut Vec<u8>, nodes: &[Node]) -> Result<(), AllocError>
    ensures { OnOk result (out.new.items ≡ out.old.items ++ assigns_from nodes.now 1 nodes.now) }
{
    for (at, node) in nodes.iter().enumerate() {
        push_assign(out, nodes, at + 1, node)?;
    }
    Ok(())
}

/// Appends the assignments of the outputs.
fn push_outputs(
    out: &mut Vec<u8>,
    nodes: &[Node],
    outputs: &[(Name, u32)],
) -> Result<(), AllocError>
    ensures { OnOk result (out.new.items ≡ out.old.items ++ outputs_lines nodes.now outputs.now) }
{
    for output in outputs {
        push_output(out, nodes, output.0.text(), output.1)?;
    }
    Ok(())
}

/// Appends the lines of the registers' next values.
fn push_nexts(out: &mut Vec<u8>, nodes: &[Node]) -> Result<(), AllocError>
    ensures { OnOk result (out.new.items ≡ out.old.items ++ nexts_lines nodes.now nodes.now) }
{
    for node in nodes {
        push_next(out, nodes, node)?;
    }
    Ok(())
}

/// Appends the block of the registers.
fn push_block(out: &mut Vec<u8>, clock: &Name, nodes: &[Node]) -> Result<(), AllocError>
    ensures { OnOk result (out.new.items ≡ out.old.items ++ block_text clock.now nodes.now) }
{
    out.extend_from_slice(b"always @(posedge ")?;
    out.extend_from_slice(clock.text().as_bytes())?;
    out.extend_from_slice(b") begin\n")?;
    push_nexts(out, nodes)?;
    out.extend_from_slice(b"end\n")?;
    Ok(())
}

/// Appends the block of the registers, where there is a clock.
fn push_always(out: &mut Vec<u8>, clock: &Option<Name>, nodes: &[Node]) -> Result<(), AllocError>
    ensures { OnOk result (out.new.items ≡ out.old.items ++ always_text clock.now nodes.now) }
{
    match clock {
        Some(clock) => push_block(out, clock, nodes),
        None => Ok(()),
    }
}

/// Appends the line of the module and the declarations.
fn push_head(out: &mut Vec<u8>, net: &Net, outputs: &Names, pads: &Names) -> Result<(), AllocError>
    ensures { OnOk result (out.new.items ≡ out.old.items ++ head_text (taken_in outputs.now) (taken_in pads.now) net.now) }
{
    out.extend_from_slice(b"module ")?;
    push_module(out, &net.name)?;
    out.extend_from_slice(b"(")?;
    push_ports(out, net.ports.items())?;
    out.extend_from_slice(b");\n")?;
    push_port_lines(out, net.ports.items(), outputs, pads)?;
    push_wires(out, net.nodes.items())?;
    push_regs(out, net.nodes.items())?;
    Ok(())
}

/// Appends the assignments, the block of the registers and the end.
fn push_body(out: &mut Vec<u8>, net: &Net) -> Result<(), AllocError>
    ensures { OnOk result (out.new.items ≡ out.old.items ++ body_text net.now) }
{
    push_assigns(out, net.nodes.items())?;
    push_outputs(out, net.nodes.items(), net.outputs.items())?;
    push_always(out, &net.clock, net.nodes.items())?;
    out.extend_from_slice(b"endmodule\n")?;
    Ok(())
}

/// The text of a net in Verilog. Ports stand in their order, wires, registers and assignments in that of
/// the nodes. The only refusal is want of memory.
pub fn write(alloc: Global, net: &Net) -> Result<Vec<u8>, Memory>
    ensures { IfOk result (λ v. v.items ≡ net_text net.now) }
{
    let outputs = named_outputs(alloc, net.outputs.items())?;
    let pads = named_pads(alloc, net.nodes.items())?;
    let mut out = Vec::new(alloc);
    push_head(&mut out, net, &outputs, &pads)?;
    push_body(&mut out, net)?;
    Ok(out)
}
