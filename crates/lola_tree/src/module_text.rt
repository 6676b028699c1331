ghost use Rattle.std.specs.Prelude.{◌≡◌, [], ◌++◌, OnOk, codes};
ghost use Rattle.lola_tree.specs.Tree.{module_tree};
ghost use Rattle.lola_tree.specs.Print.{shape_text, width_word, array_word, vector_text, way_text, port_text, ports_text, const_text, consts_text, head_text, kind_text, local_text, shares_head, locals_text, more_locals, title_text, module_text};

use crate::module::{Const, Local, LocalKind, Module, Port, Way};
use crate::named::{Count, Shape};
use crate::stmt_text::push_body;
use crate::token_text::{push_bracketed, push_name, push_number};
use std::alloc::AllocError;

/// Appends a module.
pub(crate) fn push_module(out: &mut Vec<u8>, module: &Module) -> Result<(), AllocError>
    ensures { OnOk result (out.new.items ≡ out.old.items ++ module_text (module_tree «module».now)) }
{
    push_title(out, module)?;
    push_consts(out, module.consts.items())?;
    push_locals(out, module.locals.items())?;
    push_body(out, module.body.items())?;
    out.extend_from_slice(b"END ")?;
    push_name(out, &module.ends.name)?;
    out.extend_from_slice(b".\n")?;
    Ok(())
}

/// Appends the name of a module and its ports.
fn push_title(out: &mut Vec<u8>, module: &Module) -> Result<(), AllocError>
    ensures { OnOk result (out.new.items ≡ out.old.items ++ title_text (module_tree «module».now)) }
{
    out.extend_from_slice(b"MODULE ")?;
    push_name(out, &module.name)?;
    out.extend_from_slice(b"( ")?;
    push_ports(out, module.ports.items())?;
    out.extend_from_slice(b") ;\n")?;
    Ok(())
}

/// Appends ports, each as a group of its own.
fn push_ports(out: &mut Vec<u8>, ports: &[Port]) -> Result<(), AllocError>
    ensures { OnOk result (out.new.items ≡ out.old.items ++ ports_text [] ports.now) }
{
    let mut before: &[u8] = b"";
    for port in ports {
        out.extend_from_slice(before)?;
        push_port(out, port)?;
        before = b";\n";
    }
    Ok(())
}

fn push_port(out: &mut Vec<u8>, port: &Port) -> Result<(), AllocError>
    ensures { OnOk result (out.new.items ≡ out.old.items ++ port_text port.now) }
{
    push_way(out, port.way)?;
    push_name(out, &port.name)?;
    out.extend_from_slice(b": ")?;
    push_shape(out, &port.shape)
}

fn push_way(out: &mut Vec<u8>, way: Way) -> Result<(), AllocError>
    ensures { OnOk result (out.new.items ≡ out.old.items ++ way_text way) }
{
    match way {
        Way::Inward => out.extend_from_slice(b"IN ")?,
        Way::Outward => out.extend_from_slice(b"OUT ")?,
        Way::Both => out.extend_from_slice(b"INOUT ")?,
    }
    Ok(())
}

/// Appends a type: a width that has a word stands as that word, but for the width 1 of an array.
pub fn push_shape(out: &mut Vec<u8>, shape: &Shape) -> Result<(), AllocError>
    ensures { OnOk result (out.new.items ≡ out.old.items ++ shape_text shape.now) }
{
    match shape {
        Shape::Vector { width } => push_vector(out, width),
        Shape::Array { count, width } => {
            push_bracketed(out, count)?;
            push_element(out, width)
        }
    }
}

fn push_vector(out: &mut Vec<u8>, width: &Count) -> Result<(), AllocError>
    ensures { OnOk result (out.new.items ≡ out.old.items ++ vector_text width.now (width_word width.now)) }
{
    match width {
        Count::Fixed { value: 1, at: _ } => out.extend_from_slice(b"BIT ")?,
        _ => push_element(out, width)?,
    }
    Ok(())
}

fn push_element(out: &mut Vec<u8>, width: &Count) -> Result<(), AllocError>
    ensures { OnOk result (out.new.items ≡ out.old.items ++ vector_text width.now (array_word width.now)) }
{
    match width {
        Count::Fixed { value: 8, at: _ } => out.extend_from_slice(b"BYTE ")?,
        Count::Fixed { value: 32, at: _ } => out.extend_from_slice(b"WORD ")?,
        _ => {
            push_bracketed(out, width)?;
            out.extend_from_slice(b"BIT ")?;
        }
    }
    Ok(())
}

/// Appends the constants of a module.
fn push_consts(out: &mut Vec<u8>, consts: &[Const]) -> Result<(), AllocError>
    ensures { OnOk result (out.new.items ≡ out.old.items ++ consts_text (codes "CONST ") consts.now) }
{
    let mut before: &[u8] = b"CONST ";
    for constant in consts {
        out.extend_from_slice(before)?;
        push_const(out, constant)?;
        before = b"";
    }
    Ok(())
}

fn push_const(out: &mut Vec<u8>, constant: &Const) -> Result<(), AllocError>
    ensures { OnOk result (out.new.items ≡ out.old.items ++ const_text constant.now) }
{
    push_name(out, &constant.name)?;
    out.extend_from_slice(b":= ")?;
    push_number(out, constant.value, constant.width)?;
    out.extend_from_slice(b";\n")?;
    Ok(())
}

/// Appends the locals of a module, with a head where the kind or the clock changes.
fn push_locals(out: &mut Vec<u8>, locals: &[Local]) -> Result<(), AllocError>
    ensures { OnOk result (out.new.items ≡ out.old.items ++ locals_text locals.now) }
{
    match locals.split_first() {
        None => Ok(()),
        Some((first, rest)) => {
            push_head(out, &first.kind)?;
            push_local(out, first)?;
            push_more_locals(out, &first.kind, rest)
        }
    }
}

/// Appends the locals behind one of this kind.
fn push_more_locals(out: &mut Vec<u8>, kind: &LocalKind, locals: &[Local]) -> Result<(), AllocError>
    ensures { OnOk result (out.new.items ≡ out.old.items ++ more_locals kind.now locals.now) }
{
    let mut before = kind;
    for local in locals {
        if !shares_head(before, &local.kind) {
            push_head(out, &local.kind)?;
        }
        push_local(out, local)?;
        before = &local.kind;
    }
    Ok(())
}

/// Whether a local stands under the head of one of another kind.
fn shares_head(before: &LocalKind, kind: &LocalKind) -> bool
    ensures { result ≡ shares_head before.now kind.now }
{
    match (before, kind) {
        (
            LocalKind::Reg { clock, shape: _ },
            LocalKind::Reg {
                clock: other,
                shape: _,
            },
        ) => clock.name.text() == other.name.text(),
        (LocalKind::Reg { .. }, _) | (_, LocalKind::Reg { .. }) => false,
        _ => true,
    }
}

fn push_head(out: &mut Vec<u8>, kind: &LocalKind) -> Result<(), AllocError>
    ensures { OnOk result (out.new.items ≡ out.old.items ++ head_text kind.now) }
{
    match kind {
        LocalKind::Reg { clock, shape: _ } => {
            out.extend_from_slice(b"REG ( ")?;
            push_name(out, &clock.name)?;
            out.extend_from_slice(b") ")?;
        }
        LocalKind::Var { .. } | LocalKind::Inst { .. } => out.extend_from_slice(b"VAR ")?,
    }
    Ok(())
}

fn push_local(out: &mut Vec<u8>, local: &Local) -> Result<(), AllocError>
    ensures { OnOk result (out.new.items ≡ out.old.items ++ local_text local.now) }
{
    push_name(out, &local.name)?;
    out.extend_from_slice(b": ")?;
    push_kind(out, &local.kind)?;
    out.extend_from_slice(b";\n")?;
    Ok(())
}

fn push_kind(out: &mut Vec<u8>, kind: &LocalKind) -> Result<(), AllocError>
    ensures { OnOk result (out.new.items ≡ out.old.items ++ kind_text kind.now) }
{
    match kind {
        LocalKind::Reg { clock: _, shape } => push_shape(out, shape),
        LocalKind::Var { shape } => push_shape(out, shape),
        LocalKind::Inst { module } => push_name(out, &module.name),
    }
}
