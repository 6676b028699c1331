ghost use Rattle.std.specs.Prelude.{◌≡◌, OnOk};
ghost use Rattle.std.specs.Option.{option_copied};
ghost use Rattle.lola_tree.specs.Names.{entry_shape, kind_shape};
ghost use Rattle.lola_width.specs.NameFaults.{suits, is_array, is_vector, is_pad, is_readable, assigned_shape, is_receiver, is_instance, is_constant, use_faults};
ghost use Rattle.lola_width.specs.Order.{first_after};
ghost use Rattle.lola_width.specs.Table.{entry_of, found};

use crate::declared::Declared;
use crate::fault::{SourceFault, note};
use crate::table::Table;
use lola_bits::{Memory, Name};
use lola_tree::{LocalKind, Shape, Way};
use std::alloc::Global;

/// What a name is used as: a count; a value; an array of which an element is read; the target of an
/// assignment without a place, or with one; a called instance; what takes the value of an OUT port or
/// a pad; and a pad that is driven.
#[derive(Clone, Copy, Debug, PartialEq, Eq)]
pub enum Use {
    Count,
    Value,
    Indexed,
    Assigned,
    ElementAssigned,
    Called,
    Receiver,
    Pad,
}

/// Whether a type is an array.
pub fn is_array(shape: Option<&Shape>) -> bool
    ensures { result ≡ is_array (option_copied shape.entry) }
{
    match shape {
        Some(Shape::Array { count: _, width: _ }) => true,
        Some(Shape::Vector { width: _ }) => false,
        None => false,
    }
}

/// Whether a type is a vector.
fn is_vector(shape: Option<&Shape>) -> bool
    ensures { result ≡ is_vector (option_copied shape.entry) }
{
    match shape {
        Some(Shape::Vector { width: _ }) => true,
        Some(Shape::Array { count: _, width: _ }) => false,
        None => false,
    }
}

/// The type of a register or variable.
fn kind_shape(kind: &LocalKind) -> Option<&Shape>
    ensures { option_copied result ≡ kind_shape kind.now }
{
    match kind {
        LocalKind::Reg { clock: _, shape } => Some(shape),
        LocalKind::Var { shape } => Some(shape),
        LocalKind::Inst { module: _ } => None,
    }
}

/// The type of a name that has one.
pub fn shape_of<'a>(declared: Declared<'a>) -> Option<&'a Shape>
    ensures { option_copied result ≡ entry_shape (entry_of declared.entry) }
{
    match declared {
        Declared::Port(port) => Some(&port.shape),
        Declared::Const(_) => None,
        Declared::Local(local) => kind_shape(&local.kind),
    }
}

/// The type of what an assignment may set.
fn assigned_shape<'a>(declared: Declared<'a>) -> Option<&'a Shape>
    ensures { option_copied result ≡ assigned_shape (entry_of declared.entry) }
{
    match declared {
        Declared::Port(port) => match port.way {
            Way::Outward => Some(&port.shape),
            _ => None,
        },
        Declared::Const(_) => None,
        Declared::Local(local) => kind_shape(&local.kind),
    }
}

/// Whether a name has a value in an expression.
fn is_readable(declared: Declared) -> bool
    ensures { result ≡ is_readable (entry_of declared.entry) }
{
    match declared {
        Declared::Port(port) => port.way != Way::Both && is_vector(Some(&port.shape)),
        Declared::Const(_) => true,
        Declared::Local(local) => is_vector(kind_shape(&local.kind)),
    }
}

/// Whether a name takes the value of an OUT port or a pad.
fn is_receiver(declared: Declared) -> bool
    ensures { result ≡ is_receiver (entry_of declared.entry) }
{
    match declared {
        Declared::Port(port) => port.way == Way::Outward,
        Declared::Const(_) => false,
        Declared::Local(local) => match &local.kind {
            LocalKind::Var { shape: _ } => true,
            _ => false,
        },
    }
}

/// Whether a name is an instance.
fn is_instance(declared: Declared) -> bool
    ensures { result ≡ is_instance (entry_of declared.entry) }
{
    match declared {
        Declared::Port(_) => false,
        Declared::Const(_) => false,
        Declared::Local(local) => match &local.kind {
            LocalKind::Inst { module: _ } => true,
            _ => false,
        },
    }
}

/// Whether a name is a constant.
fn is_constant(declared: Declared) -> bool
    ensures { result ≡ is_constant (entry_of declared.entry) }
{
    match declared {
        Declared::Port(_) => false,
        Declared::Const(_) => true,
        Declared::Local(_) => false,
    }
}

/// Whether a name is an INOUT port.
fn is_pad(declared: Declared) -> bool
    ensures { result ≡ is_pad (entry_of declared.entry) }
{
    match declared {
        Declared::Port(port) => port.way == Way::Both,
        Declared::Const(_) => false,
        Declared::Local(_) => false,
    }
}

/// Whether a declaration suits a use.
fn suits(used: Use, declared: Declared) -> bool
    ensures { result ≡ suits used (entry_of declared.entry) }
{
    match used {
        Use::Count => is_constant(declared),
        Use::Value => is_readable(declared),
        Use::Indexed => is_array(shape_of(declared)),
        Use::Assigned => is_vector(assigned_shape(declared)),
        Use::ElementAssigned => is_array(assigned_shape(declared)),
        Use::Called => is_instance(declared),
        Use::Receiver => is_receiver(declared),
        Use::Pad => is_pad(declared),
    }
}

/// Notes a name that isn't declared, or is used as what it isn't.
pub fn note_use(
    alloc: Global,
    table: &Table,
    used: Use,
    at: u32,
    name: &str,
    first: &mut Option<SourceFault>,
) -> Result<(), Memory>
    ensures { OnOk result (first.new ≡ first_after first.old (use_faults used at name.now (found table.now name.now))) }
{
    match table.find(name) {
        None => {
            let name = Name::new(alloc, name)?;
            note(first, SourceFault::Unknown { at, name });
        }
        Some(declared) => {
            if !suits(used, declared) {
                note(first, SourceFault::Kind { at });
            }
        }
    }
    Ok(())
}
