ghost use Rattle.std.specs.Prelude.{◌≡◌, ◌↔◌, Some, map, IfOk, IsTrue};
ghost use Rattle.std.specs.List.{AllByRecursion};
ghost use Rattle.std.specs.BTreeMap.{get_by_text};
ghost use Rattle.lola_bits.specs.Names.{is_among};
ghost use Rattle.lola_tree.specs.Names.{kind_shape};
ghost use Rattle.lola_tree.specs.Width.{checked_width};
ghost use Rattle.lola_tree.specs.Value.{or_zero};
ghost use Rattle.lola_tree.specs.Signals.{clock_of};
ghost use Rattle.lola_elab.specs.Small.{IsVector, IsSmallPort};
ghost use Rattle.lola_elab.specs.Declares.{names_in, first_clock, wide_of, kind_width, IsUnder, IsInwardNamed, IsInward, sized, sized_local, inputs_under};

use crate::meaning::{Meaning, count_of};
use crate::vector::Vector;
use lola_tree::{Local, LocalKind, Port, Shape, Way};
use std::alloc::{AllocError, Global};
use std::collections::BTreeMap;

/// A width of 1 to 128 bits.
fn checked(count: Option<u128>) -> Option<usize>
    ensures { result ≡ checked_width count }
{
    match count {
        Some(width) if 1 <= width && width <= 128 => Some(width as usize),
        _ => None,
    }
}

/// The width of a type that is a vector.
pub fn vector_width(shape: &Shape, names: &BTreeMap<String, Meaning>) -> Option<usize>
    ensures { result ≡ wide_of (get_by_text names.now) shape.now }
{
    match shape {
        Shape::Vector { width } => checked(count_of(width, names)),
        Shape::Array { .. } => None,
    }
}

/// The same, or 0.
pub fn width_or_zero(shape: &Shape, names: &BTreeMap<String, Meaning>) -> usize
    ensures { result ≡ or_zero (wide_of (get_by_text names.now) shape.now) }
{
    match vector_width(shape, names) {
        Some(width) => width,
        None => 0,
    }
}

/// Whether a type is a vector.
fn is_vector(shape: &Shape, names: &BTreeMap<String, Meaning>) -> bool
    ensures { IsTrue result ↔ IsVector (wide_of (get_by_text names.now)) shape.now }
{
    vector_width(shape, names).is_some()
}

/// Whether a port is a vector, IN or OUT.
fn is_small_port(port: &Port, names: &BTreeMap<String, Meaning>) -> bool
    ensures { IsTrue result ↔ IsSmallPort (wide_of (get_by_text names.now)) port.now }
{
    port.way != Way::Both && is_vector(&port.shape, names)
}

/// Whether the ports are vectors, IN and OUT.
pub fn are_small_ports(ports: &[Port], names: &BTreeMap<String, Meaning>) -> bool
    ensures { IsTrue result ↔ AllByRecursion (IsSmallPort (wide_of (get_by_text names.now))) ports.now }
{
    for port in ports {
        if !is_small_port(port, names) {
            return false;
        }
    }
    true
}

/// The clock of a local, if it is a register.
fn clock_of(local: &Local) -> Option<&str>
    ensures { names_in result ≡ clock_of local.now.kind }
{
    match &local.kind {
        LocalKind::Reg { clock, shape: _ } => Some(clock.name.text()),
        _ => None,
    }
}

/// The clock of the first local, if it is a register.
pub fn first_clock(locals: &[Local]) -> Option<&str>
    ensures { names_in result ≡ first_clock locals.now }
{
    match locals {
        [first, ..] => clock_of(first),
        [] => None,
    }
}

/// Whether a name is the clock.
fn is_clock(name: &str, clock: Option<&str>) -> bool
    ensures { result ≡ is_among (names_in clock.entry) name.now }
{
    match clock {
        Some(clock) => clock == name,
        None => false,
    }
}

/// Whether a local is a vector register under the clock.
fn is_under(local: &Local, clock: Option<&str>, names: &BTreeMap<String, Meaning>) -> bool
    ensures { IsTrue result ↔ IsUnder (wide_of (get_by_text names.now)) (names_in clock.entry) local.now }
{
    match &local.kind {
        LocalKind::Reg { clock: own, shape } => {
            is_vector(shape, names) && is_clock(own.name.text(), clock)
        }
        _ => false,
    }
}

/// Whether the locals are vector registers under the clock.
pub fn are_under(locals: &[Local], clock: Option<&str>, names: &BTreeMap<String, Meaning>) -> bool
    ensures { IsTrue result ↔ AllByRecursion (IsUnder (wide_of (get_by_text names.now)) (names_in clock.entry)) locals.now }
{
    for local in locals {
        if !is_under(local, clock, names) {
            return false;
        }
    }
    true
}

/// Whether a port is the IN port of this name, of one bit.
fn is_inward_named(port: &Port, name: &str, names: &BTreeMap<String, Meaning>) -> bool
    ensures { IsTrue result ↔ IsInwardNamed (wide_of (get_by_text names.now)) name.now port.now }
{
    port.way == Way::Inward
        && port.name.text() == name
        && vector_width(&port.shape, names) == Some(1)
}

/// Whether an IN port of one bit has the name.
fn has_inward(ports: &[Port], name: &str, names: &BTreeMap<String, Meaning>) -> bool
    ensures { IsTrue result ↔ IsInward (wide_of (get_by_text names.now)) ports.now name.now }
{
    for port in ports {
        if is_inward_named(port, name, names) {
            return true;
        }
    }
    false
}

/// Whether the clock, where there is one, is an IN port of one bit.
pub fn is_clock_inward(
    clock: Option<&str>,
    ports: &[Port],
    names: &BTreeMap<String, Meaning>,
) -> bool
    ensures { IsTrue result ↔ AllByRecursion (IsInward (wide_of (get_by_text names.now)) ports.now) (names_in clock.entry) }
{
    match clock {
        Some(clock) => has_inward(ports, clock, names),
        None => true,
    }
}

/// The IN ports but the clock.
pub fn inputs_of(
    alloc: Global,
    ports: &[Port],
    clock: Option<&str>,
    names: &BTreeMap<String, Meaning>,
) -> Result<Vec<Vector>, AllocError>
    ensures { IfOk result (λ inputs. map sized inputs.items ≡ inputs_under (wide_of (get_by_text names.now)) (names_in clock.entry) ports.now) }
{
    let mut inputs = Vec::new(alloc);
    for port in ports {
        if port.way == Way::Inward && !is_clock(port.name.text(), clock) {
            inputs.push(Vector {
                name: String::from_str(alloc, port.name.text())?,
                width: width_or_zero(&port.shape, names),
            })?;
        }
    }
    Ok(inputs)
}

/// The width of a register, or 0 of what is none.
fn local_width(local: &Local, names: &BTreeMap<String, Meaning>) -> usize
    ensures { result ≡ kind_width (wide_of (get_by_text names.now)) (kind_shape local.now.kind) }
{
    match &local.kind {
        LocalKind::Reg { clock: _, shape } => width_or_zero(shape, names),
        LocalKind::Var { shape } => width_or_zero(shape, names),
        LocalKind::Inst { .. } => 0,
    }
}

/// The locals.
pub fn registers_of(
    alloc: Global,
    locals: &[Local],
    names: &BTreeMap<String, Meaning>,
) -> Result<Vec<Vector>, AllocError>
    ensures { IfOk result (λ registers. map sized registers.items ≡ map (sized_local (wide_of (get_by_text names.now))) locals.now) }
{
    let mut registers = Vec::new(alloc);
    for local in locals {
        registers.push(Vector {
            name: String::from_str(alloc, local.name.text())?,
            width: local_width(local, names),
        })?;
    }
    Ok(registers)
}
