ghost use Rattle.std.specs.Prelude.{◌≡◌, map};
ghost use Rattle.std.specs.Option.{option_copied};
ghost use Rattle.lola_tree.specs.Tree.{actual_tree, stmt_tree, module_tree};
ghost use Rattle.lola_tree.specs.Names.{count_number};
ghost use Rattle.lola_tree.specs.Width.{scope_over};
ghost use Rattle.lola_width.specs.WidthFaults.{count_at, too_wide, shape_widths, port_widths, kind_widths, local_widths, const_widths, arg_differs, args_widths, port_count, stmt_widths, body_widths, width_faults};
ghost use Rattle.lola_width.specs.Order.{first_after};
ghost use Rattle.lola_width.specs.Table.{found, seen_in};

use crate::counts::{count_at, count_number};
use crate::fault::{SourceFault, note};
use crate::interface::{Modules, Pin, first_pin, instance_pins, later_pins, listed};
use crate::table::Table;
use crate::widths::{
    element_width, elements_width, is_width, name_width, note_differ, note_number, note_widths,
};
use lola_tree::{Actual, Const, Count, Local, LocalKind, Module, Port, Shape, Stmt};

/// Notes a width that is none.
fn note_too_wide(table: &Table, width: &Count, first: &mut Option<SourceFault>)
    ensures { first.new ≡ first_after first.old (too_wide (count_at width.now) (count_number (found table.now) width.now)) }
{
    match count_number(table, width) {
        Some(number) => {
            if !is_width(number) {
                let at = count_at(width);
                note(first, SourceFault::TooWide { at });
            }
        }
        None => {}
    }
}

fn note_shape_width(table: &Table, shape: &Shape, first: &mut Option<SourceFault>)
    ensures { first.new ≡ first_after first.old (shape_widths (found table.now) shape.now) }
{
    match shape {
        Shape::Vector { width } => note_too_wide(table, width, first),
        Shape::Array { count: _, width } => note_too_wide(table, width, first),
    }
}

fn note_port_widths(table: &Table, ports: &[Port], first: &mut Option<SourceFault>)
    ensures { first.new ≡ first_after first.old (port_widths (found table.now) ports.now) }
{
    for port in ports {
        note_shape_width(table, &port.shape, first);
    }
}

fn note_kind_width(table: &Table, kind: &LocalKind, first: &mut Option<SourceFault>)
    ensures { first.new ≡ first_after first.old (kind_widths (found table.now) kind.now) }
{
    match kind {
        LocalKind::Reg { clock: _, shape } => note_shape_width(table, shape, first),
        LocalKind::Var { shape } => note_shape_width(table, shape, first),
        LocalKind::Inst { module: _ } => {}
    }
}

fn note_local_widths(table: &Table, locals: &[Local], first: &mut Option<SourceFault>)
    ensures { first.new ≡ first_after first.old (local_widths (found table.now) locals.now) }
{
    for local in locals {
        note_kind_width(table, &local.kind, first);
    }
}

fn note_consts(consts: &[Const], first: &mut Option<SourceFault>)
    ensures { first.new ≡ first_after first.old (const_widths consts.now) }
{
    for constant in consts {
        note_number(constant.value, constant.width, constant.number_at, first);
    }
}

/// Notes an argument whose width isn't that of its port; a clock has none to compare.
fn note_arg_width(pin: Option<Pin>, at: u32, width: Option<u32>, first: &mut Option<SourceFault>)
    ensures { first.new ≡ first_after first.old (arg_differs pin at width) }
{
    match pin {
        Some(pin) => {
            if !pin.clock {
                note_differ(at, pin.width, width, first);
            }
        }
        None => {}
    }
}

fn note_arg_widths(table: &Table, args: &[Actual], pins: &[Pin], first: &mut Option<SourceFault>)
    ensures { first.new ≡ first_after first.old (args_widths (scope_over (found table.now)) (map actual_tree args.now) pins.now) }
{
    let mut rest = pins;
    for arg in args {
        let width = note_widths(table, &arg.value, first);
        note_arg_width(first_pin(rest), arg.at, width, first);
        rest = later_pins(rest);
    }
}

/// Notes another number of arguments than ports.
fn note_port_count(at: u32, pins: Option<&[Pin]>, args: usize, first: &mut Option<SourceFault>)
    ensures { first.new ≡ first_after first.old (port_count at (option_copied pins.entry) args) }
{
    match pins {
        Some(pins) => {
            if pins.len() != args {
                note(first, SourceFault::PortCount { at });
            }
        }
        None => {}
    }
}

/// Notes the faults of widths in a statement.
#[tactic(auto, using(crate::proofs::Faults::first_append))]
fn note_stmt_widths(table: &Table, modules: &Modules, stmt: &Stmt, first: &mut Option<SourceFault>)
    ensures { first.new ≡ first_after first.old (stmt_widths (found table.now) (seen_in modules.now) (stmt_tree stmt.now)) }
{
    match stmt {
        Stmt::Assign {
            name,
            place: None,
            value,
            at: _,
            equals,
        } => {
            let width = note_widths(table, value, first);
            note_differ(*equals, name_width(table, name.text()), width, first);
        }
        Stmt::Assign {
            name,
            place: Some(place),
            value,
            at: _,
            equals,
        } => {
            let needed = elements_width(table, name.text());
            let width = note_widths(table, &place.value, first);
            note_differ(place.at, needed, width, first);
            let width = note_widths(table, value, first);
            note_differ(*equals, element_width(table, name.text()), width, first);
        }
        Stmt::Call { name, args, at } => {
            let pins = instance_pins(table, modules, name.text());
            note_port_count(*at, pins, args.items().len(), first);
            note_arg_widths(table, args.items(), listed(pins), first);
        }
        Stmt::Pad {
            io,
            inner,
            value,
            release,
            at: _,
        } => {
            let needed = name_width(table, io.name.text());
            note_differ(
                inner.at,
                needed,
                name_width(table, inner.name.text()),
                first,
            );
            let width = note_widths(table, &value.value, first);
            note_differ(value.at, needed, width, first);
            let width = note_widths(table, &release.value, first);
            note_differ(release.at, Some(1), width, first);
        }
    }
}

fn note_body_widths(
    table: &Table,
    modules: &Modules,
    body: &[Stmt],
    first: &mut Option<SourceFault>,
)
    ensures { first.new ≡ first_after first.old (body_widths (found table.now) (seen_in modules.now) (map stmt_tree body.now)) }
{
    for stmt in body {
        note_stmt_widths(table, modules, stmt, first);
    }
}

/// Notes the faults of widths of a module.
#[tactic(auto, using(crate::proofs::Faults::first_append))]
pub fn note_module_widths(
    table: &Table,
    modules: &Modules,
    module: &Module,
    first: &mut Option<SourceFault>,
)
    ensures { first.new ≡ first_after first.old (width_faults (found table.now) (seen_in modules.now) (module_tree «module».now)) }
{
    note_port_widths(table, module.ports.items(), first);
    note_consts(module.consts.items(), first);
    note_local_widths(table, module.locals.items(), first);
    note_body_widths(table, modules, module.body.items(), first);
}
