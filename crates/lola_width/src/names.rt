ghost use Rattle.std.specs.Prelude.{◌≡◌, OnOk};
ghost use Rattle.lola_tree.specs.Tree.{tree, parts_tree};
ghost use Rattle.lola_width.specs.Interface.{is_clock};
ghost use Rattle.lola_width.specs.NameFaults.{value_faults, clock_read, expr_faults, part_faults};
ghost use Rattle.lola_width.specs.Order.{first_after};
ghost use Rattle.lola_width.specs.Table.{found};

use crate::counts::{note_count, ref_name};
use crate::fault::{SourceFault, note};
use crate::table::Table;
use crate::uses::{Use, note_use};
use lola_bits::{Memory, Name};
use lola_tree::{Expr, Part, Ref};
use std::alloc::Global;

/// The clock of a module, where it has one.
#[derive(Debug, Drop)]
pub struct ModuleClock {
    pub name: Option<Name>,
}

impl ModuleClock {
    /// Whether a name is the clock.
    pub fn is(&self, name: &str) -> bool
        ensures { result ≡ is_clock self.now.name name.now }
    {
        match &self.name {
            Some(clock) => clock.text() == name,
            None => false,
        }
    }
}

/// Notes the clock where a value is read.
fn note_clock(clock: &ModuleClock, at: u32, name: &str, first: &mut Option<SourceFault>)
    ensures { first.new ≡ first_after first.old (clock_read clock.now.name at name.now) }
{
    if clock.is(name) {
        note(first, SourceFault::Clock { at });
    }
}

/// Notes a name that is read and has no value.
#[tactic(auto, using(crate::proofs::Faults::first_append))]
fn note_value(
    alloc: Global,
    table: &Table,
    clock: &ModuleClock,
    of: &Ref,
    first: &mut Option<SourceFault>,
) -> Result<(), Memory>
    ensures { OnOk result (first.new ≡ first_after first.old (value_faults (found table.now) clock.now.name of.now)) }
{
    let name = ref_name(of);
    note_use(alloc, table, Use::Value, of.at, name, first)?;
    note_clock(clock, of.at, name, first);
    Ok(())
}

/// Notes the faults of names in an expression.
#[cycle(names)]
#[tactic(auto, using(crate::proofs::Faults::first_append))]
pub fn note_names(
    alloc: Global,
    table: &Table,
    clock: &ModuleClock,
    expr: &Expr,
    first: &mut Option<SourceFault>,
) -> Result<(), Memory>
    ensures { OnOk result (first.new ≡ first_after first.old (expr_faults (found table.now) clock.now.name (tree expr.now))) }
{
    match expr {
        Expr::Number {
            value: _,
            width: _,
            at: _,
        } => Ok(()),
        Expr::Whole { of } => note_value(alloc, table, clock, of, first),
        Expr::Bit { of, index, at: _ } => {
            note_value(alloc, table, clock, of, first)?;
            note_count(alloc, table, index, first)
        }
        Expr::Slice {
            of,
            high,
            low,
            at: _,
        } => {
            note_value(alloc, table, clock, of, first)?;
            note_count(alloc, table, high, first)?;
            note_count(alloc, table, low, first)
        }
        Expr::Index { of, place, at: _ } => {
            note_use(alloc, table, Use::Indexed, of.at, ref_name(of), first)?;
            note_names(alloc, table, clock, place, first)
        }
        Expr::Concat { parts, at: _ } => note_parts(alloc, table, clock, parts.items(), first),
        Expr::Not { arg, at: _ } => note_names(alloc, table, clock, arg, first),
        Expr::Binary {
            op: _,
            left,
            right,
            at: _,
        } => {
            note_names(alloc, table, clock, left, first)?;
            note_names(alloc, table, clock, right, first)
        }
        Expr::Choice {
            test,
            yes,
            no,
            at: _,
        } => {
            note_names(alloc, table, clock, test, first)?;
            note_names(alloc, table, clock, yes, first)?;
            note_names(alloc, table, clock, no, first)
        }
    }
}

/// The same in the parts of a concatenation.
#[cycle(names)]
#[tactic(auto, using(crate::proofs::Faults::first_append))]
fn note_parts(
    alloc: Global,
    table: &Table,
    clock: &ModuleClock,
    parts: &[Part],
    first: &mut Option<SourceFault>,
) -> Result<(), Memory>
    ensures { OnOk result (first.new ≡ first_after first.old (part_faults (found table.now) clock.now.name (parts_tree parts.now))) }
{
    for part in parts {
        note_names(alloc, table, clock, &part.value, first)?;
        note_count(alloc, table, &part.times, first)?;
    }
    Ok(())
}
