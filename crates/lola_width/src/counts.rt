ghost use Rattle.std.specs.Prelude.{◌≡◌, OnOk};
ghost use Rattle.std.specs.Option.{option_copied};
ghost use Rattle.lola_tree.specs.Tree.{tree};
ghost use Rattle.lola_width.specs.Interface.{bare_name};
ghost use Rattle.lola_tree.specs.Names.{count_number, ref_name};
ghost use Rattle.lola_width.specs.NameFaults.{count_faults};
ghost use Rattle.lola_width.specs.Order.{first_after};
ghost use Rattle.lola_width.specs.Table.{found};
ghost use Rattle.lola_width.specs.WidthFaults.{count_at};

use crate::declared::Declared;
use crate::fault::SourceFault;
use crate::table::Table;
use crate::uses::{Use, note_use};
use lola_bits::Memory;
use lola_tree::{Count, Expr, Ref};
use std::alloc::Global;

/// The name that a reference of a design has.
pub fn ref_name(of: &Ref) -> &str
    ensures { result.now ≡ ref_name of.now }
{
    match of.path.items() {
        [name, ..] => name.text(),
        [] => "",
    }
}

/// The name that an expression is, if it is a bare name.
pub fn bare_name(expr: &Expr) -> Option<&Ref>
    ensures { option_copied result ≡ bare_name (tree expr.now) }
{
    match expr {
        Expr::Whole { of } => Some(of),
        _ => None,
    }
}

/// The number of a count, if it is written or that of a constant.
pub fn count_number(table: &Table, count: &Count) -> Option<u128>
    ensures { result ≡ count_number (found table.now) count.now }
{
    match count {
        Count::Fixed { value, at: _ } => Some(*value),
        Count::Const { name } => match table.find(name.name.text()) {
            Some(Declared::Const(constant)) => Some(constant.value),
            _ => None,
        },
    }
}

/// The place of a count.
pub fn count_at(count: &Count) -> u32
    ensures { result ≡ count_at count.now }
{
    match count {
        Count::Fixed { value: _, at } => *at,
        Count::Const { name } => name.at,
    }
}

/// Notes a name in a count that is no constant.
pub fn note_count(
    alloc: Global,
    table: &Table,
    count: &Count,
    first: &mut Option<SourceFault>,
) -> Result<(), Memory>
    ensures { OnOk result (first.new ≡ first_after first.old (count_faults (found table.now) count.now)) }
{
    match count {
        Count::Fixed { value: _, at: _ } => Ok(()),
        Count::Const { name } => note_use(
            alloc,
            table,
            Use::Count,
            name.at,
            name.name.text(),
            first,
        ),
    }
}
