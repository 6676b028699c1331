ghost use Rattle.std.specs.Prelude.{◌≡◌, bytes_eq, find, map, set, slice_get, option_copied, IfOk};
ghost use Rattle.lola_tree.specs.Tree.{tree};
ghost use Rattle.tab_tree.specs.Table.{expr_tree, set_tree, state_tree};
ghost use Rattle.tab_tree.specs.Names.{table_value};
ghost use Rattle.tab_tree.specs.Step.{by_row, nth_value, row_value, set_states, set_value, with_element};
ghost use Rattle.tab_mach.specs.Known.{names_of};
ghost use Rattle.tab_mach.specs.Begun.{names_in, table_of, steps_of, words_of, IsBegun};
ghost use Rattle.tab_mach.specs.Sound.{AreSound, AreWords};

use crate::known::Known;
use crate::scope::{Begun, scope, value_in};
use crate::words::Kept;
use lola_bits::{Bits, Memory, Seq};
use std::alloc::Global;
use tab_tree::{SetRow, StateRow, StateValue};

/// The same value in memory of its own.
fn copied(alloc: Global, value: &StateValue) -> Result<StateValue, Memory>
    ensures { IfOk result (λ v. v ≡ value.now) }
{
    match value {
        StateValue::One { value } => Ok(StateValue::One { value: *value }),
        StateValue::Many { values } => Ok(StateValue::Many {
            values: Seq::of(values.items().to_vec(alloc)?),
        }),
    }
}

/// The value of the state of a number, if there is one.
fn state_in(arch: &[StateValue], number: usize) -> Option<&StateValue>
    ensures { option_copied result ≡ slice_get arch.now number }
{
    arch.get(number)
}

/// The value of the state of a number before the instruction.
fn old_value(alloc: Global, arch: &[StateValue], number: usize) -> Result<StateValue, Memory>
    ensures { IfOk result (λ v. v ≡ nth_value arch.now number) }
{
    match state_in(arch, number) {
        Some(value) => copied(alloc, value),
        None => Ok(StateValue::One {
            value: Bits { width: 0, value: 0 },
        }),
    }
}

/// Puts an element where there is one of that number.
fn put_element(elements: &mut [Bits], number: u128, element: Bits)
    ensures { elements.new ≡ set elements.old number element }
{
    if number < elements.len() as u128 {
        elements[number as usize] = element;
    }
}

/// An array with another element of a number; a vector stays.
fn with_element(old: StateValue, number: u128, element: Bits) -> StateValue
    ensures { result ≡ with_element old number element }
{
    match old {
        StateValue::One { value } => StateValue::One { value },
        StateValue::Many { mut values } => {
            put_element(values.items_mut(), number, element);
            StateValue::Many { values }
        }
    }
}

/// What a row gives its state.
fn row_value(known: &Known, row: &SetRow, old: StateValue) -> StateValue
    requires { AreSound (names_of known.now) }
    ensures { result ≡ row_value (expr_tree row.now.place) (table_value (names_of known.now) (tree row.now.value)) old (names_of known.now) }
{
    let value = value_in(known, &row.value);
    match &row.place {
        None => StateValue::One { value },
        Some(place) => with_element(old, value_in(known, place).value, value),
    }
}

/// The first row that sets a state.
fn row_of<'a>(rows: &'a [SetRow], name: &str) -> Option<&'a SetRow>
    ensures { option_copied result ≡ find (λ row. bytes_eq row.name name.now) rows.now }
{
    rows.iter().find(|row| row.name.text() == name)
}

/// The value of a state behind an instruction.
fn set_value(known: &Known, rows: &[SetRow], state: &StateRow, old: StateValue) -> StateValue
    requires { AreSound (names_of known.now) }
    ensures { result ≡ set_value (map set_tree rows.now) (state_tree state.now) old (names_of known.now) }
{
    match row_of(rows, state.name.text()) {
        Some(row) => row_value(known, row, old),
        None => old,
    }
}

/// The states by the rows, all at once.
fn set_states(
    alloc: Global,
    known: &Known,
    rows: &[SetRow],
    states: &[StateRow],
    arch: &[StateValue],
) -> Result<Vec<StateValue>, Memory>
    requires { AreSound (names_of known.now) }
    ensures { IfOk result (λ v. v.items ≡ by_row (λ n state. set_value (map set_tree rows.now) state (nth_value arch.now n) (names_of known.now)) 0 (map state_tree states.now)) }
{
    let mut after = Vec::new(alloc);
    for (number, state) in states.iter().enumerate() {
        let old = old_value(alloc, arch, number)?;
        after.push(set_value(known, rows, state, old))?;
    }
    Ok(after)
}

/// The states behind an instruction, with the words behind its last phase.
pub fn next_states(alloc: Global, begun: &Begun, kept: &Kept) -> Result<Seq<StateValue>, Memory>
    requires begun { IsBegun begun.now }
    requires words { AreWords kept.now }
    ensures { IfOk result (λ xs. xs ≡ set_states (table_of begun.now) begun.now.arch.now (steps_of begun.now).sets (names_in begun.now (words_of kept.now) None)) }
{
    let known = scope(alloc, begun, kept, None)?;
    let after = set_states(
        alloc,
        &known,
        begun.inside.sets.items(),
        begun.table.states.items(),
        begun.arch,
    )?;
    Ok(Seq::of(after))
}
