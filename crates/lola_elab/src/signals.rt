ghost use Rattle.std.specs.Prelude.{◌≡◌, ◌↔◌, ◌+◌, ◌≤◌, ◌++◌, ℕ, List, None, Err, [], length, map, IfOk, OnOk, IsTrue};
ghost use Rattle.std.specs.List.{AllByRecursion};
ghost use Rattle.std.specs.BTreeMap.{get_by_text};
ghost use Rattle.lola_tree.specs.Tree.{module_tree};
ghost use Rattle.lola_elab.specs.Small.{IsSmallConst, IsSmallModule};
ghost use Rattle.lola_elab.specs.Declares.{names_in, sized, const_entry, wide_of, IsDeclaredUnder};
ghost use Rattle.lola_elab.specs.Tables.{updated, leaf_entries};
ghost use Rattle.lola_elab.specs.Signals.{Declares};

use crate::fault::ElabError;
use crate::meaning::Meaning;
use crate::ports::{
    are_small_ports, are_under, first_clock, inputs_of, is_clock_inward, registers_of,
};
use crate::sets::are_distinct;
use crate::table::{add_leaves, constants_of};
use crate::vector::Vector;
use lola_tree::Module;
use std::alloc::{AllocError, Global};
use std::collections::BTreeMap;

/// The most ports and registers of a design.
const SIGNAL_LIMIT: usize = 65_536;

/// The IN ports but the clock, and the registers, in text order, and what the names of both and of
/// the constants stand for. Leaf n is input n, or else register n less the number of inputs.
#[derive(Drop)]
pub struct Signals {
    pub inputs: Vec<Vector>,
    pub registers: Vec<Vector>,
    pub names: BTreeMap<String, Meaning>,
}

/// Whether two numbers are a limit at most, taken together.
fn are_within(one: usize, other: usize, limit: usize) -> bool
    ensures { IsTrue result ↔ (one + other ≤ limit) }
{
    one <= limit && other <= limit - one
}

/// Whether the name behind END is the module's, and there are not too many ports and locals.
fn is_plain(root: &Module) -> bool
    ensures { IsTrue result ↔ ((root.now.ends.name ≡ root.now.name) × (length root.now.ports + length root.now.locals ≤ 65536)) }
{
    if root.ends.name.text() != root.name.text() {
        return false;
    }
    are_within(
        root.ports.items().len(),
        root.locals.items().len(),
        SIGNAL_LIMIT,
    )
}

/// Whether a module of constants that fit declares vector IN and OUT ports and registers under the
/// clock, which is an IN port of one bit, each name once.
fn is_declared_under(
    alloc: Global,
    root: &Module,
    clock: Option<&str>,
    constants: &BTreeMap<String, Meaning>,
) -> Result<bool, AllocError>
    requires { AllByRecursion IsSmallConst root.now.consts }
    ensures { IfOk result (λ declared. IsTrue declared ↔ IsDeclaredUnder (wide_of (get_by_text constants.now)) (names_in clock.entry) (module_tree root.now)) }
{
    let ports = root.ports.items();
    let locals = root.locals.items();
    if is_plain(root)
        && are_small_ports(ports, constants)
        && are_under(locals, clock, constants)
        && is_clock_inward(clock, ports, constants)
    {
        are_distinct(alloc, ports, root.consts.items(), locals)
    } else {
        Ok(false)
    }
}

/// What the names of constants, inputs and registers stand for.
fn leaf_names(
    alloc: Global,
    constants: BTreeMap<String, Meaning>,
    inputs: &[Vector],
    registers: &[Vector],
) -> Result<BTreeMap<String, Meaning>, AllocError>
    requires { length inputs.now + length registers.now ≤ 65536 }
    ensures { IfOk result (λ names. (q : List ℕ) → get_by_text names q ≡ updated (leaf_entries (length inputs.now) (map sized registers.now)) q (updated (leaf_entries 0 (map sized inputs.now)) q (get_by_text constants q))) }
{
    let mut names = constants;
    add_leaves(alloc, &mut names, 0, inputs)?;
    add_leaves(alloc, &mut names, inputs.len(), registers)?;
    Ok(names)
}

/// The inputs and registers of a module. NotBuilt where it declares something else than constants that
/// fit, vector IN and OUT ports and registers under one clock, or too much.
pub fn signals_of(alloc: Global, root: &Module) -> Result<Signals, ElabError>
    ensures ok { IfOk result (λ signals. Declares (module_tree root.now) signals) }
    ensures none { result ≡ Err ElabError.NotBuilt → IsSmallModule (module_tree root.now) → ⊥ }
{
    let clock = first_clock(root.locals.items());
    let constants = match constants_of(alloc, root.consts.items()) {
        Ok(constants) => constants,
        Err(fault) => return Err(fault),
    };
    if !is_declared_under(alloc, root, clock, &constants)? {
        return Err(ElabError::NotBuilt);
    }
    let inputs = inputs_of(alloc, root.ports.items(), clock, &constants)?;
    let registers = registers_of(alloc, root.locals.items(), &constants)?;
    let names = leaf_names(alloc, constants, inputs.as_slice(), registers.as_slice())?;
    Ok(Signals {
        inputs,
        registers,
        names,
    })
}
