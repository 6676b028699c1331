ghost use Rattle.std.specs.Prelude.{◌≡◌, ◌≤◌, ℕ, [], length, map, get_or, IfOk};
ghost use Rattle.std.specs.List.{AllByRecursion};
ghost use Rattle.lola_bits.specs.Number.{number};
ghost use Rattle.lola_bits.specs.BitLists.{number_of};
ghost use Rattle.lola_flat.specs.Tree.{flat_tree, SignalTree};
ghost use Rattle.lola_flat.specs.Value.{env};
ghost use Rattle.lola_flat.specs.Signals.{IsSignal};
ghost use Rattle.lola_flat.specs.Formed.{IsFormed};
ghost use Rattle.lola_flat.specs.Cycle.{IsCycle, IsNext};
ghost use Rattle.lola_eval.specs.Means.{IsWideAs, AreGivenBits, AreSignalBits};
ghost use Rattle.lola_cases.specs.Cases.{IsCase, given_of, outside_of};
ghost use Rattle.lola_cases.specs.Bits.{IsNarrow, table_numbers};

use crate::tables::{CaseBits, case_bits};
use lola_alg::{AlgError, Plain};
use lola_bits::{Memory, Seq};
use lola_eval::{lower_signals, lower_state, plain_finds_places};
use lola_flat::{Flat, SigKind};
use std::alloc::Global;

/// A cycle of a design by the numbers of signals: the numbers of the elements of each signal in the cycle, and of
/// each register behind it. Of a vector there is one number, and of the clock none.
#[derive(Debug, Drop)]
pub struct Cycle {
    pub signals: Vec<Seq<u128>>,
    pub state: Vec<Seq<u128>>,
}

/// 1 where it holds.
fn number(bit: bool) -> u128
    ensures { result ≡ number bit }
{
    if bit { 1 } else { 0 }
}

/// The number of bits, the lowest first.
fn number_of(bits: &[bool]) -> u128
    requires { IsNarrow bits.now }
    ensures { result ≡ number_of bits.now }
{
    match bits {
        [] => 0,
        [first, more @ ..] => number(*first) + 2 * number_of(more),
    }
}

/// The numbers of vectors.
fn row_numbers(alloc: Global, row: &[Seq<bool>]) -> Result<Seq<u128>, Memory>
    requires { AllByRecursion IsNarrow row.now }
    ensures { IfOk result (λ made. made ≡ map number_of row.now) }
{
    let mut numbers = Vec::new(alloc);
    for at in 0..row.len() {
        numbers.push(number_of(row[at].items()))?;
    }
    Ok(Seq::of(numbers))
}

/// The numbers of the vectors in a table.
fn table_numbers(alloc: Global, table: &[Seq<Seq<bool>>]) -> Result<Vec<Seq<u128>>, Memory>
    requires { AllByRecursion (AllByRecursion IsNarrow) table.now }
    ensures { IfOk result (λ made. made.items ≡ table_numbers table.now) }
{
    let mut rows = Vec::new(alloc);
    for at in 0..table.len() {
        rows.push(row_numbers(alloc, table[at].items())?)?;
    }
    Ok(rows)
}

/// The bits of all signals of a design in a cycle.
fn signal_bits(
    alloc: Global,
    flat: &Flat,
    given: Vec<Seq<Seq<bool>>>,
    outside: &[Seq<bool>],
) -> Result<Vec<Seq<Seq<bool>>>, Memory>
    requires formed { IsFormed (flat_tree flat.now) }
    requires given { AreGivenBits (flat_tree flat.now) (env given.items outside.now) }
    ensures wide { IfOk result (λ table. AreSignalBits (flat_tree flat.now) table.items) }
    ensures cycle { IfOk result (λ table. IsCycle (flat_tree flat.now) (table_numbers given.items) (map number_of outside.now) (table_numbers table.items)) }
{
    plain_finds_places();
    match lower_signals(alloc, &mut Plain, flat, given, outside) {
        Ok(table) => Ok(table),
        Err(AlgError::Memory) => Err(Memory),
        Err(AlgError::Full) => unreachable!(),
    }
}

/// The bits of all registers of a design behind a cycle.
fn state_bits(
    alloc: Global,
    flat: &Flat,
    signals: &[Seq<Seq<bool>>],
) -> Result<Vec<Seq<Seq<bool>>>, Memory>
    requires formed { IsFormed (flat_tree flat.now) }
    requires signals { AreSignalBits (flat_tree flat.now) signals.now }
    ensures wide { IfOk result (λ table. (n : ℕ) (s : SignalTree) → IsSignal (flat_tree flat.now) n s → s.kind ≡ SigKind.Register → IsWideAs s (get_or table.items n [])) }
    ensures next { IfOk result (λ table. IsNext (flat_tree flat.now) (table_numbers signals.now) (table_numbers table.items)) }
{
    plain_finds_places();
    match lower_state(alloc, &mut Plain, flat, signals) {
        Ok(table) => Ok(table),
        Err(AlgError::Memory) => Err(Memory),
        Err(AlgError::Full) => unreachable!(),
    }
}

/// The cycle of a case of a well formed design, and the state behind it: the one that its equations allow. Only
/// want of memory is an error.
pub fn behind(alloc: Global, flat: &Flat, numbers: &[u128]) -> Result<Cycle, Memory>
    requires formed { IsFormed (flat_tree flat.now) }
    requires case { IsCase (flat_tree flat.now) numbers.now }
    ensures cycle { IfOk result (λ made. IsCycle (flat_tree flat.now) (given_of (flat_tree flat.now) numbers.now) (outside_of (flat_tree flat.now) numbers.now) made.signals.items) }
    ensures next { IfOk result (λ made. IsNext (flat_tree flat.now) made.signals.items made.state.items) }
{
    let CaseBits { given, outside } = case_bits(alloc, flat, numbers)?;
    let bits = signal_bits(alloc, flat, given, outside.as_slice())?;
    let next = state_bits(alloc, flat, bits.as_slice())?;
    let signals = table_numbers(alloc, bits.as_slice())?;
    let state = table_numbers(alloc, next.as_slice())?;
    Ok(Cycle { signals, state })
}
