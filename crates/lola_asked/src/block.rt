ghost use Rattle.std.specs.Prelude.{◌≡◌, ◌<◌, ◌++◌, [], map, length, get_or, IfOk, OnOk};
ghost use Rattle.std.specs.List.{AllByRecursion};
ghost use Rattle.lola_alg.specs.Algebra.{Answers};
ghost use Rattle.lola_flat.specs.Tree.{flat_tree};
ghost use Rattle.lola_flat.specs.Value.{env, mapped};
ghost use Rattle.lola_flat.specs.Formed.{IsFormed};
ghost use Rattle.lola_eval.specs.Means.{AreGivenBits, AreSignalBits, EnvKnown, numbers, MeansCycle, MeansState};
ghost use Rattle.lola_lanes.specs.Lanes.{lane_meaning};
ghost use Rattle.lola_checks.specs.Tree.{check_tree};
ghost use Rattle.lola_checks.specs.Holds.{violated};
ghost use Rattle.lola_checks.specs.Suits.{CheckSuits};
ghost use Rattle.lola_asked.specs.Setting.{widths_with};
ghost use Rattle.lola_asked.specs.CaseBits.{IsSmall};
ghost use Rattle.lola_asked.specs.Words.{IsWord, AreWords, AreRowWords, AreTableWords, AreTables, AreBlockWords, IsViolatedWord};

use crate::bits::CaseBit;
use crate::tables::CaseTables;
use lola_bits::{Memory, Seq};
use lola_checks::{Check, lower_check};
use lola_eval::{lower_signals, lower_state};
use lola_flat::Flat;
use lola_lanes::{Lanes, cases_are_assigned, free_word};
use std::alloc::Global;

/// The words of all that a check is asked of, in the cases of a block.
#[derive(Debug, Drop)]
pub(crate) struct BlockWords {
    pub(crate) signals: Vec<Seq<Seq<u64>>>,
    pub(crate) outside: Vec<Seq<u64>>,
}

/// The word of a bit in a block.
fn word(bit: CaseBit, block: u64) -> u64
    requires { IsSmall bit }
    ensures { IsWord block bit result }
{
    match bit {
        CaseBit::Place { place } => free_word(place, block),
        CaseBit::Fixed { value } => { if value { u64::MAX } else { 0 } }
    }
}

/// The bit at a place of a vector.
fn bit_at(bits: &[CaseBit], at: usize) -> CaseBit
    requires { at < length bits.now }
    ensures { result ≡ get_or bits.now at result }
{
    bits[at]
}

/// The words of a vector.
fn words(alloc: Global, bits: &[CaseBit], block: u64) -> Result<Seq<u64>, Memory>
    requires { AllByRecursion IsSmall bits.now }
    ensures { IfOk result (λ made. AreWords block bits.now made) }
{
    let mut made = Vec::new(alloc);
    for at in 0..bits.len() {
        let bit = bit_at(bits, at);
        made.push(word(bit, block))?;
    }
    Ok(Seq::of(made))
}

/// The words of some vectors.
fn row_words(alloc: Global, vectors: &[Seq<CaseBit>], block: u64) -> Result<Vec<Seq<u64>>, Memory>
    requires { AllByRecursion (AllByRecursion IsSmall) vectors.now }
    ensures { IfOk result (λ made. AreRowWords block vectors.now made.items) }
{
    let mut made = Vec::new(alloc);
    for at in 0..vectors.len() {
        made.push(words(alloc, vectors[at].items(), block)?)?;
    }
    Ok(made)
}

/// The words of the elements of signals.
fn table_words(
    alloc: Global,
    rows: &[Seq<Seq<CaseBit>>],
    block: u64,
) -> Result<Vec<Seq<Seq<u64>>>, Memory>
    requires { AllByRecursion (AllByRecursion (AllByRecursion IsSmall)) rows.now }
    ensures { IfOk result (λ made. AreTableWords block rows.now made.items) }
{
    let mut made = Vec::new(alloc);
    for at in 0..rows.len() {
        made.push(Seq::of(row_words(alloc, rows[at].items(), block)?))?;
    }
    Ok(made)
}

/// Rows behind others.
fn push_rows(table: &mut Vec<Seq<Seq<u64>>>, rows: Vec<Seq<Seq<u64>>>) -> Result<(), Memory>
    ensures { OnOk result (table.new.items ≡ table.old.items ++ rows.items) }
{
    for row in rows {
        table.push(row)?;
    }
    Ok(())
}

/// The words of all signals in the cycles that given words begin. Words have a place for each gate, so an error is want
/// of memory.
fn signal_words(
    alloc: Global,
    flat: &Flat,
    given: Vec<Seq<Seq<u64>>>,
    outside: &[Seq<u64>],
) -> Result<Vec<Seq<Seq<u64>>>, Memory>
    requires formed { IsFormed (flat_tree flat.now) }
    requires given { AreGivenBits (flat_tree flat.now) (env given.items outside.now) }
    requires known { EnvKnown lane_meaning tt (env given.items outside.now) }
    ensures { IfOk result (λ made. MeansCycle lane_meaning (flat_tree flat.now) (env given.items outside.now) tt tt made.items) }
{
    match lower_signals(alloc, &mut Lanes, flat, given, outside) {
        Ok(signals) => Ok(signals),
        Err(_) => Err(Memory),
    }
}

/// The words of all registers behind these cycles.
fn state_words(
    alloc: Global,
    flat: &Flat,
    signals: &[Seq<Seq<u64>>],
) -> Result<Vec<Seq<Seq<u64>>>, Memory>
    requires formed { IsFormed (flat_tree flat.now) }
    requires signals { AreSignalBits (flat_tree flat.now) signals.now }
    requires known { EnvKnown lane_meaning tt (env signals.now []) }
    ensures { IfOk result (λ made. MeansState lane_meaning (flat_tree flat.now) signals.now tt tt made.items) }
{
    match lower_state(alloc, &mut Lanes, flat, signals) {
        Ok(behind) => Ok(behind),
        Err(_) => Err(Memory),
    }
}

/// The word of a check over tables of words.
fn check_word(
    alloc: Global,
    check: &Check,
    signals: &[Seq<Seq<u64>>],
    outside: &[Seq<u64>],
) -> Result<u64, Memory>
    requires suits { CheckSuits (mapped length (env signals.now outside.now)) (check_tree check.now) }
    requires known { EnvKnown lane_meaning tt (env signals.now outside.now) }
    ensures { IfOk result (λ w. Answers lane_meaning tt (tt, w) (λ v. violated (mapped length (env signals.now outside.now)) (numbers lane_meaning tt v (env signals.now outside.now)) (check_tree check.now))) }
{
    match lower_check(alloc, &mut Lanes, check, signals, outside) {
        Ok(word) => Ok(word),
        Err(_) => Err(Memory),
    }
}

/// The words of all that a check is asked of: of the cycles of a block, of the states behind them, of further names, and
/// of what pads are given from outside.
pub(crate) fn block_words(
    alloc: Global,
    flat: &Flat,
    tables: &CaseTables,
    block: u64,
) -> Result<BlockWords, Memory>
    requires formed { IsFormed (flat_tree flat.now) }
    requires tables { AreTables (flat_tree flat.now) (env tables.now.given.items tables.now.outside.items) tables.now.further.items }
    ensures { IfOk result (λ made. AreBlockWords (flat_tree flat.now) (env tables.now.given.items tables.now.outside.items) tables.now.further.items block made) }
{
    cases_are_assigned();
    let given = table_words(alloc, tables.given.as_slice(), block)?;
    let outside = row_words(alloc, tables.outside.as_slice(), block)?;
    let further = table_words(alloc, tables.further.as_slice(), block)?;
    let mut signals = signal_words(alloc, flat, given, outside.as_slice())?;
    let behind = state_words(alloc, flat, signals.as_slice())?;
    push_rows(&mut signals, behind)?;
    push_rows(&mut signals, further)?;
    Ok(BlockWords { signals, outside })
}

/// The word of the cases of a block in which a check is violated.
pub(crate) fn violated_word(
    alloc: Global,
    flat: &Flat,
    tables: &CaseTables,
    check: &Check,
    block: u64,
) -> Result<u64, Memory>
    requires formed { IsFormed (flat_tree flat.now) }
    requires tables { AreTables (flat_tree flat.now) (env tables.now.given.items tables.now.outside.items) tables.now.further.items }
    requires check { CheckSuits (widths_with (flat_tree flat.now) (map (map length) tables.now.further.items)) (check_tree check.now) }
    ensures { IfOk result (λ w. IsViolatedWord (flat_tree flat.now) (env tables.now.given.items tables.now.outside.items) tables.now.further.items (check_tree check.now) block w) }
{
    cases_are_assigned();
    let words = block_words(alloc, flat, tables, block)?;
    check_word(
        alloc,
        check,
        words.signals.as_slice(),
        words.outside.as_slice(),
    )
}
