ghost use Rattle.std.specs.Prelude.{◌≡◌, ◌≤◌, ◌<◌, ◌^◌, ◌*◌, map, length, IfOk, MatchOption};
ghost use Rattle.lola_flat.specs.Tree.{flat_tree};
ghost use Rattle.lola_flat.specs.Value.{env};
ghost use Rattle.lola_flat.specs.Formed.{IsFormed};
ghost use Rattle.lola_cases.specs.Trial.{HoldsAlways, IsLeastFailing};
ghost use Rattle.lola_checks.specs.Tree.{check_tree};
ghost use Rattle.lola_checks.specs.Suits.{CheckSuits};
ghost use Rattle.lola_cases.specs.Free.{free_widths};
ghost use Rattle.lola_asked.specs.Setting.{IsSetting, all_widths, setting_widths, free_bits, further_widths, widths_with, check_widths};
ghost use Rattle.lola_asked.specs.Words.{AreTables, AreNumbersOf, IsFirstViolated};
ghost use Rattle.lola_asked.specs.Asked.{HoldsIn, BitsSuit};

use crate::bits::vectors_of;
use crate::block::violated_word;
use crate::setting::{Setting, Widths, bit_count, setting_widths};
use crate::tables::{CaseTables, case_tables};
use lola_bits::Memory;
use lola_cases::{counting, each_has_one_cycle, numbers_of, values_are_given};
use lola_checks::Check;
use lola_flat::Flat;
use std::alloc::Global;

/// Why a check isn't asked.
#[derive(Clone, Copy, Debug, PartialEq, Eq)]
pub enum AskError {
    /// More than 16 bits are free. They are counted as far as a number of 32 bits goes.
    TooManyBits { count: u32 },
    /// Want of memory.
    Memory,
}

/// How many blocks of 64 hold so many cases.
fn blocks(cases: u64) -> u64
    requires { cases ≤ 2 ^ 16 }
    ensures enough { cases ≤ 64 * result }
    ensures few { result ≤ 2 ^ 10 }
{
    (cases + 63) / 64
}

/// The least of so many cases in which a check is violated. It takes the memory of one block at a time.
fn first_violated(
    alloc: Global,
    flat: &Flat,
    tables: &CaseTables,
    check: &Check,
    cases: u64,
) -> Result<Option<u64>, Memory>
    requires formed { IsFormed (flat_tree flat.now) }
    requires tables { AreTables (flat_tree flat.now) (env tables.now.given.items tables.now.outside.items) tables.now.further.items }
    requires check { CheckSuits (widths_with (flat_tree flat.now) (map (map length) tables.now.further.items)) (check_tree check.now) }
    requires few { cases ≤ 2 ^ 16 }
    ensures { IfOk result (λ found. IsFirstViolated (flat_tree flat.now) (env tables.now.given.items tables.now.outside.items) tables.now.further.items (check_tree check.now) cases found) }
{
    for block in 0..blocks(cases) {
        let word = violated_word(alloc, flat, tables, check, block)?;
        if word != 0 {
            let case = 64 * block + u64::from(word.trailing_zeros());
            return Ok(if case < cases { Some(case) } else { None });
        }
    }
    Ok(None)
}

/// The tables of a setting with these widths and so many free bits.
fn setting_tables(
    alloc: Global,
    flat: &Flat,
    setting: &Setting,
    widths: &Widths,
    bits: u32,
) -> Result<CaseTables, Memory>
    requires formed { IsFormed (flat_tree flat.now) }
    requires setting { IsSetting (flat_tree flat.now) setting.now }
    requires design { widths.now.design ≡ length (free_widths (flat_tree flat.now)) }
    requires all { widths.now.all.items ≡ all_widths (flat_tree flat.now) setting.now }
    requires bits { bits ≡ free_bits (flat_tree flat.now) setting.now }
    requires few { bits ≤ 16 }
    ensures suit { IfOk result (λ made. AreTables (flat_tree flat.now) (env made.given.items made.outside.items) made.further.items) }
    ensures widths { IfOk result (λ made. map (map length) made.further.items ≡ further_widths setting.now.further) }
    ensures numbers { IfOk result (λ made. AreNumbersOf (flat_tree flat.now) setting.now (env made.given.items made.outside.items) made.further.items) }
{
    let given = setting.given.items();
    each_has_one_cycle();
    values_are_given();
    let vectors = vectors_of(alloc, given, widths.all.as_slice(), bits)?;
    case_tables(
        alloc,
        flat,
        setting.further.items(),
        vectors.as_slice(),
        widths.design,
    )
}

/// The least case in which a check is violated, where so many bits are free.
fn least_violated(
    alloc: Global,
    flat: &Flat,
    setting: &Setting,
    check: &Check,
    widths: &Widths,
    bits: u32,
) -> Result<Option<Vec<u128>>, Memory>
    requires formed { IsFormed (flat_tree flat.now) }
    requires setting { IsSetting (flat_tree flat.now) setting.now }
    requires check { CheckSuits (check_widths (flat_tree flat.now) setting.now) (check_tree check.now) }
    requires design { widths.now.design ≡ length (free_widths (flat_tree flat.now)) }
    requires all { widths.now.all.items ≡ all_widths (flat_tree flat.now) setting.now }
    requires open { widths.now.open.items ≡ setting_widths (flat_tree flat.now) setting.now }
    requires bits { bits ≡ free_bits (flat_tree flat.now) setting.now }
    requires few { bits ≤ 16 }
    ensures { IfOk result (λ found. MatchOption found (HoldsAlways (HoldsIn (flat_tree flat.now) setting.now (check_tree check.now)) (setting_widths (flat_tree flat.now) setting.now)) (λ numbers. IsLeastFailing (HoldsIn (flat_tree flat.now) setting.now (check_tree check.now)) (setting_widths (flat_tree flat.now) setting.now) numbers.items)) }
{
    counting();
    let tables = setting_tables(alloc, flat, setting, widths, bits)?;
    match first_violated(alloc, flat, &tables, check, 1u64 << bits)? {
        Some(case) => {
            let numbers = numbers_of(alloc, widths.open.as_slice(), case as u32)?;
            Ok(Some(numbers))
        }
        None => Ok(None),
    }
}

/// The least case in which a check is violated, as the numbers of all that is free in their order, or None where it
/// holds in every case. A check speaks of tables as `check_widths` in `specs/Setting.antt` has them. `TooManyBits`
/// comes exactly where more than 16 bits are free, and `Memory` for want of memory. The memory that is taken doesn't
/// grow with the number of cases.
pub fn asked(
    alloc: Global,
    flat: &Flat,
    setting: &Setting,
    check: &Check,
) -> Result<Option<Vec<u128>>, AskError>
    requires formed { IsFormed (flat_tree flat.now) }
    requires setting { IsSetting (flat_tree flat.now) setting.now }
    requires check { CheckSuits (check_widths (flat_tree flat.now) setting.now) (check_tree check.now) }
    ensures found { IfOk result (λ found. MatchOption found (HoldsAlways (HoldsIn (flat_tree flat.now) setting.now (check_tree check.now)) (setting_widths (flat_tree flat.now) setting.now)) (λ numbers. IsLeastFailing (HoldsIn (flat_tree flat.now) setting.now (check_tree check.now)) (setting_widths (flat_tree flat.now) setting.now) numbers.items)) }
    ensures bits { BitsSuit (free_bits (flat_tree flat.now) setting.now) result }
{
    let widths = match setting_widths(alloc, flat, setting) {
        Ok(widths) => widths,
        Err(Memory) => return Err(AskError::Memory),
    };
    let bits = bit_count(widths.open.as_slice());
    if bits > 16 {
        return Err(AskError::TooManyBits { count: bits });
    }
    match least_violated(alloc, flat, setting, check, &widths, bits) {
        Ok(found) => Ok(found),
        Err(Memory) => Err(AskError::Memory),
    }
}
