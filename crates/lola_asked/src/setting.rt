ghost use Rattle.std.specs.Prelude.{◌≡◌, ◌<◌, ◌++◌, ◌^◌, ◌-◌, min, length, get_or, replicate, IfOk, OnOk};
ghost use Rattle.lola_bits.specs.Lists.{AreEach};
ghost use Rattle.lola_flat.specs.Tree.{flat_tree};
ghost use Rattle.lola_flat.specs.Value.{sum_of};
ghost use Rattle.lola_flat.specs.Formed.{IsFormed};
ghost use Rattle.lola_cases.specs.Free.{free_widths};
ghost use Rattle.lola_asked.specs.Setting.{element_widths, all_widths, GivenFits, IsSetting, open_one, open_widths, setting_widths};

use lola_bits::{Memory, Seq};
use lola_cases::{free_elements, free_widths};
use lola_flat::Flat;
use std::alloc::{AllocError, Global};

/// What is free besides the elements of a design: a vector of a width in bits, or an array of `count` such vectors.
#[derive(Clone, Copy, Debug, PartialEq, Eq)]
pub struct Further {
    pub width: u32,
    pub count: u32,
}

/// What a check is asked in. `given` has for each element that a cycle of the design leaves free, in the order of
/// `lola_cases::free_elements`, its number where it is given, and None where it is free. Behind these it has the
/// same for the elements of further names, one name behind another.
#[derive(Debug, Drop)]
pub struct Setting {
    pub given: Seq<Option<u128>>,
    pub further: Seq<Further>,
}

/// Puts the widths of so many elements behind others.
fn push_widths(widths: &mut Vec<u32>, width: u32, count: u32) -> Result<(), AllocError>
    ensures { OnOk result (widths.new.items ≡ widths.old.items ++ replicate count width) }
{
    for element in 0..count {
        widths.push(width)?;
    }
    Ok(())
}

/// Puts the widths of the elements of further names behind others.
fn push_further(widths: &mut Vec<u32>, further: &[Further]) -> Result<(), AllocError>
    ensures { OnOk result (widths.new.items ≡ widths.old.items ++ element_widths further.now) }
{
    for name in further {
        push_widths(widths, name.width, name.count)?;
    }
    Ok(())
}

/// What a setting leaves free: the widths of all elements, of which the first so many are the design's, and those of
/// what isn't given.
#[derive(Debug, Drop)]
pub(crate) struct Widths {
    pub(crate) design: usize,
    pub(crate) all: Vec<u32>,
    pub(crate) open: Vec<u32>,
}

/// Whether an element is given, and its width.
pub(crate) fn element_at(given: &[Option<u128>], widths: &[u32], at: usize) -> (Option<u128>, u32)
    requires given { at < length given.now }
    requires widths { at < length widths.now }
    ensures given { result.0 ≡ get_or given.now at result.0 }
    ensures width { result.1 ≡ get_or widths.now at result.1 }
{
    (given[at], widths[at])
}

/// Puts the width of what isn't given behind others.
fn push_open(widths: &mut Vec<u32>, given: Option<u128>, width: u32) -> Result<(), AllocError>
    ensures { OnOk result (widths.new.items ≡ widths.old.items ++ open_one given width) }
{
    match given {
        Some(_) => Ok(()),
        None => {
            widths.push(width)?;
            Ok(())
        }
    }
}

/// The widths of what isn't given.
fn open_widths(alloc: Global, given: &[Option<u128>], widths: &[u32]) -> Result<Vec<u32>, Memory>
    requires { AreEach GivenFits given.now widths.now }
    ensures { IfOk result (λ made. made.items ≡ open_widths given.now widths.now) }
{
    let mut made = Vec::new(alloc);
    for at in 0..given.len() {
        let (number, width) = element_at(given, widths, at);
        push_open(&mut made, number, width)?;
    }
    Ok(made)
}

/// The widths of a setting.
pub(crate) fn setting_widths(
    alloc: Global,
    flat: &Flat,
    setting: &Setting,
) -> Result<Widths, Memory>
    requires formed { IsFormed (flat_tree flat.now) }
    requires setting { IsSetting (flat_tree flat.now) setting.now }
    ensures design { IfOk result (λ widths. widths.design ≡ length (free_widths (flat_tree flat.now))) }
    ensures all { IfOk result (λ widths. widths.all.items ≡ all_widths (flat_tree flat.now) setting.now) }
    ensures open { IfOk result (λ widths. widths.open.items ≡ setting_widths (flat_tree flat.now) setting.now) }
{
    let elements = free_elements(alloc, flat)?;
    let mut all = free_widths(alloc, elements.as_slice())?;
    let design = all.len();
    push_further(&mut all, setting.further.items())?;
    let open = open_widths(alloc, setting.given.items(), all.as_slice())?;
    Ok(Widths { design, all, open })
}

/// How many bits vectors of these widths have together, as far as a number of 32 bits goes.
pub(crate) fn bit_count(widths: &[u32]) -> u32
    ensures { result ≡ min (sum_of widths.now) (2 ^ 32 - 1) }
{
    let mut bits = 0u32;
    for width in widths {
        bits = bits.saturating_add(*width);
    }
    bits
}
