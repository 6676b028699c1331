ghost use Rattle.std.specs.Prelude.{◌≡◌, ◌≤◌, ◌+◌, IfOk};
ghost use Rattle.lola_bits.specs.Lists.{AreEach};
ghost use Rattle.lola_flat.specs.Value.{sum_of};
ghost use Rattle.lola_asked.specs.Setting.{GivenFits, open_one, open_widths};
ghost use Rattle.lola_asked.specs.CaseBits.{place_bits, fixed_bits, vector_of, vectors_of};

use crate::setting::element_at;
use lola_bits::{Memory, Seq};
use std::alloc::Global;

/// Where a bit of a case comes from: it is the bit at a place of the case's number, counted from the lowest, or the
/// same in all cases.
#[derive(Clone, Copy, Debug, PartialEq, Eq)]
pub enum CaseBit {
    Place { place: u32 },
    Fixed { value: bool },
}

/// The bits of so many places from one on.
fn place_bits(alloc: Global, width: u32, place: u32) -> Result<Seq<CaseBit>, Memory>
    requires { place + width ≤ 64 }
    ensures { IfOk result (λ made. made ≡ place_bits width place) }
{
    let mut bits = Vec::new(alloc);
    for at in 0..width {
        bits.push(CaseBit::Place { place: place + at })?;
    }
    Ok(Seq::of(bits))
}

/// The bits of a number in a width.
fn fixed_bits(alloc: Global, width: u32, number: u128) -> Result<Seq<CaseBit>, Memory>
    ensures { IfOk result (λ made. made ≡ fixed_bits width number) }
{
    let mut bits = Vec::new(alloc);
    let mut rest = number;
    for place in 0..width {
        bits.push(CaseBit::Fixed {
            value: rest % 2 == 1,
        })?;
        rest /= 2;
    }
    Ok(Seq::of(bits))
}

/// How many places an element takes that may be given.
fn open_bits(given: Option<u128>, width: u32) -> u32
    ensures { result ≡ sum_of (open_one given width) }
{
    match given {
        Some(_) => 0,
        None => width,
    }
}

/// The vector of an element, where so many places are left below it.
fn vector_of(
    alloc: Global,
    given: Option<u128>,
    width: u32,
    left: u32,
) -> Result<Seq<CaseBit>, Memory>
    requires { left + sum_of (open_one given width) ≤ 64 }
    ensures { IfOk result (λ made. made ≡ vector_of given width left) }
{
    match given {
        Some(number) => fixed_bits(alloc, width, number),
        None => place_bits(alloc, width, left),
    }
}

/// The vectors of all elements. The bits of what isn't given are those of the case's number, the last element's the
/// lowest.
pub(crate) fn vectors_of(
    alloc: Global,
    given: &[Option<u128>],
    widths: &[u32],
    bits: u32,
) -> Result<Vec<Seq<CaseBit>>, Memory>
    requires each { AreEach GivenFits given.now widths.now }
    requires bits { bits ≡ sum_of (open_widths given.now widths.now) }
    requires few { bits ≤ 16 }
    ensures { IfOk result (λ made. made.items ≡ vectors_of given.now widths.now) }
{
    let mut left = bits;
    let mut vectors = Vec::new(alloc);
    for at in 0..given.len() {
        let (number, width) = element_at(given, widths, at);
        left -= open_bits(number, width);
        vectors.push(vector_of(alloc, number, width, left)?)?;
    }
    Ok(vectors)
}
