ghost use Rattle.std.specs.Prelude.{◌≡◌, ◌≢◌, ◌*◌, ◌≤◌, Some};
ghost use Rattle.std.specs.List.{AllByRecursion};
ghost use Rattle.lola_bits.specs.Number.{number};
ghost use Rattle.lola_bits.specs.Vector.{FitsWidth};
ghost use Rattle.lola_tree.specs.Value.{repeated};
ghost use Rattle.lola_tree.specs.Width.{place_width, number_width};
ghost use Rattle.tab_tree.specs.declared.value.StateValue.TheVariants.{Many};
ghost use Rattle.tab_tree.specs.Names.{vector_by, mapped, first_width, nth_number};
ghost use Rattle.tab_mach.specs.Known.{value_of};
ghost use Rattle.tab_mach.specs.Vectors.{AreVectors, IsElement, IsValue, IsRun, whole_vector, element_at, bit_taken, slice_taken, negated, operated, both, one_of, chosen, run_by, joined_run, repeated_run, whole_run};

use crate::known::Meaning;
use lola_bits::{Bits, Op, fits};

/// The vector of a number with the width that is written, or else 1; none where it doesn't fit.
pub fn number(value: u128, width: Option<u128>) -> Option<Bits>
    ensures value { result ≡ vector_by (number_width value width) value }
    ensures fits { AreVectors result }
{
    let width = match width {
        Some(width) => width,
        None => 1,
    };
    if 0 < width && width < 129 && fits(width as u32, value) {
        Some(Bits::new(width as u32, value))
    } else {
        None
    }
}

/// A truth value as a vector of one bit.
fn truth(value: bool) -> Bits
    ensures value { result ≡ record { width = 1; value = number value } }
    ensures fits { FitsWidth result.width result.value }
{
    Bits::new(1, if value { 1 } else { 0 })
}

/// A bit of a vector.
pub fn bit_taken(of: Option<Bits>, place: Option<u128>) -> Option<Bits>
    requires { AreVectors of }
    ensures value { result ≡ bit_taken of place }
    ensures fits { AreVectors result }
{
    match (of, place) {
        (Some(of), Some(place)) => {
            if place < of.width as u128 {
                Some(truth(of.bit(place as u32)))
            } else {
                None
            }
        }
        _ => None,
    }
}

/// The bits of a vector from one place down to another.
pub fn slice_taken(of: Option<Bits>, high: Option<u128>, low: Option<u128>) -> Option<Bits>
    requires { AreVectors of }
    ensures value { result ≡ slice_taken of high low }
    ensures fits { AreVectors result }
{
    match (of, high, low) {
        (Some(of), Some(high), Some(low)) => {
            if high < of.width as u128 && !(high < low) {
                Some(of.slice(high as u32, low as u32))
            } else {
                None
            }
        }
        _ => None,
    }
}

/// Each bit the other way.
pub fn negated(of: Option<Bits>) -> Option<Bits>
    requires { AreVectors of }
    ensures value { result ≡ negated of }
    ensures fits { AreVectors result }
{
    match of {
        Some(of) => Some(of.not()),
        None => None,
    }
}

/// What an operator makes of two vectors, if there are two.
pub fn both(op: Op, left: Option<Bits>, right: Option<Bits>) -> Option<Bits>
    requires left { AreVectors left }
    requires right { AreVectors right }
    ensures value { result ≡ both op left right }
    ensures fits { AreVectors result }
{
    match (left, right) {
        (Some(left), Some(right)) => {
            if left.width == right.width {
                of_one_width(op, left, right)
            } else {
                of_two_widths(op, left, right)
            }
        }
        _ => None,
    }
}

/// What an operator makes of two vectors of one width.
fn of_one_width(op: Op, left: Bits, right: Bits) -> Option<Bits>
    requires left { FitsWidth left.width left.value }
    requires right { FitsWidth right.width right.value }
    requires same { right.width ≡ left.width }
    ensures value { result ≡ operated op left right }
    ensures fits { AreVectors result }
{
    match op {
        Op::And => Some(left.and(right)),
        Op::Or => Some(left.or(right)),
        Op::Xor => Some(left.xor(right)),
        Op::Add => Some(left.add(right)),
        Op::Sub => Some(left.sub(right)),
        Op::Eq => Some(truth(left.value == right.value)),
        Op::Ne => Some(truth(left.value != right.value)),
        Op::Lt => Some(truth(left.less(right))),
        Op::Le => Some(truth(!right.less(left))),
        Op::Gt => Some(truth(right.less(left))),
        Op::Ge => Some(truth(!left.less(right))),
        Op::Shl => Some(left.shl(right)),
        Op::Shr => Some(left.shr(right)),
        Op::Asr => Some(left.asr(right)),
        Op::Ror => Some(left.ror(right)),
        Op::Not | Op::Mux => None,
    }
}

/// What an operator makes of two vectors of two widths: a shift needs no more.
fn of_two_widths(op: Op, left: Bits, right: Bits) -> Option<Bits>
    requires left { FitsWidth left.width left.value }
    requires right { FitsWidth right.width right.value }
    requires other { left.width ≢ right.width }
    ensures value { result ≡ operated op left right }
    ensures fits { AreVectors result }
{
    match op {
        Op::Shl => Some(left.shl(right)),
        Op::Shr => Some(left.shr(right)),
        Op::Asr => Some(left.asr(right)),
        Op::Ror => Some(left.ror(right)),
        Op::And | Op::Or | Op::Xor | Op::Add | Op::Sub => None,
        Op::Eq | Op::Ne | Op::Lt | Op::Le | Op::Gt | Op::Ge => None,
        Op::Not | Op::Mux => None,
    }
}

/// One of two vectors by a test of one bit.
pub fn chosen(test: Option<Bits>, yes: Option<Bits>, no: Option<Bits>) -> Option<Bits>
    requires yes { AreVectors yes }
    requires no { AreVectors no }
    ensures value { result ≡ chosen test yes no }
    ensures fits { AreVectors result }
{
    match (test, yes, no) {
        (Some(test), Some(yes), Some(no)) => one_of(test, yes, no),
        _ => None,
    }
}

fn one_of(test: Bits, yes: Bits, no: Bits) -> Option<Bits>
    requires yes { FitsWidth yes.width yes.value }
    requires no { FitsWidth no.width no.value }
    ensures value { result ≡ one_of test yes no }
    ensures fits { AreVectors result }
{
    if yes.width == no.width && test.width == 1 {
        if test.value == 1 { Some(yes) } else { Some(no) }
    } else {
        None
    }
}

/// A name read as a vector.
pub fn whole_vector(meaning: Option<Meaning>) -> Option<Bits>
    requires { IsValue (mapped value_of meaning) }
    ensures value { result ≡ whole_vector (mapped value_of meaning.entry) }
    ensures fits { AreVectors result }
{
    match meaning {
        Some(Meaning::Vector(value)) => Some(value),
        _ => None,
    }
}

/// The width of the places of an array of so many elements.
fn place_width(elements: usize) -> Option<u32>
    ensures { result ≡ place_width elements }
{
    match elements {
        2 => Some(1),
        4 => Some(2),
        8 => Some(3),
        16 => Some(4),
        32 => Some(5),
        64 => Some(6),
        128 => Some(7),
        256 => Some(8),
        512 => Some(9),
        1024 => Some(10),
        _ => None,
    }
}

/// The element of an array at a place.
pub fn element_at(meaning: Option<Meaning>, place: Option<Bits>) -> Option<Bits>
    requires { IsValue (mapped value_of meaning) }
    ensures value { result ≡ element_at (mapped value_of meaning.entry) place }
    ensures fits { AreVectors result }
{
    match (meaning, place) {
        (Some(Meaning::Array(elements)), Some(place)) => element_of(elements, place),
        _ => None,
    }
}

/// The element of an array at a place whose width suits it.
fn element_of(elements: &[Bits], place: Bits) -> Option<Bits>
    requires { AllByRecursion (IsElement (first_width elements.now)) elements.now }
    ensures value { result ≡ element_at (Some (Many elements.now)) (Some place) }
    ensures fits { AreVectors result }
{
    match (elements, place_width(elements.len())) {
        ([first, ..], Some(width)) => {
            if width == place.width {
                Some(element(elements, first.width, place.value))
            } else {
                None
            }
        }
        _ => None,
    }
}

/// The element of a number in an array, or 0 behind its end, with this width.
#[tactic(auto, using(crate::proofs::Elements::element_fits))]
fn element(elements: &[Bits], width: u32, place: u128) -> Bits
    requires each { AllByRecursion (IsElement width) elements.now }
    requires is_width { FitsWidth width 0 }
    ensures value { result ≡ record { width = width; value = nth_number elements.now place } }
    ensures fits { FitsWidth result.width result.value }
{
    let value = if place < elements.len() as u128 {
        elements[place as usize].value
    } else {
        0
    };
    Bits { width, value }
}

/// The bits of a concatenation so far, of width 0 where there are none yet, and more behind them: none
/// where together they are more than 128.
#[tactic(auto, using(crate::proofs::Runs::first_run))]
pub fn joined_run(before: Option<Bits>, more: Option<Bits>) -> Option<Bits>
    requires before { IsRun before }
    requires more { AreVectors more }
    ensures value { result ≡ joined_run before more }
    ensures fits { IsRun result }
{
    match (before, more) {
        (Some(before), Some(more)) => {
            if before.width == 0 {
                Some(more)
            } else {
                followed(Some(before), more)
            }
        }
        _ => None,
    }
}

/// Two vectors one behind the other, up to 128 bits.
fn followed(high: Option<Bits>, low: Bits) -> Option<Bits>
    requires high { AreVectors high }
    requires low { FitsWidth low.width low.value }
    ensures value { result ≡ joined_run high (Some low) }
    ensures fits { AreVectors result }
{
    match high {
        Some(high) => {
            if high.width + low.width <= 128 {
                Some(high.concat(low))
            } else {
                None
            }
        }
        None => None,
    }
}

/// A vector so many times, up to 128 bits.
pub fn repeated(part: Option<Bits>, times: Option<u128>) -> Option<Bits>
    requires { AreVectors part }
    ensures value { result ≡ repeated_run part times }
    ensures fits { AreVectors result }
{
    match (part, times) {
        (Some(part), Some(times)) => {
            if 0 < times && times <= 128 {
                times_over(part, times as u32)
            } else {
                None
            }
        }
        _ => None,
    }
}

/// A vector from 1 to 128 times, up to 128 bits.
fn times_over(part: Bits, times: u32) -> Option<Bits>
    requires fits { FitsWidth part.width part.value }
    requires some { 1 ≤ times }
    ensures value { result ≡ run_by (Some (times * part.width)) (repeated times part.width part.value) }
    ensures fits { AreVectors result }
{
    let mut run = Some(part);
    for _time in 1..times {
        run = followed(run, part);
    }
    run
}

/// A concatenation of some bits: none where there are no bits.
pub fn whole_run(run: Option<Bits>) -> Option<Bits>
    requires { IsRun run }
    ensures value { result ≡ whole_run run }
    ensures fits { AreVectors result }
{
    match run {
        Some(run) => { if run.width == 0 { None } else { Some(run) } }
        None => None,
    }
}
