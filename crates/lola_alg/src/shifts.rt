ghost use Rattle.std.specs.Prelude.{◌≡◌, ◌≤◌, ◌<◌, ◌+◌, ◌^◌, ◌%◌, ◌++◌, min, true, length, replicate, IfOk, OnOk, List};
ghost use Rattle.lola_alg.specs.Means.{AreKnown};
ghost use Rattle.lola_alg.specs.Steps.{Went, pairs_step, choose_step, moves_step, turns_step, moved_up, moved_down, moved_filled};
ghost use Rattle.lola_alg.specs.Gates.{KeptAll, move_of, turned, turn_here, IsKnownMove};

use crate::algebra::{AlgError, Algebra};
use crate::gates::Gate;
use crate::vectors::pairs;
use std::alloc::{AllocError, Global};

/// How the bits of a vector move, and what comes in.
#[derive(Clone, Copy)]
pub(crate) enum Move<B> {
    /// To higher bits; this bit comes in below.
    Up { fill: B },
    /// To lower bits; this bit comes in above.
    Down { fill: B },
    /// To lower bits; copies of the highest bit come in above.
    Filled,
}

/// Puts copies of a bit behind others.
fn push_copies<B: Copy>(bits: &mut Vec<B>, bit: B, times: usize) -> Result<(), AllocError>
    ensures { OnOk result (bits.new.items ≡ bits.old.items ++ replicate times bit) }
{
    for turn in 0..times {
        if let Err(_) = bits.push(bit) {
            return Err(AllocError);
        }
    }
    Ok(())
}

/// Puts the bits of a slice behind others.
pub(crate) fn push_bits<B: Copy>(bits: &mut Vec<B>, more: &[B]) -> Result<(), AllocError>
    ensures { OnOk result (bits.new.items ≡ bits.old.items ++ more.now) }
{
    for bit in more {
        if let Err(_) = bits.push(*bit) {
            return Err(AllocError);
        }
    }
    Ok(())
}

/// 2 to a place, but no more than this.
fn power(place: usize, most: usize) -> usize
    requires { most ≤ 128 }
    ensures { result ≡ min (2 ^ place) most }
{
    if place < 8 {
        (1usize << place).min(most)
    } else {
        most
    }
}

/// A vector moved by so many bits.
fn moved<B: Copy>(alloc: Global, way: Move<B>, amount: usize, x: &[B]) -> Result<Vec<B>, AllocError>
    requires { amount ≤ length x.now }
    ensures { IfOk result (λ v. v.items ≡ move_of way amount x.now) }
{
    match way {
        Move::Up { fill } => up(alloc, fill, amount, x),
        Move::Down { fill } => down(alloc, fill, amount, x),
        Move::Filled => filled(alloc, amount, x),
    }
}

/// Moved to higher bits.
fn up<B: Copy>(alloc: Global, fill: B, amount: usize, x: &[B]) -> Result<Vec<B>, AllocError>
    requires { amount ≤ length x.now }
    ensures { IfOk result (λ v. v.items ≡ moved_up fill amount x.now) }
{
    let mut bits = Vec::new(alloc);
    let (front, _) = x.split_at(x.len() - amount);
    push_copies(&mut bits, fill, amount)?;
    push_bits(&mut bits, front)?;
    Ok(bits)
}

/// Moved to lower bits.
fn down<B: Copy>(alloc: Global, fill: B, amount: usize, x: &[B]) -> Result<Vec<B>, AllocError>
    requires { amount ≤ length x.now }
    ensures { IfOk result (λ v. v.items ≡ moved_down fill amount x.now) }
{
    let mut bits = Vec::new(alloc);
    let (_, back) = x.split_at(amount);
    push_bits(&mut bits, back)?;
    push_copies(&mut bits, fill, amount)?;
    Ok(bits)
}

/// Moved to lower bits, with copies of the highest.
fn filled<B: Copy>(alloc: Global, amount: usize, x: &[B]) -> Result<Vec<B>, AllocError>
    requires { amount ≤ length x.now }
    ensures { IfOk result (λ v. v.items ≡ moved_filled amount x.now) }
{
    if x.is_empty() {
        Ok(Vec::new(alloc))
    } else {
        down(alloc, x[x.len() - 1], amount, x)
    }
}

/// Turned by so many bits.
fn rotated<B: Copy>(alloc: Global, amount: usize, x: &[B]) -> Result<Vec<B>, AllocError>
    requires { amount ≤ length x.now }
    ensures { IfOk result (λ v. v.items ≡ turned amount x.now) }
{
    let mut bits = Vec::new(alloc);
    let (front, back) = x.split_at(amount);
    push_bits(&mut bits, back)?;
    push_bits(&mut bits, front)?;
    Ok(bits)
}

/// A vector moved by 2 to a place where a bit is 1, and as it is where that is 0.
fn moved_where<A: Algebra>(
    alloc: Global,
    alg: &mut A,
    way: Move<A::Bit>,
    place: usize,
    test: A::Bit,
    x: &[A::Bit],
) -> Result<Vec<A::Bit>, AlgError>
    requires way { IsKnownMove A.meaning (A.state alg.old) way }
    requires test { A.meaning.knows (A.state alg.old) test ≡ true }
    requires x { AreKnown A.meaning (A.state alg.old) x.now }
    requires short { length x.now ≤ 128 }
    ensures steps { Went (λ v. v.items) (pairs_step (choose_step A.calls test) (move_of way (2 ^ place) x.now) x.now (A.state alg.old)) (A.state alg.new) result }
    ensures kept { KeptAll A.meaning (λ v. v.items) (A.state alg.old) (A.state alg.new) result }
    ensures long { IfOk result (λ v. length v.items ≡ length x.now) }
{
    match moved(alloc, way, power(place, x.len()), x) {
        Ok(other) => pairs(alloc, alg, Gate::Choose { test }, other.as_slice(), x),
        Err(_) => Err(AlgError::Memory),
    }
}

/// A vector moved by the number of another, bit by bit of that.
pub(crate) fn shifted<A: Algebra>(
    alloc: Global,
    alg: &mut A,
    way: Move<A::Bit>,
    x: &[A::Bit],
    by: &[A::Bit],
) -> Result<Vec<A::Bit>, AlgError>
    requires way { IsKnownMove A.meaning (A.state alg.old) way }
    requires x { AreKnown A.meaning (A.state alg.old) x.now }
    requires by { AreKnown A.meaning (A.state alg.old) by.now }
    requires short { length x.now ≤ 128 }
    ensures steps { Went (λ v. v.items) (moves_step A.calls (move_of way) 0 by.now x.now (A.state alg.old)) (A.state alg.new) result }
    ensures kept { KeptAll A.meaning (λ v. v.items) (A.state alg.old) (A.state alg.new) result }
    ensures long { IfOk result (λ v. length v.items ≡ length x.now) }
{
    let mut bits = Vec::new(alloc);
    if let Err(_) = push_bits(&mut bits, x) {
        return Err(AlgError::Memory);
    }
    for place in 0..by.len() {
        bits = match moved_where(alloc, alg, way, place, by[place], bits.as_slice()) {
            Ok(bits) => bits,
            Err(error) => return Err(error),
        };
    }
    Ok(bits)
}

/// 2 to a place modulo a width.
fn turn(place: usize, width: usize) -> usize
    requires place { place < 128 }
    requires width { 1 ≤ width }
    ensures { result ≡ 2 ^ place % width }
{
    ((1u128 << place) % width as u128) as usize
}

/// A vector turned by so many bits where a bit is 1, and as it is where that is 0.
fn turned_where<A: Algebra>(
    alloc: Global,
    alg: &mut A,
    amount: usize,
    test: A::Bit,
    x: &[A::Bit],
) -> Result<Vec<A::Bit>, AlgError>
    requires amount { amount ≤ length x.now }
    requires test { A.meaning.knows (A.state alg.old) test ≡ true }
    requires x { AreKnown A.meaning (A.state alg.old) x.now }
    ensures steps { Went (λ v. v.items) (pairs_step (choose_step A.calls test) (turned amount x.now) x.now (A.state alg.old)) (A.state alg.new) result }
    ensures kept { KeptAll A.meaning (λ v. v.items) (A.state alg.old) (A.state alg.new) result }
    ensures long { IfOk result (λ v. length v.items ≡ length x.now) }
{
    match rotated(alloc, amount, x) {
        Ok(other) => pairs(alloc, alg, Gate::Choose { test }, other.as_slice(), x),
        Err(_) => Err(AlgError::Memory),
    }
}

/// A vector turned by 2 to a place where a bit is 1, and as it is where that is 0 or comes round.
fn turned_at<A: Algebra>(
    alloc: Global,
    alg: &mut A,
    place: usize,
    test: A::Bit,
    bits: Vec<A::Bit>,
) -> Result<Vec<A::Bit>, AlgError>
    requires place { place < 128 }
    requires some { 1 ≤ length bits.items }
    requires test { A.meaning.knows (A.state alg.old) test ≡ true }
    requires bits { AreKnown A.meaning (A.state alg.old) bits.items }
    ensures steps { Went (λ v. v.items) (turn_here A.calls place test bits.items (A.state alg.old)) (A.state alg.new) result }
    ensures kept { KeptAll A.meaning (λ v. v.items) (A.state alg.old) (A.state alg.new) result }
    ensures long { IfOk result (λ v. length v.items ≡ length bits.items) }
{
    let amount = turn(place, bits.len());
    if amount == 0 {
        Ok(bits)
    } else {
        turned_where(alloc, alg, amount, test, bits.as_slice())
    }
}

/// A vector turned right by the number of another modulo its width, bit by bit of that.
pub(crate) fn turned_by<A: Algebra>(
    alloc: Global,
    alg: &mut A,
    x: &[A::Bit],
    by: &[A::Bit],
) -> Result<Vec<A::Bit>, AlgError>
    requires x { AreKnown A.meaning (A.state alg.old) x.now }
    requires by { AreKnown A.meaning (A.state alg.old) by.now }
    requires some { 1 ≤ length x.now }
    requires short { length by.now ≤ 128 }
    ensures steps { Went (λ v. v.items) (turns_step A.calls 0 by.now x.now (A.state alg.old)) (A.state alg.new) result }
    ensures kept { KeptAll A.meaning (λ v. v.items) (A.state alg.old) (A.state alg.new) result }
    ensures long { IfOk result (λ v. length v.items ≡ length x.now) }
{
    let mut bits = Vec::new(alloc);
    if let Err(_) = push_bits(&mut bits, x) {
        return Err(AlgError::Memory);
    }
    for place in 0..by.len() {
        bits = match turned_at(alloc, alg, place, by[place], bits) {
            Ok(bits) => bits,
            Err(error) => return Err(error),
        };
    }
    Ok(bits)
}
