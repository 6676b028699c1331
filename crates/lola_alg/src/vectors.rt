ghost use Rattle.std.specs.Prelude.{◌≡◌, true, length, IfOk};
ghost use Rattle.lola_alg.specs.Means.{AreKnown};
ghost use Rattle.lola_alg.specs.Steps.{Went, each_step, not_step, pairs_step};
ghost use Rattle.lola_alg.specs.Gates.{gate_step, IsKnownGate, KeptAll};

use crate::algebra::{AlgError, Algebra};
use crate::gates::{Gate, joined};
use std::alloc::Global;

/// The gates of two vectors of one width, bit by bit from the lowest.
pub(crate) fn pairs<A: Algebra>(
    alloc: Global,
    alg: &mut A,
    gate: Gate<A::Bit>,
    x: &[A::Bit],
    y: &[A::Bit],
) -> Result<Vec<A::Bit>, AlgError>
    requires gate { IsKnownGate A.meaning (A.state alg.old) gate }
    requires x { AreKnown A.meaning (A.state alg.old) x.now }
    requires y { AreKnown A.meaning (A.state alg.old) y.now }
    requires same { length y.now ≡ length x.now }
    ensures steps { Went (λ v. v.items) (pairs_step (gate_step A.calls gate) x.now y.now (A.state alg.old)) (A.state alg.new) result }
    ensures kept { KeptAll A.meaning (λ v. v.items) (A.state alg.old) (A.state alg.new) result }
    ensures long { IfOk result (λ v. length v.items ≡ length x.now) }
{
    let mut bits = Vec::new(alloc);
    for at in 0..x.len() {
        let bit = match joined(alg, gate, x[at], y[at]) {
            Ok(bit) => bit,
            Err(error) => return Err(error),
        };
        if let Err(_) = bits.push(bit) {
            return Err(AlgError::Memory);
        }
    }
    Ok(bits)
}

/// The negations of a vector's bits, from the lowest.
pub(crate) fn negations<A: Algebra>(
    alloc: Global,
    alg: &mut A,
    x: &[A::Bit],
) -> Result<Vec<A::Bit>, AlgError>
    requires x { AreKnown A.meaning (A.state alg.old) x.now }
    ensures steps { Went (λ v. v.items) (each_step (not_step A.calls) x.now (A.state alg.old)) (A.state alg.new) result }
    ensures kept { KeptAll A.meaning (λ v. v.items) (A.state alg.old) (A.state alg.new) result }
    ensures long { IfOk result (λ v. length v.items ≡ length x.now) }
{
    let mut bits = Vec::new(alloc);
    for at in 0..x.len() {
        let bit = alg.not(x[at]);
        if let Err(_) = bits.push(bit) {
            return Err(AlgError::Memory);
        }
    }
    Ok(bits)
}
