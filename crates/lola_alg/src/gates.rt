ghost use Rattle.std.specs.Prelude.{◌≡◌, true};
ghost use Rattle.lola_alg.specs.Steps.{Went, either_step, differ_step, choose_step};
ghost use Rattle.lola_alg.specs.Algebra.{Kept};
ghost use Rattle.lola_alg.specs.Gates.{gate_step, IsKnownGate};

use crate::algebra::{AlgError, Algebra};

/// What is made of two bits.
#[derive(Clone, Copy)]
pub(crate) enum Gate<B> {
    Both,
    Either,
    Differ,
    /// The first where this bit is 1, and else the second.
    Choose { test: B },
}

/// The gate of two known bits.
pub(crate) fn joined<A: Algebra>(
    alg: &mut A,
    gate: Gate<A::Bit>,
    a: A::Bit,
    b: A::Bit,
) -> Result<A::Bit, AlgError>
    requires gate { IsKnownGate A.meaning (A.state alg.old) gate }
    requires a { A.meaning.knows (A.state alg.old) a ≡ true }
    requires b { A.meaning.knows (A.state alg.old) b ≡ true }
    ensures steps { Went (λ x. x) (gate_step A.calls gate a b (A.state alg.old)) (A.state alg.new) result }
    ensures kept { Kept A.meaning (A.state alg.old) (A.state alg.new) result }
{
    match gate {
        Gate::Both => alg.and(a, b),
        Gate::Either => either(alg, a, b),
        Gate::Differ => differ(alg, a, b),
        Gate::Choose { test } => choose(alg, test, a, b),
    }
}

/// Whether either of two bits is 1.
pub(crate) fn either<A: Algebra>(alg: &mut A, a: A::Bit, b: A::Bit) -> Result<A::Bit, AlgError>
    requires a { A.meaning.knows (A.state alg.old) a ≡ true }
    requires b { A.meaning.knows (A.state alg.old) b ≡ true }
    ensures steps { Went (λ x. x) (either_step A.calls a b (A.state alg.old)) (A.state alg.new) result }
    ensures kept { Kept A.meaning (A.state alg.old) (A.state alg.new) result }
{
    let x = alg.not(a);
    let y = alg.not(b);
    match alg.and(x, y) {
        Ok(z) => Ok(alg.not(z)),
        Err(error) => Err(error),
    }
}

/// Whether one of two bits alone is 1.
pub(crate) fn differ<A: Algebra>(alg: &mut A, a: A::Bit, b: A::Bit) -> Result<A::Bit, AlgError>
    requires a { A.meaning.knows (A.state alg.old) a ≡ true }
    requires b { A.meaning.knows (A.state alg.old) b ≡ true }
    ensures steps { Went (λ x. x) (differ_step A.calls a b (A.state alg.old)) (A.state alg.new) result }
    ensures kept { Kept A.meaning (A.state alg.old) (A.state alg.new) result }
{
    let two = match alg.and(a, b) {
        Ok(two) => two,
        Err(error) => return Err(error),
    };
    let n = alg.not(two);
    let x = alg.not(a);
    let y = alg.not(b);
    match alg.and(x, y) {
        Ok(none) => {
            let m = alg.not(none);
            alg.and(n, m)
        }
        Err(error) => Err(error),
    }
}

/// The first of two bits where another is 1, and else the second.
pub(crate) fn choose<A: Algebra>(
    alg: &mut A,
    test: A::Bit,
    a: A::Bit,
    b: A::Bit,
) -> Result<A::Bit, AlgError>
    requires test { A.meaning.knows (A.state alg.old) test ≡ true }
    requires a { A.meaning.knows (A.state alg.old) a ≡ true }
    requires b { A.meaning.knows (A.state alg.old) b ≡ true }
    ensures steps { Went (λ x. x) (choose_step A.calls test a b (A.state alg.old)) (A.state alg.new) result }
    ensures kept { Kept A.meaning (A.state alg.old) (A.state alg.new) result }
{
    let first = match alg.and(test, a) {
        Ok(first) => first,
        Err(error) => return Err(error),
    };
    let n = alg.not(first);
    let u = alg.not(test);
    let second = match alg.and(u, b) {
        Ok(second) => second,
        Err(error) => return Err(error),
    };
    let m = alg.not(second);
    match alg.and(n, m) {
        Ok(neither) => Ok(alg.not(neither)),
        Err(error) => Err(error),
    }
}
