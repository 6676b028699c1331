ghost use Rattle.std.specs.Prelude.{◌≡◌, ℕ, true, [], map, length, get_or, Some, IfSome, IfOk};
ghost use Rattle.std.specs.Prelude.{◌≡◌, ◌<◌, true, [], ◌∷◌, map, length, get_or, Some, None, IfOk};
ghost use Rattle.std.specs.List.{AllByRecursion};
ghost use Rattle.std.specs.Option.{unwrap_or};
ghost use Rattle.lola_alg.specs.Means.{AreKnown};
ghost use Rattle.lola_alg.specs.Gates.{KeptArray};
ghost use Rattle.lola_alg.specs.Steps.{Went};
ghost use Rattle.lola_flat.specs.Tree.{expr_tree};
ghost use Rattle.lola_flat.specs.Value.{env, mapped, elements};
ghost use Rattle.lola_eval.specs.Means.{EnvKnown, SuitsArray};
ghost use Rattle.lola_eval.specs.Steps.{next_step};
ghost use Rattle.lola_checks.specs.Tree.{elements_tree, write_tree};
ghost use Rattle.lola_checks.specs.Steps.{write_step, elements_step, same_from, same_step};
ghost use Rattle.lola_checks.specs.Means.{MeansElements};
ghost use Rattle.lola_checks.specs.Suits.{ElementsSuit, HasElements, ArePairs, ArraysAlike};

use crate::check::{Elements, Write};
use crate::compare::equal;
use lola_alg::{AlgError, Algebra, low_write};
use lola_bits::Seq;
use lola_eval::lower_expr;
use std::alloc::Global;

/// Whether arrays of one width are equal, and a bit so far.
fn same_elements<A: Algebra>(
    alloc: Global,
    alg: &mut A,
    left: &[Seq<A::Bit>],
    right: &[Seq<A::Bit>],
    first: A::Bit,
) -> Result<A::Bit, AlgError>
    requires alike { ArePairs left.now right.now }
    requires left { AllByRecursion (AreKnown A.meaning (A.state alg.old)) left.now }
    requires right { AllByRecursion (AreKnown A.meaning (A.state alg.old)) right.now }
    requires first { A.meaning.knows (A.state alg.old) first ≡ true }
    ensures steps { Went (λ b. b) (same_from A.calls left.now right.now first (A.state alg.old)) (A.state alg.new) result }
{
    let mut so = first;
    for at in 0..left.len() {
        let bit = match equal(alloc, alg, left[at].items(), right[at].items()) {
            Ok(bit) => bit,
            Err(error) => return Err(error),
        };
        so = match alg.and(so, bit) {
            Ok(so) => so,
            Err(error) => return Err(error),
        };
    }
    Ok(so)
}

/// The elements of an array where the one at a place becomes a value.
fn lower_write<A: Algebra>(
    alloc: Global,
    alg: &mut A,
    write: &Write,
    old: &[Seq<A::Bit>],
    signals: &[Seq<Seq<A::Bit>>],
    outside: &[Seq<A::Bit>],
) -> Result<Seq<Seq<A::Bit>>, AlgError>
    requires suits { SuitsArray (env signals.now outside.now) (expr_tree write.now.place) (expr_tree write.now.value) old.now }
    requires known { EnvKnown A.meaning (A.state alg.old) (env signals.now outside.now) }
    requires old { AllByRecursion (AreKnown A.meaning (A.state alg.old)) old.now }
    ensures steps { Went (λ v. v) (next_step A.calls (env signals.now outside.now) (Some (expr_tree write.now.place)) (Some (expr_tree write.now.value)) old.now (A.state alg.old)) (A.state alg.new) result }
{
    let at = match lower_expr(alloc, alg, &write.place, signals, outside) {
        Ok(at) => at,
        Err(error) => return Err(error),
    };
    match lower_expr(alloc, alg, &write.value, signals, outside) {
        Ok(value) => low_write(alloc, alg, old, &at, &value),
        Err(error) => Err(error),
    }
}

/// The elements behind a write, where there is one.
fn behind_write<A: Algebra>(
    alloc: Global,
    alg: &mut A,
    write: &Option<Write>,
    old: &[Seq<A::Bit>],
    signals: &[Seq<Seq<A::Bit>>],
    outside: &[Seq<A::Bit>],
) -> Result<Option<Seq<Seq<A::Bit>>>, AlgError>
    requires suits { IfSome (write_tree write.now) (λ w. SuitsArray (env signals.now outside.now) w.place w.value old.now) }
    requires known { EnvKnown A.meaning (A.state alg.old) (env signals.now outside.now) }
    requires old { AllByRecursion (AreKnown A.meaning (A.state alg.old)) old.now }
    ensures steps { Went (λ made. unwrap_or made old.now) (write_step A.calls (env signals.now outside.now) (write_tree write.now) old.now (A.state alg.old)) (A.state alg.new) result }
{
    match write {
        None => Ok(None),
        Some(write) => match lower_write(alloc, alg, write, old, signals, outside) {
            Ok(made) => Ok(Some(made)),
            Err(error) => Err(error),
        },
    }
}

/// The elements that were made, or those that stood there.
fn made_or<'a, B: Drop>(made: &'a Option<Seq<Seq<B>>>, old: &'a [Seq<B>]) -> &'a [Seq<B>]
    ensures { result.now ≡ unwrap_or made.now old.now }
{
    match made {
        Some(made) => made.items(),
        None => old,
    }
}

/// The elements of an array that are made; where it is as it stands in the table, none are.
fn lower_elements<A: Algebra>(
    alloc: Global,
    alg: &mut A,
    array: &Elements,
    signals: &[Seq<Seq<A::Bit>>],
    outside: &[Seq<A::Bit>],
) -> Result<Option<Seq<Seq<A::Bit>>>, AlgError>
    requires suits { HasElements (mapped length (env signals.now outside.now)) (elements_tree array.now) }
    requires known { EnvKnown A.meaning (A.state alg.old) (env signals.now outside.now) }
    ensures steps { Went (λ made. unwrap_or made (get_or signals.now array.now.array [])) (elements_step A.calls (env signals.now outside.now) (elements_tree array.now) (A.state alg.old)) (A.state alg.new) result }
    ensures means { (wide count : ℕ) → ElementsSuit (mapped length (env signals.now outside.now)) wide count (elements_tree array.now) → IfOk result (λ made. MeansElements A.meaning (env signals.now outside.now) (elements_tree array.now) wide count (A.state alg.old) (A.state alg.new) (unwrap_or made (get_or signals.now array.now.array []))) }
{
    let old = signals[array.array as usize].items();
    behind_write(alloc, alg, &array.write, old, signals, outside)
}

/// Whether two arrays are equal, of elements that stand there or are written.
pub(crate) fn lower_same<A: Algebra>(
    alloc: Global,
    alg: &mut A,
    left: &Elements,
    right: &Elements,
    signals: &[Seq<Seq<A::Bit>>],
    outside: &[Seq<A::Bit>],
) -> Result<A::Bit, AlgError>
    requires suits { ArraysAlike (mapped length (env signals.now outside.now)) (elements_tree left.now) (elements_tree right.now) }
    requires known { EnvKnown A.meaning (A.state alg.old) (env signals.now outside.now) }
    ensures steps { Went (λ b. b) (same_step A.calls (env signals.now outside.now) (elements_tree left.now) (elements_tree right.now) (A.state alg.old)) (A.state alg.new) result }
{
    let first = match lower_elements(alloc, alg, left, signals, outside) {
        Ok(first) => first,
        Err(error) => return Err(error),
    };
    let second = match lower_elements(alloc, alg, right, signals, outside) {
        Ok(second) => second,
        Err(error) => return Err(error),
    };
    let one = alg.constant(true);
    let xs = made_or(&first, signals[left.array as usize].items());
    let ys = made_or(&second, signals[right.array as usize].items());
    same_elements(alloc, alg, xs, ys, one)
}
