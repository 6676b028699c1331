ghost use Rattle.std.specs.Prelude.{◌≡◌, ◌<◌, true, map, length, get_or, Some};
ghost use Rattle.lola_alg.specs.Algebra.{Kept};
ghost use Rattle.lola_alg.specs.Means.{AreKnown};
ghost use Rattle.lola_alg.specs.Steps.{Went};
ghost use Rattle.lola_flat.specs.Tree.{expr_tree};
ghost use Rattle.lola_flat.specs.Value.{env, mapped};
ghost use Rattle.lola_eval.specs.Means.{EnvKnown};
ghost use Rattle.lola_checks.specs.Steps.{mark_step, fits_from, fits_step};
ghost use Rattle.lola_checks.specs.Suits.{PatternSuits};

use crate::check::Mark;
use lola_alg::{AlgError, Algebra};
use lola_bits::Seq;
use lola_eval::lower_expr;
use lola_flat::FExpr;
use std::alloc::Global;

/// A bit so far, and whether a bit suits a mark.
fn with_mark<A: Algebra>(
    alg: &mut A,
    mark: Mark,
    bit: A::Bit,
    so: A::Bit,
) -> Result<A::Bit, AlgError>
    requires bit { A.meaning.knows (A.state alg.old) bit ≡ true }
    requires so { A.meaning.knows (A.state alg.old) so ≡ true }
    ensures steps { Went (λ b. b) (mark_step A.calls mark (Some bit) so (A.state alg.old)) (A.state alg.new) result }
    ensures kept { Kept A.meaning (A.state alg.old) (A.state alg.new) result }
{
    match mark {
        Mark::Zero => {
            let other = alg.not(bit);
            alg.and(so, other)
        }
        Mark::One => alg.and(so, bit),
        Mark::Any => Ok(so),
    }
}

/// The mark at a place of a pattern.
fn mark_at(pattern: &[Mark], at: usize) -> Mark
    requires { at < length pattern.now }
    ensures { result ≡ get_or pattern.now at result }
{
    pattern[at]
}

/// A bit so far, and whether bits, the lowest first, suit the marks of a pattern, the highest first.
fn with_marks<A: Algebra>(
    alg: &mut A,
    pattern: &[Mark],
    bits: &[A::Bit],
    first: A::Bit,
) -> Result<A::Bit, AlgError>
    requires long { length bits.now ≡ length pattern.now }
    requires bits { AreKnown A.meaning (A.state alg.old) bits.now }
    requires first { A.meaning.knows (A.state alg.old) first ≡ true }
    ensures steps { Went (λ b. b) (fits_from A.calls pattern.now bits.now first (A.state alg.old)) (A.state alg.new) result }
{
    let mut so = first;
    for at in 0..pattern.len() {
        let mark = mark_at(pattern, at);
        let bit = bits[pattern.len() - 1 - at];
        so = match with_mark(alg, mark, bit, so) {
            Ok(so) => so,
            Err(error) => return Err(error),
        };
    }
    Ok(so)
}

/// Whether a word fits a pattern.
pub(crate) fn lower_fits<A: Algebra>(
    alloc: Global,
    alg: &mut A,
    word: &FExpr,
    pattern: &[Mark],
    signals: &[Seq<Seq<A::Bit>>],
    outside: &[Seq<A::Bit>],
) -> Result<A::Bit, AlgError>
    requires suits { PatternSuits (mapped length (env signals.now outside.now)) (expr_tree word.now) pattern.now }
    requires known { EnvKnown A.meaning (A.state alg.old) (env signals.now outside.now) }
    ensures steps { Went (λ b. b) (fits_step A.calls (env signals.now outside.now) (expr_tree word.now) pattern.now (A.state alg.old)) (A.state alg.new) result }
{
    let bits = match lower_expr(alloc, alg, word, signals, outside) {
        Ok(bits) => bits,
        Err(error) => return Err(error),
    };
    let one = alg.constant(true);
    with_marks(alg, pattern, bits.items(), one)
}
