ghost use Rattle.std.specs.Prelude.{◌≡◌, ◌≢◌, ◌<◌, ℕ, [], ◌∷◌, map, length, get_or, Some, Err, IfOk};
ghost use Rattle.lola_alg.specs.Steps.{Went};
ghost use Rattle.lola_flat.specs.Tree.{ExprTree, flat_tree, signal_tree};
ghost use Rattle.lola_flat.specs.Value.{env, mapped, Fits};
ghost use Rattle.lola_flat.specs.Signals.{IsSignal};
ghost use Rattle.lola_flat.specs.Formed.{IsFormed};
ghost use Rattle.lola_eval.specs.Steps.{equation_step, equation_of, signals_step};
ghost use Rattle.lola_eval.specs.Means.{AreGivenBits, EnvKnown, MeansValue, MeansCycle};

use crate::expr::lower_expr;
use lola_alg::{AlgError, Algebra};
use lola_bits::Seq;
use lola_flat::{Flat, Signal};
use std::alloc::Global;

/// A signal of a flat design by its number.
pub(crate) fn signal_at(flat: &Flat, number: usize, signal: &Signal)
    requires within { number < length flat.now.signals }
    requires is { signal.now ≡ get_or flat.now.signals number signal.now }
    ensures signal { IsSignal (flat_tree flat.now) number (signal_tree signal.now) }
    ensures equation { equation_of (flat_tree flat.now) number ≡ (signal_tree signal.now).equation }
{}

/// The vector of a signal's equation.
fn lower_equation<A: Algebra>(
    alloc: Global,
    alg: &mut A,
    signal: &Signal,
    signals: &[Seq<Seq<A::Bit>>],
    outside: &[Seq<A::Bit>],
) -> Result<Seq<A::Bit>, AlgError>
    requires fits { (e : ExprTree) → (signal_tree signal.now).equation ≡ Some e → Fits (mapped length (env signals.now outside.now)) e }
    requires known { EnvKnown A.meaning (A.state alg.old) (env signals.now outside.now) }
    ensures steps { Went (λ v. v) (equation_step A.calls (env signals.now outside.now) (signal_tree signal.now).equation (A.state alg.old)) (A.state alg.new) result }
    ensures means { (e : ExprTree) → (signal_tree signal.now).equation ≡ Some e → IfOk result (λ bits. MeansValue A.meaning (env signals.now outside.now) e (A.state alg.old) (A.state alg.new, bits)) }
{
    match &signal.equation {
        Some(expr) => lower_expr(alloc, alg, expr, signals, outside),
        None => Ok(Seq::new(alloc)),
    }
}

/// The vector of the equation of a signal of a design.
fn lower_signal<A: Algebra>(
    alloc: Global,
    alg: &mut A,
    flat: &Flat,
    number: usize,
    signals: &[Seq<Seq<A::Bit>>],
    outside: &[Seq<A::Bit>],
) -> Result<Seq<A::Bit>, AlgError>
    requires there { number < length flat.now.signals }
    requires fits { (e : ExprTree) → equation_of (flat_tree flat.now) number ≡ Some e → Fits (mapped length (env signals.now outside.now)) e }
    requires known { EnvKnown A.meaning (A.state alg.old) (env signals.now outside.now) }
    ensures steps { Went (λ v. v) (equation_step A.calls (env signals.now outside.now) (equation_of (flat_tree flat.now) number) (A.state alg.old)) (A.state alg.new) result }
    ensures means { (e : ExprTree) → equation_of (flat_tree flat.now) number ≡ Some e → IfOk result (λ bits. MeansValue A.meaning (env signals.now outside.now) e (A.state alg.old) (A.state alg.new, bits)) }
{
    let signal = &flat.signals.items()[number];
    signal_at(flat, number, signal);
    lower_equation(alloc, alg, signal, signals, outside)
}

/// The list of one item.
pub(crate) fn alone<B: Drop>(alloc: Global, item: Seq<B>) -> Result<Seq<Seq<B>>, AlgError>
    ensures ok { IfOk result (λ made. made ≡ item ∷ []) }
    ensures err { result ≢ Err AlgError.Full }
{
    let mut items = Vec::new(alloc);
    match items.push(item) {
        Ok(()) => Ok(Seq::of(items)),
        Err(_) => Err(AlgError::Memory),
    }
}

/// The vectors of all signals of a well formed design, by their numbers: in the order of its equations, so that
/// under every assignment they mean the values of the design's cycle. `given` has the vectors of the elements of
/// each input but the clock and of each register, and `outside` a vector for each pad, by the numbers of signals;
/// what stands there for other signals doesn't count. A pad is the choice of its release, outside value and value,
/// made in the order release, value. `Full` comes exactly where one of the steps has no place for its gate, and
/// `Memory` for want of memory.
pub fn lower_signals<A: Algebra>(
    alloc: Global,
    alg: &mut A,
    flat: &Flat,
    given: Vec<Seq<Seq<A::Bit>>>,
    outside: &[Seq<A::Bit>],
) -> Result<Vec<Seq<Seq<A::Bit>>>, AlgError>
    requires formed { IsFormed (flat_tree flat.now) }
    requires given { AreGivenBits (flat_tree flat.now) (env given.items outside.now) }
    requires known { EnvKnown A.meaning (A.state alg.old) (env given.items outside.now) }
    ensures steps { Went (λ v. v.items) (signals_step A.calls (flat_tree flat.now) (env given.items outside.now) flat.now.order (A.state alg.old)) (A.state alg.new) result }
    ensures means { IfOk result (λ made. MeansCycle A.meaning (flat_tree flat.now) (env given.items outside.now) (A.state alg.old) (A.state alg.new) made.items) }
{
    lower_order(alloc, alg, flat, flat.order.items(), given, outside)
}

/// The signals of an order, one after another.
fn lower_order<A: Algebra>(
    alloc: Global,
    alg: &mut A,
    flat: &Flat,
    order: &[u32],
    given: Vec<Seq<Seq<A::Bit>>>,
    outside: &[Seq<A::Bit>],
) -> Result<Vec<Seq<Seq<A::Bit>>>, AlgError>
    requires formed { IsFormed (flat_tree flat.now) }
    requires order { order.now ≡ flat.now.order }
    requires given { AreGivenBits (flat_tree flat.now) (env given.items outside.now) }
    requires known { EnvKnown A.meaning (A.state alg.old) (env given.items outside.now) }
    ensures steps { Went (λ v. v.items) (signals_step A.calls (flat_tree flat.now) (env given.items outside.now) order.now (A.state alg.old)) (A.state alg.new) result }
    ensures means { IfOk result (λ made. MeansCycle A.meaning (flat_tree flat.now) (env given.items outside.now) (A.state alg.old) (A.state alg.new) made.items) }
{
    let mut table = given;
    for at in 0..order.len() {
        let number = order[at] as usize;
        let bits = match lower_signal(alloc, alg, flat, number, table.as_slice(), outside) {
            Ok(bits) => bits,
            Err(error) => return Err(error),
        };
        let vector = match alone(alloc, bits) {
            Ok(vector) => vector,
            Err(error) => return Err(error),
        };
        table[number] = vector;
    }
    Ok(table)
}
