ghost use Rattle.std.specs.Prelude.{◌≡◌, ◌<◌, ◌≤◌, ◌^◌, ℕ, List, [], ◌∷◌, map, length, get_or, Some, None, IfOk};
ghost use Rattle.std.specs.List.{AllByRecursion};
ghost use Rattle.lola_alg.specs.Steps.{Went};
ghost use Rattle.lola_alg.specs.Means.{AreKnown};
ghost use Rattle.lola_flat.specs.Tree.{ExprTree, SignalTree, expr_tree, flat_tree, signal_tree};
ghost use Rattle.lola_flat.specs.Value.{env, mapped, Fits};
ghost use Rattle.lola_flat.specs.Signals.{IsSignal};
ghost use Rattle.lola_flat.specs.Formed.{IsFormed, IsKind};
ghost use Rattle.lola_alg.specs.Gates.{KeptArray};
ghost use Rattle.lola_eval.specs.Steps.{kind_step, next_step, state_step};
ghost use Rattle.lola_eval.specs.Means.{AreSignalBits, EnvKnown, SuitsNext, MeansNext, MeansBehind, MeansState};

use crate::expr::lower_expr;
use crate::signals::{alone, signal_at};
use lola_alg::{AlgError, Algebra, low_write};
use lola_bits::Seq;
use lola_flat::{FExpr, Flat, SigKind, Signal};
use std::alloc::Global;

/// The next elements of an array: the place, then the value, which is written there.
fn next_array<A: Algebra>(
    alloc: Global,
    alg: &mut A,
    place: &FExpr,
    expr: &FExpr,
    old: &[Seq<A::Bit>],
    signals: &[Seq<Seq<A::Bit>>],
    outside: &[Seq<A::Bit>],
) -> Result<Seq<Seq<A::Bit>>, AlgError>
    requires suits { SuitsNext (env signals.now outside.now) (Some (expr_tree place.now)) (Some (expr_tree expr.now)) old.now }
    requires known { EnvKnown A.meaning (A.state alg.old) (env signals.now outside.now) }
    requires old { AllByRecursion (AreKnown A.meaning (A.state alg.old)) old.now }
    ensures steps { Went (λ v. v) (next_step A.calls (env signals.now outside.now) (Some (expr_tree place.now)) (Some (expr_tree expr.now)) old.now (A.state alg.old)) (A.state alg.new) result }
{
    let at = match lower_expr(alloc, alg, place, signals, outside) {
        Ok(at) => at,
        Err(error) => return Err(error),
    };
    match lower_expr(alloc, alg, expr, signals, outside) {
        Ok(value) => low_write(alloc, alg, old, &at, &value),
        Err(error) => Err(error),
    }
}

/// The next value of a register that is a vector.
fn next_vector<A: Algebra>(
    alloc: Global,
    alg: &mut A,
    expr: &FExpr,
    signals: &[Seq<Seq<A::Bit>>],
    outside: &[Seq<A::Bit>],
) -> Result<Seq<Seq<A::Bit>>, AlgError>
    requires suits { Fits (mapped length (env signals.now outside.now)) (expr_tree expr.now) }
    requires known { EnvKnown A.meaning (A.state alg.old) (env signals.now outside.now) }
    ensures steps { (old : List (List A.Bit)) → Went (λ v. v) (next_step A.calls (env signals.now outside.now) None (Some (expr_tree expr.now)) old (A.state alg.old)) (A.state alg.new) result }
{
    match lower_expr(alloc, alg, expr, signals, outside) {
        Ok(bits) => alone(alloc, bits),
        Err(error) => Err(error),
    }
}

/// The next elements of a signal, which stands at these elements.
fn next_elements<A: Algebra>(
    alloc: Global,
    alg: &mut A,
    signal: &Signal,
    old: &[Seq<A::Bit>],
    signals: &[Seq<Seq<A::Bit>>],
    outside: &[Seq<A::Bit>],
) -> Result<Seq<Seq<A::Bit>>, AlgError>
    requires suits { SuitsNext (env signals.now outside.now) (signal_tree signal.now).place (signal_tree signal.now).equation old.now }
    requires known { EnvKnown A.meaning (A.state alg.old) (env signals.now outside.now) }
    requires old { AllByRecursion (AreKnown A.meaning (A.state alg.old)) old.now }
    ensures steps { Went (λ v. v) (next_step A.calls (env signals.now outside.now) (signal_tree signal.now).place (signal_tree signal.now).equation old.now (A.state alg.old)) (A.state alg.new) result }
{
    match &signal.equation {
        None => Ok(Seq::new(alloc)),
        Some(expr) => match &signal.place {
            None => next_vector(alloc, alg, expr, signals, outside),
            Some(place) => next_array(alloc, alg, place, expr, old, signals, outside),
        },
    }
}

/// The next value of the register at a number.
fn next_at<A: Algebra>(
    alloc: Global,
    alg: &mut A,
    flat: &Flat,
    number: usize,
    signals: &[Seq<Seq<A::Bit>>],
) -> Result<Seq<Seq<A::Bit>>, AlgError>
    requires formed { IsFormed (flat_tree flat.now) }
    requires register { IsKind (flat_tree flat.now) number SigKind.Register }
    requires signals { AreSignalBits (flat_tree flat.now) signals.now }
    requires known { EnvKnown A.meaning (A.state alg.old) (env signals.now []) }
    ensures steps { (s : SignalTree) → IsSignal (flat_tree flat.now) number s → Went (λ v. v) (next_step A.calls (env signals.now []) s.place s.equation (get_or signals.now number []) (A.state alg.old)) (A.state alg.new) result }
    ensures means { (s : SignalTree) → IsSignal (flat_tree flat.now) number s → IfOk result (λ made. MeansNext A.meaning (flat_tree flat.now) (env signals.now []) number s (A.state alg.old) (A.state alg.new) made) }
{
    let signal = &flat.signals.items()[number];
    signal_at(flat, number, signal);
    let none = Vec::new(alloc);
    next_elements(
        alloc,
        alg,
        signal,
        signals[number].items(),
        signals,
        none.as_slice(),
    )
}

/// The vectors of a register of a well formed design behind a cycle: by its steps, so that under every assignment
/// they mean its next value. `signals` has the vectors of all signals, as `lower_signals` answers them. Of an array
/// the place is made first, then the value, which is written there. `Full` comes exactly where one of the steps has
/// no place for its gate, and `Memory` for want of memory.
pub fn lower_next<A: Algebra>(
    alloc: Global,
    alg: &mut A,
    flat: &Flat,
    register: u32,
    signals: &[Seq<Seq<A::Bit>>],
) -> Result<Seq<Seq<A::Bit>>, AlgError>
    requires formed { IsFormed (flat_tree flat.now) }
    requires register { IsKind (flat_tree flat.now) register SigKind.Register }
    requires signals { AreSignalBits (flat_tree flat.now) signals.now }
    requires known { EnvKnown A.meaning (A.state alg.old) (env signals.now []) }
    ensures steps { (s : SignalTree) → IsSignal (flat_tree flat.now) register s → Went (λ v. v) (next_step A.calls (env signals.now []) s.place s.equation (get_or signals.now register []) (A.state alg.old)) (A.state alg.new) result }
    ensures means { (s : SignalTree) → IsSignal (flat_tree flat.now) register s → IfOk result (λ made. MeansNext A.meaning (flat_tree flat.now) (env signals.now []) register s (A.state alg.old) (A.state alg.new) made) }
{
    next_at(alloc, alg, flat, register as usize, signals)
}

/// What stands behind a cycle for a signal: its next value where it is a register, and else nothing.
fn behind<A: Algebra>(
    alloc: Global,
    alg: &mut A,
    flat: &Flat,
    number: usize,
    signal: &Signal,
    signals: &[Seq<Seq<A::Bit>>],
) -> Result<Seq<Seq<A::Bit>>, AlgError>
    requires is { IsSignal (flat_tree flat.now) number (signal_tree signal.now) }
    requires formed { IsFormed (flat_tree flat.now) }
    requires signals { AreSignalBits (flat_tree flat.now) signals.now }
    requires known { EnvKnown A.meaning (A.state alg.old) (env signals.now []) }
    ensures steps { Went (λ v. v) (kind_step A.calls (env signals.now []) signal.now.kind (signal_tree signal.now) (get_or signals.now number []) (A.state alg.old)) (A.state alg.new) result }
    ensures kept { KeptArray A.meaning (λ v. v) (A.state alg.old) (A.state alg.new) result }
    ensures means { IfOk result (λ made. MeansBehind A.meaning (flat_tree flat.now) (env signals.now []) number (signal_tree signal.now) (A.state alg.old) (A.state alg.new) made) }
{
    match signal.kind {
        SigKind::Register => next_at(alloc, alg, flat, number, signals),
        SigKind::Input => Ok(Seq::new(alloc)),
        SigKind::Pad => Ok(Seq::new(alloc)),
        SigKind::Wire => Ok(Seq::new(alloc)),
    }
}

/// The vectors of all registers of a well formed design behind a cycle, by the numbers of signals and in their
/// order, so that under every assignment they mean the state behind it; for other signals nothing stands there.
/// `signals` has the vectors of all signals, as `lower_signals` answers them. `Full` comes exactly where one of
/// the steps has no place for its gate, and `Memory` for want of memory.
pub fn lower_state<A: Algebra>(
    alloc: Global,
    alg: &mut A,
    flat: &Flat,
    signals: &[Seq<Seq<A::Bit>>],
) -> Result<Vec<Seq<Seq<A::Bit>>>, AlgError>
    requires formed { IsFormed (flat_tree flat.now) }
    requires signals { AreSignalBits (flat_tree flat.now) signals.now }
    requires known { EnvKnown A.meaning (A.state alg.old) (env signals.now []) }
    ensures steps { Went (λ v. v.items) (state_step A.calls (env signals.now []) (flat_tree flat.now).signals 0 (A.state alg.old)) (A.state alg.new) result }
    ensures means { IfOk result (λ made. MeansState A.meaning (flat_tree flat.now) signals.now (A.state alg.old) (A.state alg.new) made.items) }
{
    let mut made = Vec::new(alloc);
    for at in 0..flat.signals.items().len() {
        let signal = &flat.signals.items()[at];
        signal_at(flat, at, signal);
        let next = match behind(alloc, alg, flat, at, signal, signals) {
            Ok(next) => next,
            Err(error) => return Err(error),
        };
        if let Err(_) = made.push(next) {
            return Err(AlgError::Memory);
        }
    }
    Ok(made)
}
