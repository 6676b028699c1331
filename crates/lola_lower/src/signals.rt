ghost use Rattle.std.specs.Prelude.{◌≡◌, ◌≢◌, ◌≤◌, ◌<◌, ◌+◌, ◌/◌, ◌^◌, ◌++◌, ◌∷◌, ℕ, suc, List, [], Some, length, get_or, slice_get, IfOk, OnOk, Err};
ghost use Rattle.std.specs.List.{AllByRecursion};
ghost use Rattle.std.specs.Option.{option_copied};
ghost use Rattle.lola_alg.specs.Steps.{Went};
ghost use Rattle.lola_net.specs.declared.node.Node.{Node as NetNode};
ghost use Rattle.lola_gate.specs.Gates.{gates_calls, gates_meaning};
ghost use Rattle.lola_flat.specs.Tree.{SignalTree, flat_tree, signal_tree, some_tree, expr_trees};
ghost use Rattle.lola_flat.specs.Value.{env};
ghost use Rattle.lola_flat.specs.Signals.{IsSignal};
ghost use Rattle.lola_flat.specs.Formed.{IsFormed};
ghost use Rattle.lola_eval.specs.Steps.{equation_step};
ghost use Rattle.lola_eval.specs.Means.{EnvKnown};
ghost use Rattle.lola_alg.specs.Gates.{KeptAll};
ghost use Rattle.lola_alg.specs.Means.{AreKnown};
ghost use Rattle.lola_lower.specs.Names.{path_text};
ghost use Rattle.lola_lower.specs.Sources.{bits_at};
ghost use Rattle.lola_lower.specs.Steps.{first_among, others_among, value_of, release_of, lowest, pads_down, pad_step, signal_step, some_step, order_step};
ghost use Rattle.lola_lower.specs.Ready.{Suits, SignalSuits, IsReady};

use crate::names::{bit_name, path_text};
use crate::sources::bits_at;
use lola_alg::AlgError;
use lola_bits::Seq;
use lola_eval::lower_expr;
use lola_flat::{FExpr, Flat, SigKind, Signal, lists_are_trees};
use lola_gate::Gates;
use std::alloc::Global;

/// The first of some arguments.
fn first(args: &[FExpr]) -> Option<&FExpr>
    ensures { some_tree (option_copied result) ≡ first_among (expr_trees args.now) }
{
    match args {
        [] => None,
        [first, ..] => Some(first),
    }
}

/// The others behind it.
fn others(args: &[FExpr]) -> &[FExpr]
    ensures { expr_trees result.now ≡ others_among (expr_trees args.now) }
{
    match args {
        [] => args,
        [_, more @ ..] => more,
    }
}

/// The value and the release of a pad.
fn pad_parts(signal: &Signal) -> (Option<&FExpr>, Option<&FExpr>)
    ensures value { some_tree (option_copied result.0) ≡ value_of (signal_tree signal.now).equation }
    ensures release { some_tree (option_copied result.1) ≡ release_of (signal_tree signal.now).equation }
{
    lists_are_trees();
    match &signal.equation {
        Some(FExpr::Apply { op: _, args }) => {
            let args = args.items();
            (first(others(others(args))), first(args))
        }
        _ => (None, None),
    }
}

/// The vector of an expression, where there is one.
fn lower_some(
    alloc: Global,
    gates: &mut Gates,
    expr: Option<&FExpr>,
    signals: &[Seq<Seq<u32>>],
) -> Result<Seq<u32>, AlgError>
    requires suits { Suits (env signals.now []) (some_tree (option_copied expr)) }
    requires known { EnvKnown gates_meaning gates.old (env signals.now []) }
    ensures steps { Went (λ v. v) (equation_step gates_calls (env signals.now []) (some_tree (option_copied expr.entry)) gates.old) gates.new result }
    ensures kept { KeptAll gates_meaning (λ v. v) gates.old gates.new result }
{
    let none = Vec::new(alloc);
    match expr {
        Some(expr) => lower_expr(alloc, gates, expr, signals, none.as_slice()),
        None => Ok(Seq::new(alloc)),
    }
}

/// Adds a pad node for each bit of a value from one on, the highest first.
fn add_pads(
    alloc: Global,
    gates: &mut Gates,
    text: &str,
    release: u32,
    bit: usize,
    values: &[u32],
) -> Result<(), AlgError>
    requires release { release / 2 ≤ length gates.old }
    requires values { AllByRecursion (λ l. l / 2 ≤ length gates.old) values.now }
    requires few { bit + length values.now < 2 ^ 64 }
    ensures ok { OnOk result (gates.new ≡ gates.old ++ pads_down text.now release bit values.now) }
    ensures err { result ≢ Err AlgError.Full }
{
    match values {
        [] => Ok(()),
        [value, more @ ..] => {
            match add_pads(alloc, gates, text, release, bit + 1, more) {
                Ok(()) => {}
                Err(error) => return Err(error),
            }
            let name = match bit_name(alloc, text, bit) {
                Ok(name) => name,
                Err(_) => return Err(AlgError::Memory),
            };
            match gates.pad(alloc, &name, *value, release) {
                Ok(_) => Ok(()),
                Err(_) => Err(AlgError::Memory),
            }
        }
    }
}

/// Gates hold fewer than 2^31 nodes.
pub(crate) fn are_few(gates: &Gates)
    ensures { length gates.now < 2 ^ 31 }
{
    let _ = gates.node_count();
}

/// The pad nodes of a value and a release, and their literals.
fn make_pads(
    alloc: Global,
    gates: &mut Gates,
    signal: &Signal,
    value: &Seq<u32>,
    release: &Seq<u32>,
) -> Result<Seq<u32>, AlgError>
    requires value { AreKnown gates_meaning gates.old value.now }
    requires release { AreKnown gates_meaning gates.old release.now }
    ensures ok { IfOk result (λ bits. (gates.new ≡ gates.old ++ pads_down (path_text signal.now.path) (lowest release.now) 0 value.now) × (bits ≡ bits_at (suc (length gates.old)) (length value.now))) }
    ensures err { result ≢ Err AlgError.Full }
{
    let text = match path_text(alloc, signal.path.items()) {
        Ok(text) => text,
        Err(_) => return Err(AlgError::Memory),
    };
    let release = match release.items() {
        [] => 0,
        [first, ..] => *first,
    };
    let first = gates.node_count() + 1;
    match add_pads(alloc, gates, text.as_str(), release, 0, value.items()) {
        Ok(()) => {}
        Err(error) => return Err(error),
    }
    are_few(gates);
    bits_at(alloc, first, value.items().len() as u32)
}

/// A pad: its value, its release, and then its pad nodes.
fn lower_pad(
    alloc: Global,
    gates: &mut Gates,
    signal: &Signal,
    signals: &[Seq<Seq<u32>>],
) -> Result<Seq<u32>, AlgError>
    requires value { Suits (env signals.now []) (value_of (signal_tree signal.now).equation) }
    requires release { Suits (env signals.now []) (release_of (signal_tree signal.now).equation) }
    requires known { EnvKnown gates_meaning gates.old (env signals.now []) }
    ensures { Went (λ v. v) (pad_step (env signals.now []) (signal_tree signal.now) gates.old) gates.new result }
{
    let (value, release) = pad_parts(signal);
    let value = match lower_some(alloc, gates, value, signals) {
        Ok(value) => value,
        Err(error) => return Err(error),
    };
    let release = match lower_some(alloc, gates, release, signals) {
        Ok(release) => release,
        Err(error) => return Err(error),
    };
    make_pads(alloc, gates, signal, &value, &release)
}

/// The vector of a signal that is driven.
fn lower_signal(
    alloc: Global,
    gates: &mut Gates,
    signal: &Signal,
    signals: &[Seq<Seq<u32>>],
) -> Result<Seq<u32>, AlgError>
    requires suits { SignalSuits (env signals.now []) (signal_tree signal.now) }
    requires known { EnvKnown gates_meaning gates.old (env signals.now []) }
    ensures { Went (λ v. v) (signal_step (env signals.now []) (signal_tree signal.now) gates.old) gates.new result }
{
    match signal.kind {
        SigKind::Pad => lower_pad(alloc, gates, signal, signals),
        SigKind::Wire => lower_some(alloc, gates, signal.equation.as_ref(), signals),
        SigKind::Input => lower_some(alloc, gates, signal.equation.as_ref(), signals),
        SigKind::Register => lower_some(alloc, gates, signal.equation.as_ref(), signals),
    }
}

/// The list of one item.
fn alone(alloc: Global, item: Seq<u32>) -> Result<Seq<Seq<u32>>, AlgError>
    ensures ok { IfOk result (λ made. made ≡ item ∷ []) }
    ensures err { result ≢ Err AlgError.Full }
{
    let mut items = Vec::new(alloc);
    match items.push(item) {
        Ok(()) => Ok(Seq::of(items)),
        Err(_) => Err(AlgError::Memory),
    }
}

/// A signal of a flat design by its number.
fn signal_at(flat: &Flat, number: usize, signal: &Signal)
    requires within { number < length flat.now.signals }
    requires is { signal.now ≡ get_or flat.now.signals number signal.now }
    ensures { slice_get (flat_tree flat.now).signals number ≡ Some (signal_tree signal.now) }
{}

/// The vector of a signal by its number.
fn lower_number(
    alloc: Global,
    gates: &mut Gates,
    flat: &Flat,
    number: usize,
    signals: &[Seq<Seq<u32>>],
) -> Result<Seq<u32>, AlgError>
    requires there { number < length flat.now.signals }
    requires suits { (s : SignalTree) → IsSignal (flat_tree flat.now) number s → SignalSuits (env signals.now []) s }
    requires known { EnvKnown gates_meaning gates.old (env signals.now []) }
    ensures { Went (λ v. v) (some_step (env signals.now []) (slice_get (flat_tree flat.now).signals number) gates.old) gates.new result }
{
    let signal = &flat.signals.items()[number];
    signal_at(flat, number, signal);
    lower_signal(alloc, gates, signal, signals)
}

/// The vectors of all signals, in the order of equations.
pub(crate) fn lower_order(
    alloc: Global,
    gates: &mut Gates,
    flat: &Flat,
    order: &[u32],
    given: Vec<Seq<Seq<u32>>>,
) -> Result<Vec<Seq<Seq<u32>>>, AlgError>
    requires formed { IsFormed (flat_tree flat.now) }
    requires order { order.now ≡ flat.now.order }
    requires given { IsReady (flat_tree flat.now) [] gates.old given.items }
    ensures steps { Went (λ v. v.items) (order_step (flat_tree flat.now) (env given.items []) order.now gates.old) gates.new result }
    ensures ready { IfOk result (λ table. IsReady (flat_tree flat.now) flat.now.order gates.new table.items) }
{
    let mut table = given;
    for at in 0..order.len() {
        let number = order[at] as usize;
        let bits = match lower_number(alloc, gates, flat, number, table.as_slice()) {
            Ok(bits) => bits,
            Err(error) => return Err(error),
        };
        let vector = match alone(alloc, bits) {
            Ok(vector) => vector,
            Err(error) => return Err(error),
        };
        table[number] = vector;
    }
    Ok(table)
}
