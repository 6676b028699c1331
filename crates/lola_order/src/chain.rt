ghost use Rattle.std.specs.Prelude.{◌≡◌, ◌≤◌, ◌<◌, ℕ, Bool, List, [], ◌∷◌, ◌++◌, take, drop, length, Some, slice_get, reverse, IfOk};
ghost use Rattle.std.specs.List.{AllByRecursion};
ghost use Rattle.lola_order.specs.Graph.{IsLoop};
ghost use Rattle.lola_bits.specs.Lists.{IsIn, AreDistinct};
ghost use Rattle.lola_order.specs.State.{IsUnmet, IsBlockedBy, IsTrail};

use crate::search::is_unmet;
use lola_bits::{Memory, Seq};
use std::alloc::Global;

/// What a signal that isn't placed uses at the remembered place of its equation.
fn blocker(graph: &[Option<Seq<u32>>], next: &[usize], signal: u32) -> u32
    requires { (met : List Bool) × (by : ℕ) × IsBlockedBy graph.now met next.now signal by }
    ensures { (met : List Bool) (by : ℕ) → IsBlockedBy graph.now met next.now signal by → result ≡ by }
{
    match &graph[signal as usize] {
        Some(uses) => uses.items()[next[signal as usize]],
        None => signal,
    }
}

/// Signals from the last to one, each of which occurs in the equation of the next, where the one that
/// occurs in that of the first is among them.
fn trail(
    alloc: Global,
    graph: &[Option<Seq<u32>>],
    met: &[bool],
    next: &[usize],
    start: u32,
) -> Result<(Vec<u32>, u32), Memory>
    requires blocked { (k : ℕ) → IsUnmet met.now k → (by : ℕ) × IsBlockedBy graph.now met.now next.now k by }
    requires start { IsUnmet met.now start }
    ensures trail { IfOk result (λ t. IsTrail graph.now t.1 t.0.items) }
    ensures distinct { IfOk result (λ t. AreDistinct t.0.items) }
    ensures again { IfOk result (λ t. IsIn t.1 t.0.items) }
{
    let mut unseen = Vec::from_slice(alloc, met)?;
    let mut seen = Vec::new(alloc);
    let mut signal = start;
    while is_unmet(unseen.as_slice(), signal) {
        unseen[signal as usize] = true;
        match seen.push(signal) {
            Ok(()) => {}
            Err(_) => return Err(Memory),
        }
        signal = blocker(graph, next, signal);
    }
    seen.as_mut_slice().reverse();
    Ok((seen, signal))
}

/// The first place of a signal.
fn place_of(signals: &[u32], signal: u32) -> usize
    ensures { IsIn signal signals.now → slice_get signals.now result ≡ Some signal }
{
    for (at, other) in signals.iter().enumerate() {
        if *other == signal {
            return at;
        }
    }
    signals.len()
}

/// The place of the least of some signals.
fn earliest(signals: &[u32]) -> usize
    ensures within { 0 < length signals.now → result < length signals.now }
    ensures at_most { result ≤ length signals.now }
    ensures least { (first : ℕ) → slice_get signals.now result ≡ Some first → AllByRecursion (λ (n : ℕ). first ≤ n) signals.now }
{
    let mut best = 0;
    for at in 1..signals.len() {
        if signals[at] < signals[best] {
            best = at;
        }
    }
    best
}

/// The list from a place on, and then what stands before it.
fn turned(alloc: Global, signals: &[u32], from: usize) -> Result<Seq<u32>, Memory>
    requires { from ≤ length signals.now }
    ensures { IfOk result (λ made. made ≡ drop from signals.now ++ take from signals.now) }
{
    let (front, back) = signals.split_at(from);
    let mut made = Vec::from_slice(alloc, back)?;
    made.extend_from_slice(front)?;
    Ok(Seq::of(made))
}

/// A closed chain of signals that aren't placed, from one of them on.
pub(crate) fn chain(
    alloc: Global,
    graph: &[Option<Seq<u32>>],
    met: &[bool],
    next: &[usize],
    start: u32,
) -> Result<Seq<u32>, Memory>
    requires blocked { (k : ℕ) → IsUnmet met.now k → (by : ℕ) × IsBlockedBy graph.now met.now next.now k by }
    requires start { IsUnmet met.now start }
    ensures { IfOk result (λ names. IsLoop graph.now names) }
{
    let (mut names, signal) = trail(alloc, graph, met, next, start)?;
    let last = place_of(names.as_slice(), signal);
    names.truncate(last + 1);
    let first = earliest(names.as_slice());
    match turned(alloc, names.as_slice(), first) {
        Ok(names) => Ok(names),
        Err(fault) => Err(fault),
    }
}
