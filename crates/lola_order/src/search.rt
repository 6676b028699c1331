ghost use Rattle.std.specs.Prelude.{◌≡◌, ◌≤◌, ◌<◌, ℕ, List, [], ◌∷◌, take, length, true, Some, None, IsTrue, ◌↔◌, slice_get, IfOk, OnOk, MatchOption, slice_set};
ghost use Rattle.std.specs.Bool.{OnTrue, OnFalse};
ghost use Rattle.lola_bits.specs.Lists.{IsIn};
ghost use Rattle.lola_order.specs.State.{IsUnmet, unmet_count, Has, IsWaiting, IsReadied, IsSearch};

use crate::ready::Ready;
use crate::waiting::Waiting;
use lola_bits::{Memory, Seq};
use std::alloc::Global;

/// The state of the search for an order: which signals are given or placed, for each how far its
/// equation was looked at, which wait for which, which are ready, and the order so far.
#[derive(Drop)]
pub(crate) struct Search {
    pub(crate) met: Vec<bool>,
    pub(crate) next: Vec<usize>,
    pub(crate) waiting: Waiting,
    pub(crate) ready: Ready,
    pub(crate) order: Vec<u32>,
}

/// Whether a signal isn't placed yet.
pub(crate) fn is_unmet(met: &[bool], signal: u32) -> bool
    ensures { IsTrue result ↔ IsUnmet met.now signal }
{
    match met.get(signal as usize) {
        Some(is_met) => !*is_met,
        None => false,
    }
}

/// The first place from some place on at which a signal is used that isn't placed yet.
fn blocked_from(uses: &[u32], met: &[bool], from: usize) -> usize
    ensures passed { (j : ℕ) → IsIn j (take result uses.now) → IsUnmet met.now j → IsIn j (take from uses.now) }
    ensures found { (j : ℕ) → slice_get uses.now result ≡ Some j → IsUnmet met.now j }
{
    for at in from..uses.len() {
        if is_unmet(met, uses[at]) {
            return at;
        }
    }
    uses.len()
}

/// Remembers how far a signal's equation was looked at. There it uses one that isn't placed yet, for which
/// it waits, or it uses none and is ready.
fn look(search: &mut Search, uses: &[u32], signal: u32, at: usize) -> Result<(), Memory>
    requires within { signal < length search.old.next.items }
    requires waiting { (by : ℕ) → slice_get uses.now at ≡ Some by → by < length search.old.waiting.lists.items }
    ensures met { search.new.met.items ≡ search.old.met.items }
    ensures next { OnOk result (search.new.next.items ≡ slice_set search.old.next.items signal at) }
    ensures order { OnOk result (search.new.order.items ≡ search.old.order.items) }
    ensures waits { OnOk result (MatchOption (slice_get uses.now at) (search.new.waiting ≡ search.old.waiting) (λ by. IsWaiting search.old.waiting by signal search.new.waiting)) }
    ensures ready { OnOk result (MatchOption (slice_get uses.now at) (IsReadied search.old.ready signal search.new.ready) (λ by. search.new.ready ≡ search.old.ready)) }
{
    search.next[signal as usize] = at;
    match uses.get(at) {
        Some(by) => search.waiting.add(*by, signal),
        None => search.ready.add(signal),
    }
}

/// A look at a signal that may be ready: it is, or it waits for one that it uses.
fn settle(search: &mut Search, graph: &[Option<Seq<u32>>], signal: u32) -> Result<(), Memory>
    requires { (more : List ℕ) × IsSearch graph.now search.old (signal ∷ more) }
    ensures state { OnOk result ((more : List ℕ) → IsSearch graph.now search.old (signal ∷ more) → IsSearch graph.now search.new more) }
    ensures met { search.new.met.items ≡ search.old.met.items }
{
    if !is_unmet(search.met.as_slice(), signal) {
        return Ok(());
    }
    match &graph[signal as usize] {
        Some(uses) => {
            let at = blocked_from(
                uses.items(),
                search.met.as_slice(),
                search.next[signal as usize],
            );
            match look(search, uses.items(), signal, at) {
                Ok(()) => Ok(()),
                Err(fault) => Err(fault),
            }
        }
        None => Ok(()),
    }
}

/// A look at several signals.
pub(crate) fn settle_all(
    search: &mut Search,
    graph: &[Option<Seq<u32>>],
    signals: &[u32],
) -> Result<(), Memory>
    requires { IsSearch graph.now search.old signals.now }
    ensures state { OnOk result (IsSearch graph.now search.new []) }
    ensures met { search.new.met.items ≡ search.old.met.items }
{
    for signal in signals {
        match settle(search, graph, *signal) {
            Ok(()) => {}
            Err(fault) => return Err(fault),
        }
    }
    Ok(())
}

/// Places the least of the signals that are ready, and looks at those that wait for it. False where none
/// is ready.
fn place(alloc: Global, search: &mut Search, graph: &[Option<Seq<u32>>]) -> Result<bool, Memory>
    requires { IsSearch graph.now search.old [] }
    ensures state { OnOk result (IsSearch graph.now search.new []) }
    ensures fewer { IfOk result (λ placed. OnTrue placed (unmet_count search.new.met.items < unmet_count search.old.met.items)) }
    ensures none { IfOk result (λ placed. OnFalse placed ((k : ℕ) → Has search.new.ready k → ⊥)) }
{
    let Some(signal) = search.ready.take() else {
        return Ok(false);
    };
    search.met[signal as usize] = true;
    match search.order.push(signal) {
        Ok(()) => {}
        Err(_) => return Err(Memory),
    }
    let woken = search.waiting.take(alloc, signal);
    match settle_all(search, graph, woken.items()) {
        Ok(()) => Ok(true),
        Err(fault) => Err(fault),
    }
}

/// Places signals as long as one is ready.
pub(crate) fn place_all(
    alloc: Global,
    search: &mut Search,
    graph: &[Option<Seq<u32>>],
) -> Result<(), Memory>
    requires { IsSearch graph.now search.old [] }
    ensures state { OnOk result (IsSearch graph.now search.new []) }
    ensures none { OnOk result ((k : ℕ) → Has search.new.ready k → ⊥) }
{
    loop {
        match place(alloc, search, graph) {
            Ok(true) => {}
            Ok(false) => return Ok(()),
            Err(fault) => return Err(fault),
        }
    }
}
