ghost use Rattle.std.specs.Prelude.{◌≡◌, ◌<◌, ◌^◌, ℕ, List, Some, Option, length, map, slice_get, IfOk, MatchOption};
ghost use Rattle.std.specs.Option.{is_none};
ghost use Rattle.lola_order.specs.Graph.{Graph, IsOrder, IsLoop, HasLoop, Answers};
ghost use Rattle.lola_bits.specs.Lists.{IsIn};
ghost use Rattle.lola_order.specs.State.{IsUnmet, IsBeginning};

use crate::chain::chain;
use crate::ready::Ready;
use crate::search::{Search, is_unmet, place_all, settle_all};
use crate::waiting::Waiting;
use lola_bits::{Memory, Seq};
use std::alloc::Global;

/// What `order` answers: the numbers of the signals that have an equation in their order, or those of a
/// closed chain, each of which occurs in the equation of the next, from its earliest signal on.
#[derive(Debug, Drop)]
pub enum Ordered {
    Order { order: Seq<u32> },
    Loop { names: Seq<u32> },
}

/// For each signal whether it is given.
fn given(alloc: Global, graph: &[Option<Seq<u32>>]) -> Result<Vec<bool>, Memory>
    ensures { IfOk result (λ met. met.items ≡ map is_none graph.now) }
{
    let mut met = Vec::new(alloc);
    for equation in graph {
        met.push(equation.is_none())?;
    }
    Ok(met)
}

/// So many zeros.
#[tactic(auto, using(crate::proofs::Searching::zero_more))]
fn zeros(alloc: Global, count: usize) -> Result<Vec<usize>, Memory>
    ensures long { IfOk result (λ made. length made.items ≡ count) }
    ensures zero { IfOk result (λ made. (k at : ℕ) → slice_get made.items k ≡ Some at → at ≡ 0) }
{
    let mut made = Vec::new(alloc);
    for _place in 0..count {
        made.push(0)?;
    }
    Ok(made)
}

/// The numbers below one.
fn numbers(alloc: Global, count: u32) -> Result<Vec<u32>, Memory>
    ensures { IfOk result (λ made. (k : ℕ) → k < count → IsIn k made.items) }
{
    let mut made = Vec::new(alloc);
    for number in 0..count {
        made.push(number)?;
    }
    Ok(made)
}

/// The state before a signal is placed.
fn begin(alloc: Global, graph: &[Option<Seq<u32>>]) -> Result<Search, Memory>
    ensures { IfOk result (IsBeginning graph.now) }
{
    Ok(Search {
        met: given(alloc, graph)?,
        next: zeros(alloc, graph.len())?,
        waiting: Waiting::new(alloc, graph.len())?,
        ready: Ready::new(alloc),
        order: Vec::new(alloc),
    })
}

/// The first signal that isn't placed.
fn first_unmet(met: &[bool], count: u32) -> Option<u32>
    requires { length met.now ≡ count }
    ensures { MatchOption result ((k : ℕ) → IsUnmet met.now k → ⊥) (λ k. IsUnmet met.now k) }
{
    for signal in 0..count {
        if is_unmet(met, signal) {
            return Some(signal);
        }
    }
    None
}

/// The order of equations, where `graph` has for each signal the numbers of the signals that occur in its
/// equation, or None where it is given: at each place stands the first signal, by its number, that isn't
/// placed yet and uses only given and placed ones. A number past the last signal counts as given. Where a
/// closed chain exists there is no such order, and one chain is answered. Memory where there isn't enough.
/// The time grows with the signals and the uses together, but for a factor of the logarithm of the signals.
pub fn order(alloc: Global, graph: &[Option<Seq<u32>>]) -> Result<Ordered, Memory>
    requires { length graph.now < 2 ^ 32 }
    ensures { IfOk result (Answers graph.now) }
{
    let count = graph.len() as u32;
    let mut search = begin(alloc, graph)?;
    let all = numbers(alloc, count)?;
    settle_all(&mut search, graph, all.as_slice())?;
    place_all(alloc, &mut search, graph)?;
    match first_unmet(search.met.as_slice(), count) {
        Some(signal) => {
            let names = chain(
                alloc,
                graph,
                search.met.as_slice(),
                search.next.as_slice(),
                signal,
            )?;
            Ok(Ordered::Loop { names })
        }
        None => Ok(Ordered::Order {
            order: Seq::of(search.order),
        }),
    }
}
