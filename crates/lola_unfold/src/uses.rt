ghost use Rattle.std.specs.Prelude.{◌≡◌, ◌++◌, OnOk, IfOk, map, flat_map};
ghost use Rattle.lola_flat.specs.Tree.{expr_tree, expr_trees, some_tree, signal_tree};
ghost use Rattle.lola_flat.specs.Value.{all_reads};
ghost use Rattle.lola_unfold.specs.Flat.{vector_read, vectors_read, some_uses, kind_uses, flat_graph};

use lola_bits::{Memory, Seq};
use lola_flat::{FExpr, SigKind, Signal, lists_are_trees};
use std::alloc::Global;

/// Adds the vectors that some expressions read.
#[cycle(uses)]
fn add_all(uses: &mut Seq<u32>, exprs: &[FExpr]) -> Result<(), Memory>
    ensures { OnOk result (uses.new ≡ uses.old ++ flat_map vector_read (all_reads (expr_trees exprs.now))) }
{
    for expr in exprs {
        add_uses(uses, expr)?;
    }
    Ok(())
}

/// Adds the vectors that an expression reads, by their numbers.
#[cycle(uses)]
fn add_uses(uses: &mut Seq<u32>, expr: &FExpr) -> Result<(), Memory>
    ensures { OnOk result (uses.new ≡ uses.old ++ vectors_read (expr_tree expr.now)) }
{
    lists_are_trees();
    match expr {
        FExpr::Number { value: _ } => Ok(()),
        FExpr::Signal { number } => uses.push(*number),
        FExpr::Outside { number: _ } => Ok(()),
        FExpr::Element { number: _, place } => add_uses(uses, place),
        FExpr::Slice {
            of,
            high: _,
            low: _,
        } => add_uses(uses, of),
        FExpr::Join { parts } => {
            add_all(uses, parts.items())?;
            Ok(())
        }
        FExpr::Repeat { part, times: _ } => add_uses(uses, part),
        FExpr::Apply { op: _, args } => {
            add_all(uses, args.items())?;
            Ok(())
        }
    }
}

/// What the equation of a signal uses, where it has one that gives its value.
fn some_uses(alloc: Global, equation: &Option<FExpr>) -> Result<Option<Seq<u32>>, Memory>
    ensures { IfOk result (λ uses. uses ≡ some_uses (some_tree equation.now)) }
{
    match equation {
        Some(expr) => {
            let mut uses = Seq::new(alloc);
            add_uses(&mut uses, expr)?;
            Ok(Some(uses))
        }
        None => Ok(None),
    }
}

fn uses_of(alloc: Global, signal: &Signal) -> Result<Option<Seq<u32>>, Memory>
    ensures { IfOk result (λ uses. uses ≡ kind_uses (signal_tree signal.now).kind (signal_tree signal.now).equation) }
{
    match signal.kind {
        SigKind::Input => Ok(None),
        SigKind::Register => Ok(None),
        SigKind::Pad => some_uses(alloc, &signal.equation),
        SigKind::Wire => some_uses(alloc, &signal.equation),
    }
}

/// For each signal what its equation uses.
pub(crate) fn graph_of(alloc: Global, signals: &[Signal]) -> Result<Vec<Option<Seq<u32>>>, Memory>
    ensures { IfOk result (λ graph. graph.items ≡ flat_graph (map signal_tree signals.now)) }
{
    let mut graph = Vec::new(alloc);
    for signal in signals {
        let uses = uses_of(alloc, signal)?;
        match graph.push(uses) {
            Ok(()) => {}
            Err(_) => return Err(Memory),
        }
    }
    Ok(graph)
}
