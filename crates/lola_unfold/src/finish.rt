ghost use Rattle.std.specs.Prelude.{◌≡◌, ◌++◌, ◌-◌, None, get_or, drop, slice_get, OnOk, IfOk, map, length};
ghost use Rattle.std.specs.Vec.Iter.{into_iter_items};
ghost use Rattle.lola_flat.specs.Tree.{some_tree, signal_tree};
ghost use Rattle.lola_unfold.specs.Pieces.{made_tree, some_next};
ghost use Rattle.lola_unfold.specs.Finished.{signal_from, signals_from};

use crate::made::{Head, Made, Next};
use lola_bits::Memory;
use lola_flat::{FExpr, SigKind, Signal};
use std::alloc::Global;
use std::vec::IntoIter;

/// A signal with what gives it its value or next value.
fn signal_from(head: Head, equation: Option<FExpr>, next: Option<Next>) -> Signal
    ensures { signal_tree result ≡ signal_from head (some_tree equation) (some_next next) }
{
    let (place, equation) = match head.kind {
        SigKind::Input => (None, None),
        SigKind::Pad => (None, equation),
        SigKind::Wire => (None, equation),
        SigKind::Register => match next {
            Some(next) => (next.place, Some(next.value)),
            None => (None, None),
        },
    };
    Signal {
        path: head.path,
        kind: head.kind,
        width: head.width,
        count: head.count,
        place,
        equation,
    }
}

/// The next item, or none.
fn taken<T: Drop>(items: &mut IntoIter<Option<T>>) -> Option<T>
    ensures item { result ≡ get_or (into_iter_items items.old) 0 None }
    ensures rest { into_iter_items items.new ≡ drop 1 (into_iter_items items.old) }
{
    match items.next() {
        Some(item) => item,
        None => None,
    }
}

/// The next signal without its equation.
fn next_head(heads: &mut IntoIter<Head>) -> Option<Head>
    ensures item { result ≡ slice_get (into_iter_items heads.old) 0 }
    ensures rest { into_iter_items heads.new ≡ drop 1 (into_iter_items heads.old) }
{
    heads.next()
}

/// Puts the next signal at the end.
fn finish_next(
    signals: &mut Vec<Signal>,
    heads: &mut IntoIter<Head>,
    equations: &mut IntoIter<Option<FExpr>>,
    nexts: &mut IntoIter<Option<Next>>,
) -> Result<(), Memory>
    ensures made { OnOk result (map signal_tree signals.new.items ++ signals_from (into_iter_items heads.new) (map some_tree (into_iter_items equations.new)) (map some_next (into_iter_items nexts.new)) ≡ map signal_tree signals.old.items ++ signals_from (into_iter_items heads.old) (map some_tree (into_iter_items equations.old)) (map some_next (into_iter_items nexts.old))) }
    ensures fewer { OnOk result (length (into_iter_items heads.new) ≡ length (into_iter_items heads.old) - 1) }
{
    match next_head(heads) {
        Some(head) => {
            let equation = taken(equations);
            let next = taken(nexts);
            signals.push(signal_from(head, equation, next))?;
            Ok(())
        }
        None => Ok(()),
    }
}

/// The signals of a design in order.
pub(crate) fn finished(alloc: Global, made: Made) -> Result<Vec<Signal>, Memory>
    ensures { IfOk result (λ signals. map signal_tree signals.items ≡ signals_from (made_tree made).heads (made_tree made).equations (made_tree made).nexts) }
{
    let Made {
        heads,
        equations,
        nexts,
    } = made;
    let count = heads.as_slice().len();
    let mut heads = heads.into_iter();
    let mut equations = equations.into_iter();
    let mut nexts = nexts.into_iter();
    let mut signals = Vec::new(alloc);
    for _number in 0..count {
        finish_next(&mut signals, &mut heads, &mut equations, &mut nexts)?;
    }
    Ok(signals)
}
