ghost use Rattle.std.specs.Prelude.{◌≡◌, ◌≤◌, ◌∷◌, [], length, IfOk};
ghost use Rattle.std.specs.Vec.Iter.{into_iter_items};
ghost use Rattle.lola_gate.specs.Gates.{first_next, later_next, node_with, left_with, with_next};
ghost use Rattle.lola_gate.specs.Held.{node_of, node_here, others_behind, nodes_of, count_others};

use crate::other::Other;
use lola_bits::Memory;
use lola_net::Node;
use std::alloc::Global;
use std::vec::IntoIter;

/// The first next literal, or 0, and the rest.
fn taken(next: &[u32]) -> (u32, &[u32])
    ensures literal { result.0 ≡ first_next next.now }
    ensures rest { result.1.now ≡ later_next next.now }
{
    match next {
        [] => (0, next),
        [literal, rest @ ..] => (*literal, rest),
    }
}

/// A node that is no gate, and the next literals that are left behind it.
fn with_literal(other: Other, next: &[u32]) -> (Node, &[u32])
    ensures node { result.0 ≡ node_with next.now (node_of other) }
    ensures left { result.1.now ≡ left_with next.now (node_of other) }
{
    match other {
        Other::Input { name } => (Node::Free { name }, next),
        Other::Register { name } => {
            let (literal, rest) = taken(next);
            (
                Node::Latch {
                    name,
                    next: literal,
                },
                rest,
            )
        }
        Other::Pad {
            name,
            value,
            release,
        } => (
            Node::Pad {
                name,
                value,
                release,
            },
            next,
        ),
    }
}

/// The next node, and the next literals that are left behind it.
fn next_node<'a>(
    pair: (u32, u32),
    others: &mut IntoIter<Other>,
    next: &'a [u32],
) -> (Node, &'a [u32])
    requires { count_others (pair ∷ []) ≤ length (into_iter_items others.old) }
    ensures node { result.0 ≡ node_with next.now (node_here (into_iter_items others.old) pair) }
    ensures left { result.1.now ≡ left_with next.now (node_here (into_iter_items others.old) pair) }
    ensures others { into_iter_items others.new ≡ others_behind (into_iter_items others.old) pair }
{
    if pair.0 > 1 {
        (
            Node::Gate {
                a: pair.0,
                b: pair.1,
            },
            next,
        )
    } else {
        match others.next() {
            Some(other) => with_literal(other, next),
            None => unreachable!(),
        }
    }
}

/// The nodes that are held, where the latches take the next literals in order.
pub(crate) fn nodes_from(
    alloc: Global,
    held: &[(u32, u32)],
    others: Vec<Other>,
    next: &[u32],
) -> Result<Vec<Node>, Memory>
    requires { length others.items ≡ count_others held.now }
    ensures { IfOk result (λ v. v.items ≡ with_next next.now (nodes_of others.items held.now)) }
{
    let mut nodes = Vec::new(alloc);
    let mut rest = others.into_iter();
    let mut left = next;
    for pair in held {
        let (node, behind) = next_node(*pair, &mut rest, left);
        left = behind;
        match nodes.push(node) {
            Ok(()) => {}
            Err(_) => return Err(Memory),
        }
    }
    Ok(nodes)
}
