ghost use Rattle.std.specs.Prelude.{◌≡◌, ◌-◌, ◌^◌, min};
ghost use Rattle.lola_net.specs.Counts.{count_of, frees, latches, pads};
ghost use Rattle.lola_net.specs.Parts.{kind_here};

use crate::node::Node;
use lola_bits::{Name, Seq};

/// A net: its name and its clock, its ports in order, its nodes with the numbers from 1, and its outputs
/// with their literals.
#[derive(Debug, Drop)]
pub struct Net {
    pub name: Name,
    pub clock: Option<Name>,
    pub ports: Seq<Name>,
    pub nodes: Seq<Node>,
    pub outputs: Seq<(Name, u32)>,
}

/// What a net shows in one cycle: the bits of its outputs, what its pads carry, and the next state of its
/// latches, each in order.
#[derive(Debug, Drop)]
pub struct Cycle {
    pub outputs: Seq<bool>,
    pub pads: Seq<bool>,
    pub next: Seq<bool>,
}

/// The kinds of nodes that are counted.
#[derive(Clone, Copy)]
pub(crate) enum Kind {
    Free,
    Latch,
    Pad,
}

/// 1 for a node of a kind.
fn counts(kind: Kind, node: &Node) -> usize
    ensures { result ≡ kind_here kind node.now }
{
    match (kind, node) {
        (Kind::Free, Node::Free { .. }) => 1,
        (Kind::Latch, Node::Latch { .. }) => 1,
        (Kind::Pad, Node::Pad { .. }) => 1,
        _ => 0,
    }
}

/// The number of nodes of a kind.
pub(crate) fn counted(kind: Kind, nodes: &[Node]) -> usize
    ensures { result ≡ count_of (kind_here kind) nodes.now }
{
    let mut count = 0usize;
    for node in nodes {
        count += counts(kind, node);
    }
    count
}

/// A number of nodes; 2^32 - 1 stands for any greater one.
fn standing(count: usize) -> u32
    ensures { result ≡ min count (2 ^ 32 - 1) }
{
    if count > 0xFFFF_FFFF {
        0xFFFF_FFFF
    } else {
        count as u32
    }
}

impl Net {
    /// The number of free nodes; 2^32 - 1 stands for any greater one. Takes no memory.
    pub fn free_count(&self) -> u32
        ensures { result ≡ min (frees self.now.nodes) (2 ^ 32 - 1) }
    {
        standing(counted(Kind::Free, self.nodes.items()))
    }

    /// The number of latches; 2^32 - 1 stands for any greater one. Takes no memory.
    pub fn latch_count(&self) -> u32
        ensures { result ≡ min (latches self.now.nodes) (2 ^ 32 - 1) }
    {
        standing(counted(Kind::Latch, self.nodes.items()))
    }

    /// The number of pads; 2^32 - 1 stands for any greater one. Takes no memory.
    pub fn pad_count(&self) -> u32
        ensures { result ≡ min (pads self.now.nodes) (2 ^ 32 - 1) }
    {
        standing(counted(Kind::Pad, self.nodes.items()))
    }
}
