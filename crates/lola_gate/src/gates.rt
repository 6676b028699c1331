ghost use Rattle.std.specs.Prelude.{◌≡◌, ◌<◌, ◌+◌, ◌*◌, ◌/◌, ◌≤◌, ◌^◌, ◌++◌, ℕ, true, suc, [], ◌∷◌, List, length, Ok, Err, IfOk};
ghost use Rattle.std.specs.List.{AllByRecursion};
ghost use Rattle.lola_alg.specs.Algebra.{Fits, Kept};
ghost use Rattle.lola_net.specs.declared.node.Node.TheVariants.{Free, Latch, Pad, Gate};
ghost use Rattle.lola_net.specs.Literals.{at_literal, at_node};
ghost use Rattle.lola_net.specs.Equations.{uses_smaller, IsFormed};
ghost use Rattle.lola_gate.specs.Gates.{gates_calls, gates_meaning, knows_literal, both_of, shared, gate_at, frees, AreValues, with_next};
ghost use Rattle.lola_gate.specs.Added.{Added};
ghost use Rattle.lola_gate.specs.Held.{node_of};
ghost use Rattle.lola_gate.specs.Law.{gates_law};

use crate::nets::nodes_from;
use crate::other::Other;
use indexmap::IndexMap;
use lola_alg::{AlgError, Algebra};
use lola_bits::{Memory, Name, Seq};
use lola_net::{Net, Node};
use std::alloc::Global;
use std::marker::Model;

/// The nodes made so far. Contracts see them as the list of nodes, in which a latch has the next literal 0
/// until the net is made.
#[derive(Drop)]
pub struct Gates {
    held: Vec<(u32, u32)>,
    others: Vec<Other>,
    map: IndexMap<(u32, u32), u32>,
}

impl Model for Gates {
    ghost use Rattle.std.specs.Prelude.{List};
    ghost use Rattle.lola_net.specs.declared.node.Node.{Node};

    ghost Value = { List Node };

    ghost use Rattle.lola_gate.specs.Held.{nodes_of, Tied};

    ghost view = { λ g. nodes_of g.others.items g.held.items };

    ghost invariant = { λ g. Tied g.held.items g.others.items g.map.entries };
}

/// The value of a literal, given those of the nodes.
fn literal(all: &[bool], l: u32) -> bool
    requires { l / 2 ≤ length all.now }
    ensures { result ≡ at_literal all.now l }
{
    let value = value_at(all, l / 2);
    if l % 2 == 0 { value } else { !value }
}

/// The value of a node; that of node 0 is false.
fn value_at(all: &[bool], n: u32) -> bool
    requires { n ≤ length all.now }
    ensures { result ≡ at_node all.now n }
{
    if n == 0 { false } else { all[n as usize - 1] }
}

impl Gates {
    /// No nodes. Takes no memory.
    pub fn new(alloc: Global) -> Gates
        ensures { result ≡ [] }
    {
        Gates {
            held: Vec::new(alloc),
            others: Vec::new(alloc),
            map: IndexMap::new(alloc),
        }
    }

    /// Adds a node that has a value of its own, and answers its literal. The only refusal is Memory, which
    /// comes too where 2^31 - 1 nodes stand; it changes nothing.
    pub fn free(&mut self, alloc: Global, name: &Name) -> Result<u32, AlgError>
        ensures { Added (Free name.now) self.old self.new result }
    {
        match Name::new(alloc, name.text()) {
            Ok(name) => self.put(Other::Input { name }),
            Err(_) => Err(AlgError::Memory),
        }
    }

    /// Adds a node that has a state, and answers its literal. The only refusal is Memory, as in `free`.
    pub fn latch(&mut self, alloc: Global, name: &Name) -> Result<u32, AlgError>
        ensures { Added (Latch name.now 0) self.old self.new result }
    {
        match Name::new(alloc, name.text()) {
            Ok(name) => self.put(Other::Register { name }),
            Err(_) => Err(AlgError::Memory),
        }
    }

    /// Adds a pad of two literals of these gates, and answers its literal. The only refusal is Memory, as in
    /// `free`.
    pub fn pad(
        &mut self,
        alloc: Global,
        name: &Name,
        value: u32,
        release: u32,
    ) -> Result<u32, AlgError>
        requires value { value / 2 ≤ length self.old }
        requires release { release / 2 ≤ length self.old }
        ensures { Added (Pad name.now value release) self.old self.new result }
    {
        match Name::new(alloc, name.text()) {
            Ok(name) => self.put(Other::Pad {
                name,
                value,
                release,
            }),
            Err(_) => Err(AlgError::Memory),
        }
    }

    fn put(&mut self, other: Other) -> Result<u32, AlgError>
        requires { uses_smaller (suc (length self.old)) (node_of other) ≡ true }
        ensures { Added (node_of other) self.old self.new result }
    {
        if self.held.len() >= 0x7FFF_FFFF {
            return Err(AlgError::Memory);
        }
        let _ = &self.map;
        let n = self.held.len() as u32 + 1;
        match self.others.push(other) {
            Ok(()) => {}
            Err(_) => return Err(AlgError::Memory),
        }
        match self.held.push((0, 0)) {
            Ok(()) => {}
            Err(_) => {
                let _ = self.others.pop();
                return Err(AlgError::Memory);
            }
        }
        Ok(2 * n)
    }

    /// The two literals of a node, exactly where it is a gate. Takes no memory.
    pub fn gate(&self, node: u32) -> Option<(u32, u32)>
        ensures { result ≡ gate_at self.now node }
    {
        if node == 0 {
            return None;
        }
        match self.held.get(node as usize - 1) {
            Some(pair) if pair.0 > 1 => Some(*pair),
            _ => None,
        }
    }

    /// The value of each node, given one bit for each node that is no gate, in order. The only refusal is
    /// want of memory.
    pub fn eval(&self, alloc: Global, free: &[bool]) -> Result<Vec<bool>, Memory>
        requires { length free.now ≡ length (frees self.now) }
        ensures { IfOk result (λ all. AreValues self.now free.now all.items) }
    {
        let mut all: Vec<bool> = Vec::new(alloc);
        let mut at = 0usize;
        for pair in self.held.iter() {
            let value = if pair.0 > 1 {
                literal(all.as_slice(), pair.0) & literal(all.as_slice(), pair.1)
            } else {
                let bit = free[at];
                at += 1;
                bit
            };
            match all.push(value) {
                Ok(()) => {}
                Err(_) => return Err(Memory),
            }
        }
        Ok(all)
    }

    /// Whether a literal is of one of these nodes, or a constant. Takes no memory.
    pub fn has(&self, literal: u32) -> bool
        ensures { result ≡ knows_literal self.now literal }
    {
        if literal as usize / 2 <= self.held.len() {
            true
        } else {
            false
        }
    }

    /// The number of nodes that are no gates. Takes no memory.
    pub fn free_count(&self) -> u32
        ensures { result ≡ length (frees self.now) }
    {
        (self.held.len() - self.map.len()) as u32
    }

    /// The number of nodes, which is the greatest node. Takes no memory.
    pub fn node_count(&self) -> u32
        ensures count { result ≡ length self.now }
        ensures few { result < 2 ^ 31 }
    {
        self.held.len() as u32
    }

    /// The net of these nodes: with its name, its clock, its ports, the next literals of the latches in
    /// order, and the outputs. A latch for which there is no next literal has 0. Where all literals are of these
    /// nodes, the net is formed. The only refusal is want of memory, and nothing is handed back then.
    pub fn into_net(
        self,
        alloc: Global,
        name: Name,
        clock: Option<Name>,
        ports: Seq<Name>,
        next: Seq<u32>,
        outputs: Seq<(Name, u32)>,
    ) -> Result<Net, Memory>
        ensures net { IfOk result (λ net. net ≡ record { name = name; clock = clock; ports = ports; nodes = with_next next self; outputs = outputs }) }
        ensures formed { IfOk result (λ net. AllByRecursion (λ l. l / 2 ≤ length self) next → AllByRecursion (λ o. o.1 / 2 ≤ length self) outputs → IsFormed net) }
    {
        let Gates {
            held,
            others,
            map: _,
        } = self;
        match nodes_from(alloc, held.as_slice(), others, next.items()) {
            Ok(nodes) => Ok(Net {
                name,
                clock,
                ports,
                nodes: Seq::of(nodes),
                outputs,
            }),
            Err(_) => Err(Memory),
        }
    }
}

impl Gates {
    /// The gate of two literals of smaller nodes, the first the smaller: the first that is there, or a new
    /// one.
    fn share(&mut self, a: u32, b: u32) -> Result<u32, AlgError>
        requires greater { 1 < a }
        requires a { knows_literal self.old a ≡ true }
        requires b { knows_literal self.old b ≡ true }
        ensures { Fits (shared a b self.old) self.old self.new result }
    {
        let pair = (a, b);
        if let Some(n) = self.map.get(&pair) {
            return Ok(2 * *n);
        }
        if self.map.len() >= 1_048_576 {
            return Err(AlgError::Full);
        }
        if self.held.len() >= 0x7FFF_FFFF {
            return Err(AlgError::Memory);
        }
        let n = self.held.len() as u32 + 1;
        match self.held.push(pair) {
            Ok(()) => match self.map.insert(pair, n) {
                Ok(_) => Ok(2 * n),
                Err(_) => {
                    let _ = self.held.pop();
                    Err(AlgError::Memory)
                }
            },
            Err(_) => Err(AlgError::Memory),
        }
    }
}

impl Gates {
    /// The rules, on two literals of which the first is not the greater.
    fn both(&mut self, a: u32, b: u32) -> Result<u32, AlgError>
        requires a { knows_literal self.old a ≡ true }
        requires b { knows_literal self.old b ≡ true }
        ensures { Fits (both_of a b self.old) self.old self.new result }
    {
        if a == 0 {
            Ok(0)
        } else if a == 1 {
            Ok(b)
        } else if a == b {
            Ok(a)
        } else if a / 2 == b / 2 {
            Ok(0)
        } else {
            self.share(a, b)
        }
    }
}

impl Algebra for Gates {
    type Bit = u32;

    type State = Seq<Node>;

    ghost state = { λ g. g };

    ghost calls = { gates_calls };

    ghost meaning = { gates_meaning };

    fn constant(&mut self, value: bool) -> u32 {
        if value { 1 } else { 0 }
    }

    fn not(&mut self, a: u32) -> u32 {
        if a % 2 == 0 { a + 1 } else { a - 1 }
    }

    fn and(&mut self, a: u32, b: u32) -> Result<u32, AlgError> {
        if b < a {
            self.both(b, a)
        } else {
            self.both(a, b)
        }
    }

    ghost law = { gates_law };
}
