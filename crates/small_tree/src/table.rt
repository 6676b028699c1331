use lola_bits::{Name, Seq};
use lola_tree::{Expr, Shape};

/// A role of an IN port with the value at which it is active.
#[derive(Debug, Drop)]
pub struct Active {
    pub port: Name,
    pub value: bool,
}

/// A state that a programmer sees, its type, and the expression over registers that shows it.
#[derive(Debug, Drop)]
pub struct StateRow {
    pub name: Name,
    pub shape: Shape,
    pub shown: Expr,
}

/// A START or SET row: a state and its value.
#[derive(Debug, Drop)]
pub struct SetRow {
    pub name: Name,
    pub value: Expr,
}

/// A phase of a class: whether it takes the value of LOADED, and what links it to the phase before.
/// A LINK that isn't written is the number 1.
#[derive(Debug, Drop)]
pub struct Phase {
    pub loads: bool,
    pub link: Expr,
}

/// A class of words. Its pattern is bytes `0`, `1` and `-`, the highest bit first.
#[derive(Debug, Drop)]
pub struct Class {
    pub name: Name,
    pub pattern: Seq<u8>,
    pub phases: Seq<Phase>,
    pub sets: Seq<SetRow>,
}

/// An instruction table: the roles of ports, the states, and the classes in text order. `ends` is
/// the name behind its END.
#[derive(Debug, Drop)]
pub struct Table {
    pub name: Name,
    pub root: Name,
    pub reset: Active,
    pub loaded: Option<Name>,
    pub states: Seq<StateRow>,
    pub invariant: Expr,
    pub boundary: Expr,
    pub starts: Seq<SetRow>,
    pub classes: Seq<Class>,
    pub ends: Name,
}
