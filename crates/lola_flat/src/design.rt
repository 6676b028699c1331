use crate::expr::FExpr;
use lola_bits::{Name, Seq};

/// What a signal is: an IN port of the root, an INOUT port of the root, a register, or anything else.
#[derive(Clone, Copy, Debug, PartialEq, Eq)]
pub enum SigKind {
    Input,
    Pad,
    Wire,
    Register,
}

/// A signal. Its path is the names of instances and then its own name, and its width is in bits. An array
/// of registers has `count` elements of that width, a power of two from 2 to 1,024, and a place; every
/// other signal has a count of 1. The equation gives the value of a wire or pad, and the next value of a
/// register or of the element of an array at the place.
#[derive(Debug, Drop)]
pub struct Signal {
    pub path: Seq<Name>,
    pub kind: SigKind,
    pub width: u32,
    pub count: u32,
    pub place: Option<FExpr>,
    pub equation: Option<FExpr>,
}

/// A flat design: its root's name, its clock, the numbers of the root's ports in text order, the signals,
/// and the numbers of wires and pads in an order in which each equation uses inputs, registers and earlier
/// ones alone.
#[derive(Debug, Drop)]
pub struct Flat {
    pub root: Name,
    pub clock: Option<Name>,
    pub ports: Seq<u32>,
    pub signals: Seq<Signal>,
    pub order: Seq<u32>,
}
