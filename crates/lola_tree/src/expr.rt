use crate::named::{Count, Ref};
use lola_bits::{Op, Seq};

/// A part of a concatenation, which stands there `times` times; where that isn't written it is 1, at
/// the place of the part's first token.
#[derive(Debug, Drop)]
#[cycle(tree)]
pub struct Part {
    pub value: Expr,
    pub times: Count,
}

/// An expression. `at` is the place of a number's first byte, or else that of the operator, `->`,
/// `[`, `.`, `~` or `{`. A shift is a `Binary`, and neither `Not` nor `Mux` is the `op` of one.
#[derive(Debug, Drop)]
#[cycle(tree)]
pub enum Expr {
    Number {
        value: u128,
        width: Option<u128>,
        at: u32,
    },
    Whole {
        of: Ref,
    },
    Bit {
        of: Ref,
        index: Count,
        at: u32,
    },
    Slice {
        of: Ref,
        high: Count,
        low: Count,
        at: u32,
    },
    Index {
        of: Ref,
        place: Box<Expr>,
        at: u32,
    },
    Concat {
        parts: Seq<Part>,
        at: u32,
    },
    Not {
        arg: Box<Expr>,
        at: u32,
    },
    Binary {
        op: Op,
        left: Box<Expr>,
        right: Box<Expr>,
        at: u32,
    },
    Choice {
        test: Box<Expr>,
        yes: Box<Expr>,
        no: Box<Expr>,
        at: u32,
    },
}

/// An expression as an argument, with the place of its first token; as the place of an assignment,
/// with that of its `[`.
#[derive(Debug, Drop)]
pub struct Actual {
    pub value: Expr,
    pub at: u32,
}
