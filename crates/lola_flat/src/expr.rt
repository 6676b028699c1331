use lola_bits::{Bits, Op, Seq};

/// An expression over the signals of a flat design, which are known by their numbers from 0.
#[derive(Debug, Drop)]
pub enum FExpr {
    Number { value: Bits },
    /// The value of a signal that is a vector.
    Signal { number: u32 },
    /// The value that a pad, a signal by its number, is given from outside.
    Outside { number: u32 },
    /// The element of a register array, a signal by its number, at a place.
    Element { number: u32, place: Box<FExpr> },
    /// The bits of a vector from `low` to `high`, which count from 0.
    Slice { of: Box<FExpr>, high: u32, low: u32 },
    /// Vectors one behind another, the first the highest.
    Join { parts: Seq<FExpr> },
    /// A vector so many times, one behind another.
    Repeat { part: Box<FExpr>, times: u32 },
    /// An operator on vectors: one for `Not`; a test of one bit and two for `Mux`; and else two.
    Apply { op: Op, args: Seq<FExpr> },
}
