use lola_bits::{Bits, Seq};

/// The value of a state: a vector, or the elements of an array from number 0 on.
#[derive(Debug, Drop)]
pub enum StateValue {
    One { value: Bits },
    Many { values: Seq<Bits> },
}

/// What the outside answers in an unstalled cycle: the next instruction word, and the loaded word.
/// Where a role is absent its part has width 1 and value 0.
#[derive(Clone, Copy, Debug, PartialEq, Eq)]
pub struct Answer {
    pub code: Bits,
    pub loaded: Bits,
}

/// What an instruction does to memory in a cycle. Addresses are in bytes; `byte` says whether one
/// byte is meant, and not a whole word.
#[derive(Clone, Copy, Debug, PartialEq, Eq)]
pub enum Access {
    Idle,
    Load { adr: Bits, byte: bool },
    Store { adr: Bits, byte: bool, word: Bits },
    Fetch { adr: Bits },
}
