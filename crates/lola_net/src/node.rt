use lola_bits::Name;

/// A node of a net, with the literals that it uses.
#[derive(Debug, Drop)]
pub enum Node {
    /// An input.
    Free {
        name: Name,
    },
    /// A register bit, with the literal of its next value.
    Latch {
        name: Name,
        next: u32,
    },
    /// A pad: its own value where `release` is 0, and else what drives it from outside.
    Pad {
        name: Name,
        value: u32,
        release: u32,
    },
    /// The `and` of two literals.
    Gate {
        a: u32,
        b: u32,
    },
}
