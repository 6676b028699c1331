use lola_bits::Name;

/// A node that is no gate.
#[derive(Debug, Drop)]
pub(crate) enum Other {
    Input {
        name: Name,
    },
    Register {
        name: Name,
    },
    Pad {
        name: Name,
        value: u32,
        release: u32,
    },
}
