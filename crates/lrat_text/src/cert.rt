use lola_bits::Name;
use lrat_check::Line;

/// Why a certificate's text is refused. `n` is the number of a line, from 1.
#[derive(Debug, Drop)]
pub enum CertError {
    /// The line is none that a certificate has there: another than the first line is first, a line of a refutation
    /// stands before each obligation, or `end` has another number than there are obligations.
    BadLine { n: u32 },
    /// An obligation begins that isn't the next.
    WrongName { n: u32 },
    /// The text ends though an obligation is left; the first such.
    Missing { n: u32, name: Name },
    /// An obligation begins though none is left, or a byte stands behind the line `end`.
    Extra { n: u32 },
    /// The bytes end before the line feed of a line `end`.
    Truncated,
    /// Memory is wanting.
    Memory,
}

/// The next part of a certificate.
#[derive(Debug, Drop)]
pub enum CertStep {
    /// The obligation with this number, from 0, begins.
    Begin { number: u32 },
    /// A line of its refutation.
    Step { line: Line },
    /// The text is at its end.
    Finished,
}
