ghost use Rattle.std.specs.Prelude.{◌≡◌};
ghost use Rattle.lola_app.specs.Status.{number_of};

/// How a command ended.
#[derive(Clone, Copy, Debug, PartialEq, Eq)]
pub enum Status {
    /// The command's defined answer was printed.
    Ok,
    /// An obligation fails, or a certificate doesn't cover the design and its table.
    No,
    /// The words are no command.
    BadWords,
    /// The design is refused.
    SourceFault,
    /// The table is refused.
    TableFault,
    /// Another text is refused.
    TextFault,
    /// A file couldn't be read.
    ReadFault,
    /// A file or the printed text couldn't be written.
    WriteFault,
    /// A counted quantity passes its limit.
    Limit,
    /// Want of memory.
    Memory,
    /// A search found a valuation that violates an obligation.
    Refuted,
    /// A search ended at its limit without an answer.
    Unknown,
}

/// The exit status of the program: 0 for Ok, 1 for No, and so on to 11 in the order above. Takes no
/// memory.
pub fn status_number(status: Status) -> u8
    ensures { result ≡ number_of status }
{
    match status {
        Status::Ok => 0,
        Status::No => 1,
        Status::BadWords => 2,
        Status::SourceFault => 3,
        Status::TableFault => 4,
        Status::TextFault => 5,
        Status::ReadFault => 6,
        Status::WriteFault => 7,
        Status::Limit => 8,
        Status::Memory => 9,
        Status::Refuted => 10,
        Status::Unknown => 11,
    }
}
