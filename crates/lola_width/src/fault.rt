ghost use Rattle.std.specs.Prelude.{◌≡◌, ℕ, [], ◌∷◌};
ghost use Rattle.lola_width.specs.declared.fault.SourceFault.TheVariants.{Memory as NoMemory};
ghost use Rattle.lola_width.specs.Order.{stage_of, place_of, row_of, is_sooner, first_after};

use lola_bits::{Memory, Name};

/// The first rule that a source breaks. `at` is the place of the fault, an offset in bytes from 0;
/// widths are in bits.
#[derive(Debug, Drop)]
pub enum SourceFault {
    /// A name is declared again in its module, or a module's name in the source; at the second.
    Doubled { at: u32, name: Name },
    /// A name isn't declared, or a module's name is none of an earlier module; at the use.
    Unknown { at: u32, name: Name },
    /// A name is used as what it isn't; at the use.
    Kind { at: u32 },
    /// An array that isn't a register, or whose number of elements is no power of two from 2 to
    /// 1,024; at the declared name.
    ArrayShape { at: u32, name: Name },
    /// A clock that is no IN port of one bit, a second clock of a module, or a clock that stands
    /// anywhere else; at the use.
    Clock { at: u32 },
    /// Two widths that must be equal differ; at the operator, the `:=`, the `[`, the `->`, the second
    /// name of TS, or the first token of the argument. `left` is the width of the left side, of the
    /// target or the port, or the one that is needed.
    Width { at: u32, left: u32, right: u32 },
    /// A width isn't 1 to 128, a number isn't below 2 to its width, a repetition is 0, or a
    /// concatenation has more than 128 bits; at the count, the number or the `{`.
    TooWide { at: u32 },
    /// A bit or the high end of a slice isn't below the width, or the low end is above the high one;
    /// at that count.
    IndexRange { at: u32 },
    /// A call has another number of arguments than ports; at the called name.
    PortCount { at: u32 },
    /// What must be assigned or called once never is; at its declaration.
    NotAssigned { at: u32, name: Name },
    /// It is so a second time; at the second target.
    AssignedTwice { at: u32, name: Name },
    /// There isn't enough memory for the tables of names.
    Memory,
}

impl From<Memory> for SourceFault {
    ghost from_gives = { λ _ fault. fault ≡ NoMemory };

    fn from(_error: Memory) -> SourceFault {
        SourceFault::Memory
    }
}

/// The stage of a fault: 0 for names, 1 for widths, 2 for assignments.
fn stage_of(fault: &SourceFault) -> u32
    ensures { result ≡ stage_of fault.now }
{
    match fault {
        SourceFault::Doubled { at: _, name: _ } => 0,
        SourceFault::Unknown { at: _, name: _ } => 0,
        SourceFault::Kind { at: _ } => 0,
        SourceFault::ArrayShape { at: _, name: _ } => 0,
        SourceFault::Clock { at: _ } => 0,
        SourceFault::Width {
            at: _,
            left: _,
            right: _,
        } => 1,
        SourceFault::TooWide { at: _ } => 1,
        SourceFault::IndexRange { at: _ } => 1,
        SourceFault::PortCount { at: _ } => 1,
        SourceFault::NotAssigned { at: _, name: _ } => 2,
        SourceFault::AssignedTwice { at: _, name: _ } => 2,
        SourceFault::Memory => 3,
    }
}

fn place_of(fault: &SourceFault) -> u32
    ensures { result ≡ place_of fault.now }
{
    match fault {
        SourceFault::Doubled { at, name: _ } => *at,
        SourceFault::Unknown { at, name: _ } => *at,
        SourceFault::Kind { at } => *at,
        SourceFault::ArrayShape { at, name: _ } => *at,
        SourceFault::Clock { at } => *at,
        SourceFault::Width {
            at,
            left: _,
            right: _,
        } => *at,
        SourceFault::TooWide { at } => *at,
        SourceFault::IndexRange { at } => *at,
        SourceFault::PortCount { at } => *at,
        SourceFault::NotAssigned { at, name: _ } => *at,
        SourceFault::AssignedTwice { at, name: _ } => *at,
        SourceFault::Memory => 0,
    }
}

/// The row of a fault's kind, which orders two at one place.
fn row_of(fault: &SourceFault) -> u32
    ensures { result ≡ row_of fault.now }
{
    match fault {
        SourceFault::Doubled { at: _, name: _ } => 0,
        SourceFault::Unknown { at: _, name: _ } => 1,
        SourceFault::Kind { at: _ } => 2,
        SourceFault::ArrayShape { at: _, name: _ } => 3,
        SourceFault::Clock { at: _ } => 4,
        SourceFault::TooWide { at: _ } => 5,
        SourceFault::Width {
            at: _,
            left: _,
            right: _,
        } => 6,
        SourceFault::IndexRange { at: _ } => 7,
        SourceFault::PortCount { at: _ } => 8,
        SourceFault::NotAssigned { at: _, name: _ } => 9,
        SourceFault::AssignedTwice { at: _, name: _ } => 10,
        SourceFault::Memory => 11,
    }
}

/// Whether a fault is answered rather than another.
fn is_sooner(fault: &SourceFault, other: &SourceFault) -> bool
    ensures { result ≡ is_sooner fault.now other.now }
{
    let stages = (stage_of(fault), stage_of(other));
    let places = (place_of(fault), place_of(other));
    if stages.0 != stages.1 {
        stages.0 < stages.1
    } else if places.0 != places.1 {
        places.0 < places.1
    } else {
        row_of(fault) < row_of(other)
    }
}

/// Keeps a fault where none was found yet that is answered rather than it.
pub fn note(first: &mut Option<SourceFault>, fault: SourceFault)
    ensures { first.new ≡ first_after first.old (fault ∷ []) }
{
    let kept = match first {
        Some(found) => !is_sooner(&fault, found),
        None => false,
    };
    if !kept {
        *first = Some(fault);
    }
}
