ghost use Rattle.std.specs.Prelude.{◌≡◌, ◌++◌, OnOk, codes, decimal};
ghost use Rattle.lola_app.specs.RefusalText.{refusal_status, refusal_text, fault_text, size_text, named_at};

use crate::fault::{SourceFault, SourceRefusal};
use crate::line::push_number;
use crate::status::Status;
use lola_width::SourceFault as SizeFault;
use std::alloc::AllocError;

/// The status where the text of a design is refused so.
pub fn refusal_status(refusal: &SourceRefusal) -> Status
    ensures { result ≡ refusal_status refusal.now }
{
    match refusal {
        SourceRefusal::Fault { .. } => Status::SourceFault,
        SourceRefusal::Long { .. } => Status::Limit,
    }
}

/// The line of a design's text that is refused.
pub fn push_refusal(text: &mut Vec<u8>, refusal: &SourceRefusal) -> Result<(), AllocError>
    ensures { OnOk result (text.new.items ≡ text.old.items ++ refusal_text refusal.now) }
{
    match refusal {
        SourceRefusal::Fault { fault } => push_line(text, fault),
        SourceRefusal::Long { at } => push_long(text, *at),
    }
}

/// The line of a fault.
fn push_line(text: &mut Vec<u8>, fault: &SourceFault) -> Result<(), AllocError>
    ensures { OnOk result (text.new.items ≡ text.old.items ++ (codes "source: " ++ (fault_text fault.now ++ codes "\n"))) }
{
    text.extend_from_slice(b"source: ")?;
    push_fault(text, fault)?;
    text.extend_from_slice(b"\n")?;
    Ok(())
}

/// The line of an expression that is too long.
fn push_long(text: &mut Vec<u8>, at: u32) -> Result<(), AllocError>
    ensures { OnOk result (text.new.items ≡ text.old.items ++ (codes "limit: expression " ++ (decimal at ++ codes "\n"))) }
{
    push_number(text, b"limit: expression ", at as usize)?;
    text.extend_from_slice(b"\n")?;
    Ok(())
}

/// The name of a fault, with its place where it has one.
fn push_fault(text: &mut Vec<u8>, fault: &SourceFault) -> Result<(), AllocError>
    ensures { OnOk result (text.new.items ≡ text.old.items ++ fault_text fault.now) }
{
    match fault {
        SourceFault::BadByte { at } => push_number(text, b"BadByte ", *at as usize),
        SourceFault::NumberTooLarge { at } => push_number(text, b"NumberTooLarge ", *at as usize),
        SourceFault::OpenComment { at } => push_number(text, b"OpenComment ", *at as usize),
        SourceFault::Syntax { at } => push_number(text, b"Syntax ", *at as usize),
        SourceFault::IllSized { fault } => push_size(text, fault),
        SourceFault::NotBuilt => text.extend_from_slice(b"NotBuilt"),
    }
}

/// A fault of names, widths or assignments: its name and its fields in order.
fn push_size(text: &mut Vec<u8>, fault: &SizeFault) -> Result<(), AllocError>
    ensures { OnOk result (text.new.items ≡ text.old.items ++ size_text fault.now) }
{
    match fault {
        SizeFault::Doubled { at, name } => push_named(text, b"Doubled ", *at, name.text()),
        SizeFault::Unknown { at, name } => push_named(text, b"Unknown ", *at, name.text()),
        SizeFault::Kind { at } => push_number(text, b"Kind ", *at as usize),
        SizeFault::ArrayShape { at, name } => push_named(text, b"ArrayShape ", *at, name.text()),
        SizeFault::Clock { at } => push_number(text, b"Clock ", *at as usize),
        SizeFault::Width { at, left, right } => push_widths(text, *at, *left, *right),
        SizeFault::TooWide { at } => push_number(text, b"TooWide ", *at as usize),
        SizeFault::IndexRange { at } => push_number(text, b"IndexRange ", *at as usize),
        SizeFault::PortCount { at } => push_number(text, b"PortCount ", *at as usize),
        SizeFault::NotAssigned { at, name } => push_named(text, b"NotAssigned ", *at, name.text()),
        SizeFault::AssignedTwice { at, name } => {
            push_named(text, b"AssignedTwice ", *at, name.text())
        }
        SizeFault::Memory => text.extend_from_slice(b"Memory"),
    }
}

/// A place and a name behind what is said of them.
fn push_named(text: &mut Vec<u8>, said: &[u8], at: u32, name: &str) -> Result<(), AllocError>
    ensures { OnOk result (text.new.items ≡ text.old.items ++ (said.now ++ named_at at name.now)) }
{
    push_number(text, said, at as usize)?;
    text.extend_from_slice(b" ")?;
    text.extend_from_slice(name.as_bytes())?;
    Ok(())
}

/// Two widths that differ, and where.
fn push_widths(text: &mut Vec<u8>, at: u32, left: u32, right: u32) -> Result<(), AllocError>
    ensures { OnOk result (text.new.items ≡ text.old.items ++ (codes "Width " ++ named_at at (named_at left (decimal right)))) }
{
    push_number(text, b"Width ", at as usize)?;
    push_number(text, b" ", left as usize)?;
    push_number(text, b" ", right as usize)?;
    Ok(())
}
