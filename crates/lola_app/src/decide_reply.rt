ghost use Rattle.std.specs.Prelude.{◌≡◌, ◌++◌, OnOk, codes, decimal, map};
ghost use Rattle.lola_app.specs.DecideReply.{decide_outcome, decide_status, decide_text};
ghost use Rattle.lola_app.specs.Values.{value_lines, line_of};

use crate::fault::SourceRefusal;
use crate::line::{push_number, push_worded};
use crate::refusal::{push_refusal, refusal_status};
use crate::status::Status;
use crate::values::{NamedNumber, push_values};
use std::alloc::AllocError;

/// What `decide` came to, with all that its printed text says.
#[derive(Debug, Drop)]
pub enum DecideReply {
    /// The text of the design is refused.
    Refused {
        refusal: SourceRefusal,
    },
    /// The table is outside the forms that are built.
    TableNotBuilt,
    /// An obligation leaves so many bits free, and only 16 can be tried.
    TooManyBits {
        obligation: String,
        count: usize,
    },
    /// All obligations hold.
    Accepted {
        obligations: usize,
        classes: usize,
    },
    /// An obligation fails at these numbers.
    Failed {
        obligation: String,
        numbers: Vec<NamedNumber>,
    },
}

/// The status of a reply whose text is written.
pub fn decide_status(reply: &DecideReply) -> Status
    ensures { result ≡ decide_status (decide_outcome reply.now) }
{
    match reply {
        DecideReply::Refused { refusal } => refusal_status(refusal),
        DecideReply::TableNotBuilt => Status::TableFault,
        DecideReply::TooManyBits { .. } => Status::Limit,
        DecideReply::Accepted { .. } => Status::Ok,
        DecideReply::Failed { .. } => Status::No,
    }
}

/// The printed text of a reply.
pub fn push_decided(text: &mut Vec<u8>, reply: &DecideReply) -> Result<(), AllocError>
    ensures { OnOk result (text.new.items ≡ text.old.items ++ decide_text (decide_outcome reply.now)) }
{
    match reply {
        DecideReply::Refused { refusal } => push_refusal(text, refusal),
        DecideReply::TableNotBuilt => text.extend_from_slice(b"table: NotBuilt\n"),
        DecideReply::TooManyBits { obligation, count } => {
            push_wide(text, obligation.as_str(), *count)
        }
        DecideReply::Accepted {
            obligations,
            classes,
        } => push_counts(text, *obligations, *classes),
        DecideReply::Failed {
            obligation,
            numbers,
        } => push_failure(text, obligation.as_str(), numbers.as_slice()),
    }
}

/// The line of a yes: how many obligations hold, and how many classes are inside the claim.
fn push_counts(text: &mut Vec<u8>, obligations: usize, classes: usize) -> Result<(), AllocError>
    ensures { OnOk result (text.new.items ≡ text.old.items ++ (codes "yes obligations=" ++ (decimal obligations ++ (codes " classes=" ++ (decimal classes ++ codes " outside=0\n"))))) }
{
    push_number(text, b"yes obligations=", obligations)?;
    push_number(text, b" classes=", classes)?;
    text.extend_from_slice(b" outside=0\n")?;
    Ok(())
}

/// The line of an obligation that leaves too many bits free.
fn push_wide(text: &mut Vec<u8>, obligation: &str, count: usize) -> Result<(), AllocError>
    ensures { OnOk result (text.new.items ≡ text.old.items ++ (codes "limit: bits " ++ (obligation.now ++ (codes " " ++ (decimal count ++ codes "\n"))))) }
{
    text.extend_from_slice(b"limit: bits ")?;
    text.extend_from_slice(obligation.as_bytes())?;
    push_number(text, b" ", count)?;
    text.extend_from_slice(b"\n")?;
    Ok(())
}

/// The lines of a failed obligation: its name, the valuation and the end.
fn push_failure(
    text: &mut Vec<u8>,
    obligation: &str,
    numbers: &[NamedNumber],
) -> Result<(), AllocError>
    ensures { OnOk result (text.new.items ≡ text.old.items ++ (codes "no " ++ (obligation.now ++ (codes "\n" ++ (value_lines (map line_of numbers.now) ++ codes "end\n"))))) }
{
    push_worded(text, b"no ", obligation)?;
    push_values(text, numbers)?;
    text.extend_from_slice(b"end\n")?;
    Ok(())
}
