ghost use Rattle.std.specs.Prelude.{◌≡◌, IfOk};
ghost use Rattle.lola_app.specs.Reply.{outcome_of, status_of, text_of};

use crate::decide_reply::{DecideReply, decide_status, push_decided};
use crate::line::push_worded;
use crate::status::Status;
use std::alloc::{AllocError, Global};

/// What a call came to: what any command may come to before its files are read, or what a command
/// makes of them.
#[derive(Debug, Drop)]
pub enum Reply {
    /// The words are no command.
    WrongWords,
    /// The file of this word couldn't be read.
    Unread { word: String },
    /// The file of this word is longer than a text may be.
    TooLong { word: String },
    /// Want of memory.
    NoMemory,
    /// What `decide` came to.
    OfDecide(DecideReply),
}

/// The status of a reply whose text is written.
pub fn reply_status(reply: &Reply) -> Status
    ensures { result ≡ status_of (outcome_of reply.now) }
{
    match reply {
        Reply::WrongWords => Status::BadWords,
        Reply::Unread { .. } => Status::ReadFault,
        Reply::TooLong { .. } => Status::Limit,
        Reply::NoMemory => Status::Memory,
        Reply::OfDecide(reply) => decide_status(reply),
    }
}

/// The printed text of a reply.
pub fn render(alloc: Global, reply: &Reply) -> Result<Vec<u8>, AllocError>
    ensures { IfOk result (λ text. text.items ≡ text_of (outcome_of reply.now)) }
{
    let mut text = Vec::new(alloc);
    match reply {
        Reply::WrongWords => text.extend_from_slice(b"words\n")?,
        Reply::Unread { word } => push_worded(&mut text, b"read: ", word.as_str())?,
        Reply::TooLong { word } => push_worded(&mut text, b"limit: text ", word.as_str())?,
        Reply::NoMemory => text.extend_from_slice(b"memory\n")?,
        Reply::OfDecide(reply) => push_decided(&mut text, reply)?,
    }
    Ok(text)
}
