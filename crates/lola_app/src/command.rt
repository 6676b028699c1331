ghost use Rattle.std.specs.Prelude.{◌≡◌, [], ◌∷◌, map, string_bytes, codes};
ghost use Rattle.lola_port.specs.Outside.{Same};
ghost use Rattle.lola_app.specs.Reply.{outcome_of, unread, too_long};
ghost use Rattle.lola_app.specs.Serve.{Due, Served, Headline, ReadText, Ends, IsWorded, FaultStatus};

use crate::printer::write_text;
use crate::reply::{Reply, render, reply_status};
use crate::status::Status;
use crate::texts::decide_texts;
use crate::words::decide_words;
use lola_port::{Seat, Sink, SinkError, Store, StoreError};
use std::alloc::Global;

/// The most bytes that a text may have.
const TEXT_LIMIT: u64 = 1_048_576;

/// Carries out the command that the words name, which don't hold the program's name, and prints one
/// text.
///
/// Ok: every obligation holds, and with them the headline. No: one fails, and the text names its
/// valuation. BadWords: the words are no command. SourceFault: the design's text has a fault, which is
/// named with its offset in bytes from 0, or its tokens spell no design, or the design breaks a rule of
/// names, widths or assignments, or it is outside the forms that are built. TableFault: the other text
/// spells no table in these forms that fits the design. ReadFault: a read failed. Limit: a file has more
/// than 1,048,576 bytes, an outermost expression of the design has more than 512 tokens, or an obligation
/// leaves more than 16 bits free. WriteFault: the sink failed, and a front of the text is printed. Memory:
/// memory was wanting, and the text is its line or a front of one. With every other status the whole text
/// is printed, and the sink's count of faults is as before. The store is only read, and the seats stay.
pub fn serve<F: Store, O: Sink>(
    alloc: Global,
    words: &[String],
    files: &mut F,
    out: &mut O,
    seats: &mut Vec<Seat>,
) -> Status
    ensures served { Served (map string_bytes words.now) (F.list files.old) (F.failed_reads files.old) (F.failed_reads files.new) (record { old = O.bytes out.old; new = O.bytes out.new; before = O.faults out.old; now = O.faults out.new }) result }
    ensures headline { result ≡ Status.Ok → Headline (map string_bytes words.now) (F.list files.old) }
    ensures files { F.list files.new ≡ F.list files.old }
    ensures writes { Same (F.failed_writes files.old) (F.failed_writes files.new) }
    ensures seats { seats.new.items ≡ seats.old.items }
{
    let reply = answer(alloc, words, files);
    print(alloc, &reply, out)
}

/// What the command comes to.
fn answer<F: Store>(alloc: Global, words: &[String], files: &mut F) -> Reply
    ensures due { Due (map string_bytes words.now) (F.list files.old) (F.failed_reads files.old) (F.failed_reads files.new) (outcome_of result) }
    ensures files { F.list files.new ≡ F.list files.old }
    ensures writes { Same (F.failed_writes files.old) (F.failed_writes files.new) }
{
    match decide_words(words) {
        Some((source, table)) => decide_files(alloc, source, table, files),
        None => Reply::WrongWords,
    }
}

/// What `decide` comes to for two files.
fn decide_files<F: Store>(alloc: Global, source: &String, table: &String, files: &mut F) -> Reply
    ensures due { Due (codes "decide" ∷ string_bytes source.now ∷ string_bytes table.now ∷ []) (F.list files.old) (F.failed_reads files.old) (F.failed_reads files.new) (outcome_of result) }
    ensures files { F.list files.new ≡ F.list files.old }
    ensures writes { Same (F.failed_writes files.old) (F.failed_writes files.new) }
{
    let source_text = match read_text(alloc, source, files) {
        Ok(text) => text,
        Err(reply) => return reply,
    };
    let table_text = match read_text(alloc, table, files) {
        Ok(text) => text,
        Err(reply) => return reply,
    };
    match decide_texts(alloc, source_text.as_slice(), table_text.as_slice()) {
        Ok(reply) => Reply::OfDecide(reply),
        Err(_) => Reply::NoMemory,
    }
}

/// The text under a word, or the reply that says why there is none.
fn read_text<F: Store>(alloc: Global, word: &String, files: &mut F) -> Result<Vec<u8>, Reply>
    ensures read { ReadText (λ v. v.items) (F.list files.old) (string_bytes word.now) (F.failed_reads files.old) (F.failed_reads files.new) result }
    ensures files { F.list files.new ≡ F.list files.old }
    ensures writes { Same (F.failed_writes files.old) (F.failed_writes files.new) }
{
    match files.read_all(alloc, word.as_str(), TEXT_LIMIT) {
        Ok(text) => Ok(text),
        Err(StoreError::Failed) => Err(unread_reply(word)),
        Err(StoreError::TooLong) => Err(too_long_reply(word)),
        Err(StoreError::Memory) => Err(Reply::NoMemory),
    }
}

fn unread_reply(word: &String) -> Reply
    ensures { IsWorded (unread (string_bytes word.now)) (outcome_of result) }
{
    match word.clone() {
        Ok(word) => Reply::Unread { word },
        Err(_) => Reply::NoMemory,
    }
}

fn too_long_reply(word: &String) -> Reply
    ensures { IsWorded (too_long (string_bytes word.now)) (outcome_of result) }
{
    match word.clone() {
        Ok(word) => Reply::TooLong { word },
        Err(_) => Reply::NoMemory,
    }
}

/// Prints what a command came to.
fn print<O: Sink>(alloc: Global, reply: &Reply, out: &mut O) -> Status
    ensures { Ends (outcome_of reply.now) (O.bytes out.old) (O.bytes out.new) (O.faults out.old) (O.faults out.new) result }
{
    match render(alloc, reply) {
        Ok(text) => match write_text(out, text.as_slice()) {
            Ok(()) => reply_status(reply),
            Err(SinkError::Failed) => fault_status(reply),
            Err(SinkError::Memory) => Status::Memory,
        },
        Err(_) => {
            let _ = write_text(out, b"memory\n");
            Status::Memory
        }
    }
}

/// The status where the sink failed: WriteFault, but that Memory stays.
fn fault_status(reply: &Reply) -> Status
    ensures { FaultStatus (outcome_of reply.now) result }
{
    match reply {
        Reply::NoMemory => Status::Memory,
        _ => Status::WriteFault,
    }
}
