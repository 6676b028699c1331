ghost use Rattle.std.specs.Prelude.{◌≤◌, length, IfOk, IfErr};
ghost use Rattle.lola_scan.specs.Tokens.{Scanned};
ghost use Rattle.lola_parse.specs.Symbols.{AreIn};
ghost use Rattle.lola_tree.specs.Tree.{source_tree};
ghost use Rattle.lola_flat.specs.Tree.{flat_tree};
ghost use Rattle.lola_flat.specs.Formed.{IsFormed};
ghost use Rattle.lola_regular.specs.Written.{IsWritten};
ghost use Rattle.lola_width.specs.Sized.{IsWellSized};
ghost use Rattle.lola_source.specs.Accepts.{IsSourceOf, IsReadOf};
ghost use Rattle.lola_source.specs.Refused.{HasRefusal};

use crate::fault::SourceError;
use lola_flat::Flat;
use lola_meaning::{elaborated_is_formed, one_cycle};
use lola_parse::{parse, tokens_lie_within};
use lola_regular::names_are_once;
use lola_scan::{ScanError, Token, scan};
use lola_sized::well_sized_is_regular;
use lola_tree::Source;
use lola_unfold::elaborate;
use lola_width::sizes;
use lola_written::texts_are_written;
use std::alloc::Global;

/// A source that is accepted, with its flat design.
#[derive(Debug, Drop)]
pub struct Accepted {
    pub source: Source,
    pub flat: Flat,
}

/// The tokens of a text, which lie within it, or its first fault.
fn text_tokens(alloc: Global, bytes: &[u8]) -> Result<Vec<Token>, ScanError>
    requires { length bytes.now ≤ 1048576 }
    ensures scanned { Scanned bytes.now (λ tokens. tokens.items) result }
    ensures within { IfOk result (λ tokens. AreIn bytes.now tokens.items) }
{
    tokens_lie_within();
    match scan(alloc, bytes) {
        Ok(tokens) => Ok(tokens),
        Err(fault) => Err(fault),
    }
}

/// The source that a text spells, or why it spells none.
fn spelled_source(alloc: Global, bytes: &[u8]) -> Result<Source, SourceError>
    requires { length bytes.now ≤ 1048576 }
    ensures ok { IfOk result (λ source. IsSourceOf bytes.now (source_tree source)) }
    ensures refused { IfErr result (λ error. HasRefusal bytes.now error) }
{
    let tokens = match text_tokens(alloc, bytes) {
        Ok(tokens) => tokens,
        Err(fault) => return Err(SourceError::from(fault)),
    };
    match parse(alloc, bytes, tokens.as_slice()) {
        Ok(source) => Ok(source),
        Err(fault) => Err(SourceError::from(fault)),
    }
}

/// The well sized source that a text spells, or why it spells none.
fn sized_source(alloc: Global, bytes: &[u8]) -> Result<Source, SourceError>
    requires { length bytes.now ≤ 1048576 }
    ensures spelled { IfOk result (λ source. IsSourceOf bytes.now (source_tree source)) }
    ensures sized { IfOk result (λ source. IsWellSized (source_tree source)) }
    ensures refused { IfErr result (λ error. HasRefusal bytes.now error) }
{
    let source = match spelled_source(alloc, bytes) {
        Ok(source) => source,
        Err(error) => return Err(error),
    };
    match sizes(alloc, &source) {
        Ok(()) => Ok(source),
        Err(fault) => Err(SourceError::from(fault)),
    }
}

/// The source that a text spells, with its flat design. The text has at most 1,048,576 bytes. It is accepted
/// exactly where it spells a well sized source whose modules stand at most 64 deep, whose signals and instances
/// are at most 65,536, and through whose equations no closed chain goes. Else the refusal is the first in this
/// order: faults of the text; Syntax and Long; faults of names, widths and assignments; TooDeep; TooMany; Loop.
/// Each comes exactly where its condition holds and none before it does, want of memory aside. Time and memory
/// grow with the text and with the signals of the design.
pub fn read_source(alloc: Global, bytes: &[u8]) -> Result<Accepted, SourceError>
    requires { length bytes.now ≤ 1048576 }
    ensures ok { IfOk result (λ read. IsReadOf bytes.now read) }
    ensures written { IfOk result (λ read. IsWritten (source_tree read.source)) }
    ensures formed { IfOk result (λ read. IsFormed (flat_tree read.flat)) }
    ensures refused { IfErr result (λ error. HasRefusal bytes.now error) }
{
    elaborated_is_formed();
    names_are_once();
    one_cycle();
    texts_are_written();
    well_sized_is_regular();
    let source = match sized_source(alloc, bytes) {
        Ok(source) => source,
        Err(error) => return Err(error),
    };
    match elaborate(alloc, &source) {
        Ok(flat) => Ok(Accepted { source, flat }),
        Err(fault) => Err(SourceError::from(fault)),
    }
}
