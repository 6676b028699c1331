ghost use Rattle.std.specs.Prelude.{◌≡◌, ◌+◌, ◌≤◌, length, IfOk, IfErr};
ghost use Rattle.lola_scan.specs.Tokens.{Scanned};
ghost use Rattle.lola_parse.specs.Symbols.{AreIn};
ghost use Rattle.lola_tree.specs.Tree.{source_tree};
ghost use Rattle.small_tree.specs.Table.{TableTree};
ghost use Rattle.lola_app.specs.Accepts.{IsSpelled};
ghost use Rattle.lola_app.specs.Decided.{IsDecided, text_limit};
ghost use Rattle.lola_app.specs.DecideReply.{decide_outcome};
ghost use Rattle.lola_app.specs.Made.{IsSourceOf, IsDesignOf, IsTableOf};
ghost use Rattle.lola_app.specs.Refused.{HasRefusal};
ghost use Rattle.lola_app.specs.Small.{IsSmallTable};
ghost use Rattle.lola_app.specs.Vectors.{interface_in};

use crate::claim::{Claim, fit};
use crate::decide_reply::DecideReply;
use crate::face::{Face, face_of};
use crate::fault::{ReadError, SourceError};
use crate::laws::headline;
use crate::subject::subject_of;
use crate::trial::try_claim;
use lola_bits::Memory;
use lola_elab::{Design, built_is_small, next_is_a_state, one_cycle, read_design};
use lola_parse::{parse, tokens_lie_within};
use lola_scan::{ScanError, Token, one_reading, scan};
use lola_tree::Source;
use lola_width::sizes;
use small_read::{one_table, read_table};
use std::alloc::Global;

/// What `decide` comes to for the text of a design and that of a table.
pub fn decide_texts(alloc: Global, source: &[u8], table: &[u8]) -> Result<DecideReply, Memory>
    requires source { length source.now ≤ text_limit }
    requires table { length table.now ≤ text_limit }
    ensures { IfOk result (λ reply. IsDecided source.now table.now (decide_outcome reply)) }
{
    let design = match source_design(alloc, source) {
        Ok(design) => design,
        Err(SourceError::Refused { refusal }) => return Ok(DecideReply::Refused { refusal }),
        Err(SourceError::Memory) => return Err(Memory),
    };
    let face = face_of(alloc, &design)?;
    let claim = match table_claim(alloc, table, face) {
        Ok(claim) => claim,
        Err(ReadError::NotBuilt) => return Ok(DecideReply::TableNotBuilt),
        Err(ReadError::Memory) => return Err(Memory),
    };
    let subject = subject_of(alloc, design, claim)?;
    one_cycle();
    next_is_a_state();
    headline();
    try_claim(alloc, &subject)
}

/// The design that a text spells, or why it gives none: the first fault of the text comes
/// before those of its tokens, these before those of names, widths and assignments, and these before
/// the forms that aren't built.
fn source_design(alloc: Global, text: &[u8]) -> Result<Design, SourceError>
    requires { length text.now ≤ text_limit }
    ensures ok { IfOk result (λ design. IsDesignOf text.now design) }
    ensures refused { IfErr result (λ error. HasRefusal text.now error) }
{
    let source = match spelled_source(alloc, text) {
        Ok(source) => source,
        Err(error) => return Err(error),
    };
    built_is_small();
    match sizes(alloc, &source) {
        Ok(()) => {}
        Err(fault) => return Err(SourceError::from(fault)),
    }
    match read_design(alloc, &source) {
        Ok(design) => Ok(design),
        Err(fault) => Err(SourceError::from(fault)),
    }
}

/// The source that a text spells, or why it spells none.
fn spelled_source(alloc: Global, text: &[u8]) -> Result<Source, SourceError>
    requires { length text.now ≤ text_limit }
    ensures ok { IfOk result (λ source. IsSourceOf text.now (source_tree source)) }
    ensures refused { IfErr result (λ error. HasRefusal text.now error) }
{
    let tokens = match text_tokens(alloc, text) {
        Ok(tokens) => tokens,
        Err(fault) => return Err(SourceError::from(fault)),
    };
    match parse(alloc, text, tokens.as_slice()) {
        Ok(source) => Ok(source),
        Err(fault) => Err(SourceError::from(fault)),
    }
}

/// The claim that a text spells, about what it sees of a design.
fn table_claim(alloc: Global, text: &[u8], face: Face) -> Result<Claim, ReadError>
    requires short { length text.now ≤ text_limit }
    requires few { length face.inputs.items + length face.registers.items ≤ 65536 }
    ensures ok { IfOk result (λ claim. IsTableOf text.now claim) }
    ensures face { IfOk result (λ claim. claim.face ≡ face) }
    ensures none { result ≡ Err ReadError.NotBuilt → (T : TableTree) → IsSpelled text.now T → IsSmallTable (interface_in face) T → ⊥ }
{
    one_reading();
    one_table();
    let tokens = match text_tokens(alloc, text) {
        Ok(tokens) => tokens,
        Err(fault) => return Err(ReadError::from(fault)),
    };
    let table = match read_table(alloc, text, tokens.as_slice()) {
        Ok(table) => table,
        Err(fault) => return Err(ReadError::from(fault)),
    };
    fit(alloc, &table, face)
}

/// The tokens of a text, which lie within it, or its first fault.
fn text_tokens(alloc: Global, text: &[u8]) -> Result<Vec<Token>, ScanError>
    requires { length text.now ≤ text_limit }
    ensures scanned { Scanned text.now (λ tokens. tokens.items) result }
    ensures within { IfOk result (λ tokens. AreIn text.now tokens.items) }
{
    tokens_lie_within();
    match scan(alloc, text) {
        Ok(tokens) => Ok(tokens),
        Err(fault) => Err(fault),
    }
}
