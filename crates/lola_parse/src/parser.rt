ghost use Rattle.std.specs.Prelude.{ℕ, ◌<◌, ◌≤◌, ◌^◌, length, IfOk, IfErr, ◌≡◌, ◌≢◌};
ghost use Rattle.std.specs.Prelude.{List, drop};
ghost use Rattle.lola_scan.specs.declared.token.Token.{Token as Scanned};
ghost use Rattle.lola_scan.specs.Tokens.{Spells};
ghost use Rattle.lola_parse.specs.Symbols.{AreIn, items_of};
ghost use Rattle.lola_parse.specs.Design.{SpellsSource, Reads};
ghost use Rattle.lola_parse.specs.Read.{IsWant, IsParsed, ReadsTo};
ghost use Rattle.lola_parse.specs.Long.{BeginsTooLong, IsTooLong, LongSays, LongPlaced};
ghost use Rattle.lola_tree.specs.Tree.{Tree, tree, SourceTree, source_tree};

use crate::cursor::Cursor;
use crate::expression::outermost;
use crate::fault::Fault;
use crate::module::source;
use crate::symbol::Language;
use lola_scan::Token;
use lola_tree::{Expr, Source};
use std::alloc::Global;
use thiserror::Error;

/// Why tokens have no tree. `at` is an offset in bytes.
#[derive(Clone, Copy, Debug, PartialEq, Eq, Error)]
pub enum ParseError {
    /// No text of the grammar begins with the tokens up to this one; or the text, whose length this
    /// is, ends too early.
    #[error("syntax at {at}")]
    Syntax { at: u32 },
    /// The 513th token of an outermost expression: some expression begins with the tokens up to it.
    #[error("expression too long at {at}")]
    Long { at: u32 },
    /// Want of memory.
    #[error("out of memory")]
    Memory,
}

/// The tree of a design's text, which all its tokens spell. They are those that `scan` gave for the
/// text. Syntax stands at the first token such that no grammatical text begins with the tokens up to
/// it, or at the text's length where it ends too early; Long at the 513th token of one outermost
/// expression, where that would go on with it. Both come only where the tokens spell no tree with at
/// most 512 tokens in each outermost expression. Time and memory are linear in the tokens.
pub fn parse(alloc: Global, text: &[u8], tokens: &[Token]) -> Result<Source, ParseError>
    requires short { length text.now < 2 ^ 32 }
    requires lie_within { AreIn text.now tokens.now }
    ensures ok { IfOk result (λ tree. SpellsSource (items_of Language.Design text.now tokens.now) (source_tree tree)) }
    ensures none { IfErr result (λ error. error ≢ ParseError.Memory → (tree : SourceTree) → SpellsSource (items_of Language.Design text.now tokens.now) tree → ⊥) }
    ensures long { IfErr result (LongSays (IsTooLong Language.Design (items_of Language.Design text.now tokens.now))) }
{
    match source(alloc, Cursor::new(Language::Design, text, tokens)) {
        Ok(tree) => Ok(tree),
        Err(fault) => Err(placed(text, tokens, fault)),
    }
}

/// The expression that stands from token number `from` on, in a design's text, and the number of the
/// token behind it. Of the tokens from there on it takes the longest run with which some expression
/// begins; where that run is no expression, it is Syntax at the token behind the run, or at the
/// text's length where the text ends there; Long is as in `parse`. Where an expression of at most 512
/// tokens stands there and ends where no token goes on, it is the one that is answered, and no error
/// comes but Memory.
pub fn parse_expr(
    alloc: Global,
    text: &[u8],
    tokens: &[Token],
    from: usize,
) -> Result<(Expr, usize), ParseError>
    requires short { length text.now < 2 ^ 32 }
    requires lie_within { AreIn text.now tokens.now }
    requires from_in { from ≤ length tokens.now }
    ensures ok { IfOk result (λ read. Reads Language.Design text.now tokens.now from (tree read.0) read.1) }
    ensures whole { (e : Tree) (n : ℕ) → ReadsTo Language.Design text.now tokens.now from e n → IsParsed tree e n result }
    ensures long { IfErr result (LongSays (BeginsTooLong Language.Design (items_of Language.Design text.now (drop from tokens.now)))) }
{
    expr_from(alloc, Language::Design, text, tokens, from)
}

/// As `parse_expr`, for an expression of a table: its counts are numbers, `@` begins the path of a
/// name of the design, and the words that tables reserve are no names.
pub fn parse_table_expr(
    alloc: Global,
    text: &[u8],
    tokens: &[Token],
    from: usize,
) -> Result<(Expr, usize), ParseError>
    requires short { length text.now < 2 ^ 32 }
    requires lie_within { AreIn text.now tokens.now }
    requires from_in { from ≤ length tokens.now }
    ensures ok { IfOk result (λ read. Reads Language.Table text.now tokens.now from (tree read.0) read.1) }
    ensures whole { (e : Tree) (n : ℕ) → ReadsTo Language.Table text.now tokens.now from e n → IsParsed tree e n result }
    ensures long { IfErr result (LongSays (BeginsTooLong Language.Table (items_of Language.Table text.now (drop from tokens.now)))) }
{
    expr_from(alloc, Language::Table, text, tokens, from)
}

/// The expression of a language that stands from a token on, and the number of the token behind it.
fn expr_from(
    alloc: Global,
    language: Language,
    text: &[u8],
    tokens: &[Token],
    from: usize,
) -> Result<(Expr, usize), ParseError>
    requires short { length text.now < 2 ^ 32 }
    requires lie_within { AreIn text.now tokens.now }
    requires from_in { from ≤ length tokens.now }
    ensures ok { IfOk result (λ read. Reads language text.now tokens.now from (tree read.0) read.1) }
    ensures whole { (e : Tree) (n : ℕ) → ReadsTo language text.now tokens.now from e n → IsParsed tree e n result }
    ensures long { IfErr result (LongSays (BeginsTooLong language (items_of language text.now (drop from tokens.now)))) }
{
    let (_, rest) = tokens.split_at(from);
    match outermost(alloc, language, Cursor::new(language, text, rest)) {
        Ok((tree, behind)) => Ok((tree, tokens.len() - behind.left())),
        Err(fault) => Err(placed(text, tokens, fault)),
    }
}

/// The answer for a fault, with its place in the text.
fn placed(text: &[u8], tokens: &[Token], fault: Fault) -> ParseError
    requires { length text.now < 2 ^ 32 }
    ensures want { IsWant fault → result ≡ ParseError.Memory }
    ensures long { LongSays (LongPlaced text.now tokens.now fault) result }
{
    match fault {
        Fault::Syntax { left } => ParseError::Syntax {
            at: place(text, tokens, left),
        },
        Fault::Long { left } => ParseError::Long {
            at: place(text, tokens, left),
        },
        Fault::Memory => ParseError::Memory,
    }
}

/// The place of the token from which on so many are left, or the text's length.
fn place(text: &[u8], tokens: &[Token], left: usize) -> u32
    requires { length text.now < 2 ^ 32 }
    ensures { LongPlaced text.now tokens.now (Fault.Long left) result }
{
    match tokens.get(tokens.len().saturating_sub(left)) {
        Some(token) => token.from,
        None => text.len() as u32,
    }
}

/// The tokens that a text spells lie within it, so callers with tokens of `scan` may call.
pub fn tokens_lie_within()
    ensures { (text : List ℕ) (tokens : List Scanned) → Spells 0 text tokens → AreIn text tokens }
{}
