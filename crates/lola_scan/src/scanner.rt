ghost use Rattle.std.specs.Prelude.{ℕ, true, List, ◌∷◌, ◌≤◌, ◌≡◌, ◌++◌, length, OnOk, IfErr};
ghost use Rattle.lola_scan.specs.Bytes.{is_blank};
ghost use Rattle.lola_scan.specs.Piece.{Piece, Blank, IsPiece, IsUnquoted, IsFront, text_of};
ghost use Rattle.lola_scan.specs.Tokens.{Scanned, HasOneReading};
ghost use Rattle.lola_scan.specs.Front.{token_at};

use crate::front::read_front;
use crate::token::{ScanError, Token, TokenKind};
use std::alloc::Global;

/// Puts the token of a piece behind the others, if it has one.
fn push_token(
    tokens: &mut Vec<Token>,
    kind: Option<TokenKind>,
    from: u32,
    to: u32,
) -> Result<(), ScanError>
    ensures ok { OnOk result (tokens.new.items ≡ tokens.old.items ++ token_at from kind to) }
    ensures err { IfErr result (λ fault. fault ≡ ScanError.Memory) }
{
    if let Some(kind) = kind {
        if tokens.push(Token { kind, from, to }).is_err() {
            return Err(ScanError::Memory);
        }
    }
    Ok(())
}

/// The tokens of a text, in order, or its first fault. Time and memory are linear in the bytes.
#[tactic(auto, using(crate::proofs::Steps::spells_all))]
pub fn scan(alloc: Global, bytes: &[u8]) -> Result<Vec<Token>, ScanError>
    requires { length bytes.now ≤ 1048576 }
    ensures { Scanned bytes.now (λ v. v.items) result }
{
    let mut tokens = Vec::new(alloc);
    let mut at = 0;
    while at < bytes.len() {
        let (_, text) = bytes.split_at(at);
        let front = read_front(at, text)?;
        let to = at + front.length;
        push_token(&mut tokens, front.kind, at as u32, to as u32)?;
        at = to;
    }
    Ok(tokens)
}

/// Each text has one reading: one list of tokens or one first fault, never both.
pub fn one_reading()
    ensures { (text : List ℕ) → HasOneReading text }
{}

/// A word, a number or a mark with a blank behind it stands as it is at the front of a text, and so does a
/// blank: a text with a blank behind each of its tokens is read as these tokens.
pub fn spaced_tokens()
    ensures tokens { (piece : Piece) (b : ℕ) (rest : List ℕ) → IsPiece piece → IsUnquoted piece → is_blank b ≡ true → IsFront (text_of piece ++ b ∷ rest) piece (b ∷ rest) }
    ensures blanks { (b : ℕ) (rest : List ℕ) → is_blank b ≡ true → IsFront (b ∷ rest) (Blank b) rest }
{}
