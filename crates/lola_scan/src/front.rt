ghost use Rattle.std.specs.Prelude.{◌≡◌, ◌≤◌, ◌<◌, ◌+◌, ◌∷◌, [], length, take, codes, nat_eq};
ghost use Rattle.std.specs.Cmp.Lexicographic.{pointwise};
ghost use Rattle.lola_scan.specs.Bytes.{is_digit};
ghost use Rattle.lola_scan.specs.Front.{Reads, Starts, EndsAt};

use crate::bytes::{Class, is_blank, is_digit, is_letter, run_length};
use crate::mark::mark_length;
use crate::number::{base_length, is_hexadecimal, number_kind, width_digits, width_length};
use crate::token::{ScanError, TokenKind};

/// What stands at the front of a text: how many bytes it takes, and the kind of its token. Blanks
/// and comments have none.
#[derive(Clone, Copy)]
pub struct Front {
    pub kind: Option<TokenKind>,
    pub length: usize,
}

/// The number at the front of a text.
fn number(at: usize, text: &[u8]) -> Result<Front, ScanError>
    requires begins { Starts is_digit text.now }
    requires bound { at + length text.now ≤ 1048576 }
    ensures { Reads at text.now result }
{
    let (run, behind) = text.split_at(run_length(Class::Hexadecimal, text));
    let hexadecimal = is_hexadecimal(behind);
    let base = base_length(hexadecimal);
    let (_, behind) = behind.split_at(base);
    let width = width_digits(behind);
    let kind = number_kind(at, run, hexadecimal, width)?;
    Ok(Front {
        kind: Some(kind),
        length: run.len() + base + width_length(width),
    })
}

/// The pattern whose opening quote stands in front of `inside`.
#[tactic(auto, using(crate::proofs::Steps::pattern_read, crate::proofs::Steps::pattern_open, crate::proofs::Steps::pattern_broken))]
fn pattern(at: usize, inside: &[u8]) -> Result<Front, ScanError>
    requires { at + length inside.now < 1048576 }
    ensures { Reads at (34 ∷ inside.now) result }
{
    let length = run_length(Class::Pattern, inside);
    if length == inside.len() {
        Err(ScanError::BadByte { at: at as u32 })
    } else if inside[length] == b'"' {
        Ok(Front {
            kind: Some(TokenKind::Pattern),
            length: length + 2,
        })
    } else {
        Err(ScanError::BadByte {
            at: (at + 1 + length) as u32,
        })
    }
}

/// Whether a comment ends here.
fn ends_comment(text: &[u8]) -> bool
    ensures { result ≡ pointwise nat_eq (codes "*)") (take 2 text.now) }
{
    text.starts_with(b"*)")
}

/// Where the first `*)` stands.
fn comment_end(inside: &[u8]) -> Option<usize>
    ensures { EndsAt inside.now result }
{
    for n in 0..inside.len() {
        let (_, rest) = inside.split_at(n);
        if ends_comment(rest) {
            return Some(n);
        }
    }
    None
}

/// The comment whose `(*` stands in front of `inside`.
#[tactic(auto, using(crate::proofs::Steps::comment_read, crate::proofs::Steps::comment_open))]
fn comment(at: usize, inside: &[u8]) -> Result<Front, ScanError>
    requires { at + length inside.now < 1048576 }
    ensures { Reads at (40 ∷ 42 ∷ inside.now) result }
{
    match comment_end(inside) {
        Some(length) => Ok(Front {
            kind: None,
            length: length + 4,
        }),
        None => Err(ScanError::OpenComment { at: at as u32 }),
    }
}

/// What stands at the front of a text.
#[tactic(auto, using(crate::proofs::Steps::headed, crate::proofs::Steps::others, crate::proofs::Steps::not_opened, crate::proofs::Steps::blank_read, crate::proofs::Steps::word_read, crate::proofs::Steps::mark_at, crate::proofs::Steps::stray_at))]
pub fn read_front(at: usize, text: &[u8]) -> Result<Front, ScanError>
    requires some { 0 < length text.now }
    requires bound { at + length text.now ≤ 1048576 }
    ensures { Reads at text.now result }
{
    let first = text[0];
    let (_, behind) = text.split_at(1);
    if is_blank(first) {
        Ok(Front {
            kind: None,
            length: 1,
        })
    } else if is_letter(first) {
        Ok(Front {
            kind: Some(TokenKind::Word),
            length: 1 + run_length(Class::Word, behind),
        })
    } else if is_digit(first) {
        number(at, text)
    } else if first == b'"' {
        pattern(at, behind)
    } else if text.starts_with(b"(*") {
        let (_, inside) = text.split_at(2);
        comment(at, inside)
    } else {
        match mark_length(text) {
            Some(length) => Ok(Front {
                kind: Some(TokenKind::Mark),
                length,
            }),
            None => Err(ScanError::BadByte { at: at as u32 }),
        }
    }
}
