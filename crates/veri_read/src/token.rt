ghost use Rattle.std.specs.Prelude.{◌≡◌, ◌≤◌, ◌<◌, length, true};
ghost use Rattle.std.specs.List.{prefix_len, list_all};
ghost use Rattle.veri_read.specs.Tokens.{is_blank, begins_name, is_name_byte, constant_symbol, mark_symbol, mark_length, front_item, front_length};
ghost use Rattle.veri_read.specs.Held.{item_of};

use crate::symbol::{Symbol, word_symbol};
use std::str;

/// A token: its symbol, the text of a name, and the offset of its first byte.
#[derive(Clone, Copy)]
pub struct Token<'a> {
    pub symbol: Symbol,
    pub spelled: &'a str,
    pub at: u32,
}

/// Whether a byte is a space, a tab or an end of a line.
pub(crate) fn is_blank(b: u8) -> bool
    ensures { result ≡ is_blank b }
{
    b == b' ' || b == b'\t' || b == b'\n' || b == b'\r'
}

/// Whether a name may begin with a byte.
fn begins_name(b: u8) -> bool
    ensures { result ≡ begins_name b }
{
    b.is_ascii_alphabetic() || b == b'_'
}

/// Whether a byte may stand in a name.
fn is_name_byte(b: u8) -> bool
    ensures { result ≡ is_name_byte b }
{
    b.is_ascii_alphanumeric() || b == b'_'
}

/// How long the run of bytes of names at the front of a text is.
fn name_length(text: &[u8]) -> usize
    ensures long { result ≡ prefix_len is_name_byte text.now }
    ensures within { result ≤ length text.now }
{
    let mut n = 0;
    for b in text {
        if !is_name_byte(*b) {
            return n;
        }
        n += 1;
    }
    n
}

/// The symbol of the constant at the front of a text, if one stands there.
fn constant_symbol(text: &[u8]) -> Symbol
    ensures { result ≡ constant_symbol text.now }
{
    if text.starts_with(b"1'b0") {
        Symbol::Low
    } else if text.starts_with(b"1'b1") {
        Symbol::High
    } else if text.starts_with(b"1'bz") {
        Symbol::Floating
    } else {
        Symbol::Stray
    }
}

/// The symbol of a mark that begins with a byte.
fn mark_symbol(b: u8, text: &[u8]) -> Symbol
    ensures { result ≡ mark_symbol b text.now }
{
    match b {
        b'(' => Symbol::OpenParen,
        b')' => Symbol::CloseParen,
        b',' => Symbol::Comma,
        b';' => Symbol::Semicolon,
        b'=' => Symbol::Equal,
        b'&' => Symbol::And,
        b'?' => Symbol::Question,
        b':' => Symbol::Colon,
        b'~' => Symbol::Not,
        b'@' => Symbol::At,
        b'<' => {
            if text.starts_with(b"<=") {
                Symbol::Arrow
            } else {
                Symbol::Stray
            }
        }
        _ => constant_symbol(text),
    }
}

/// How many bytes a symbol that is no word takes.
fn mark_length(symbol: Symbol) -> usize
    ensures { result ≡ mark_length symbol }
{
    match symbol {
        Symbol::Low | Symbol::High | Symbol::Floating => 4,
        Symbol::Arrow => 2,
        _ => 1,
    }
}

/// The text of a run of bytes of names.
fn name_text(name: &[u8]) -> &str
    requires { list_all is_name_byte name.now ≡ true }
    ensures { result.now ≡ name.now }
{
    match str::from_utf8(name) {
        Ok(text) => text,
        Err(_) => "",
    }
}

/// The token at the front of a text, which begins with a byte that is no blank, at an offset in bytes, and how many bytes
/// it takes. A byte that begins no token is a token too, of one byte. Takes no memory.
pub fn front(at: u32, first: u8, text: &[u8]) -> (Token, usize)
    ensures token { item_of result.0 ≡ front_item at first text.now }
    ensures long { result.1 ≡ front_length first text.now }
{
    if begins_name(first) {
        let length = name_length(text);
        let (word, _) = text.split_at(length);
        let token = Token {
            symbol: word_symbol(word),
            spelled: name_text(word),
            at,
        };
        (token, length)
    } else {
        let symbol = mark_symbol(first, text);
        let token = Token {
            symbol,
            spelled: "",
            at,
        };
        (token, mark_length(symbol))
    }
}
