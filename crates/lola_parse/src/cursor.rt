ghost use Rattle.std.specs.Prelude.{◌≡◌, ◌≢◌, ℕ, List, length, ◌<◌, IfOk, IfErr};
ghost use Rattle.std.specs.Str.{IsUtf8, IsAscii};
ghost use Rattle.lola_parse.specs.Symbols.{Item, text_of, IsIn, is_word_kind};
ghost use Rattle.lola_parse.specs.Grammar.{Passes, place_of};
ghost use Rattle.lola_parse.specs.Read.{IsBehind};

use crate::fault::Fault;
use crate::symbol::{Language, Symbol, symbol_of};
use lola_scan::{Token, TokenKind};
use std::marker::Model;
use std::str;

/// What a text holds from a place on, token by token. Contracts see it as the list of what the
/// grammar reads.
#[derive(Drop)]
pub struct Cursor<'a> {
    language: Language,
    text: &'a [u8],
    tokens: &'a [Token],
}

impl<'a> Model for Cursor<'a> {
    ghost use Rattle.std.specs.Prelude.{List};
    ghost use Rattle.lola_parse.specs.Symbols.{Item, items_of, AreIn};

    ghost Value = { List Item };

    ghost view = { λ c. items_of c.language c.text.now c.tokens.now };

    ghost invariant = { λ c. AreIn c.text.now c.tokens.now };
}

/// The token at the front: its symbol, whether it is a word, its text and place, and what stands
/// behind it. Where there is none the symbol is `Nothing`.
#[derive(Drop)]
pub struct Next<'a> {
    pub symbol: Symbol,
    pub is_word: bool,
    pub spelled: &'a str,
    pub at: u32,
    pub rest: Cursor<'a>,
}

impl<'a> Cursor<'a> {
    ghost use Rattle.lola_parse.specs.Symbols.{items_of, AreIn, IsNext};

    /// The tokens from the first on.
    pub fn new(language: Language, text: &'a [u8], tokens: &'a [Token]) -> Cursor<'a>
        requires { AreIn text.now tokens.now }
        ensures { result ≡ items_of language text.entry.now tokens.entry.now }
    {
        Cursor {
            language,
            text,
            tokens,
        }
    }

    /// How many tokens are left.
    pub fn left(&self) -> usize
        ensures { result ≡ length self.now }
    {
        self.tokens.len()
    }

    /// The fault that no text of the grammar goes on with the token at the front.
    pub fn fault(&self) -> Fault
        ensures { result ≡ Fault.Syntax (length self.now) }
    {
        Fault::Syntax { left: self.left() }
    }

    /// The place of the token at the front, or 0 where there is none.
    pub fn at(&self) -> u32
        ensures { result ≡ place_of self.now }
    {
        self.next().at
    }

    /// The token at the front.
    pub fn next(&self) -> Next<'a>
        ensures { IsNext self.now result.symbol result.is_word result.spelled.now result.at result.rest }
    {
        match self.tokens.split_first() {
            None => Next {
                symbol: Symbol::Nothing,
                is_word: false,
                spelled: "",
                at: 0,
                rest: Cursor {
                    language: self.language,
                    text: self.text,
                    tokens: self.tokens,
                },
            },
            Some((first, rest)) => {
                let spelled = text_of(self.text, *first);
                Next {
                    symbol: symbol_of(self.language, first.kind, spelled.as_bytes()),
                    is_word: is_word(first.kind),
                    spelled,
                    at: first.from,
                    rest: Cursor {
                        language: self.language,
                        text: self.text,
                        tokens: rest,
                    },
                }
            }
        }
    }
}

/// What stands behind a symbol that must be at the front. Where it isn't, the fault is Syntax at the
/// token that is.
impl<'a> Cursor<'a> {
    /// Behind `MODULE`.
    pub fn behind_module(&self) -> Result<Cursor<'a>, Fault>
        ensures shorter { IfOk result (λ rest. length rest < length self.now) }
        ensures ok { IfOk result (λ rest. Passes Symbol.Module self.now rest) }
        ensures whole { (rest : List Item) → Passes Symbol.Module self.now rest → IsBehind rest result }
        ensures fails { IfErr result (λ fault. fault ≡ Fault.Syntax (length self.now)) }
    {
        let next = self.next();
        match next.symbol {
            Symbol::Module => Ok(next.rest),
            _ => Err(self.fault()),
        }
    }

    /// Behind `END`.
    pub fn behind_end(&self) -> Result<Cursor<'a>, Fault>
        ensures shorter { IfOk result (λ rest. length rest < length self.now) }
        ensures ok { IfOk result (λ rest. Passes Symbol.End self.now rest) }
        ensures whole { (rest : List Item) → Passes Symbol.End self.now rest → IsBehind rest result }
        ensures fails { IfErr result (λ fault. fault ≡ Fault.Syntax (length self.now)) }
    {
        let next = self.next();
        match next.symbol {
            Symbol::End => Ok(next.rest),
            _ => Err(self.fault()),
        }
    }

    /// Behind `BIT`.
    pub fn behind_bit(&self) -> Result<Cursor<'a>, Fault>
        ensures shorter { IfOk result (λ rest. length rest < length self.now) }
        ensures ok { IfOk result (λ rest. Passes Symbol.Bit self.now rest) }
        ensures whole { (rest : List Item) → Passes Symbol.Bit self.now rest → IsBehind rest result }
        ensures fails { IfErr result (λ fault. fault ≡ Fault.Syntax (length self.now)) }
    {
        let next = self.next();
        match next.symbol {
            Symbol::Bit => Ok(next.rest),
            _ => Err(self.fault()),
        }
    }

    /// Behind `(`.
    pub fn behind_open_paren(&self) -> Result<Cursor<'a>, Fault>
        ensures shorter { IfOk result (λ rest. length rest < length self.now) }
        ensures ok { IfOk result (λ rest. Passes Symbol.OpenParen self.now rest) }
        ensures whole { (rest : List Item) → Passes Symbol.OpenParen self.now rest → IsBehind rest result }
        ensures fails { IfErr result (λ fault. fault ≡ Fault.Syntax (length self.now)) }
    {
        let next = self.next();
        match next.symbol {
            Symbol::OpenParen => Ok(next.rest),
            _ => Err(self.fault()),
        }
    }

    /// Behind `)`.
    pub fn behind_close_paren(&self) -> Result<Cursor<'a>, Fault>
        ensures shorter { IfOk result (λ rest. length rest < length self.now) }
        ensures ok { IfOk result (λ rest. Passes Symbol.CloseParen self.now rest) }
        ensures whole { (rest : List Item) → Passes Symbol.CloseParen self.now rest → IsBehind rest result }
        ensures fails { IfErr result (λ fault. fault ≡ Fault.Syntax (length self.now)) }
    {
        let next = self.next();
        match next.symbol {
            Symbol::CloseParen => Ok(next.rest),
            _ => Err(self.fault()),
        }
    }

    /// Behind `]`.
    pub fn behind_close_bracket(&self) -> Result<Cursor<'a>, Fault>
        ensures shorter { IfOk result (λ rest. length rest < length self.now) }
        ensures ok { IfOk result (λ rest. Passes Symbol.CloseBracket self.now rest) }
        ensures whole { (rest : List Item) → Passes Symbol.CloseBracket self.now rest → IsBehind rest result }
        ensures fails { IfErr result (λ fault. fault ≡ Fault.Syntax (length self.now)) }
    {
        let next = self.next();
        match next.symbol {
            Symbol::CloseBracket => Ok(next.rest),
            _ => Err(self.fault()),
        }
    }

    /// Behind `}`.
    pub fn behind_close_brace(&self) -> Result<Cursor<'a>, Fault>
        ensures shorter { IfOk result (λ rest. length rest < length self.now) }
        ensures ok { IfOk result (λ rest. Passes Symbol.CloseBrace self.now rest) }
        ensures whole { (rest : List Item) → Passes Symbol.CloseBrace self.now rest → IsBehind rest result }
        ensures fails { IfErr result (λ fault. fault ≡ Fault.Syntax (length self.now)) }
    {
        let next = self.next();
        match next.symbol {
            Symbol::CloseBrace => Ok(next.rest),
            _ => Err(self.fault()),
        }
    }

    /// Behind `,`.
    pub fn behind_comma(&self) -> Result<Cursor<'a>, Fault>
        ensures shorter { IfOk result (λ rest. length rest < length self.now) }
        ensures ok { IfOk result (λ rest. Passes Symbol.Comma self.now rest) }
        ensures whole { (rest : List Item) → Passes Symbol.Comma self.now rest → IsBehind rest result }
        ensures fails { IfErr result (λ fault. fault ≡ Fault.Syntax (length self.now)) }
    {
        let next = self.next();
        match next.symbol {
            Symbol::Comma => Ok(next.rest),
            _ => Err(self.fault()),
        }
    }

    /// Behind `;`.
    pub fn behind_semicolon(&self) -> Result<Cursor<'a>, Fault>
        ensures shorter { IfOk result (λ rest. length rest < length self.now) }
        ensures ok { IfOk result (λ rest. Passes Symbol.Semicolon self.now rest) }
        ensures whole { (rest : List Item) → Passes Symbol.Semicolon self.now rest → IsBehind rest result }
        ensures fails { IfErr result (λ fault. fault ≡ Fault.Syntax (length self.now)) }
    {
        let next = self.next();
        match next.symbol {
            Symbol::Semicolon => Ok(next.rest),
            _ => Err(self.fault()),
        }
    }

    /// Behind `:`.
    pub fn behind_colon(&self) -> Result<Cursor<'a>, Fault>
        ensures shorter { IfOk result (λ rest. length rest < length self.now) }
        ensures ok { IfOk result (λ rest. Passes Symbol.Colon self.now rest) }
        ensures whole { (rest : List Item) → Passes Symbol.Colon self.now rest → IsBehind rest result }
        ensures fails { IfErr result (λ fault. fault ≡ Fault.Syntax (length self.now)) }
    {
        let next = self.next();
        match next.symbol {
            Symbol::Colon => Ok(next.rest),
            _ => Err(self.fault()),
        }
    }

    /// Behind `:=`.
    pub fn behind_assign(&self) -> Result<Cursor<'a>, Fault>
        ensures shorter { IfOk result (λ rest. length rest < length self.now) }
        ensures ok { IfOk result (λ rest. Passes Symbol.Assign self.now rest) }
        ensures whole { (rest : List Item) → Passes Symbol.Assign self.now rest → IsBehind rest result }
        ensures fails { IfErr result (λ fault. fault ≡ Fault.Syntax (length self.now)) }
    {
        let next = self.next();
        match next.symbol {
            Symbol::Assign => Ok(next.rest),
            _ => Err(self.fault()),
        }
    }

    /// Behind `.`.
    pub fn behind_dot(&self) -> Result<Cursor<'a>, Fault>
        ensures shorter { IfOk result (λ rest. length rest < length self.now) }
        ensures ok { IfOk result (λ rest. Passes Symbol.Dot self.now rest) }
        ensures whole { (rest : List Item) → Passes Symbol.Dot self.now rest → IsBehind rest result }
        ensures fails { IfErr result (λ fault. fault ≡ Fault.Syntax (length self.now)) }
    {
        let next = self.next();
        match next.symbol {
            Symbol::Dot => Ok(next.rest),
            _ => Err(self.fault()),
        }
    }
}

/// Whether a token is a word, reserved or not.
fn is_word(kind: TokenKind) -> bool
    ensures { result ≡ is_word_kind kind }
{
    match kind {
        TokenKind::Word => true,
        _ => false,
    }
}

/// The text of a token.
fn text_of(text: &[u8], token: Token) -> &str
    requires { IsIn text.now token }
    ensures { result.now ≡ text_of text.now token }
{
    match str::from_utf8(&text[token.from as usize..token.to as usize]) {
        Ok(spelled) => spelled,
        Err(_) => "",
    }
}
