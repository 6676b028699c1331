ghost use Rattle.std.specs.Prelude.{◌≡◌};
ghost use Rattle.lola_parse.specs.Symbols.{symbol_of, word_symbol, reserved, reserved_in_types, is_table_word, is_one_of, row_words, role_words, class_words, mark_symbol, short_mark, long_mark};

use lola_scan::TokenKind;

/// The language that an expression stands in: a design's own text, or a table.
#[derive(Clone, Copy, Debug, PartialEq, Eq)]
pub enum Language {
    Design,
    Table,
}

/// What a token is to the grammar.
#[derive(Clone, Copy)]
pub enum Symbol {
    Module,
    In,
    Out,
    Inout,
    Const,
    Reg,
    Var,
    Begin,
    End,
    Bit,
    Byte,
    Word,
    Shl,
    Shr,
    Asr,
    Ror,
    Ts,
    /// A word that tables alone reserve.
    TableWord,
    /// A word that isn't reserved.
    Name,
    Number { value: u128, width: Option<u128> },
    Pattern,
    OpenParen,
    CloseParen,
    OpenBracket,
    CloseBracket,
    OpenBrace,
    CloseBrace,
    Comma,
    Semicolon,
    Colon,
    Assign,
    Dot,
    Arrow,
    Equal,
    Unequal,
    Less,
    AtMost,
    Greater,
    AtLeast,
    Plus,
    Minus,
    Or,
    Xor,
    And,
    Not,
    Times,
    At,
    /// A mark that the grammar doesn't have.
    Stray,
    /// No token: the text ends here.
    Nothing,
}

/// The symbol of a token of this kind and text.
pub fn symbol_of(language: Language, kind: TokenKind, text: &[u8]) -> Symbol
    ensures { result ≡ symbol_of language kind text.now }
{
    match kind {
        TokenKind::Word => word_symbol(language, text),
        TokenKind::Number { value, width } => Symbol::Number { value, width },
        TokenKind::Pattern => Symbol::Pattern,
        TokenKind::Mark => mark_symbol(text),
    }
}

/// The symbol of a word: its own where it is reserved, or else that of a name.
fn word_symbol(language: Language, word: &[u8]) -> Symbol
    ensures { result ≡ word_symbol language word.now }
{
    match reserved(word) {
        Some(symbol) => symbol,
        None => match language {
            Language::Design => Symbol::Name,
            Language::Table => {
                if is_table_word(word) {
                    Symbol::TableWord
                } else {
                    Symbol::Name
                }
            }
        },
    }
}

/// The symbol of a word that designs and tables reserve.
fn reserved(word: &[u8]) -> Option<Symbol>
    ensures { result ≡ reserved word.now }
{
    if word == b"MODULE".as_slice() {
        Some(Symbol::Module)
    } else if word == b"IN".as_slice() {
        Some(Symbol::In)
    } else if word == b"OUT".as_slice() {
        Some(Symbol::Out)
    } else if word == b"INOUT".as_slice() {
        Some(Symbol::Inout)
    } else if word == b"CONST".as_slice() {
        Some(Symbol::Const)
    } else if word == b"REG".as_slice() {
        Some(Symbol::Reg)
    } else if word == b"VAR".as_slice() {
        Some(Symbol::Var)
    } else if word == b"BEGIN".as_slice() {
        Some(Symbol::Begin)
    } else if word == b"END".as_slice() {
        Some(Symbol::End)
    } else {
        reserved_in_types(word)
    }
}

/// The symbol of a word that stands in types, expressions and pads.
fn reserved_in_types(word: &[u8]) -> Option<Symbol>
    ensures { result ≡ reserved_in_types word.now }
{
    if word == b"BIT".as_slice() {
        Some(Symbol::Bit)
    } else if word == b"BYTE".as_slice() {
        Some(Symbol::Byte)
    } else if word == b"WORD".as_slice() {
        Some(Symbol::Word)
    } else if word == b"SHL".as_slice() {
        Some(Symbol::Shl)
    } else if word == b"SHR".as_slice() {
        Some(Symbol::Shr)
    } else if word == b"ASR".as_slice() {
        Some(Symbol::Asr)
    } else if word == b"ROR".as_slice() {
        Some(Symbol::Ror)
    } else if word == b"TS".as_slice() {
        Some(Symbol::Ts)
    } else {
        None
    }
}

/// Whether tables alone reserve the word.
fn is_table_word(word: &[u8]) -> bool
    ensures { result ≡ is_table_word word.now }
{
    is_row_word(word) || is_role_word(word) || is_class_word(word)
}

/// Whether it is a word that heads a part of a table or a row.
fn is_row_word(word: &[u8]) -> bool
    ensures { result ≡ is_one_of row_words word.now }
{
    word == b"TABLE".as_slice()
        || word == b"FOR".as_slice()
        || word == b"ROLES".as_slice()
        || word == b"STATE".as_slice()
        || word == b"IS".as_slice()
        || word == b"FIELDS".as_slice()
        || word == b"INVARIANT".as_slice()
        || word == b"BOUNDARY".as_slice()
        || word == b"START".as_slice()
        || word == b"OUTSIDE".as_slice()
        || word == b"CLASS".as_slice()
        || word == b"LET".as_slice()
        || word == b"SET".as_slice()
}

/// Whether it is the word of a role.
fn is_role_word(word: &[u8]) -> bool
    ensures { result ≡ is_one_of role_words word.now }
{
    word == b"RESET".as_slice()
        || word == b"STALL".as_slice()
        || word == b"CODE".as_slice()
        || word == b"FETCHED".as_slice()
        || word == b"LOADED".as_slice()
        || word == b"READ".as_slice()
        || word == b"WRITE".as_slice()
        || word == b"ADDRESS".as_slice()
        || word == b"DATA".as_slice()
}

/// Whether it is a word of a phase or of an access.
fn is_class_word(word: &[u8]) -> bool
    ensures { result ≡ is_one_of class_words word.now }
{
    word == b"PHASE".as_slice()
        || word == b"TURNS".as_slice()
        || word == b"OF".as_slice()
        || word == b"FROM".as_slice()
        || word == b"STEP".as_slice()
        || word == b"LOAD".as_slice()
        || word == b"STORE".as_slice()
        || word == b"FETCH".as_slice()
        || word == b"SHOWS".as_slice()
        || word == b"LINK".as_slice()
        || word == b"ACCESS".as_slice()
}

/// The symbol of a mark.
fn mark_symbol(mark: &[u8]) -> Symbol
    ensures { result ≡ mark_symbol mark.now }
{
    match mark {
        [only] => short_mark(*only),
        [first, second] => long_mark(*first, *second),
        _ => Symbol::Stray,
    }
}

/// The symbol of a mark of one byte.
fn short_mark(byte: u8) -> Symbol
    ensures { result ≡ short_mark byte }
{
    match byte {
        b'(' => Symbol::OpenParen,
        b')' => Symbol::CloseParen,
        b'[' => Symbol::OpenBracket,
        b']' => Symbol::CloseBracket,
        b'{' => Symbol::OpenBrace,
        b'}' => Symbol::CloseBrace,
        b',' => Symbol::Comma,
        b';' => Symbol::Semicolon,
        b':' => Symbol::Colon,
        b'.' => Symbol::Dot,
        b'=' => Symbol::Equal,
        b'#' => Symbol::Unequal,
        b'<' => Symbol::Less,
        b'>' => Symbol::Greater,
        b'+' => Symbol::Plus,
        b'-' => Symbol::Minus,
        b'|' => Symbol::Or,
        b'^' => Symbol::Xor,
        b'&' => Symbol::And,
        b'~' => Symbol::Not,
        b'!' => Symbol::Times,
        b'@' => Symbol::At,
        _ => Symbol::Stray,
    }
}

/// The symbol of a mark of two bytes.
fn long_mark(first: u8, second: u8) -> Symbol
    ensures { result ≡ long_mark first second }
{
    match (first, second) {
        (b':', b'=') => Symbol::Assign,
        (b'-', b'>') => Symbol::Arrow,
        (b'<', b'=') => Symbol::AtMost,
        (b'>', b'=') => Symbol::AtLeast,
        _ => Symbol::Stray,
    }
}
