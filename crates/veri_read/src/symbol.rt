ghost use Rattle.std.specs.Prelude.{◌≡◌};
ghost use Rattle.veri_read.specs.Tokens.{word_symbol, statement_word};

/// What a token is to the grammar.
#[derive(Clone, Copy)]
pub enum Symbol {
    Module,
    EndModule,
    Input,
    Output,
    Inout,
    Wire,
    Reg,
    Assign,
    Always,
    Posedge,
    Begin,
    End,
    /// A name that is none of the words.
    Name,
    /// `1'b0`
    Low,
    /// `1'b1`
    High,
    /// `1'bz`
    Floating,
    OpenParen,
    CloseParen,
    Comma,
    Semicolon,
    Equal,
    And,
    Question,
    Colon,
    Not,
    At,
    /// `<=`
    Arrow,
    /// A byte that begins no token.
    Stray,
    /// No token: the text ends here.
    Nothing,
}

/// The symbol of a run of letters, digits and `_`: its own where it is one of the words, else that of a name.
pub(crate) fn word_symbol(word: &[u8]) -> Symbol
    ensures { result ≡ word_symbol word.now }
{
    if word == b"module".as_slice() {
        Symbol::Module
    } else if word == b"endmodule".as_slice() {
        Symbol::EndModule
    } else if word == b"input".as_slice() {
        Symbol::Input
    } else if word == b"output".as_slice() {
        Symbol::Output
    } else if word == b"inout".as_slice() {
        Symbol::Inout
    } else if word == b"wire".as_slice() {
        Symbol::Wire
    } else if word == b"reg".as_slice() {
        Symbol::Reg
    } else {
        statement_word(word)
    }
}

/// The symbol of a word of statements, else that of a name.
fn statement_word(word: &[u8]) -> Symbol
    ensures { result ≡ statement_word word.now }
{
    if word == b"assign".as_slice() {
        Symbol::Assign
    } else if word == b"always".as_slice() {
        Symbol::Always
    } else if word == b"posedge".as_slice() {
        Symbol::Posedge
    } else if word == b"begin".as_slice() {
        Symbol::Begin
    } else if word == b"end".as_slice() {
        Symbol::End
    } else {
        Symbol::Name
    }
}
