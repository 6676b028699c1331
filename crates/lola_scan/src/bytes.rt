ghost use Rattle.std.specs.Prelude.{◌≡◌, ◌≤◌, length};
ghost use Rattle.std.specs.List.{prefix_len};
ghost use Rattle.lola_scan.specs.Bytes.{is_blank, is_letter, is_digit};
ghost use Rattle.lola_scan.specs.Front.{is_in};

/// Whether a byte is a blank.
pub fn is_blank(b: u8) -> bool
    ensures { result ≡ is_blank b }
{
    matches!(b, b' ' | b'\t' | b'\n' | b'\r')
}

/// Whether a byte is a letter.
pub fn is_letter(b: u8) -> bool
    ensures { result ≡ is_letter b }
{
    b.is_ascii_alphabetic()
}

/// Whether a byte is a decimal digit.
pub fn is_digit(b: u8) -> bool
    ensures { result ≡ is_digit b }
{
    b.is_ascii_digit()
}

/// A class of bytes that a run can be made of.
#[derive(Clone, Copy)]
pub enum Class {
    /// Letters and digits.
    Word,
    /// `0` to `9` and `A` to `F`.
    Hexadecimal,
    /// `0` to `9`.
    Decimal,
    /// What may stand in a pattern.
    Pattern,
}

/// Whether a byte is of a class.
fn has(class: Class, b: u8) -> bool
    ensures { result ≡ is_in class b }
{
    match class {
        Class::Word => b.is_ascii_alphanumeric(),
        Class::Hexadecimal => matches!(b, b'0'..=b'9' | b'A'..=b'F'),
        Class::Decimal => b.is_ascii_digit(),
        Class::Pattern => matches!(b, b'0' | b'1' | b'-' | b' '),
    }
}

/// How many bytes at the front of a text are of a class.
pub fn run_length(class: Class, text: &[u8]) -> usize
    ensures length { result ≡ prefix_len (is_in class) text.now }
    ensures within { result ≤ length text.now }
{
    for (n, b) in text.iter().enumerate() {
        if !has(class, *b) {
            return n;
        }
    }
    text.len()
}
