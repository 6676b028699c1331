ghost use Rattle.std.specs.Prelude.{◌≡◌, ◌∷◌, []};
ghost use Rattle.lola_scan.specs.Piece.{is_mark};
ghost use Rattle.lola_scan.specs.Front.{mark_length};

/// Whether a byte is a mark.
fn is_mark_byte(b: u8) -> bool
    ensures { result ≡ is_mark (b ∷ []) }
{
    b"()[]{},;:.=#<>+-|^&~!@".contains(&b)
}

/// Whether two bytes are one mark.
fn is_mark_pair(first: u8, second: u8) -> bool
    ensures { result ≡ is_mark (first ∷ second ∷ []) }
{
    match first {
        b':' | b'<' | b'>' => second == b'=',
        b'-' => second == b'>',
        _ => false,
    }
}

/// The length of the longest mark at the front of a text.
pub fn mark_length(text: &[u8]) -> Option<usize>
    ensures { result ≡ mark_length text.now }
{
    match text {
        [first, second, ..] if is_mark_pair(*first, *second) => Some(2),
        [first, ..] if is_mark_byte(*first) => Some(1),
        _ => None,
    }
}
