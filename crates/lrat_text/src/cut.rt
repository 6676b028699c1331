ghost use Rattle.std.specs.Prelude.{◌≡◌, ℕ, List};
ghost use Rattle.std.specs.Option.{option_map};
ghost use Rattle.lrat_text.specs.Cut.{cut};

/// What stands before the first such byte, and what stands behind it.
pub(crate) fn cut(bytes: &[u8], byte: u8) -> Option<(&[u8], &[u8])>
    ensures { option_map (λ p. (p.0.now, p.1.now)) result ≡ cut byte bytes.now }
{
    for (at, &other) in bytes.iter().enumerate() {
        if other == byte {
            let (front, rest) = bytes.split_at(at);
            let (_, behind) = rest.split_at(1);
            return Some((front, behind));
        }
    }
    None
}
