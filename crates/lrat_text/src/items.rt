ghost use Rattle.std.specs.Prelude.{◌≡◌, ◌≢◌, ◌<◌, ℕ, List, ◌∷◌, [], length};
ghost use Rattle.std.specs.Option.{IfSome, IfNone, option_map};
ghost use Rattle.lrat_text.specs.Cut.{items_of, items_in};

use crate::cut::cut;

/// The first item of a line, and what stands behind its blank, if there is one.
#[inline(always)]
pub(crate) fn first_item(line: &[u8]) -> (&[u8], Option<&[u8]>)
    ensures items { items_of line.now ≡ result.0.now ∷ items_in (option_map (λ r. r.now) result.1) }
    ensures shorter { IfSome result.1 (λ rest. length rest.now < length line.now) }
{
    match cut(line, b' ') {
        None => (line, None),
        Some((item, rest)) => (item, Some(rest)),
    }
}

/// The item of what stands behind a blank, if it is one alone.
pub(crate) fn one_item(rest: Option<&[u8]>) -> Option<&[u8]>
    ensures one { IfSome result (λ item. items_in (option_map (λ r. r.now) rest.entry) ≡ item.now ∷ []) }
    ensures other { IfNone result ((item : List ℕ) → items_in (option_map (λ r. r.now) rest.entry) ≢ item ∷ []) }
{
    match rest {
        None => None,
        Some(line) => match cut(line, b' ') {
            None => Some(line),
            Some(_) => None,
        },
    }
}
