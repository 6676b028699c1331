ghost use Rattle.std.specs.Prelude.{◌≡◌, Some, IfSome};
ghost use Rattle.lrat_check.specs.Keys.{Rises, key_of};

/// An id and the key of its slot.
#[derive(Clone, Copy, Debug, PartialEq, Eq)]
pub struct Entry {
    pub id: u64,
    pub key: usize,
}

/// The key of an id. It is looked for where it stands if no id before it is missing, then where it stands if none
/// behind it is, and else by halves.
#[inline(always)]
pub(crate) fn key_of(entries: &[Entry], last: u64, id: u64) -> Option<usize>
    requires rises { Rises 0 entries.now last }
    ensures { result ≡ key_of entries.now id }
{
    match key_at(entries, last, id.saturating_sub(1) as usize, id) {
        Some(key) => return Some(key),
        None => {}
    }
    let distance = last.saturating_sub(id) as usize;
    let place = entries.len().saturating_sub(distance).saturating_sub(1);
    match key_at(entries, last, place, id) {
        Some(key) => return Some(key),
        None => {}
    }
    search(entries, 0, last, id)
}

/// The key of an id, if it stands at this place.
#[inline(always)]
fn key_at(entries: &[Entry], last: u64, place: usize, id: u64) -> Option<usize>
    requires rises { Rises 0 entries.now last }
    ensures { IfSome result (λ key. Some key ≡ key_of entries.now id) }
{
    if place < entries.len() {
        let entry = entries[place];
        if entry.id == id {
            return Some(entry.key);
        }
    }
    None
}

/// The key of an id, looked for by halves among ids that rise from above `low` up to `high`.
fn search(entries: &[Entry], low: u64, high: u64, id: u64) -> Option<usize>
    requires rises { Rises low entries.now high }
    ensures { result ≡ key_of entries.now id }
{
    let (front, behind) = entries.split_at(entries.len() / 2);
    match behind {
        [] => None,
        [entry, later @ ..] => {
            if entry.id == id {
                Some(entry.key)
            } else if id < entry.id {
                search(front, low, entry.id, id)
            } else {
                search(later, entry.id, high, id)
            }
        }
    }
}
