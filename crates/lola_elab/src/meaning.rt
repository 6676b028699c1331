ghost use Rattle.std.specs.Prelude.{◌≡◌, Some, None, Option, MatchOption};
ghost use Rattle.std.specs.BTreeMap.{get_by_text};
ghost use Rattle.lola_tree.specs.Width.{number_width};
ghost use Rattle.lola_elab.specs.Meanings.{path_meaning, meaning_of, constant_of, count_of};

use lola_bits::{Name, fits};
use lola_tree::{Count, Ref};
use std::collections::BTreeMap;

/// What a name in an expression stands for: a vector by its number among the leaves, or a number. Both
/// have a width of 1 to 128 bits.
#[derive(Clone, Copy, Debug, PartialEq, Eq)]
pub enum Meaning {
    Leaf { number: usize, width: usize },
    Constant { width: usize, value: u128 },
}

/// The width that a number is written in, 1 where none is written. None where it is no width or the
/// number isn't below 2 to it.
pub fn number_width(value: u128, written: Option<u128>) -> Option<usize>
    ensures { result ≡ number_width value written }
{
    let width = match written {
        Some(width) => width,
        None => 1,
    };
    if width > 128 {
        return None;
    }
    let width = width as u32;
    if fits(width, value) {
        Some(width as usize)
    } else {
        None
    }
}

/// What a name stands for.
fn named(name: &str, names: &BTreeMap<String, Meaning>) -> Option<Meaning>
    ensures { result ≡ get_by_text names.now name.now }
{
    names.get(name).copied()
}

/// What a path stands for. One of several names leads into an instance, and stands for nothing here.
fn path_meaning(path: &[Name], names: &BTreeMap<String, Meaning>) -> Option<Meaning>
    ensures { result ≡ path_meaning (get_by_text names.now) path.now }
{
    match path {
        [name] => named(name.text(), names),
        _ => None,
    }
}

/// What a reference stands for.
pub fn meaning_of(of: &Ref, names: &BTreeMap<String, Meaning>) -> Option<Meaning>
    ensures { result ≡ meaning_of (get_by_text names.now) of.now }
{
    if of.source {
        None
    } else {
        path_meaning(of.path.items(), names)
    }
}

/// The number of a constant.
fn constant_of(meaning: Option<Meaning>) -> Option<u128>
    ensures { result ≡ constant_of meaning }
{
    match meaning {
        Some(Meaning::Constant { width: _, value }) => Some(value),
        _ => None,
    }
}

/// The number of a count. None where its name is no constant.
pub fn count_of(count: &Count, names: &BTreeMap<String, Meaning>) -> Option<u128>
    ensures { result ≡ count_of (get_by_text names.now) count.now }
{
    match count {
        Count::Fixed { value, at: _ } => Some(*value),
        Count::Const { name } => constant_of(named(name.name.text(), names)),
    }
}
