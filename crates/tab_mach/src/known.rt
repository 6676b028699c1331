ghost use Rattle.std.specs.Prelude.{◌≡◌, ◌+◌, ◌*◌, ◌^◌, ◌-◌, min, map};
ghost use Rattle.lola_tree.specs.Names.{ref_name};
ghost use Rattle.tab_tree.specs.Table.{state_tree};
ghost use Rattle.tab_tree.specs.Names.{mapped, digits_number, is_digit, are_digits, is_decimal, numbered, bare_name, look};
ghost use Rattle.tab_tree.specs.declared.value.StateValue.TheVariants.{One};
ghost use Rattle.tab_tree.specs.Step.{state_value};
ghost use Rattle.tab_mach.specs.Known.{slot, last_value, value_of, names_of};

use lola_bits::{Bits, Name};
use lola_tree::Ref;
use tab_tree::{StateRow, StateValue};

/// A name with its value, if it has one.
#[derive(Clone, Copy, Drop)]
pub struct Given<'a> {
    pub name: &'a Name,
    pub value: Option<Bits>,
}

/// What a name stands for.
#[derive(Clone, Copy, Drop)]
pub enum Meaning<'a> {
    Vector(Bits),
    Array(&'a [Bits]),
}

/// What the names in an expression stand for: the word, the count, the loaded words and accumulators by
/// the number of their phase, the states, the fields, and the LETs so far.
#[derive(Drop)]
pub struct Known<'a> {
    pub states: &'a [StateRow],
    pub arch: &'a [StateValue],
    pub fields: &'a [Given<'a>],
    pub lets: Vec<Given<'a>>,
    pub word: Bits,
    pub count: Option<Bits>,
    pub loaded: &'a [Option<Bits>],
    pub turned: &'a [Option<Bits>],
}

/// What a reference stands for, if it is in scope. No register is.
pub fn find<'a>(known: &'a Known, of: &Ref) -> Option<Meaning<'a>>
    ensures { mapped value_of result ≡ look (names_of known.now) of.now }
{
    if of.source {
        None
    } else {
        find_bare(known, ref_name(of))
    }
}

/// The name of a reference without path.
fn ref_name(of: &Ref) -> &str
    ensures { result.now ≡ ref_name of.now }
{
    match of.path.items() {
        [name, ..] => name.text(),
        [] => "",
    }
}

/// What a name stands for.
fn find_bare<'a>(known: &'a Known, name: &str) -> Option<Meaning<'a>>
    ensures { mapped value_of result ≡ bare_name (names_of known.now) name.now }
{
    if name == "i" {
        Some(Meaning::Vector(known.word))
    } else if name == "k" {
        vector_of(known.count)
    } else {
        match numbered(b'd', name.as_bytes()) {
            Some(phase) => vector_of(slot(known.loaded, phase)),
            None => match numbered(b't', name.as_bytes()) {
                Some(phase) => vector_of(slot(known.turned, phase)),
                None => find_named(known, name),
            },
        }
    }
}

/// A vector as what a name stands for.
fn vector_of<'a>(value: Option<Bits>) -> Option<Meaning<'a>>
    ensures { mapped value_of result ≡ mapped One value }
{
    match value {
        Some(value) => Some(Meaning::Vector(value)),
        None => None,
    }
}

/// What stands in a place of a list, if anything does.
fn slot(slots: &[Option<Bits>], place: u64) -> Option<Bits>
    ensures { result ≡ slot slots.now place }
{
    match slots.get(place as usize) {
        Some(value) => *value,
        None => None,
    }
}

/// What a state, a field or a LET stands for.
fn find_named<'a>(known: &'a Known, name: &str) -> Option<Meaning<'a>>
    ensures { mapped value_of result ≡ (names_of known.now).named name.now }
{
    let before = match find_state(known.states, known.arch, name) {
        Some(value) => Some(value),
        None => last_given(known.fields, name, None),
    };
    last_given(known.lets.as_slice(), name, before)
}

/// The value of a state by its name.
fn find_state<'a>(states: &[StateRow], arch: &'a [StateValue], name: &str) -> Option<Meaning<'a>>
    ensures { mapped value_of result ≡ state_value (map state_tree states.now) arch.now name.now }
{
    for (place, row) in states.iter().enumerate() {
        match arch.get(place) {
            Some(value) => {
                if row.name.text() == name {
                    return Some(of_state(value));
                }
            }
            None => return None,
        }
    }
    None
}

/// The value of a state as what its name stands for.
fn of_state(value: &StateValue) -> Meaning<'_>
    ensures { value_of result ≡ value.now }
{
    match value {
        StateValue::One { value } => Meaning::Vector(*value),
        StateValue::Many { values } => Meaning::Array(values.items()),
    }
}

/// What the last row with a name stands for, or else what it stood for before.
fn last_given<'a>(
    rows: &[Given<'a>],
    name: &str,
    before: Option<Meaning<'a>>,
) -> Option<Meaning<'a>>
    ensures { mapped value_of result ≡ last_value rows.now name.now (mapped value_of before.entry) }
{
    let mut found = before;
    for row in rows {
        if row.name.text() == name {
            found = vector_of(row.value);
        }
    }
    found
}

/// The number behind a letter, where a name is that letter and a number: the greatest u64 where it is
/// above that.
fn numbered(letter: u8, name: &[u8]) -> Option<u64>
    ensures { result ≡ mapped (λ number. min number (2 ^ 64 - 1)) (numbered letter name.now) }
{
    match name {
        [first, digits @ ..] => {
            if *first == letter && is_decimal(digits) {
                Some(digits_number(digits))
            } else {
                None
            }
        }
        [] => None,
    }
}

/// Whether bytes are a number as it is written: no 0 stands before other digits.
fn is_decimal(bytes: &[u8]) -> bool
    ensures { result ≡ is_decimal bytes.now }
{
    match bytes {
        [first, rest @ ..] => {
            first.is_ascii_digit() && are_digits(rest) && (*first != b'0' || rest.is_empty())
        }
        [] => false,
    }
}

/// Whether all bytes are decimal digits.
fn are_digits(bytes: &[u8]) -> bool
    ensures { result ≡ are_digits bytes.now }
{
    for byte in bytes {
        if !byte.is_ascii_digit() {
            return false;
        }
    }
    true
}

/// The number that decimal digits spell, or the greatest u64 where it is above that.
fn digits_number(digits: &[u8]) -> u64
    ensures { result ≡ min (digits_number digits.now 0) (2 ^ 64 - 1) }
{
    let mut number = 0u64;
    for digit in digits {
        number = with_digit(number, *digit);
    }
    number
}

/// A number with one more digit behind it, or the greatest u64 where that is above it.
fn with_digit(number: u64, digit: u8) -> u64
    ensures { result ≡ min (10 * number + (digit - 48)) (2 ^ 64 - 1) }
{
    number
        .saturating_mul(10)
        .saturating_add(digit.saturating_sub(b'0') as u64)
}
