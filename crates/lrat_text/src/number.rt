ghost use Rattle.std.specs.Prelude.{◌≡◌, ◌<◌, ◌^◌, ◌++◌, ℕ, List, Option, OnOk};
ghost use Rattle.std.specs.Option.{ForSome};
ghost use Rattle.lrat_text.specs.Number.{value_from, next_value, read_number, read_id, read_literal, read_hint, positive, negative};

use itoa::Buffer;
use std::alloc::AllocError;

/// The number with one more digit, where it is one and 64 bits hold it.
fn next_value(value: u64, digit: u8) -> Option<u64>
    ensures { result ≡ next_value value digit }
{
    if digit < b'0' {
        return None;
    }
    if b'9' < digit {
        return None;
    }
    let digit = u64::from(digit - b'0');
    if value < u64::MAX / 10 {
        return Some(value * 10 + digit);
    }
    if value > (u64::MAX - digit) / 10 {
        return None;
    }
    Some(value * 10 + digit)
}

/// The number that digits write, where 64 bits hold it.
fn value_of(digits: &[u8]) -> Option<u64>
    ensures { result ≡ value_from 0 digits.now }
{
    let mut value = 0;
    for &digit in digits {
        match next_value(value, digit) {
            None => return None,
            Some(next) => value = next,
        }
    }
    Some(value)
}

/// The number that an item writes in decimal, without leading zeros.
pub(crate) fn read_number(item: &[u8]) -> Option<u64>
    ensures { result ≡ read_number item.now }
{
    match item {
        [] => None,
        [first, _, ..] if *first == b'0' => None,
        _ => value_of(item),
    }
}

/// The number of an item in the range of ids: from 1 to 2^63 - 1.
fn read_id(item: &[u8]) -> Option<u64>
    ensures { result ≡ read_id item.now }
{
    match read_number(item) {
        None => None,
        Some(number) => {
            if number == 0 {
                None
            } else if number < 0x8000_0000_0000_0000 {
                Some(number)
            } else {
                None
            }
        }
    }
}

/// The number of an item in the range of hints: an id, or one with a minus.
fn read_hint(item: &[u8]) -> Option<i64>
    ensures { result ≡ read_hint item.now }
{
    match item {
        [] => None,
        [first, digits @ ..] => {
            if *first == b'-' {
                negative(read_id(digits))
            } else {
                positive(read_id(item))
            }
        }
    }
}

/// An id with a minus.
fn negative(id: Option<u64>) -> Option<i64>
    requires { ForSome id (λ n. n < 2 ^ 63) }
    ensures { result ≡ negative id }
{
    match id {
        None => None,
        Some(id) => Some(-(id as i64)),
    }
}

/// An id as a hint.
fn positive(id: Option<u64>) -> Option<i64>
    requires { ForSome id (λ n. n < 2 ^ 63) }
    ensures { result ≡ positive id }
{
    match id {
        None => None,
        Some(id) => Some(id as i64),
    }
}

/// The number of an item in the range of literals: at most 2^31 - 1 in size, and not 0.
fn read_literal(item: &[u8]) -> Option<i32>
    ensures { result ≡ read_literal item.now }
{
    match read_hint(item) {
        None => None,
        Some(hint) => {
            if hint.unsigned_abs() < 0x8000_0000 {
                Some(hint as i32)
            } else {
                None
            }
        }
    }
}

/// A number of a text, with what is written of it.
pub(crate) trait Number: Copy + Drop {
    ghost reads: { List ℕ → Option Self };

    ghost text: { Self → List ℕ };

    /// The number of an item.
    fn read(item: &[u8]) -> Option<Self>
        ensures { result ≡ reads item.now };

    /// Appends the number.
    fn push(self, out: &mut Vec<u8>) -> Result<(), AllocError>
        ensures { OnOk result (out.new.items ≡ out.old.items ++ text self) };
}

impl Number for u64 {
    ghost use Rattle.lrat_text.specs.Number.{read_id};
    ghost use Rattle.std.specs.Prelude.{decimal};

    ghost reads = { read_id };

    ghost text = { decimal };

    fn read(item: &[u8]) -> Option<u64> {
        read_id(item)
    }

    fn push(self, out: &mut Vec<u8>) -> Result<(), AllocError> {
        let mut buffer = Buffer::new();
        out.extend_from_slice(buffer.format(self).as_bytes())
    }
}

impl Number for i64 {
    ghost use Rattle.lrat_text.specs.Number.{read_hint};
    ghost use Rattle.std.specs.Fmt.{signed_decimal};

    ghost reads = { read_hint };

    ghost text = { signed_decimal };

    fn read(item: &[u8]) -> Option<i64> {
        read_hint(item)
    }

    fn push(self, out: &mut Vec<u8>) -> Result<(), AllocError> {
        let mut buffer = Buffer::new();
        out.extend_from_slice(buffer.format(self).as_bytes())
    }
}

impl Number for i32 {
    ghost use Rattle.lrat_text.specs.Number.{read_literal};
    ghost use Rattle.std.specs.Fmt.{signed_decimal};

    ghost reads = { read_literal };

    ghost text = { signed_decimal };

    fn read(item: &[u8]) -> Option<i32> {
        read_literal(item)
    }

    fn push(self, out: &mut Vec<u8>) -> Result<(), AllocError> {
        let mut buffer = Buffer::new();
        out.extend_from_slice(buffer.format(self).as_bytes())
    }
}
