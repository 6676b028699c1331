ghost use Rattle.std.specs.Prelude.{◌≡◌, ◌≤◌, ◌+◌, ◌*◌, length, true, not, position, option_map};
ghost use Rattle.std.specs.List.{list_all};
ghost use Rattle.lola_scan.specs.Bytes.{is_digit, is_hex_digit, digit_value, number_of};
ghost use Rattle.lola_scan.specs.Piece.{base_text, wrong_digit, width_text, IsWidth};
ghost use Rattle.lola_scan.specs.Front.{base_of, limited, begins_with, width_of, IsRunValue, IsWidthValue, IsNumberKind};

use crate::bytes::{Class, run_length};
use crate::token::{ScanError, TokenKind};

/// The value of a number's run of digits.
#[derive(Clone, Copy)]
enum RunValue {
    Number(u128),
    TooLarge,
    /// The run is decimal, and the digit at this place isn't.
    WrongDigit(usize),
}

/// The width of a number.
#[derive(Clone, Copy)]
enum WidthValue {
    NoWidth,
    Number(u128),
    TooLarge,
    /// A `'` with no digit behind it.
    Bare,
}

/// The value of a hexadecimal digit.
fn digit_of(b: u8) -> u8
    requires { is_hex_digit b ≡ true }
    ensures { result ≡ digit_value b }
{
    if b.is_ascii_digit() {
        b - b'0'
    } else {
        b - b'A' + 10
    }
}

/// A number with one more digit behind it, if it is below 2 to 128.
fn with_digit(base: u128, value: u128, digit: u8) -> Option<u128>
    requires { is_hex_digit digit ≡ true }
    ensures { result ≡ limited (base * value + digit_value digit) }
{
    value
        .checked_mul(base)?
        .checked_add(u128::from(digit_of(digit)))
}

/// The number that digits spell to a base, if it is below 2 to 128.
#[tactic(auto, using(crate::proofs::Digits::stays_large, crate::proofs::Digits::ends_small))]
fn value_of(base: u128, digits: &[u8]) -> Option<u128>
    requires base { 1 ≤ base }
    requires digits { list_all is_hex_digit digits.now ≡ true }
    ensures { result ≡ limited (number_of base digits.now) }
{
    let mut value: u128 = 0;
    for digit in digits {
        match with_digit(base, value, *digit) {
            Some(more) => value = more,
            None => return None,
        }
    }
    Some(value)
}

/// The first place where no decimal digit stands.
fn first_wrong(run: &[u8]) -> Option<usize>
    ensures { result ≡ position (λ b. not (is_digit b)) run.now }
{
    run.iter().position(|b| !b.is_ascii_digit())
}

/// The first place of a run where a digit stands that its base lacks.
fn wrong_place(run: &[u8], hexadecimal: bool) -> Option<usize>
    ensures { result ≡ wrong_digit run.now hexadecimal }
{
    if hexadecimal { None } else { first_wrong(run) }
}

/// The base that a number's digits are read to.
fn base_of(hexadecimal: bool) -> u128
    ensures { result ≡ base_of hexadecimal }
{
    if hexadecimal { 16 } else { 10 }
}

/// The value of a run.
#[tactic(auto, using(crate::proofs::RunValues::value_wrong, crate::proofs::RunValues::value_large, crate::proofs::RunValues::value_small))]
fn run_value(run: &[u8], hexadecimal: bool) -> RunValue
    requires { list_all is_hex_digit run.now ≡ true }
    ensures { IsRunValue run.now hexadecimal result }
{
    match wrong_place(run, hexadecimal) {
        Some(place) => RunValue::WrongDigit(place),
        None => match value_of(base_of(hexadecimal), run) {
            Some(value) => RunValue::Number(value),
            None => RunValue::TooLarge,
        },
    }
}

/// The value of the digits behind a `'`.
#[tactic(auto, using(crate::proofs::RunValues::digits_are_hex, crate::proofs::RunValues::width_small, crate::proofs::RunValues::width_large))]
fn width_of_digits(digits: &[u8]) -> WidthValue
    requires { list_all is_digit digits.now ≡ true }
    ensures { IsWidthValue (Some digits.now) result }
{
    if digits.is_empty() {
        return WidthValue::Bare;
    }
    match value_of(10, digits) {
        Some(value) => WidthValue::Number(value),
        None => WidthValue::TooLarge,
    }
}

/// The value of a width.
fn width_value(width: Option<&[u8]>) -> WidthValue
    requires { IsWidth (option_map (λ digits. digits.now) width) }
    ensures { IsWidthValue (option_map (λ digits. digits.now) width.entry) result }
{
    match width {
        Some(digits) => width_of_digits(digits),
        None => WidthValue::NoWidth,
    }
}

/// Whether an `H` stands here.
pub fn is_hexadecimal(text: &[u8]) -> bool
    ensures { result ≡ begins_with 72 text.now }
{
    match text {
        [b'H', ..] => true,
        _ => false,
    }
}

/// How many bytes the `H` of a number takes.
pub fn base_length(hexadecimal: bool) -> usize
    ensures { result ≡ length (base_text hexadecimal) }
{
    usize::from(hexadecimal)
}

/// The digits behind the `'` that stands here, if one does.
pub fn width_digits(text: &[u8]) -> Option<&[u8]>
    ensures { option_map (λ digits. digits.now) result ≡ width_of text.now }
{
    match text {
        [b'\'', behind @ ..] => {
            let (digits, _) = behind.split_at(run_length(Class::Decimal, behind));
            Some(digits)
        }
        _ => None,
    }
}

/// How many bytes a width takes, with its `'`.
pub fn width_length(width: Option<&[u8]>) -> usize
    ensures { result ≡ length (width_text (option_map (λ digits. digits.now) width.entry)) }
{
    match width {
        Some(digits) => 1 + digits.len(),
        None => 0,
    }
}

/// The kind of a number's token, or the number's fault.
pub fn number_kind(
    at: usize,
    run: &[u8],
    hexadecimal: bool,
    width: Option<&[u8]>,
) -> Result<TokenKind, ScanError>
    requires bound { at + length run.now ≤ 1048576 }
    requires digits { list_all is_hex_digit run.now ≡ true }
    requires width { IsWidth (option_map (λ digits. digits.now) width) }
    ensures { IsNumberKind at run.now hexadecimal (option_map (λ digits. digits.now) width.entry) result }
{
    match (run_value(run, hexadecimal), width_value(width)) {
        (RunValue::TooLarge, _) | (_, WidthValue::TooLarge) => Err(ScanError::NumberTooLarge {
            at: at as u32,
        }),
        (RunValue::WrongDigit(place), _) => Err(ScanError::BadByte {
            at: (at + place) as u32,
        }),
        (RunValue::Number(_), WidthValue::Bare) => {
            Err(ScanError::BadByte {
                at: (at + run.len() + base_length(hexadecimal)) as u32,
            })
        }
        (RunValue::Number(value), WidthValue::NoWidth) => Ok(TokenKind::Number {
            value,
            width: None,
        }),
        (RunValue::Number(value), WidthValue::Number(width)) => Ok(TokenKind::Number {
            value,
            width: Some(width),
        }),
    }
}
