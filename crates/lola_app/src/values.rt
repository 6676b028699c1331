ghost use Rattle.std.specs.Prelude.{◌≡◌, ◌+◌, ◌/◌, ◌%◌, ◌^◌, ◌++◌, ◌<◌, OnOk, map};
ghost use Rattle.lola_app.specs.Values.{hex_digit, hex_digits, value_line, value_lines, line_of};

use std::alloc::AllocError;

/// A number of a valuation under the name that a trace gives it, as `@q`, with its width in bits.
#[derive(Debug, Drop)]
pub struct NamedNumber {
    pub name: String,
    pub width: usize,
    pub value: u32,
}

/// A line for each number of a valuation.
pub fn push_values(text: &mut Vec<u8>, numbers: &[NamedNumber]) -> Result<(), AllocError>
    ensures { OnOk result (text.new.items ≡ text.old.items ++ value_lines (map line_of numbers.now)) }
{
    for named in numbers {
        push_value(text, named)?;
    }
    Ok(())
}

fn push_value(text: &mut Vec<u8>, named: &NamedNumber) -> Result<(), AllocError>
    ensures { OnOk result (text.new.items ≡ text.old.items ++ value_line (line_of named.now)) }
{
    text.extend_from_slice(named.name.as_bytes())?;
    text.extend_from_slice(b"=")?;
    push_digits(text, digits_of(named.width), named.value)?;
    text.extend_from_slice(b"\n")?;
    Ok(())
}

/// How many hexadecimal digits a number of so many bits has.
fn digits_of(width: usize) -> usize
    ensures { result ≡ (width + 3) / 4 }
{
    if width % 4 == 0 {
        width / 4
    } else {
        width / 4 + 1
    }
}

/// So many hexadecimal digits of a number, the highest first.
fn push_digits(text: &mut Vec<u8>, count: usize, value: u32) -> Result<(), AllocError>
    ensures { OnOk result (text.new.items ≡ text.old.items ++ hex_digits count value) }
{
    for left in (0..count).rev() {
        text.push(hex_digit(digit_at(value, left)))?;
    }
    Ok(())
}

/// The hexadecimal digit of a number at a place, from 0 upward.
fn digit_at(value: u32, place: usize) -> u8
    ensures value { result ≡ value / 16 ^ place % 16 }
    ensures below { result < 16 }
{
    let mut rest = value;
    for _below in 0..place {
        rest /= 16;
    }
    (rest % 16) as u8
}

/// The byte of a hexadecimal digit.
fn hex_digit(digit: u8) -> u8
    requires { digit < 16 }
    ensures { result ≡ hex_digit digit }
{
    if digit < 10 {
        b'0' + digit
    } else {
        b'A' - 10 + digit
    }
}
