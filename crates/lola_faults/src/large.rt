// A module with as many names as a design may have signals.
use crate::answer::answer;
use std::test::Fail;

const LETTERS: &[u8; 26] = b"abcdefghijklmnopqrstuvwxyz";

const SIGNS: &[u8; 62] = b"0123456789ABCDEFGHIJKLMNOPQRSTUVWXYZabcdefghijklmnopqrstuvwxyz";

/// Adds the name of a number below 99,944, which has three signs and is never a reserved word.
fn push_name(text: &mut Vec<u8>, number: usize) -> Result<(), Fail> {
    text.push(LETTERS[number / 3844 % 26])?;
    text.push(SIGNS[number / 62 % 62])?;
    text.push(SIGNS[number % 62])?;
    Ok(())
}

/// Adds the names of the numbers from 3 on, a comma before each.
fn push_declared(text: &mut Vec<u8>, names: usize) -> Result<(), Fail> {
    for number in 3..names {
        text.extend_from_slice(b",")?;
        push_name(text, number)?;
    }
    Ok(())
}

/// Adds an assignment of each name of the numbers from 2 on: what stands two names before it.
fn push_assigned(text: &mut Vec<u8>, names: usize) -> Result<(), Fail> {
    for number in 2..names {
        push_name(text, number)?;
        text.extend_from_slice(b":=")?;
        push_name(text, number - 2)?;
        text.extend_from_slice(b";")?;
    }
    Ok(())
}

/// Each name but the first, which is an IN port, is assigned once, and each is used. `rt try` takes about a
/// minute for this and needs `--seconds 200`.
#[test]
fn a_module_of_65536_names(rt: HostRuntime) -> Result<(), Fail> {
    let mut text = Vec::new(rt.alloc());
    text.extend_from_slice(b"MODULE Large(IN ")?;
    push_name(&mut text, 0)?;
    text.extend_from_slice(b": BIT; OUT ")?;
    push_name(&mut text, 1)?;
    text.extend_from_slice(b": BIT); VAR ")?;
    push_name(&mut text, 2)?;
    push_declared(&mut text, 65_536)?;
    text.extend_from_slice(b": BIT; BEGIN ")?;
    push_assigned(&mut text, 65_536)?;
    push_name(&mut text, 1)?;
    text.extend_from_slice(b":=")?;
    push_name(&mut text, 65_534)?;
    text.extend_from_slice(b"&")?;
    push_name(&mut text, 65_535)?;
    text.extend_from_slice(b" END Large.")?;
    let found = answer(rt.alloc(), text.as_slice())?;
    assert_eq!(rt; found.as_str(), "well sized");
    Ok(())
}
