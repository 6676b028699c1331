ghost use Rattle.std.specs.Prelude.{◌≡◌, ◌++◌, OnOk, codes, decimal};

use itoa::Buffer;
use std::alloc::AllocError;

/// A number in decimal digits behind what is said of it.
pub fn push_number(text: &mut Vec<u8>, said: &[u8], number: usize) -> Result<(), AllocError>
    ensures { OnOk result (text.new.items ≡ text.old.items ++ (said.now ++ decimal number)) }
{
    let mut buffer = Buffer::new();
    text.extend_from_slice(said)?;
    text.extend_from_slice(buffer.format(number).as_bytes())?;
    Ok(())
}

/// A line of a word behind what is said of it.
pub fn push_worded(text: &mut Vec<u8>, said: &[u8], word: &str) -> Result<(), AllocError>
    ensures { OnOk result (text.new.items ≡ text.old.items ++ (said.now ++ (word.now ++ codes "\n"))) }
{
    text.extend_from_slice(said)?;
    text.extend_from_slice(word.as_bytes())?;
    text.extend_from_slice(b"\n")?;
    Ok(())
}
