ghost use Rattle.std.specs.Prelude.{◌≡◌, ◌++◌, List, IfOk, OnOk};
ghost use Rattle.std.specs.Option.{option_map};
ghost use Rattle.std.specs.List.{flat_map};
ghost use Rattle.lrat_text.specs.Parse.{numbers};
ghost use Rattle.lrat_text.specs.Lists.{blank_before};
ghost use Rattle.lrat_text.specs.Cut.{items_of, items_in};

use crate::items::first_item;
use crate::number::Number;
use lola_bits::Memory;
use std::alloc::{AllocError, Global};

/// For how many numbers room is made at first.
const ROOM: usize = 16;

/// The numbers of a line up to the item 0, and what stands behind it.
pub(crate) fn numbers<'a, N: Number>(
    alloc: Global,
    line: &'a [u8],
) -> Result<Option<(Vec<N>, Option<&'a [u8]>)>, Memory>
    ensures { IfOk result (λ found. option_map (λ p. (p.0.items, items_in (option_map (λ r. r.now) p.1))) found ≡ numbers N.reads (items_of line.now)) }
{
    let mut found: Vec<N> = match Vec::with_capacity(alloc, ROOM) {
        Ok(found) => found,
        Err(_) => return Err(Memory),
    };
    let mut rest = line;
    loop {
        let (item, behind) = first_item(rest);
        if item == b"0".as_slice() {
            return Ok(Some((found, behind)));
        }
        match N::read(item) {
            None => return Ok(None),
            Some(number) => match found.push(number) {
                Ok(()) => {}
                Err(_) => return Err(Memory),
            },
        }
        match behind {
            None => return Ok(None),
            Some(later) => rest = later,
        }
    }
}

/// Appends numbers, each with a blank before it.
pub(crate) fn push_numbers<N: Number>(out: &mut Vec<u8>, numbers: &[N]) -> Result<(), AllocError>
    ensures { OnOk result (out.new.items ≡ out.old.items ++ flat_map (λ n. blank_before (N.text n)) numbers.now) }
{
    for &number in numbers {
        out.push(b' ')?;
        number.push(out)?;
    }
    Ok(())
}
