ghost use Rattle.std.specs.Prelude.{◌≡◌, ◌+◌, ◌≤◌, ℕ, List, if◌then◌else◌, map, length, bytes_eq, Some, None, Err, IfOk, OnOk};
ghost use Rattle.std.specs.List.{AllByRecursion};
ghost use Rattle.std.specs.BTreeMap.{get_by_text};
ghost use Rattle.lola_elab.specs.Small.{IsSmallConst};
ghost use Rattle.lola_elab.specs.Declares.{sized, wide_of, outputs, const_entry};
ghost use Rattle.lola_elab.specs.Tables.{updated, leaf_entries};

use crate::fault::ElabError;
use crate::meaning::{Meaning, number_width};
use crate::ports::width_or_zero;
use crate::vector::Vector;
use lola_tree::{Const, Port, Way};
use std::alloc::{AllocError, Global};
use std::collections::BTreeMap;

/// Lets a name stand for something.
pub fn enter<T: Drop>(
    alloc: Global,
    names: &mut BTreeMap<String, T>,
    name: &str,
    item: T,
) -> Result<(), AllocError>
    ensures { OnOk result ((q : List ℕ) → get_by_text names.new q ≡ (if bytes_eq name.now q then Some item else get_by_text names.old q)) }
{
    let text = String::from_str(alloc, name)?;
    names.insert(text, item)?;
    Ok(())
}

/// The constants of a module by name. NotBuilt where one isn't below 2 to its width.
pub fn constants_of(alloc: Global, consts: &[Const]) -> Result<BTreeMap<String, Meaning>, ElabError>
    ensures fit { IfOk result (λ names. AllByRecursion IsSmallConst consts.now) }
    ensures entered { IfOk result (λ names. (q : List ℕ) → get_by_text names q ≡ updated (map const_entry consts.now) q None) }
    ensures none { result ≡ Err ElabError.NotBuilt → AllByRecursion IsSmallConst consts.now → ⊥ }
{
    let mut names = BTreeMap::new(alloc);
    for constant in consts {
        let value = constant.value;
        let Some(width) = number_width(value, constant.width) else {
            return Err(ElabError::NotBuilt);
        };
        enter(
            alloc,
            &mut names,
            constant.name.text(),
            Meaning::Constant { width, value },
        )?;
    }
    Ok(names)
}

/// Lets the names of vectors stand for leaves, numbered from one on.
pub fn add_leaves(
    alloc: Global,
    names: &mut BTreeMap<String, Meaning>,
    from: usize,
    vectors: &[Vector],
) -> Result<(), AllocError>
    requires { from + length vectors.now ≤ 65536 }
    ensures { OnOk result ((q : List ℕ) → get_by_text names.new q ≡ updated (leaf_entries from (map sized vectors.now)) q (get_by_text names.old q)) }
{
    for (place, vector) in vectors.iter().enumerate() {
        let number = from + place;
        let width = vector.width;
        enter(
            alloc,
            names,
            vector.name.as_str(),
            Meaning::Leaf { number, width },
        )?;
    }
    Ok(())
}

/// The widths of the OUT ports and of the registers, by name.
pub fn targets_of(
    alloc: Global,
    ports: &[Port],
    registers: &[Vector],
    names: &BTreeMap<String, Meaning>,
) -> Result<BTreeMap<String, usize>, AllocError>
    ensures { IfOk result (λ targets. (q : List ℕ) → get_by_text targets q ≡ updated (map sized registers.now) q (updated (outputs (wide_of (get_by_text names.now)) ports.now) q None)) }
{
    let mut targets = BTreeMap::new(alloc);
    for port in ports {
        if port.way == Way::Outward {
            let width = width_or_zero(&port.shape, names);
            enter(alloc, &mut targets, port.name.text(), width)?;
        }
    }
    for register in registers {
        enter(alloc, &mut targets, register.name.as_str(), register.width)?;
    }
    Ok(targets)
}
