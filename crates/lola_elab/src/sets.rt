ghost use Rattle.std.specs.Prelude.{◌≡◌, ◌↔◌, ℕ, List, ◌++◌, cond, false, not, ◌||◌, bytes_eq, IfOk, OnOk, IsTrue};
ghost use Rattle.std.specs.BTreeSet.{contains_text};
ghost use Rattle.lola_bits.specs.Names.{is_among};
ghost use Rattle.lola_bits.specs.Lists.{AreDistinct};
ghost use Rattle.lola_elab.specs.Declares.{port_names, const_names, local_names};
ghost use Rattle.lola_elab.specs.Assigned.{target_names};

use lola_tree::{Const, Local, Port, Way};
use std::alloc::{AllocError, Global};
use std::collections::BTreeSet;

/// Adds a name, and says whether it is new.
pub fn add(alloc: Global, names: &mut BTreeSet<String>, name: &str) -> Result<bool, AllocError>
    ensures fresh { IfOk result (λ fresh. fresh ≡ not (contains_text names.old name.now)) }
    ensures added { OnOk result ((q : List ℕ) → contains_text names.new q ≡ (bytes_eq name.now q || contains_text names.old q)) }
{
    let text = String::from_str(alloc, name)?;
    Ok(names.insert(text)?)
}

/// Takes a name out, and says whether it was there.
pub fn take(names: &mut BTreeSet<String>, name: &str) -> bool
    ensures there { result ≡ contains_text names.old name.now }
    ensures taken { (q : List ℕ) → contains_text names.new q ≡ cond (bytes_eq name.now q) false (contains_text names.old q) }
{
    names.remove(name)
}

/// Whether no name is declared twice.
pub fn are_distinct(
    alloc: Global,
    ports: &[Port],
    consts: &[Const],
    locals: &[Local],
) -> Result<bool, AllocError>
    ensures { IfOk result (λ distinct. IsTrue distinct ↔ AreDistinct (port_names ports.now ++ (const_names consts.now ++ local_names locals.now))) }
{
    let mut names = BTreeSet::new(alloc);
    for port in ports {
        if !add(alloc, &mut names, port.name.text())? {
            return Ok(false);
        }
    }
    for constant in consts {
        if !add(alloc, &mut names, constant.name.text())? {
            return Ok(false);
        }
    }
    for local in locals {
        if !add(alloc, &mut names, local.name.text())? {
            return Ok(false);
        }
    }
    Ok(true)
}

/// The names of the OUT ports and of the locals.
pub fn wanted_targets(
    alloc: Global,
    ports: &[Port],
    locals: &[Local],
) -> Result<BTreeSet<String>, AllocError>
    ensures { IfOk result (λ wanted. (q : List ℕ) → contains_text wanted q ≡ is_among (target_names ports.now locals.now) q) }
{
    let mut wanted = BTreeSet::new(alloc);
    for port in ports {
        if port.way == Way::Outward {
            let _fresh = add(alloc, &mut wanted, port.name.text())?;
        }
    }
    for local in locals {
        let _fresh = add(alloc, &mut wanted, local.name.text())?;
    }
    Ok(wanted)
}
