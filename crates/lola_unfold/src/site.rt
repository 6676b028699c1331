ghost use Rattle.std.specs.Prelude.{◌≡◌, ◌++◌, ◌∷◌, [], IfOk, map};
ghost use Rattle.lola_tree.specs.Tree.{actual_tree};
ghost use Rattle.lola_unfold.specs.Slots.{base_inside};
ghost use Rattle.lola_unfold.specs.Tables.{pads_found, no_pads, pads_with_all, passed_numbers, pad_number};
ghost use Rattle.lola_unfold.specs.Parts.{path_in};

use crate::pads::{Pads, passed_pads};
use crate::part::Part;
use crate::slots::{Base, Slot, base_inside};
use lola_bits::{Memory, Name, Seq};
use lola_tree::Actual;
use smallvec::SmallVec;
use std::alloc::Global;

/// Where a module stands in a design: where its signals are, its path, and the pads of its INOUT ports.
#[derive(Drop)]
pub(crate) struct Site<'a, 't> {
    pub(crate) base: Base<'t>,
    pub(crate) path: SmallVec<&'a str, 8>,
    pub(crate) pads: Pads,
}

/// A path with one more name.
fn extended<'a>(
    alloc: Global,
    path: &[&'a str],
    name: &'a str,
) -> Result<SmallVec<&'a str, 8>, Memory>
    ensures { IfOk result (λ made. path_in made.items ≡ path_in path.now ++ name.now ∷ []) }
{
    let mut made = SmallVec::from_slice(alloc, path)?;
    match made.push(name) {
        Ok(()) => Ok(made),
        Err(_) => Err(Memory),
    }
}

/// The path of a name of a module that stands at a path.
pub(crate) fn path_of(alloc: Global, path: &[&str], name: &Name) -> Result<Seq<Name>, Memory>
    ensures { IfOk result (λ made. made ≡ path_in path.now ++ name.now ∷ []) }
{
    let mut made = Seq::new(alloc);
    for part in path {
        made.push(Name::new(alloc, part)?)?;
    }
    made.push(Name::new(alloc, name.text())?)?;
    Ok(made)
}

/// Where an instance stands that a module at a place has under a name with a slot.
pub(crate) fn site_inside<'a, 't>(
    alloc: Global,
    site: &Site<'a, 't>,
    name: &'a str,
    slot: Slot,
    at: usize,
    part: &Part,
    args: &[Actual],
) -> Result<Site<'a, 't>, Memory>
    ensures base { IfOk result (λ made. made.base ≡ base_inside site.now.base slot at) }
    ensures path { IfOk result (λ made. path_in made.path.items ≡ path_in site.now.path.items ++ name.now ∷ []) }
    ensures pads { IfOk result (λ made. pads_found made.pads ≡ pads_with_all no_pads (passed_numbers (pad_number site.now.pads) part.now.declared.now.ports (map actual_tree args.now))) }
    ensures none { IfOk result (λ made. made.pads.none ≡ site.now.pads.none) }
{
    let path = extended(alloc, site.path.as_slice(), name)?;
    let pads = passed_pads(alloc, &site.pads, part.declared.ports.items(), args)?;
    Ok(Site {
        base: base_inside(site.base, slot, at),
        path,
        pads,
    })
}
