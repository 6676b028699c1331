ghost use Rattle.std.specs.Prelude.{◌≡◌, ◌++◌, ℕ, List, map, IfOk, OnOk, Some, slice_get};
ghost use Rattle.lola_bits.specs.Lists.{IsAt};
ghost use Rattle.lola_elab.specs.Elaborated.{vector_names, vector_widths, leaf_widths};
ghost use Rattle.lola_app.specs.Vectors.{bit_names};

use crate::claim::Claim;
use crate::face::place_of_bit;
use lola_elab::{Design, Vector};
use std::alloc::{AllocError, Global};

/// A design, what a table claims of it, and what trying that takes.
#[derive(Drop)]
pub struct Subject {
    pub design: Design,
    pub claim: Claim,
    /// The place of RESET among the inputs.
    pub reset: usize,
    /// The widths in bits of the inputs and of the registers, in text order.
    pub widths: Vec<usize>,
}

/// A design with what a table claims of it.
pub fn subject_of(alloc: Global, design: Design, claim: Claim) -> Result<Subject, AllocError>
    ensures same { IfOk result (λ subject. (subject.design ≡ design) × (subject.claim ≡ claim)) }
    ensures widths { IfOk result (λ subject. subject.widths.items ≡ leaf_widths design) }
    ensures named { IfOk result (λ subject. (name : List ℕ) → IsAt (bit_names design.inputs.items) claim.reset name → IsAt (vector_names design.inputs.items) subject.reset name) }
    ensures bit { IfOk result (λ subject. (name : List ℕ) → IsAt (bit_names design.inputs.items) claim.reset name → slice_get (vector_widths design.inputs.items) subject.reset ≡ Some 1) }
{
    let mut widths = Vec::new(alloc);
    add_widths(&mut widths, design.inputs.as_slice())?;
    add_widths(&mut widths, design.registers.as_slice())?;
    let reset = place_of_bit(design.inputs.as_slice(), claim.reset);
    Ok(Subject {
        design,
        claim,
        reset,
        widths,
    })
}

/// Adds the widths of vectors.
pub fn add_widths(widths: &mut Vec<usize>, vectors: &[Vector]) -> Result<(), AllocError>
    ensures { OnOk result (widths.new.items ≡ widths.old.items ++ vector_widths vectors.now) }
{
    for vector in vectors {
        widths.push(vector.width)?;
    }
    Ok(())
}
