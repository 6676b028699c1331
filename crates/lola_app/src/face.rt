ghost use Rattle.std.specs.Prelude.{◌≡◌, ◌++◌, ◌+◌, ◌≤◌, ℕ, List, length, map, string_bytes, IfOk, OnOk, Some, slice_get};
ghost use Rattle.lola_bits.specs.Lists.{IsAt};
ghost use Rattle.lola_elab.specs.Elaborated.{vector_names, vector_widths};
ghost use Rattle.lola_app.specs.Vectors.{bit_names, face_of, interface_in};

use lola_elab::{Design, Vector};
use std::alloc::{AllocError, Global};

/// What a table sees of a design: the name of its root, and its inputs but the clock and its registers
/// that are one bit wide, in text order.
#[derive(Debug, Drop)]
pub struct Face {
    pub root: String,
    pub inputs: Vec<String>,
    pub registers: Vec<String>,
}

/// What a table sees of a design.
pub fn face_of(alloc: Global, design: &Design) -> Result<Face, AllocError>
    ensures { IfOk result (λ face. interface_in face ≡ face_of design.now) }
{
    Ok(Face {
        root: String::from_str(alloc, design.root.as_str())?,
        inputs: bits_of(alloc, design.inputs.as_slice())?,
        registers: bits_of(alloc, design.registers.as_slice())?,
    })
}

/// The names of the vectors of one bit.
fn bits_of(alloc: Global, vectors: &[Vector]) -> Result<Vec<String>, AllocError>
    ensures { IfOk result (λ names. map string_bytes names.items ≡ bit_names vectors.now) }
{
    let mut names = Vec::new(alloc);
    for vector in vectors {
        if vector.width == 1 {
            names.push(String::from_str(alloc, vector.name.as_str())?)?;
        }
    }
    Ok(names)
}

/// The place among all vectors of one of one bit, by its place among those.
pub fn place_of_bit(vectors: &[Vector], bit: usize) -> usize
    ensures named { (name : List ℕ) → IsAt (bit_names vectors.now) bit name → IsAt (vector_names vectors.now) result name }
    ensures bit { (name : List ℕ) → IsAt (bit_names vectors.now) bit name → slice_get (vector_widths vectors.now) result ≡ Some 1 }
{
    let mut left = bit;
    for (place, vector) in vectors.iter().enumerate() {
        if vector.width == 1 {
            if left == 0 {
                return place;
            }
            left -= 1;
        }
    }
    vectors.len()
}
