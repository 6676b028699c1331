ghost use Rattle.std.specs.Prelude.{◌≡◌, Err, IfOk};
ghost use Rattle.lola_tree.specs.Tree.{module_tree, source_tree};
ghost use Rattle.lola_elab.specs.Elaborated.{Elaborates};
ghost use Rattle.lola_elab.specs.Modules.{one_module};
ghost use Rattle.lola_elab.specs.Small.{IsSmallModule, IsSmallSource};

use crate::assigned::nexts_of;
use crate::fault::ElabError;
use crate::flat::Flat;
use crate::signals::{Signals, signals_of};
use crate::table::targets_of;
use crate::vector::Vector;
use lola_tree::{Module, Source};
use std::alloc::Global;

/// A design of vectors: each register's value after a clock edge, over the inputs and the registers.
#[derive(Drop)]
pub struct Design {
    /// The name of its module.
    pub root: String,
    /// The IN ports but the clock, in text order.
    pub inputs: Vec<Vector>,
    /// The registers, in text order.
    pub registers: Vec<Vector>,
    /// The value of each register after the clock edge, in its width. Leaf n is input n, or else
    /// register n less the number of inputs.
    pub nexts: Vec<Flat>,
}

/// The design that a source says. NotBuilt where the source isn't a well formed design of one module
/// of constants and of IN and OUT ports and registers that are vectors of 1 to 128 bits, at most 65,536 in
/// all, whose values are over IN ports but the clock, registers and constants. Memory where there isn't
/// enough for the design.
pub fn read_design(alloc: Global, source: &Source) -> Result<Design, ElabError>
    ensures ok { IfOk result (λ design. Elaborates (source_tree source.now) design) }
    ensures none { result ≡ Err ElabError.NotBuilt → IsSmallSource (source_tree source.now) → ⊥ }
{
    match source.modules.items() {
        [root] => read_module(alloc, root),
        _ => Err(ElabError::NotBuilt),
    }
}

/// The same of the one module of a source.
fn read_module(alloc: Global, root: &Module) -> Result<Design, ElabError>
    ensures ok { IfOk result (λ design. Elaborates (one_module (module_tree root.now)) design) }
    ensures none { result ≡ Err ElabError.NotBuilt → IsSmallModule (module_tree root.now) → ⊥ }
{
    let Signals {
        inputs,
        registers,
        names,
    } = match signals_of(alloc, root) {
        Ok(signals) => signals,
        Err(fault) => return Err(fault),
    };
    let targets = targets_of(alloc, root.ports.items(), registers.as_slice(), &names)?;
    let nexts = match nexts_of(alloc, root, registers.as_slice(), &names, &targets) {
        Ok(nexts) => nexts,
        Err(fault) => return Err(fault),
    };
    Ok(Design {
        root: String::from_str(alloc, root.name.text())?,
        inputs,
        registers,
        nexts,
    })
}
