ghost use Rattle.std.specs.Prelude.{◌≡◌, ◌+◌, ◌≤◌, [], ◌∷◌, ◌++◌, length, map, string_bytes, IfOk, OnOk};
ghost use Rattle.lola_elab.specs.Leaves.{leaves_from, shown};
ghost use Rattle.lola_app.specs.Scoping.{HasRegisters, HasClassNames, state_entries};

use crate::face::Face;
use crate::states::Shown;
use lola_elab::{Entry, Reading, Scope};
use std::alloc::{AllocError, Global};

/// The registers behind an `@`.
pub fn register_scope(alloc: Global, face: &Face) -> Result<Scope, AllocError>
    requires few { length face.now.inputs.items + length face.now.registers.items ≤ 65536 }
    ensures { IfOk result (λ scope. HasRegisters (length face.now.inputs.items) (map string_bytes face.now.registers.items) scope) }
{
    let inputs = face.inputs.as_slice().len();
    let mut source = Vec::new(alloc);
    for (place, name) in face.registers.iter().enumerate() {
        let reading = Reading::Leaf {
            number: inputs + place,
        };
        enter(alloc, &mut source, name.as_str(), reading)?;
    }
    Ok(Scope {
        bare: Vec::new(alloc),
        source,
    })
}

/// What a class may hold: the word `i`, which is 0, the loaded word `d0` where phase 0 takes it, and
/// the states.
pub fn class_scope(
    alloc: Global,
    states: &[Shown],
    taken: Option<usize>,
) -> Result<Scope, AllocError>
    ensures { IfOk result (λ scope. HasClassNames taken states.now scope) }
{
    let mut bare = Vec::new(alloc);
    enter(alloc, &mut bare, "i", Reading::Constant { value: false })?;
    if let Some(number) = taken {
        enter(alloc, &mut bare, "d0", Reading::Leaf { number })?;
    }
    enter_states(alloc, &mut bare, states)?;
    Ok(Scope {
        bare,
        source: Vec::new(alloc),
    })
}

fn enter_states(alloc: Global, entries: &mut Vec<Entry>, states: &[Shown]) -> Result<(), AllocError>
    ensures { OnOk result (shown entries.new.items ≡ shown entries.old.items ++ state_entries states.now) }
{
    for state in states {
        let reading = Reading::Leaf { number: state.leaf };
        enter(alloc, entries, state.name.as_str(), reading)?;
    }
    Ok(())
}

fn enter(
    alloc: Global,
    entries: &mut Vec<Entry>,
    name: &str,
    reading: Reading,
) -> Result<(), AllocError>
    ensures { OnOk result (shown entries.new.items ≡ shown entries.old.items ++ (name.now, reading) ∷ []) }
{
    let name = String::from_str(alloc, name)?;
    entries.push(Entry { name, reading })?;
    Ok(())
}
