ghost use Rattle.std.specs.Prelude.{◌≡◌, [], ◌∷◌, ◌++◌, map, string_bytes, IfOk, OnOk};
ghost use Rattle.lola_app.specs.Listing.{Named, named_of, start_obligations, state_obligations, reset_obligations, class_obligations, listed};

use crate::claim::{Claim, Start, State};
use std::alloc::{AllocError, Global};

/// What an obligation says of the next state: that the invariant or the boundary holds there, or that
/// a state has the value that the table gives.
#[derive(Clone, Copy, Debug, PartialEq, Eq)]
pub enum Goal {
    Invariant,
    Boundary,
    State { number: usize },
}

/// Which obligation: that a class fits each word; a goal after a reset cycle, where `State` counts
/// the START rows; or a goal at the end of the instruction, where it counts the states.
#[derive(Clone, Copy, Debug, PartialEq, Eq)]
pub enum Which {
    Cover,
    Reset { goal: Goal },
    End { goal: Goal },
}

/// An obligation and its name.
#[derive(Debug, Drop)]
pub struct Obligation {
    pub name: String,
    pub which: Which,
}

/// All obligations of a claim, in their order: `cover`, those of the reset cycle, and those of the
/// instruction.
pub fn obligations(alloc: Global, claim: &Claim) -> Result<Vec<Obligation>, AllocError>
    ensures { IfOk result (λ list. map named_of list.items ≡ listed claim.now) }
{
    let mut list = Vec::new(alloc);
    add(&mut list, String::from_str(alloc, "cover")?, Which::Cover)?;
    add_resets(alloc, &mut list, claim.starts.as_slice())?;
    add_ends(
        alloc,
        &mut list,
        claim.class.as_str(),
        claim.states.as_slice(),
    )?;
    Ok(list)
}

fn add(list: &mut Vec<Obligation>, name: String, which: Which) -> Result<(), AllocError>
    ensures { OnOk result (map named_of list.new.items ≡ map named_of list.old.items ++ (string_bytes name, which) ∷ []) }
{
    list.push(Obligation { name, which })?;
    Ok(())
}

/// Those of the reset cycle.
fn add_resets(alloc: Global, list: &mut Vec<Obligation>, starts: &[Start]) -> Result<(), AllocError>
    ensures { OnOk result (map named_of list.new.items ≡ map named_of list.old.items ++ reset_obligations starts.now) }
{
    let goal = Goal::Invariant;
    add(
        list,
        String::from_str(alloc, "reset/INVARIANT")?,
        Which::Reset { goal },
    )?;
    let goal = Goal::Boundary;
    add(
        list,
        String::from_str(alloc, "reset/BOUNDARY")?,
        Which::Reset { goal },
    )?;
    add_starts(alloc, list, starts)?;
    Ok(())
}

fn add_starts(alloc: Global, list: &mut Vec<Obligation>, starts: &[Start]) -> Result<(), AllocError>
    ensures { OnOk result (map named_of list.new.items ≡ map named_of list.old.items ++ start_obligations 0 starts.now) }
{
    for (number, start) in starts.iter().enumerate() {
        let state = start.name.as_str();
        let goal = Goal::State { number };
        add(
            list,
            format!(in alloc; "reset/{state}")?,
            Which::Reset { goal },
        )?;
    }
    Ok(())
}

/// Those of the class.
fn add_ends(
    alloc: Global,
    list: &mut Vec<Obligation>,
    class: &str,
    states: &[State],
) -> Result<(), AllocError>
    ensures { OnOk result (map named_of list.new.items ≡ map named_of list.old.items ++ class_obligations class.now states.now) }
{
    let goal = Goal::Invariant;
    add(
        list,
        format!(in alloc; "{class}/0/end/INVARIANT")?,
        Which::End { goal },
    )?;
    let goal = Goal::Boundary;
    add(
        list,
        format!(in alloc; "{class}/0/end/BOUNDARY")?,
        Which::End { goal },
    )?;
    add_states(alloc, list, class, states)?;
    Ok(())
}

fn add_states(
    alloc: Global,
    list: &mut Vec<Obligation>,
    class: &str,
    states: &[State],
) -> Result<(), AllocError>
    ensures { OnOk result (map named_of list.new.items ≡ map named_of list.old.items ++ state_obligations class.now 0 states.now) }
{
    for (number, state) in states.iter().enumerate() {
        let state = state.name.as_str();
        let goal = Goal::State { number };
        add(
            list,
            format!(in alloc; "{class}/0/end/{state}")?,
            Which::End { goal },
        )?;
    }
    Ok(())
}
