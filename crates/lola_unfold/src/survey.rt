ghost use Rattle.std.specs.Prelude.{◌≡◌, List, [], ◌∷◌, ◌++◌, OnOk, IfOk, map, reverse};
ghost use Rattle.lola_bits.specs.Names.{is_among};
ghost use Rattle.lola_tree.specs.Tree.{module_tree, ModuleTree};
ghost use Rattle.lola_tree.specs.design.Clocks.{clocks_in, clock_ports};
ghost use Rattle.lola_unfold.specs.Tables.{clocks_found};
ghost use Rattle.lola_unfold.specs.Measured.{Knows};
ghost use Rattle.lola_unfold.specs.Parts.{AreLaid, IsSurvey};

use crate::clocks::Clocks;
use crate::known::Known;
use crate::layout::{Inner, Inners, layout_of};
use crate::measure::outline;
use crate::part::{Part, part_of};
use crate::slots::Slots;
use lola_bits::Memory;
use lola_tree::Module;
use std::alloc::Global;

/// What is known of some modules, each looked at once: by their names and, in text order, by their numbers.
#[derive(Drop)]
pub(crate) struct Survey<'a> {
    pub(crate) known: Known,
    pub(crate) inners: Inners,
    pub(crate) parts: Vec<Part<'a>>,
    pub(crate) tables: Vec<Slots>,
}

fn no_survey<'a>(alloc: Global) -> Survey<'a>
    ensures { IsSurvey result [] }
{
    Survey {
        known: Known::new(alloc),
        inners: Inners::new(alloc),
        parts: Vec::new(alloc),
        tables: Vec::new(alloc),
    }
}

/// Adds the table of the next module.
fn add_table(
    alloc: Global,
    survey: &mut Survey,
    clocks: &Clocks,
    module: &Module,
) -> Result<(), Memory>
    ensures laid { OnOk result ((earlier : List ModuleTree) → AreLaid survey.old earlier → clocks_found clocks.now ≡ is_among (clocks_in (clock_ports earlier) (module_tree «module».now)) → AreLaid survey.new (module_tree «module».now ∷ earlier)) }
    ensures known { OnOk result (survey.new.known ≡ survey.old.known) }
    ensures parts { OnOk result (survey.new.parts ≡ survey.old.parts) }
{
    let layout = layout_of(alloc, &survey.inners, clocks, module)?;
    let inner = Inner {
        at: survey.tables.as_slice().len(),
        count: layout.count,
    };
    survey.tables.push(layout.slots)?;
    survey.inners.add(alloc, module.name.text(), inner)?;
    Ok(())
}

/// Adds what is known of the next module.
fn add_part<'a>(
    alloc: Global,
    survey: &mut Survey<'a>,
    part: Part<'a>,
    module: &Module,
) -> Result<(), Memory>
    ensures known { OnOk result ((earlier : List ModuleTree) → Knows survey.old.known earlier → Knows survey.new.known (module_tree «module».now ∷ earlier)) }
    ensures parts { OnOk result (survey.new.parts.items ≡ survey.old.parts.items ++ part.entry ∷ []) }
    ensures inners { OnOk result (survey.new.inners ≡ survey.old.inners) }
    ensures tables { OnOk result (survey.new.tables ≡ survey.old.tables) }
{
    survey.parts.push(part)?;
    let outline = outline(alloc, &survey.known, module)?;
    survey.known.add(alloc, module.name.text(), outline)?;
    Ok(())
}

/// Adds the next module.
fn add_module<'a>(alloc: Global, survey: &mut Survey<'a>, module: &'a Module) -> Result<(), Memory>
    ensures { OnOk result ((earlier : List ModuleTree) → IsSurvey survey.old earlier → IsSurvey survey.new (module_tree «module».now ∷ earlier)) }
{
    let part = part_of(alloc, &survey.known, module)?;
    add_table(alloc, survey, &part.clocks, module)?;
    add_part(alloc, survey, part, module)?;
    Ok(())
}

/// What is known of some modules.
pub(crate) fn survey_of<'a>(alloc: Global, modules: &'a [Module]) -> Result<Survey<'a>, Memory>
    ensures { IfOk result (λ survey. IsSurvey survey (reverse (map module_tree modules.now))) }
{
    let mut survey = no_survey(alloc);
    for module in modules {
        add_module(alloc, &mut survey, module)?;
    }
    Ok(survey)
}
