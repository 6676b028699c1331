ghost use Rattle.std.specs.Prelude.{◌≡◌, [], ◌∷◌, ◌++◌, map, string_bytes, codes, List, ℕ, IfOk, OnOk};
ghost use Rattle.lola_elab.specs.Elaborated.{vector_names};
ghost use Rattle.lola_app.specs.DecideReply.{decide_outcome};
ghost use Rattle.lola_app.specs.Values.{line_of, lines_of};
ghost use Rattle.lola_app.specs.Deciding.{IsFirstWide, IsFirstFailing};
ghost use Rattle.lola_app.specs.Trial.{tried_widths, IsTriable};
ghost use Rattle.lola_app.specs.Tried.{free_leaves, printed_names, IsTried};

use crate::decide::{Decided, behind_first, decide, first_wide, free_bits, free_widths};
use crate::decide_reply::DecideReply;
use crate::obligation::{Obligation, Which, obligations};
use crate::subject::Subject;
use crate::values::NamedNumber;
use lola_bits::Memory;
use lola_elab::Vector;
use std::alloc::{AllocError, Global};

/// What trying all cases of a claim comes to: all its obligations hold, or the first that fails with
/// its least valuation, or the first that leaves too many bits free.
pub fn try_claim(alloc: Global, subject: &Subject) -> Result<DecideReply, Memory>
    requires { IsTriable subject.now }
    ensures { IfOk result (λ reply. IsTried subject.now (decide_outcome reply)) }
{
    let list = obligations(alloc, &subject.claim)?;
    if let Some(number) = first_wide(alloc, subject, list.as_slice())? {
        let obligation = &list[number];
        return Ok(DecideReply::TooManyBits {
            obligation: obligation.name.clone()?,
            count: free_bits(alloc, subject, obligation.which)?,
        });
    }
    match decide(alloc, subject, list.as_slice())? {
        Decided::All => Ok(DecideReply::Accepted {
            obligations: list.len(),
            classes: 1,
        }),
        Decided::Fails { number, numbers } => {
            let obligation = &list[number];
            Ok(DecideReply::Failed {
                obligation: obligation.name.clone()?,
                numbers: named_numbers(alloc, subject, obligation.which, numbers.as_slice())?,
            })
        }
    }
}

/// The numbers of what an obligation leaves free, under their printed names.
fn named_numbers(
    alloc: Global,
    subject: &Subject,
    which: Which,
    numbers: &[u32],
) -> Result<Vec<NamedNumber>, AllocError>
    ensures { IfOk result (λ named. map line_of named.items ≡ lines_of (printed_names subject.now which) (tried_widths subject.now which) numbers.now) }
{
    let names = match which {
        Which::Cover => word_name(alloc)?,
        _ => cycle_names(alloc, subject)?,
    };
    let widths = free_widths(alloc, subject, which)?;
    together(alloc, names.as_slice(), widths.as_slice(), numbers)
}

/// Names with their widths and numbers, as far as there are all three.
fn together(
    alloc: Global,
    names: &[String],
    widths: &[usize],
    numbers: &[u32],
) -> Result<Vec<NamedNumber>, AllocError>
    ensures { IfOk result (λ named. map line_of named.items ≡ lines_of (map string_bytes names.now) widths.now numbers.now) }
{
    let mut named = Vec::new(alloc);
    for (place, name) in names.iter().enumerate() {
        match (widths.get(place), numbers.get(place)) {
            (Some(width), Some(value)) => named.push(NamedNumber {
                name: name.clone()?,
                width: *width,
                value: *value,
            })?,
            _ => return Ok(named),
        }
    }
    Ok(named)
}

/// The name of the one free word.
fn word_name(alloc: Global) -> Result<Vec<String>, AllocError>
    ensures { IfOk result (λ names. map string_bytes names.items ≡ codes "i" ∷ []) }
{
    let mut names = Vec::new(alloc);
    names.push(String::from_str(alloc, "i")?)?;
    Ok(names)
}

/// The names of the inputs but RESET, and of the registers, each behind an `@`.
fn cycle_names(alloc: Global, subject: &Subject) -> Result<Vec<String>, AllocError>
    ensures { IfOk result (λ names. map string_bytes names.items ≡ map (λ (name : List ℕ). codes "@" ++ name) (free_leaves subject.now)) }
{
    let mut names = Vec::new(alloc);
    let inputs = subject.design.inputs.as_slice();
    let (before, behind) = inputs.split_at(subject.reset.min(inputs.len()));
    add_names(alloc, &mut names, before)?;
    add_names(alloc, &mut names, behind_first(behind))?;
    add_names(alloc, &mut names, subject.design.registers.as_slice())?;
    Ok(names)
}

fn add_names(alloc: Global, names: &mut Vec<String>, more: &[Vector]) -> Result<(), AllocError>
    ensures { OnOk result (map string_bytes names.new.items ≡ map string_bytes names.old.items ++ map (λ (name : List ℕ). codes "@" ++ name) (vector_names more.now)) }
{
    for vector in more {
        let name = vector.name.as_str();
        names.push(format!(in alloc; "@{name}")?)?;
    }
    Ok(())
}
