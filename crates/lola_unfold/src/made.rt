ghost use Rattle.std.specs.Prelude.{◌≡◌, ◌++◌, ◌∷◌, [], List, OnOk, IfOk, replicate, slice_get, None};
ghost use Rattle.lola_flat.specs.Tree.{expr_tree};
ghost use Rattle.lola_unfold.specs.Pieces.{MadeTree, made_tree, next_tree, is_free, put_first, grow, head_piece};

use lola_bits::{Memory, Name, Seq};
use lola_flat::{FExpr, SigKind};
use std::alloc::Global;

/// A signal without its equation.
#[derive(Debug, Drop)]
pub(crate) struct Head {
    pub(crate) path: Seq<Name>,
    pub(crate) kind: SigKind,
    pub(crate) width: u32,
    pub(crate) count: u32,
}

/// The next value of a register, and the place that it is written to.
#[derive(Debug, Drop)]
pub(crate) struct Next {
    pub(crate) place: Option<FExpr>,
    pub(crate) value: FExpr,
}

/// A flat design in the making: its signals so far, and by the numbers of all what gives their values and
/// their next values.
#[derive(Drop)]
pub(crate) struct Made {
    pub(crate) heads: Vec<Head>,
    pub(crate) equations: Vec<Option<FExpr>>,
    pub(crate) nexts: Vec<Option<Next>>,
}

/// So many signals without equations.
fn nothing<T: Drop>(alloc: Global, count: u32) -> Result<Vec<Option<T>>, Memory>
    ensures { IfOk result (λ v. v.items ≡ replicate count None) }
{
    let mut items = Vec::new(alloc);
    for _number in 0..count {
        match items.push(None) {
            Ok(()) => {}
            Err(_) => return Err(Memory),
        }
    }
    Ok(items)
}

/// Whether nothing was put to a place.
fn is_free<T>(items: &[Option<T>], at: usize) -> bool
    ensures { result ≡ is_free (slice_get items.now at) }
{
    match items.get(at) {
        Some(item) => item.is_none(),
        None => false,
    }
}

/// What is put to a number for the first time stays there.
fn put<T: Drop>(items: &mut Vec<Option<T>>, number: u32, value: T)
    ensures { items.new.items ≡ put_first items.old.items number value }
{
    let at = number as usize;
    if is_free(items.as_slice(), at) && at < items.len() {
        items[at] = Some(value);
    }
}

impl Made {
    /// No signal of so many.
    pub(crate) fn new(alloc: Global, count: u32) -> Result<Made, Memory>
        ensures { IfOk result (λ made. made_tree made ≡ record { heads = []; equations = replicate count None; nexts = replicate count None }) }
    {
        Ok(Made {
            heads: Vec::new(alloc),
            equations: nothing(alloc, count)?,
            nexts: nothing(alloc, count)?,
        })
    }

    /// One signal more.
    pub(crate) fn add(&mut self, head: Head) -> Result<(), Memory>
        ensures { OnOk result (made_tree self.new ≡ grow (made_tree self.old) (head_piece head)) }
    {
        match self.heads.push(head) {
            Ok(()) => Ok(()),
            Err(_) => Err(Memory),
        }
    }

    /// What gives a signal its value.
    pub(crate) fn put_equation(&mut self, number: u32, value: FExpr)
        ensures { made_tree self.new ≡ grow (made_tree self.old) (record { heads = []; equations = (number, expr_tree value) ∷ []; nexts = [] }) }
    {
        put(&mut self.equations, number, value);
    }

    /// What gives a register its next value.
    pub(crate) fn put_next(&mut self, number: u32, next: Next)
        ensures { made_tree self.new ≡ grow (made_tree self.old) (record { heads = []; equations = []; nexts = (number, next_tree next) ∷ [] }) }
    {
        put(&mut self.nexts, number, next);
    }
}
