ghost use Rattle.std.specs.Prelude.{◌≡◌, [], take, drop, get_or, IfOk};
ghost use Rattle.lola_flat.specs.Tree.{flat_tree};
ghost use Rattle.lola_asked.specs.Setting.{shared};
ghost use Rattle.lola_asked.specs.Tables.{row_in, outside_part, dealt, dealt_outside};

use crate::bits::CaseBit;
use crate::setting::Further;
use lola_bits::{Memory, Seq};
use lola_cases::free_count;
use lola_flat::{Flat, SigKind};
use std::alloc::Global;

/// The bits that a check is asked of in each case: those of inputs and registers, those that pads are given from
/// outside, by the numbers of signals, and those of further names.
#[derive(Debug, Drop)]
pub(crate) struct CaseTables {
    pub(crate) given: Vec<Seq<Seq<CaseBit>>>,
    pub(crate) outside: Vec<Seq<CaseBit>>,
    pub(crate) further: Vec<Seq<Seq<CaseBit>>>,
}

/// So many vectors, or all where there are fewer, and those behind them.
fn cut(vectors: &[Seq<CaseBit>], count: usize) -> (&[Seq<CaseBit>], &[Seq<CaseBit>])
    ensures front { result.0.now ≡ take count vectors.now }
    ensures back { result.1.now ≡ drop count vectors.now }
{
    if count < vectors.len() {
        vectors.split_at(count)
    } else {
        vectors.split_at(vectors.len())
    }
}

/// A copy of a vector.
fn vector(alloc: Global, bits: &[CaseBit]) -> Result<Seq<CaseBit>, Memory>
    ensures { IfOk result (λ made. made ≡ bits.now) }
{
    Ok(Seq::of(Vec::from_slice(alloc, bits)?))
}

/// A copy of some vectors.
fn row(alloc: Global, vectors: &[Seq<CaseBit>]) -> Result<Seq<Seq<CaseBit>>, Memory>
    ensures { IfOk result (λ made. made ≡ vectors.now) }
{
    let mut made = Vec::new(alloc);
    for at in 0..vectors.len() {
        made.push(vector(alloc, vectors[at].items())?)?;
    }
    Ok(Seq::of(made))
}

/// The elements of a signal, of its share.
fn row_in(alloc: Global, kind: SigKind, share: &[Seq<CaseBit>]) -> Result<Seq<Seq<CaseBit>>, Memory>
    ensures { IfOk result (λ made. made ≡ row_in kind share.now) }
{
    match kind {
        SigKind::Input => row(alloc, share),
        SigKind::Register => row(alloc, share),
        SigKind::Pad => Ok(Seq::new(alloc)),
        SigKind::Wire => Ok(Seq::new(alloc)),
    }
}

/// A copy of the first of some vectors, or no bits.
fn first(alloc: Global, share: &[Seq<CaseBit>]) -> Result<Seq<CaseBit>, Memory>
    ensures { IfOk result (λ made. made ≡ get_or share.now 0 []) }
{
    match share {
        [] => Ok(Seq::new(alloc)),
        [bits, ..] => vector(alloc, bits.items()),
    }
}

/// What a pad is given from outside, of its share.
fn outside_part(
    alloc: Global,
    kind: SigKind,
    share: &[Seq<CaseBit>],
) -> Result<Seq<CaseBit>, Memory>
    ensures { IfOk result (λ made. made ≡ outside_part [] kind share.now) }
{
    match kind {
        SigKind::Pad => first(alloc, share),
        SigKind::Input => Ok(Seq::new(alloc)),
        SigKind::Register => Ok(Seq::new(alloc)),
        SigKind::Wire => Ok(Seq::new(alloc)),
    }
}

/// To each signal the elements of its share.
fn dealt(
    alloc: Global,
    flat: &Flat,
    vectors: &[Seq<CaseBit>],
) -> Result<Vec<Seq<Seq<CaseBit>>>, Memory>
    ensures { IfOk result (λ made. made.items ≡ dealt (flat_tree flat.now) (flat_tree flat.now).signals vectors.now) }
{
    let mut made = Vec::new(alloc);
    let mut rest = vectors;
    let signals = flat.signals.items();
    for at in 0..signals.len() {
        let signal = &signals[at];
        let (share, later) = cut(rest, free_count(flat, signal) as usize);
        made.push(row_in(alloc, signal.kind, share)?)?;
        rest = later;
    }
    Ok(made)
}

/// To each pad what it is given from outside.
fn dealt_outside(
    alloc: Global,
    flat: &Flat,
    vectors: &[Seq<CaseBit>],
) -> Result<Vec<Seq<CaseBit>>, Memory>
    ensures { IfOk result (λ made. made.items ≡ dealt_outside [] (flat_tree flat.now) (flat_tree flat.now).signals vectors.now) }
{
    let mut made = Vec::new(alloc);
    let mut rest = vectors;
    let signals = flat.signals.items();
    for at in 0..signals.len() {
        let signal = &signals[at];
        let (share, later) = cut(rest, free_count(flat, signal) as usize);
        made.push(outside_part(alloc, signal.kind, share)?)?;
        rest = later;
    }
    Ok(made)
}

/// To each further name its elements.
fn shared(
    alloc: Global,
    further: &[Further],
    vectors: &[Seq<CaseBit>],
) -> Result<Vec<Seq<Seq<CaseBit>>>, Memory>
    ensures { IfOk result (λ made. made.items ≡ shared further.now vectors.now) }
{
    let mut made = Vec::new(alloc);
    let mut rest = vectors;
    for name in further {
        let (share, later) = cut(rest, name.count as usize);
        made.push(row(alloc, share)?)?;
        rest = later;
    }
    Ok(made)
}

/// The tables of these vectors, of which the first are those of the design's elements.
pub(crate) fn case_tables(
    alloc: Global,
    flat: &Flat,
    further: &[Further],
    vectors: &[Seq<CaseBit>],
    elements: usize,
) -> Result<CaseTables, Memory>
    ensures given { IfOk result (λ made. made.given.items ≡ dealt (flat_tree flat.now) (flat_tree flat.now).signals (take elements vectors.now)) }
    ensures outside { IfOk result (λ made. made.outside.items ≡ dealt_outside [] (flat_tree flat.now) (flat_tree flat.now).signals (take elements vectors.now)) }
    ensures further { IfOk result (λ made. made.further.items ≡ shared further.now (drop elements vectors.now)) }
{
    let (design, behind) = cut(vectors, elements);
    Ok(CaseTables {
        given: dealt(alloc, flat, design)?,
        outside: dealt_outside(alloc, flat, design)?,
        further: shared(alloc, further, behind)?,
    })
}
