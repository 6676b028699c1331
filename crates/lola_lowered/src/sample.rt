// The sample of lola_flat: the clock c, the input a, the pad p, the wire w, the register r and the array R of two
// elements, all of one bit. The pad is driven with r where a is 0, w is what the pad carries, r becomes the element of
// R at w, and w is written to R at a.
ghost use Rattle.std.specs.Prelude.{◌≡◌, [], ◌∷◌, IfOk};
ghost use Rattle.lola_bits.specs.declared.op.Op.TheVariants as op;
ghost use Rattle.lola_flat.specs.Tree.{expr_tree, some_tree, signal_tree, flat_tree, signal, from_outside, element, apply, no_expr, one_expr};
ghost use Rattle.lola_flat.specs.Sample.{sample};
ghost use Rattle.lola_lowered.specs.Lowered.{one_bit};

use lola_bits::{Memory, Name, Op, Seq};
use lola_flat::{FExpr, Flat, SigKind, Signal, lists_are_trees};
use std::alloc::Global;

/// A path of one name.
fn path(alloc: Global, name: &str) -> Result<Seq<Name>, Memory>
    ensures { IfOk result (λ path. path ≡ name.now ∷ []) }
{
    let mut path = Seq::new(alloc);
    path.push(Name::new(alloc, name)?)?;
    Ok(path)
}

/// A signal of one bit.
fn one_bit(
    alloc: Global,
    name: &str,
    kind: SigKind,
    count: u32,
    place: Option<FExpr>,
    equation: Option<FExpr>,
) -> Result<Signal, Memory>
    ensures { IfOk result (λ made. signal_tree made ≡ one_bit name.now kind count (some_tree place) (some_tree equation)) }
{
    Ok(Signal {
        path: path(alloc, name)?,
        kind,
        width: 1,
        count,
        place,
        equation,
    })
}

/// The choice of a pad: where the signal `release` is 1 the outside value, and else the signal `value`.
fn choice(alloc: Global, release: u32, pad: u32, value: u32) -> Result<FExpr, Memory>
    ensures { IfOk result (λ e. expr_tree e ≡ apply op.Mux (one_expr (signal release) (one_expr (from_outside pad) (one_expr (signal value) no_expr)))) }
{
    lists_are_trees();
    let mut args = Seq::new(alloc);
    args.push(FExpr::Signal { number: release })?;
    args.push(FExpr::Outside { number: pad })?;
    args.push(FExpr::Signal { number: value })?;
    Ok(FExpr::Apply { op: Op::Mux, args })
}

/// The element of an array at the place that a signal gives.
fn element_at(alloc: Global, number: u32, place: u32) -> Result<FExpr, Memory>
    ensures { IfOk result (λ e. expr_tree e ≡ element number (signal place)) }
{
    Ok(FExpr::Element {
        number,
        place: Box::new(alloc, FExpr::Signal { number: place })?,
    })
}

fn numbers(alloc: Global, items: &[u32]) -> Result<Seq<u32>, Memory>
    ensures { IfOk result (λ made. made ≡ items.now) }
{
    Ok(Seq::of(Vec::from_slice(alloc, items)?))
}

/// The design.
pub(crate) fn sample(alloc: Global) -> Result<Flat, Memory>
    ensures { IfOk result (λ flat. flat_tree flat ≡ sample) }
{
    let clock = one_bit(alloc, "c", SigKind::Input, 1, None, None)?;
    let input = one_bit(alloc, "a", SigKind::Input, 1, None, None)?;
    let pad = one_bit(
        alloc,
        "p",
        SigKind::Pad,
        1,
        None,
        Some(choice(alloc, 1, 2, 4)?),
    )?;
    let carried = Some(FExpr::Signal { number: 2 });
    let wire = one_bit(alloc, "w", SigKind::Wire, 1, None, carried)?;
    let next = Some(element_at(alloc, 5, 3)?);
    let register = one_bit(alloc, "r", SigKind::Register, 1, None, next)?;
    let place = Some(FExpr::Signal { number: 1 });
    let written = Some(FExpr::Signal { number: 3 });
    let array = one_bit(alloc, "R", SigKind::Register, 2, place, written)?;
    let mut signals = Seq::new(alloc);
    signals.push(clock)?;
    signals.push(input)?;
    signals.push(pad)?;
    signals.push(wire)?;
    signals.push(register)?;
    signals.push(array)?;
    Ok(Flat {
        root: Name::new(alloc, "S")?,
        clock: Some(Name::new(alloc, "c")?),
        ports: numbers(alloc, [0, 1, 2].as_slice())?,
        signals,
        order: numbers(alloc, [2, 3].as_slice())?,
    })
}
