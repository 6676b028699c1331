// Operators by bits, over the algebra of bool, on vectors of four bits, the lowest first.
ghost use Rattle.std.specs.Prelude.{◌≡◌, length, IfOk, [], ◌∷◌};

use lola_alg::{Plain, low_op, low_read, low_write};
use lola_bits::{Op, Seq};
use std::alloc::{AllocError, Global};
use std::process::Abort;
use std::test::Fail;

/// The vector of these bits.
fn vector(alloc: Global, bits: [bool; 4]) -> Result<Seq<bool>, AllocError>
    ensures { IfOk result (λ v. length v ≡ 4) }
{
    Ok(Seq::of(Vec::from_slice(alloc, &bits)?))
}

/// An operator on two vectors makes these bits.
fn makes(
    rt: &impl Abort,
    alloc: Global,
    op: Op,
    x: [bool; 4],
    y: [bool; 4],
    bits: &[bool],
) -> Result<(), Fail> {
    let args = [vector(alloc, x)?, vector(alloc, y)?];
    match op {
        Op::Not | Op::Mux => {}
        _ => match low_op(alloc, &mut Plain, op, &args) {
            Ok(made) => assert_eq!(rt; made.items(), bits),
            Err(_) => assert_eq!(rt; bits.len(), 0),
        },
    }
    Ok(())
}

const T: bool = true;

const F: bool = false;

#[test]
fn sums_and_differences(rt: HostRuntime) -> Result<(), Fail> {
    let alloc = rt.alloc();
    makes(
        &rt,
        alloc,
        Op::Add,
        [T, T, F, T],
        [T, F, T, F],
        &[F, F, F, F],
    )?;
    makes(
        &rt,
        alloc,
        Op::Add,
        [T, F, F, F],
        [F, T, T, F],
        &[T, T, T, F],
    )?;
    makes(
        &rt,
        alloc,
        Op::Sub,
        [T, T, F, F],
        [T, F, T, F],
        &[F, T, T, T],
    )
}

#[test]
fn logic(rt: HostRuntime) -> Result<(), Fail> {
    let alloc = rt.alloc();
    makes(
        &rt,
        alloc,
        Op::And,
        [T, T, F, T],
        [T, F, T, F],
        &[T, F, F, F],
    )?;
    makes(
        &rt,
        alloc,
        Op::Or,
        [T, T, F, T],
        [T, F, T, F],
        &[T, T, T, T],
    )?;
    makes(
        &rt,
        alloc,
        Op::Xor,
        [T, T, F, T],
        [T, F, T, F],
        &[F, T, T, T],
    )
}

#[test]
fn relations(rt: HostRuntime) -> Result<(), Fail> {
    let alloc = rt.alloc();
    makes(&rt, alloc, Op::Eq, [T, T, F, F], [T, T, F, F], &[T])?;
    makes(&rt, alloc, Op::Ne, [T, T, F, F], [T, T, F, F], &[F])?;
    makes(&rt, alloc, Op::Lt, [T, T, F, F], [T, F, T, F], &[T])?;
    makes(&rt, alloc, Op::Lt, [F, F, T, T], [T, T, F, F], &[F])?;
    makes(&rt, alloc, Op::Le, [T, F, T, F], [T, F, T, F], &[T])?;
    makes(&rt, alloc, Op::Gt, [T, T, F, F], [T, F, T, F], &[F])?;
    makes(&rt, alloc, Op::Ge, [T, T, F, F], [T, F, T, F], &[F])
}

#[test]
fn moves(rt: HostRuntime) -> Result<(), Fail> {
    let alloc = rt.alloc();
    makes(
        &rt,
        alloc,
        Op::Shl,
        [T, T, F, T],
        [T, F, F, F],
        &[F, T, T, F],
    )?;
    makes(
        &rt,
        alloc,
        Op::Shl,
        [T, T, F, T],
        [F, F, T, F],
        &[F, F, F, F],
    )?;
    makes(
        &rt,
        alloc,
        Op::Shr,
        [T, T, F, T],
        [T, F, F, F],
        &[T, F, T, F],
    )?;
    makes(
        &rt,
        alloc,
        Op::Asr,
        [T, T, F, T],
        [T, F, F, F],
        &[T, F, T, T],
    )?;
    makes(
        &rt,
        alloc,
        Op::Asr,
        [T, T, F, T],
        [T, F, T, F],
        &[T, T, T, T],
    )?;
    makes(
        &rt,
        alloc,
        Op::Ror,
        [T, T, F, T],
        [T, F, F, F],
        &[T, F, T, T],
    )?;
    makes(
        &rt,
        alloc,
        Op::Ror,
        [T, T, F, T],
        [T, F, T, F],
        &[T, F, T, T],
    )?;
    makes(
        &rt,
        alloc,
        Op::Ror,
        [T, T, F, T],
        [F, F, T, F],
        &[T, T, F, T],
    )
}

#[test]
fn negations_and_choices(rt: HostRuntime) -> Result<(), Fail> {
    let alloc = rt.alloc();
    let args = [vector(alloc, [T, T, F, T])?];
    match low_op(alloc, &mut Plain, Op::Not, &args) {
        Ok(made) => assert_eq!(rt; made.items(), [F, F, T, F].as_slice()),
        Err(_) => assert_eq!(rt; args.len(), 0),
    }
    let test = Seq::of(Vec::from_slice(alloc, &[F])?);
    let args = [
        test,
        vector(alloc, [T, T, F, T])?,
        vector(alloc, [T, F, T, F])?,
    ];
    match low_op(alloc, &mut Plain, Op::Mux, &args) {
        Ok(made) => assert_eq!(rt; made.items(), [T, F, T, F].as_slice()),
        Err(_) => assert_eq!(rt; args.len(), 0),
    }
    Ok(())
}

#[test]
fn an_element_is_read(rt: HostRuntime) -> Result<(), Fail> {
    let alloc = rt.alloc();
    let elements = [vector(alloc, [T, F, F, F])?, vector(alloc, [F, T, F, F])?];
    let place = Seq::of(Vec::from_slice(alloc, &[T])?);
    match low_read(alloc, &mut Plain, &elements, &place) {
        Ok(made) => assert_eq!(rt; made.items(), [F, T, F, F].as_slice()),
        Err(_) => assert_eq!(rt; elements.len(), 0),
    }
    Ok(())
}

#[test]
fn an_element_is_written(rt: HostRuntime) -> Result<(), Fail> {
    let alloc = rt.alloc();
    let elements = [vector(alloc, [T, F, F, F])?, vector(alloc, [F, T, F, F])?];
    let place = Seq::of(Vec::from_slice(alloc, &[F])?);
    let value = vector(alloc, [T, T, T, T])?;
    match low_write(alloc, &mut Plain, &elements, &place, &value) {
        Ok(made) => {
            assert_eq!(rt; made.items().len(), 2);
            assert_eq!(rt; made.items()[0].items(), [T, T, T, T].as_slice());
            assert_eq!(rt; made.items()[1].items(), [F, T, F, F].as_slice());
        }
        Err(_) => assert_eq!(rt; elements.len(), 0),
    }
    Ok(())
}
