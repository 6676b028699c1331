ghost use Rattle.std.specs.Prelude.{◌≡◌};
ghost use Rattle.lola_tree.specs.Tree.{tree, parts_tree, whole};
ghost use Rattle.tab_tree.specs.Names.{fixed, look, table_vector};
ghost use Rattle.tab_mach.specs.Known.{names_of, parts_run, AreKnown};
ghost use Rattle.tab_mach.specs.Vectors.{AreVectors, IsRun, element_at};

use crate::known::{Known, find};
use crate::vectors;
use lola_bits::Bits;
use lola_tree::{Count, Expr, Part, Ref};

/// Names stand for vectors that fit, as before.
fn still_known(known: &Known)
    requires { AreKnown known.now }
    ensures { AreKnown known.now }
{}

/// The vector that an expression stands for: none where it has no width. Takes no memory.
#[cycle(evaluate)]
pub fn evaluate(known: &Known, expr: &Expr) -> Option<Bits>
    requires { AreKnown known.now }
    ensures value { result ≡ table_vector (names_of known.now) (tree expr.now) }
    ensures fits { AreVectors result }
{
    still_known(known);
    match expr {
        Expr::Number {
            value,
            width,
            at: _,
        } => vectors::number(*value, *width),
        Expr::Whole { of } => read(known, of),
        Expr::Bit { of, index, at: _ } => vectors::bit_taken(read(known, of), fixed(index)),
        Expr::Slice {
            of,
            high,
            low,
            at: _,
        } => vectors::slice_taken(read(known, of), fixed(high), fixed(low)),
        Expr::Index { of, place, at: _ } => {
            let place = evaluate(known, place);
            indexed(known, of, place)
        }
        Expr::Concat { parts, at: _ } => vectors::whole_run(evaluate_parts(known, parts.items())),
        Expr::Not { arg, at: _ } => vectors::negated(evaluate(known, arg)),
        Expr::Binary {
            op,
            left,
            right,
            at: _,
        } => {
            let left = evaluate(known, left);
            let right = evaluate(known, right);
            vectors::both(*op, left, right)
        }
        Expr::Choice {
            test,
            yes,
            no,
            at: _,
        } => {
            let test = evaluate(known, test);
            let yes = evaluate(known, yes);
            let no = evaluate(known, no);
            vectors::chosen(test, yes, no)
        }
    }
}

/// The bits of the parts of a concatenation: none where a part has no width, or where there are more
/// than 128.
#[cycle(evaluate)]
fn evaluate_parts(known: &Known, parts: &[Part]) -> Option<Bits>
    requires { AreKnown known.now }
    ensures value { result ≡ parts_run (names_of known.now) (parts_tree parts.now) }
    ensures fits { IsRun result }
{
    let mut run = Some(Bits { width: 0, value: 0 });
    for part in parts {
        still_known(known);
        let value = evaluate(known, &part.value);
        run = vectors::joined_run(run, vectors::repeated(value, fixed(&part.times)));
    }
    run
}

/// A name read as a vector.
#[tactic(auto, using(crate::proofs::Means::whole_means))]
fn read(known: &Known, of: &Ref) -> Option<Bits>
    requires { AreKnown known.now }
    ensures value { result ≡ table_vector (names_of known.now) (whole of.now) }
    ensures fits { AreVectors result }
{
    vectors::whole_vector(find(known, of))
}

/// The element of an array at a place.
fn indexed(known: &Known, of: &Ref, place: Option<Bits>) -> Option<Bits>
    requires { AreKnown known.now }
    ensures value { result ≡ element_at (look (names_of known.now) of.now) place }
    ensures fits { AreVectors result }
{
    vectors::element_at(find(known, of), place)
}

/// The number of a count, which a table writes.
fn fixed(count: &Count) -> Option<u128>
    ensures { result ≡ fixed count.now }
{
    match count {
        Count::Fixed { value, at: _ } => Some(*value),
        Count::Const { name: _ } => None,
    }
}
