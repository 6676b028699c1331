// The bit of a check over words of 64 cases: all ones where it is violated, and none where it isn't. The checks speak of
// numbers alone, and the bits were worked out by hand.
ghost use Rattle.std.specs.Prelude.{[]};
ghost use Rattle.lola_flat.specs.Value.{env};
ghost use Rattle.lola_checks.specs.Tree.{claim_tree};
ghost use Rattle.lola_checks.specs.Suits.{ClaimSuits};

use lola_bits::{Bits, Seq};
use lola_checks::{Atom, Check, Claim, Mark, lower_check};
use lola_flat::FExpr;
use lola_lanes::Lanes;
use std::alloc::Global;
use std::process::Abort;
use std::test::Fail;

/// A check of a goal without premises has this bit.
fn is_bit(rt: &impl Abort, alloc: Global, goal: Claim, bit: u64)
    requires { ClaimSuits (env [] []) (claim_tree goal) }
{
    let check = Check {
        premises: Seq::new(alloc),
        goal,
    };
    match lower_check(alloc, &mut Lanes, &check, &[], &[]) {
        Ok(made) => assert_eq!(rt; made, bit),
        Err(_) => assert_eq!(rt; 0, 1),
    }
}

#[test]
fn equal_numbers(rt: HostRuntime) {
    let same = Atom::Equal {
        left: FExpr::Number {
            value: Bits { width: 3, value: 4 },
        },
        right: FExpr::Number {
            value: Bits { width: 3, value: 4 },
        },
    };
    is_bit(&rt, rt.alloc(), Claim::Alone { atom: same }, 0);
    let other = Atom::Equal {
        left: FExpr::Number {
            value: Bits { width: 3, value: 4 },
        },
        right: FExpr::Number {
            value: Bits { width: 3, value: 5 },
        },
    };
    is_bit(&rt, rt.alloc(), Claim::Alone { atom: other }, u64::MAX);
}

#[test]
fn marks_of_a_pattern(rt: HostRuntime) -> Result<(), Fail> {
    let alloc = rt.alloc();
    let fits = Atom::Fits {
        word: FExpr::Number {
            value: Bits { width: 3, value: 4 },
        },
        pattern: Seq::of(Vec::from_slice(alloc, &[Mark::One, Mark::Any, Mark::Zero])?),
    };
    is_bit(&rt, alloc, Claim::Alone { atom: fits }, 0);
    let turned = Atom::Fits {
        word: FExpr::Number {
            value: Bits { width: 3, value: 4 },
        },
        pattern: Seq::of(Vec::from_slice(alloc, &[Mark::Zero, Mark::Any, Mark::One])?),
    };
    is_bit(&rt, alloc, Claim::Alone { atom: turned }, u64::MAX);
    Ok(())
}

#[test]
fn all_and_any_of_none(rt: HostRuntime) {
    let alloc = rt.alloc();
    let all = Claim::All {
        atoms: Seq::new(alloc),
    };
    is_bit(&rt, alloc, all, 0);
    let any = Claim::Any {
        atoms: Seq::new(alloc),
    };
    is_bit(&rt, alloc, any, u64::MAX);
}
