//! Literals as the engine has them: twice the number of the variable, from 0 on, and one more where it is negated.

/// The engine's literal for one of a Cnf.
pub(crate) fn inner(literal: i32) -> u32 {
    let base = literal.unsigned_abs().wrapping_sub(1).wrapping_mul(2);
    if literal < 0 {
        base.wrapping_add(1)
    } else {
        base
    }
}

/// The literal of a Cnf for one of the engine.
pub(crate) fn outer(literal: u32) -> i32 {
    let var = literal / 2 + 1;
    if var >= 2147483648 {
        return 0;
    }
    if literal % 2 == 1 {
        -(var as i32)
    } else {
        var as i32
    }
}

/// The negation of a literal.
#[inline(always)]
pub(crate) fn negated(literal: u32) -> u32 {
    literal ^ 1
}
