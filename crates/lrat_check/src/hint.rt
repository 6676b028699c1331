/// What the clause of a hint is, under the literals that are set false.
#[derive(Clone, Copy, Debug, PartialEq, Eq)]
pub enum Hint {
    /// Each of its literals is set false.
    Conflict,
    /// Only this literal isn't set false, and it is now set true.
    Forces(i32),
    /// Anything else.
    Idle,
}
