/// Why an addition is refused, in the order in which it is looked for.
#[derive(Clone, Copy, Debug, PartialEq, Eq)]
pub enum LineError {
    /// The id isn't above all ids so far.
    IdNotRising,
    /// A literal's variable is above the last; the first such.
    VarUnknown { var: u32 },
    /// A hint is negative; the first such.
    Rat { hint: i64 },
    /// No clause in force has this id.
    HintUnknown { hint: i64 },
    /// The clause of this hint is neither the conflict nor sets a literal true.
    HintIdle { hint: i64 },
    /// The hints end before the conflict.
    NoConflict,
    /// Memory is wanting.
    Memory,
}
