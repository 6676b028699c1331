/// How a name is declared.
#[derive(Clone, Copy, PartialEq, Eq)]
pub enum Kind {
    Input,
    Output,
    Inout,
    Wire,
    Reg,
}

/// A literal as it is written.
#[derive(Clone, Copy)]
pub enum Literal<'a> {
    Constant(bool),
    Of { negated: bool, name: &'a str },
}

/// What a declaration says of its name: its kind, and whether it stands in a run of its own.
#[derive(Clone, Copy)]
pub struct Declared {
    pub kind: Kind,
    pub alone: bool,
}

/// An assign: what kind of name its target is, and its literals. Of a wire they are the two of the `and`, of a
/// pad its release and its value; of an output the second alone counts.
#[derive(Clone, Copy)]
pub struct Assign<'a> {
    pub kind: Kind,
    pub target: &'a str,
    pub first: Literal<'a>,
    pub second: Literal<'a>,
}
