use lola_bits::Seq;
use lola_flat::FExpr;

/// What a pattern asks of a bit: that it is 0, that it is 1, or nothing.
#[derive(Clone, Copy, Debug, PartialEq, Eq)]
pub enum Mark {
    Zero,
    One,
    Any,
}

/// What an array's element at a place becomes.
#[derive(Debug, Drop)]
pub struct Write {
    pub place: FExpr,
    pub value: FExpr,
}

/// The elements of an array, a signal by its number, and where there is a write, what they are behind it.
#[derive(Debug, Drop)]
pub struct Elements {
    pub array: u32,
    pub write: Option<Write>,
}

/// A claim that isn't made of others. A count is below a number where `One` holds of their `Lt`.
#[derive(Debug, Drop)]
pub enum Atom {
    /// An expression of one bit is 1.
    One { expr: FExpr },
    /// Two vectors of one width are equal.
    Equal { left: FExpr, right: FExpr },
    /// Two arrays are equal, element by element from 0.
    SameElements { left: Elements, right: Elements },
    /// A word fits a pattern, whose first mark is for the word's highest bit.
    Fits { word: FExpr, pattern: Seq<Mark> },
}

/// A claim: one alone, or all or any of some. Of no claims all hold, and none does.
#[derive(Debug, Drop)]
pub enum Claim {
    Alone { atom: Atom },
    All { atoms: Seq<Atom> },
    Any { atoms: Seq<Atom> },
}

/// Where all premises hold, the goal does.
#[derive(Debug, Drop)]
pub struct Check {
    pub premises: Seq<Claim>,
    pub goal: Claim,
}
