use lola_bits::{Name, Seq};

/// A name where it is used or declared, with the offset of its first byte.
#[derive(Debug, Drop)]
pub struct Named {
    pub name: Name,
    pub at: u32,
}

/// A number that is written in a type, behind a `.` or in a slice, or the constant that stands for
/// it.
#[derive(Debug, Drop)]
pub enum Count {
    Fixed { value: u128, at: u32 },
    Const { name: Named },
}

/// The type of a port, register or variable: a vector of `width` bits, or an array of `count`
/// vectors. The width of BIT, BYTE or WORD stands at that word.
#[derive(Debug, Drop)]
pub enum Shape {
    Vector { width: Count },
    Array { count: Count, width: Count },
}

/// A name in an expression. `source` is true for a name of the design that a table writes with `@`,
/// whose path may have several names; in a design's own text it is false, and the path is one name.
#[derive(Debug, Drop)]
pub struct Ref {
    pub source: bool,
    pub path: Seq<Name>,
    pub at: u32,
}
