use lola_bits::Seq;
use lrat_check::Line;

/// The answer of a search with a limit.
#[derive(Debug, Drop)]
pub enum Found {
    /// Lines that refute the clauses.
    Refutation { lines: Seq<Line> },
    /// A value for each variable, that of variable 1 first, under which every clause is true.
    Assignment { values: Seq<bool> },
    /// Good lines with as many additions as the limit, which don't refute the clauses.
    Spent { lines: Seq<Line> },
}

/// The answer of a split.
#[derive(Debug, Drop)]
pub enum SplitFound {
    /// Lines that refute the clauses.
    Refutation { lines: Seq<Line> },
    /// A value for each variable, that of variable 1 first, under which every clause is true.
    Assignment { values: Seq<bool> },
}
