use crate::clause::Clause;
use lola_bits::Seq;

/// A line of a refutation: a clause that is put in force under an id, with the ids of the clauses by which it
/// follows, or ids that are taken out of force. The id of a deletion says nothing.
#[derive(Debug, Drop)]
pub enum Line {
    Add {
        id: u64,
        clause: Clause,
        hints: Seq<i64>,
    },
    Delete {
        id: u64,
        ids: Seq<u64>,
    },
}
