use lola_bits::{Memory, Seq};

/// What an engine claims next. No claim is trusted.
#[derive(Debug, Drop)]
pub enum Event {
    /// A clause that is to be added with these hints, and ids that are to go out of force behind it.
    Learnt {
        clause: Seq<i32>,
        hints: Seq<i64>,
        dropped: Seq<u64>,
    },
    /// A value for each variable, under which every clause is said to be true.
    Model {
        values: Seq<bool>,
    },
    /// Nothing more will come.
    GaveUp,
}

/// A source of claims. The clauses that it tells have the ids behind those of the Cnf, in the order in which it tells
/// them. It isn't asked again once a claim was refused.
pub trait Engine {
    fn step(&mut self) -> Result<Event, Memory>;
}
