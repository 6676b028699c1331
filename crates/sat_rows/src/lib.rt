//! Clauses with what a search answers on them, worked out by hand, and engines that lie: tests of `sat_search`.
#![tactic(auto)]

#[cfg(test)]
mod edges;
#[cfg(test)]
mod gates;
#[cfg(test)]
mod liars;
#[cfg(test)]
mod make;
#[cfg(test)]
mod splits;
#[cfg(test)]
mod sums;
