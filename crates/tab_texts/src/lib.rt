//! Tables and rows of tables with what the reader makes of each, worked out by hand from the grammar:
//! each kind of row and each section, and each broken once.
#![tactic(auto)]

#[cfg(test)]
mod answer;
#[cfg(test)]
mod places;
#[cfg(test)]
mod rows;
#[cfg(test)]
mod tables;
