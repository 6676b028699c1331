//! Texts of designs with the first rule of names, widths and assignments that each breaks, worked out
//! by hand from the table of source faults, and texts that break none.
//!
//! A row is a line. It has the text of a design, or a body for a design that declares a name of each
//! kind, and behind ` => ` the fault that is answered, as it is printed, but without its place. That
//! is where a `$` stands in the text, which is taken out before it is read. A row without a fault is
//! well sized. A line that is a comment is the heading of the rows behind it.
#![tactic(auto)]

#[cfg(test)]
mod answer;
#[cfg(test)]
mod assignments;
#[cfg(test)]
mod clocks;
#[cfg(test)]
mod kinds;
#[cfg(test)]
mod large;
#[cfg(test)]
mod names;
#[cfg(test)]
mod order;
#[cfg(test)]
mod sized;
#[cfg(test)]
mod widths;
#[cfg(test)]
mod worked;
