//! Graphs with the order of their equations, or the loop that prevents it, worked out by hand: tests of
//! `lola_order`. A graph is a list with a row for each signal, the numbers that occur in its equation, or
//! None where it is given.
#![tactic(auto)]

#[cfg(test)]
mod answer;
#[cfg(test)]
mod large;
#[cfg(test)]
mod small;
