//! The worked examples as tests. Each runs a command over files and an output in memory, and its
//! status and printed text are those that were worked out by hand from the rules.
#![tactic(auto)]

#[cfg(test)]
mod decide;
#[cfg(test)]
mod makers;
#[cfg(test)]
mod outside;
#[cfg(test)]
mod refusals;
#[cfg(test)]
mod vectors;
#[cfg(test)]
mod verdicts;
