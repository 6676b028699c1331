//! Lines of refutations with what becomes of them, worked out by hand from the rule of hints, and texts of
//! certificates: tests of `lrat_check` and `lrat_text`.
#![tactic(auto)]

#[cfg(test)]
mod hints;
#[cfg(test)]
mod ids;
#[cfg(test)]
mod make;
#[cfg(test)]
mod order;
#[cfg(test)]
mod sum;
#[cfg(test)]
mod text;
#[cfg(test)]
mod whole;
