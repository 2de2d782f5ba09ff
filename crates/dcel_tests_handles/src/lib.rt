//! Tests of the borrowed handles of `spade_dcel`: ends, sides and duals, walks from both ends,
//! comparisons and debug output.
#![tactic(auto)]

#[cfg(test)]
mod borrowed;
#[cfg(test)]
mod debug_texts;
#[cfg(test)]
mod duals;
#[cfg(test)]
mod loops;
pub mod own_steps;
#[cfg(test)]
mod walks_both_ends;
