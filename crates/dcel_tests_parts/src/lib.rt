//! Tests of crates below and beside `spade_dcel`: calls that list, make and edit meshes, each with
//! each of its requests for memory refused; fixed handles; texts of faults; and readers and writers
//! that fail.
//!
//! What these calls do to meshes of all kinds is tested over the library, in `bindings/python/tests`.
#![tactic(auto)]

#[cfg(test)]
mod callers;
#[cfg(test)]
mod closed;
#[cfg(test)]
mod handles;
#[cfg(test)]
mod links;
#[cfg(test)]
mod memory;
#[cfg(test)]
mod meshes;
#[cfg(test)]
mod texts;
#[cfg(test)]
mod transfers;
