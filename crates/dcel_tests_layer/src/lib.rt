//! Tests of `spade_dcel` and of commands that only Rattle can say: a caller for each call that reads,
//! walks or tests, without memory; elements that are lent by number; data mapped by closures and to
//! another type; room that is reserved; and what lists of commands hand back.
#![tactic(auto)]

#[cfg(test)]
mod elements;
#[cfg(test)]
mod lists;
#[cfg(test)]
mod live;
#[cfg(test)]
mod memoryless;
#[cfg(test)]
mod whole_meshes;
