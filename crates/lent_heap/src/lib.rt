//! An allocator over memory that a host lends, where there is no other: [`Heap`]. It takes blocks
//! back, and hands them out again. It uses no other crate of the project.
//!
//! Only a host can create a [`Memory`], which an export takes as a parameter: nothing in Rattle has
//! bytes of its own to lend. The host promises what the type says; then no two blocks share a byte.
#![tactic(auto)]

mod heap;
mod memory;
mod shelf;
mod stack;

pub use heap::Heap;
pub use memory::Memory;
