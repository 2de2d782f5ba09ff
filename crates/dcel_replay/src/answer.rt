//! What a line is answered, before it is written as text.

use dcel_commands::commands::{Query, Refusal, Reply};
use std::alloc::{Allocator, Global};

/// What a line is answered. [`Replay::write`](crate::Replay::write) writes it as text.
#[derive(Drop)]
pub enum Answer<A: Allocator = Global> {
    /// It is neither a command nor a query.
    BadLine,
    /// The mesh refuses what it says.
    Refused(Refusal),
    /// It is a command that was carried out, and this is the reply.
    Done(Reply<i64, A>),
    /// It is a query. Its answer is told once it is written, of the mesh as it is then.
    Asked(Query),
}
