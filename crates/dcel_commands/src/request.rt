//! What a line says: a command or a query. Each command has a file for what it asks and how it is
//! carried out; `out` and `words` write answers to queries.

pub mod append;
pub mod cleanup;
pub mod clear;
pub mod close;
pub mod degenerate;
pub mod extend;
pub mod flip;
pub mod half;
pub mod insert;
pub mod isolate;
pub mod legalize;
pub mod line;
pub mod out;
pub mod outside;
pub mod put;
pub mod remesh;
pub mod remove;
pub mod setup;
pub mod split;
pub mod strip;
pub mod swap;
pub mod triangle;
pub mod words;

use crate::commands::{Command, Query};
use spade_dcel::dcel::Dcel;
use std::alloc::Allocator;

/// The mesh that lines are about, whose data are numbers.
pub type LineMesh<A> = Dcel<i64, i64, i64, i64, A>;

/// What a line says. Its lists are in the memory of `A`.
#[derive(Drop)]
pub enum Request<A: Allocator> {
    /// A command, which edits the mesh.
    Edit(Command<i64, A>),
    /// A query about the mesh.
    Ask(Query),
}
