//! Meshes in memory that may be refused.

use crate::rows::is_of_mesh;
use dcel_bench::data::write_distinct;
use dcel_bench::lines::carry_out;
use dcel_bench::meshes::Mesh;
use dcel_bench::refusing::{Memory, Watched};
use spade_dcel::operations::new;
use std::alloc::Allocator;
use std::test::Fail;

/// Has the mesh carry out the lines of a block that make one.
///
/// Each half edge, edge and face then has a datum of its own.
fn begin<A: Allocator + Copy>(dcel: &mut Mesh<A>, block: &str, memory: A) -> Result<(), Fail> {
    for line in block.lines() {
        if is_of_mesh(line) {
            carry_out(dcel, line, memory)?;
        }
    }
    write_distinct(dcel)
}

/// Makes the mesh of a block, for which there is memory.
pub fn made<A: Allocator + Copy>(memory: A, block: &str) -> Result<Mesh<A>, Fail> {
    let mut dcel: Mesh<A> = new(memory)?;
    begin(&mut dcel, block, memory)?;
    Ok(dcel)
}

/// Makes the mesh of a block without spare room.
///
/// Whatever it then grows by asks for memory.
pub fn fitted<'a>(memory: Memory<'a>, block: &str) -> Result<Watched<'a>, Fail> {
    // A clone has no spare room.
    Ok(made(memory, block)?.try_clone(memory)?)
}
