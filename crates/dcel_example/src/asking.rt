//! What a call asks for, met in three ways: proved, tested, or by commands, which test everything.

ghost use Rattle.dcel_maps.specs.Shapes.{IsLive};

use crate::editing::triangle;
use dcel_commands::commands::{Command, MAX_LIMIT, apply};
use spade_dcel::dcel::Dcel;
use spade_dcel::handles::{FixedDirectedEdgeHandle, FixedVertexHandle};
use spade_dcel::operations::{Room, split_half_edge};
use std::alloc::{AllocError, Global};
use std::io;

/// Returns the vertex before a half edge. Proved: what a step asks, it asks of its own callers.
fn before<V>(dcel: &Dcel<V>, edge: FixedDirectedEdgeHandle) -> FixedVertexHandle
    requires { IsLive dcel.now.shape edge }
{
    dcel.directed_edge(edge).prev().from().fix()
}

/// Puts a vertex into a half edge of a triangle, and returns whether that could be done. Tested.
fn split<V>(
    dcel: &mut Dcel<V>,
    edge: FixedDirectedEdgeHandle,
    vertex: FixedVertexHandle,
) -> Result<bool, AllocError> {
    if !dcel.can_split_half_edge(edge, vertex) || !dcel.has_room_for(Room::SPLIT_HALF_EDGE) {
        return Ok(false);
    }
    split_half_edge(dcel, edge, vertex)?;
    Ok(true)
}

/// Carries a command out by `apply`, which tests all that it asks.
fn carry_out<V: Drop>(dcel: &mut Dcel<V>, command: Command<V>) -> &'static str {
    match apply(dcel, command, MAX_LIMIT) {
        Ok(_) => "done",
        Err(refused) => refused.why.name(),
    }
}

/// Shows each way with a half edge that is there, and with one that isn't.
pub fn show(rt: &impl Print, alloc: Global) -> io::Result<()> {
    let mut dcel = triangle(alloc)?;
    show_ways(rt, &mut dcel)
}

fn show_ways(rt: &impl Print, dcel: &mut Dcel<&'static str>) -> io::Result<()> {
    println!(rt; "append: {}", carry_out(dcel, Command::Append("d")))?;
    for number in [1, 99] {
        show_at(rt, dcel, FixedDirectedEdgeHandle::new(number))?;
    }
    Ok(())
}

fn show_at<V: Drop>(
    rt: &impl Print,
    dcel: &mut Dcel<V>,
    edge: FixedDirectedEdgeHandle,
) -> io::Result<()> {
    let number = edge.index();
    if dcel.is_live_edge(edge.as_undirected()) {
        println!(rt; "before {number}: {}", before(dcel, edge).index())?;
    }
    let is_split = split(dcel, edge, FixedVertexHandle::new(3))?;
    println!(rt; "split {number}: {is_split}")?;
    let flip = Command::Flip(edge.as_undirected());
    println!(rt; "flip the edge of {number}: {}", carry_out(dcel, flip))
}
