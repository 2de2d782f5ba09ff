//! Replies to commands, as the lines that say them.

use dcel_commands::commands::Reply;
use dcel_commands::legalize::Legalized;
use spade_dcel::handles::{FixedHandleImpl, InnerTag};
use spade_dcel::operations::{IsolateVertexResult, RemovalResult};
use std::alloc::{AllocError, Allocator, Global};

/// Returns the numbers of elements, each after a space.
fn numbers<Kind>(
    elements: &[FixedHandleImpl<Kind, InnerTag>],
    alloc: Global,
) -> Result<String, AllocError> {
    let mut text = String::new(alloc);
    for element in elements {
        let number = format!(in alloc; " {}", element.index())?;
        text.push_str(&number)?;
    }
    Ok(text)
}

fn opened_text<A: Allocator>(
    opened: &IsolateVertexResult<A>,
    alloc: Global,
) -> Result<String, AllocError> {
    let edges = numbers(&opened.edges_to_remove, alloc)?;
    let faces = numbers(&opened.faces_to_remove, alloc)?;
    let new_edges = numbers(&opened.new_edges, alloc)?;
    format!(in alloc; "opened edges{edges} faces{faces} new{new_edges}")
}

fn removed_text(removed: &RemovalResult<i64>, alloc: Global) -> Result<String, AllocError> {
    let datum = removed.removed_vertex;
    match removed.swapped_in_vertex {
        Some(moved) => format!(in alloc; "removed {datum} moved {}", moved.index()),
        None => format!(in alloc; "removed {datum}"),
    }
}

fn flips_text(ended: Legalized, alloc: Global) -> Result<String, AllocError> {
    let ending = match ended {
        Legalized::Done { .. } => "done",
        Legalized::Stopped { .. } => "stopped",
        Legalized::OutOfMemory { .. } => "memory",
    };
    format!(in alloc; "flips {} {ending}", ended.flips())
}

/// Returns the line that says the reply.
pub fn reply_text<A: Allocator>(
    reply: &Reply<i64, A>,
    alloc: Global,
) -> Result<String, AllocError> {
    match reply {
        Reply::Ok => format!(in alloc; "ok"),
        Reply::Vertex(vertex) => format!(in alloc; "vertex {}", vertex.index()),
        Reply::Half(edge) => format!(in alloc; "half {}", edge.index()),
        Reply::Halves([first, second]) => {
            format!(in alloc; "halves {} {}", first.index(), second.index())
        }
        Reply::Opened(opened) => opened_text(opened, alloc),
        Reply::Removed(removed) => removed_text(removed, alloc),
        Reply::Flips(ended) => flips_text(*ended, alloc),
    }
}
