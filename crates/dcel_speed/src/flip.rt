//! Edges between triangles, flipped.

use crate::fault::Fault;
use crate::measure::{time_editing, timed};
use crate::random::Random;
use crate::workloads::{Mesh, Timed, triangulated};
use spade_dcel::handles::FixedUndirectedEdgeHandle;
use spade_dcel::operations::flip_cw;
use std::rt::Clock;
use std::time::Instant;

/// Offset of its random seed from that of `insert`.
const OWN: u64 = 3;

/// Times `size` draws of an edge of a mesh of triangles; each edge that can be flipped is.
pub fn flip<D: Default + Drop + Clone>(
    rt: &(impl Clock + AllocGlobal),
    size: u32,
) -> Result<Timed, Fault> {
    let built = triangulated::<D>(rt.alloc(), size)?;
    time_editing(rt, &built, |dcel: &mut Mesh<D>| {
        let start = Instant::now(rt);
        let flips = flip_drawn(dcel, size);
        timed(rt, start, dcel, u64::from(size), Some(flips))
    })
}

/// Draws `size` edges, flips those that can be flipped, and returns how many were.
fn flip_drawn<D>(dcel: &mut Mesh<D>, draws: u32) -> u64 {
    let edges = dcel.num_undirected_edges();
    if edges == 0 {
        return 0;
    }
    let mut random = Random::new(OWN);
    let mut flips: u64 = 0;
    for _ in 0..draws {
        let edge = FixedUndirectedEdgeHandle::new(random.below(edges));
        if dcel.can_flip(edge) {
            flip_cw(dcel, edge);
            flips = flips.wrapping_add(1);
        }
    }
    flips
}
