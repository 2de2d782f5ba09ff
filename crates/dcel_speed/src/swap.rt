//! Vertices, swapped in pairs.

use crate::fault::Fault;
use crate::measure::{time_editing, timed};
use crate::random::Random;
use crate::workloads::{Mesh, Timed, triangulated};
use spade_dcel::handles::FixedVertexHandle;
use std::rt::Clock;
use std::time::Instant;

/// Offset of its random seed from that of `insert`.
const OWN: u64 = 7;

/// Times `size` swaps of vertices drawn at random, on a mesh of triangles.
pub fn swap<D: Default + Drop + Clone>(
    rt: &(impl Clock + AllocGlobal),
    size: u32,
) -> Result<Timed, Fault> {
    let built = triangulated::<D>(rt.alloc(), size)?;
    time_editing(rt, &built, |dcel: &mut Mesh<D>| {
        let start = Instant::now(rt);
        swap_drawn(dcel, size);
        timed(rt, start, dcel, u64::from(size), None)
    })
}

/// Draws `size` pairs of vertices, and swaps each.
fn swap_drawn<D>(dcel: &mut Mesh<D>, pairs: u32) {
    let vertices = dcel.num_vertices();
    if vertices == 0 {
        return;
    }
    let mut random = Random::new(OWN);
    for _ in 0..pairs {
        let first = FixedVertexHandle::new(random.below(vertices));
        let second = FixedVertexHandle::new(random.below(vertices));
        if dcel.is_live_vertex(first) && dcel.is_live_vertex(second) {
            dcel.swap_vertices(first, second);
        }
    }
}
