//! A digest of a mesh, which tells two runs or two implementations apart.

ghost use Rattle.spade_dcel.specs.Handles.{mesh_behind, number_of};
ghost use Rattle.dcel_maps.specs.Shapes.{IsLive};

use spade_dcel::dcel::Dcel;
use spade_dcel::handles::{DirectedEdgeHandle, FixedDirectedEdgeHandle};
use std::alloc::Allocator;

/// The state before the first number, and what it is multiplied by after each: FNV-1a's offset
/// basis and its prime, over numbers in place of bytes.
const START: u64 = 0xcbf2_9ce4_8422_2325;

const PRIME: u64 = 0x0000_0100_0000_01b3;

/// A sum of numbers that depends on their order.
#[derive(Drop)]
struct Digest {
    state: u64,
}

impl Digest {
    fn new() -> Self {
        Digest { state: START }
    }

    fn add(&mut self, number: usize) {
        self.state = (self.state ^ number as u64).wrapping_mul(PRIME);
    }

    /// Adds the links of a half edge: next, previous, origin, face.
    fn add_links<V, DE, UE, F, A: Allocator>(
        &mut self,
        edge: DirectedEdgeHandle<'_, V, DE, UE, F, A>,
    )
        requires { IsLive (mesh_behind edge).shape (number_of edge) }
    {
        self.add(edge.next().index());
        self.add(edge.prev().index());
        self.add(edge.from().index());
        self.add(edge.face().index());
    }
}

/// Returns the digest of a mesh: its counts and the links of its half edges. Anchors, data and the
/// half edges that an open removal has given up play no part.
pub fn digest_of<V, DE, UE, F, A: Allocator>(dcel: &Dcel<V, DE, UE, F, A>) -> u64 {
    let mut digest = Digest::new();
    digest.add(dcel.num_vertices());
    digest.add(dcel.num_undirected_edges());
    digest.add(dcel.num_faces());
    for index in 0..dcel.num_directed_edges() {
        let handle = FixedDirectedEdgeHandle::new(index);
        if dcel.is_live_edge(handle.as_undirected()) {
            digest.add_links(dcel.directed_edge(handle));
        }
    }
    digest.state
}

/// Mixes a number into a digest.
pub fn mix(digest: u64, number: u64) -> u64 {
    (digest ^ number).wrapping_mul(PRIME).rotate_left(17)
}
