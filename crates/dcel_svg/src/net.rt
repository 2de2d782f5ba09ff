//! The mesh as a net of triangles in a ring, which any live part of a mesh can be made into.
//!
//! Its nodes are the vertices; a node in the middle of each edge that joins the same vertices as
//! another one; one in the middle of each inner face that is then no triangle; and a ring of nodes
//! round it all. So each node that isn't on the ring is inside, whatever the outer face looks like.

use crate::bends::ranks;
use dcel_drawn::round;
use spade_dcel::dcel::Dcel;
use spade_dcel::handles::{FixedFaceHandle, OUTER_FACE, PossiblyOuterTag};
use std::alloc::{AllocError, Allocator};

/// A net of triangles, with a ring of nodes round it.
#[derive(Drop)]
pub(crate) struct Net<B: Allocator> {
    /// The node in the middle of each edge that bends.
    bends: Vec<Option<usize>, B>,
    /// The triangles, counterclockwise.
    pub triangles: Vec<Triangle, B>,
    /// The first node of those round all others, which have the greatest numbers: of the ring,
    /// clockwise, or of the three corners of a closed net.
    pub ring: usize,
    /// How many nodes there are.
    pub nodes: usize,
}

/// A triangle of a net.
#[derive(Clone, Copy)]
pub(crate) struct Triangle {
    /// The numbers of its nodes.
    pub nodes: [usize; 3],
    /// Whether it lies inside the mesh, and not between the mesh and the ring.
    pub is_inside: bool,
}

/// Makes the live part of a mesh a net.
pub(crate) fn net_of<V, DE, UE, F, A: Allocator, B: Allocator + Copy>(
    alloc: B,
    mesh: &Dcel<V, DE, UE, F, A>,
) -> Result<Net<B>, AllocError> {
    let mut net = Net {
        bends: Vec::new(alloc),
        triangles: Vec::new(alloc),
        ring: 0,
        nodes: mesh.num_vertices(),
    };
    for rank in &ranks(alloc, mesh, Some(mesh), &[])? {
        let bend = if rank.count > 1 {
            Some(net.new_node())
        } else {
            None
        };
        net.bends.push(bend)?;
    }
    for number in 1..mesh.num_faces() {
        let corners = net.nodes_round(alloc, mesh, FixedFaceHandle::new(number))?;
        net.fill(corners.as_slice())?;
    }
    let corners = net.nodes_round(alloc, mesh, OUTER_FACE)?;
    net.surround(corners.as_slice())?;
    Ok(net)
}

impl<B: Allocator + Copy> Net<B> {
    fn new_node(&mut self) -> usize {
        let node = self.nodes;
        self.nodes = node.saturating_add(1);
        node
    }

    fn push(&mut self, nodes: [usize; 3], is_inside: bool) -> Result<(), AllocError> {
        self.triangles.push(Triangle { nodes, is_inside })?;
        Ok(())
    }

    /// Returns the node in the middle of an edge, if it bends.
    pub fn bend(&self, edge: usize) -> Option<usize> {
        match self.bends.get(edge) {
            Some(node) => *node,
            None => None,
        }
    }

    /// Lists the nodes round a face.
    fn nodes_round<V, DE, UE, F, A: Allocator>(
        &self,
        alloc: B,
        mesh: &Dcel<V, DE, UE, F, A>,
        face: FixedFaceHandle<PossiblyOuterTag>,
    ) -> Result<Vec<usize, B>, AllocError> {
        let mut corners = Vec::new(alloc);
        for edge in round(mesh, face) {
            corners.push(edge.from().index())?;
            if let Some(bend) = self.bend(edge.fix().as_undirected().index()) {
                corners.push(bend)?;
            }
        }
        Ok(corners)
    }

    /// Fills an inner face by one triangle, or by several round a node in its middle.
    fn fill(&mut self, corners: &[usize]) -> Result<(), AllocError> {
        if let [a, b, c] = corners {
            return self.push([*a, *b, *c], true);
        }
        let Some(last) = corners.last() else {
            return Ok(());
        };
        let middle = self.new_node();
        let mut before = *last;
        for corner in corners {
            self.push([before, *corner, middle], true)?;
            before = *corner;
        }
        Ok(())
    }

    /// Puts a node outside of the ring, which is joined to all of its nodes. So with the last two of
    /// them it is the triangle round all others.
    pub fn close(&mut self) -> Result<(), AllocError> {
        let top = self.new_node();
        let mut before = top.saturating_sub(1);
        for node in self.ring..top {
            self.push([before, node, top], false)?;
            before = node;
        }
        self.ring = self.nodes.saturating_sub(3);
        Ok(())
    }

    /// Returns the corners of a closed net: on the right, on the left and at the top.
    pub fn corners(&self) -> [usize; 3] {
        let right = self.ring;
        let left = right.saturating_add(1);
        [right, left, left.saturating_add(1)]
    }

    /// Puts a node of the ring outside of each step round the outer face.
    fn surround(&mut self, corners: &[usize]) -> Result<(), AllocError> {
        self.ring = self.nodes;
        let Some(last) = corners.last() else {
            return Ok(());
        };
        let mut before = *last;
        let mut outside = self.nodes.saturating_add(corners.len()).saturating_sub(1);
        for corner in corners {
            let next = self.new_node();
            self.push([before, *corner, next], false)?;
            self.push([before, next, outside], false)?;
            before = *corner;
            outside = next;
        }
        Ok(())
    }
}
