//! The triangles of a net, seen from each of their corners.

use crate::net::Net;
use crate::place::at;
use dcel_drawn::Place;
use std::alloc::{AllocError, Allocator};

/// A triangle seen from one of its corners: the other two, counterclockwise.
#[derive(Clone, Copy)]
pub(crate) struct Wing {
    pub near: usize,
    pub far: usize,
    pub is_inside: bool,
}

impl Wing {
    /// Returns the places of the other two corners.
    pub fn corners(self, places: &[Place]) -> (Place, Place) {
        (at(places, self.near), at(places, self.far))
    }
}

/// The triangles round each node.
pub(crate) type Wings<B> = Vec<Vec<Wing, B>, B>;

/// Lists the triangles round each of the first so many nodes.
pub(crate) fn wings_of<B: Allocator + Copy>(
    alloc: B,
    net: &Net<B>,
    count: usize,
) -> Result<Wings<B>, AllocError> {
    let mut wings: Wings<B> = Vec::new(alloc);
    for _ in 0..count {
        wings.push(Vec::new(alloc))?;
    }
    for triangle in &net.triangles {
        let [a, b, c] = triangle.nodes;
        for (node, near, far) in [(a, b, c), (b, c, a), (c, a, b)] {
            if let Some(list) = wings.get_mut(node) {
                list.push(Wing {
                    near,
                    far,
                    is_inside: triangle.is_inside,
                })?;
            }
        }
    }
    Ok(wings)
}
