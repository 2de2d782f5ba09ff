//! Laws: what is true of every mesh.
//!
//! These functions compute nothing. Call one for what it ensures.

ghost use Rattle.dcel_maps.specs.Headline.{CountsTwo, FacesAreCycles, VerticesAreCycles};
ghost use Rattle.dcel_maps.specs.Maps.{Connected};
ghost use Rattle.dcel_maps.specs.Shapes.{IsAnchored, IsMesh, map_of};

use crate::dcel::Dcel;
pub use dcel_maps::laws::{
    a_swap_of_one_vertex_changes_nothing, an_inserted_vertex_comes_out_again,
    changes_keep_triangles, cleanup_closes_a_region, elementary_edits_keep_a_sphere,
    four_flips_go_round, growth_keeps_triangles, new_meshes_are_triangulated,
    removals_keep_triangles, removals_leave_what_is_live, the_headline_leaves_out,
    three_regions_are_filled, triangles_are_counted, two_swaps_change_nothing,
    two_triangles_are_no_sphere, words_have_each_half_edge,
};
use std::alloc::Allocator;

/// Ensures that the mesh is sound, a sphere, anchored and sized, as every mesh is.
///
/// - Sound: each live half edge occurs in exactly one word, once; a word is the boundary cycle of a
///   face. Along a word each half edge ends where the next one starts. An edge joins two different
///   live vertices. Two live half edges start at the same vertex exactly if repeated `ccw` leads
///   from one to the other.
/// - A sphere: the live edges are connected, and if an edge is live, the number of vertices with a
///   live edge, minus the number of live edges, plus the number of live faces, is two.
/// - Anchored: the anchor of a vertex starts there, and the anchor of a face is in its word. An
///   element has no anchor exactly if there is no such half edge.
/// - Sized: each element has its datum, and each vertex and face has a place for its anchor. There
///   are at most 2^32 vertices, 2^31 undirected edges and 2^32 faces.
pub fn every_mesh<V, DE, UE, F, A: Allocator>(dcel: &Dcel<V, DE, UE, F, A>)
    ensures { IsMesh dcel.now }
{
    let _ = &dcel.store;
}

/// Ensures that the stored half edges are a connected map on the sphere.
///
/// This is the headline. It is true whatever calls produced the mesh, and also while a removal is
/// open.
///
/// - The cycles of `next` are the live faces: the word of a live face is the walk by `next` from
///   each of its half edges.
/// - The cycles of `ccw` are the vertices with a live edge: the live half edges that start at a
///   vertex are the walk by `ccw` from each of them.
/// - The live half edges are connected.
/// - If an edge is live, the number of vertices with a live edge, minus the number of live edges,
///   plus the number of live faces, is two: Euler's formula.
/// - The anchor of a vertex starts there, and the anchor of a face is in its word. An element has
///   no anchor exactly if there is no such half edge.
///
/// [`the_headline_leaves_out`] has, for each of these, a map that it excludes.
pub fn the_headline<V, DE, UE, F, A: Allocator>(dcel: &Dcel<V, DE, UE, F, A>)
    ensures faces { FacesAreCycles dcel.now.shape }
    ensures vertices { VerticesAreCycles dcel.now.shape }
    ensures connected { Connected (map_of dcel.now.shape) }
    ensures two { CountsTwo dcel.now.shape }
    ensures anchored { IsAnchored dcel.now }
{
    every_mesh(dcel);
}
