//! Lists of what is shown.

ghost use Rattle.std.specs.Prelude.{◌≡◌, IfOk, option_copied};
ghost use Rattle.dcel_output.specs.Numbering.{edges_numbered, triangles_numbered};
ghost use Rattle.delaunay.specs.Texts.{across_each, shown, shown_across, shown_edges};

use crate::view::View;
use dcel_delaunay::Triangle;
use dcel_delaunay::lists::{Across, Ends, neighbors};
use dcel_output::{kept, kept_neighbors, numbered_edges, numbered_triangles};
use std::alloc::{AllocError, Global};

/// Lists the triangles that are shown.
pub fn shown_triangles<UE>(alloc: Global, view: &View<'_, UE>) -> Result<Vec<Triangle>, AllocError>
    ensures { IfOk result (λ list. list.items ≡ shown (option_copied view.now.inside) (triangles_numbered view.now.mesh.now view.now.numbers.now)) }
{
    let all = numbered_triangles(alloc, view.mesh, view.numbers)?;
    match view.inside {
        None => Ok(all),
        Some(inside) => kept(alloc, &all, &inside.triangles),
    }
}

/// Lists the edges that are shown.
pub fn shown_edges<UE>(alloc: Global, view: &View<'_, UE>) -> Result<Vec<Ends>, AllocError>
    ensures { IfOk result (λ list. list.items ≡ shown_edges (option_copied view.now.inside) (edges_numbered view.now.mesh.now view.now.numbers.now)) }
{
    let all = numbered_edges(alloc, view.mesh, view.numbers)?;
    match view.inside {
        None => Ok(all),
        Some(inside) => kept(alloc, &all, &inside.edges),
    }
}

/// Lists what is across from the corners of the triangles that are shown, by their places among
/// these.
pub fn shown_neighbors<UE>(alloc: Global, view: &View<'_, UE>) -> Result<Vec<Across>, AllocError>
    ensures { IfOk result (λ list. list.items ≡ shown_across (option_copied view.now.inside) (across_each view.now.mesh.now)) }
{
    let all = neighbors(alloc, view.mesh)?;
    match view.inside {
        None => Ok(all),
        Some(inside) => kept_neighbors(alloc, &all, &inside.triangles),
    }
}
