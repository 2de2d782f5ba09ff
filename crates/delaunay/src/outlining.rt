//! Triangles inside an outline.

ghost use Rattle.std.specs.Prelude.{◌≡◌, IfOk, map};
ghost use Rattle.dcel_maps.specs.Removals.{Closed};
ghost use Rattle.dcel_output.specs.Outlining.{ListsInside};
ghost use Rattle.delaunay.specs.Segments.{segment_of};
ghost use Rattle.delaunay.specs.Texts.{AreBeside};

use crate::fault::{Fault, Wrong};
use crate::joins::Join;
use crate::quoting::Sentence;
use crate::segments::segments_of;
use crate::view::Inside;
use dcel_constrained::{ConstrainedMesh, Segment};
use dcel_output::{OutlineError, edges_beside, triangles_inside};
use spade_dcel::handles::FixedVertexHandle;
use std::alloc::{AllocError, Global};

/// Returns what is inside the outline whose sides these lines join. Each side has to be a chain of
/// marked edges of the mesh.
pub fn inside(
    alloc: Global,
    mesh: &ConstrainedMesh,
    vertices: &[Option<FixedVertexHandle>],
    sides: &[Join],
) -> Result<Inside, Fault>
    requires { mesh.now.shape.removal ≡ Closed }
    ensures triangles { IfOk result (λ inside. ListsInside mesh.now vertices.now (map segment_of sides.now) inside.triangles.items) }
    ensures edges { IfOk result (λ inside. AreBeside mesh.now inside) }
{
    let segments = segments_of(alloc, sides, &[])?;
    let triangles = flags(alloc, mesh, vertices, sides, &segments)?;
    let edges = edges_beside(alloc, mesh, &triangles)?;
    Ok(Inside { triangles, edges })
}

/// Tells of each triangle whether it is inside the outline with these sides.
fn flags(
    alloc: Global,
    mesh: &ConstrainedMesh,
    vertices: &[Option<FixedVertexHandle>],
    sides: &[Join],
    segments: &[Segment],
) -> Result<Vec<bool>, Fault>
    requires { mesh.now.shape.removal ≡ Closed }
    ensures { IfOk result (λ flags. ListsInside mesh.now vertices.now segments.now flags.items) }
{
    match triangles_inside(alloc, mesh, vertices, segments) {
        Ok(flags) => Ok(flags),
        Err(error) => Err(fault_of(error, sides)),
    }
}

/// Returns the fault for an outline with these sides.
fn fault_of(error: OutlineError, sides: &[Join]) -> Fault {
    match error {
        OutlineError::NoChain(number) => match sides.get(number) {
            Some(side) => Fault::Line {
                line: side.line,
                wrong: Wrong::Said(Sentence::NoChain),
            },
            None => Fault::Input(Wrong::Said(Sentence::NoChain)),
        },
        OutlineError::OutOfMemory => Fault::OutOfMemory(AllocError),
    }
}
