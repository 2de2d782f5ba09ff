//! Steps from a live half edge.

ghost use Rattle.std.specs.Prelude.{◌≡◌};
ghost use Rattle.dcel_fixed.specs.HalfEdges.{rev};
ghost use Rattle.dcel_maps.specs.Shapes.{next_of, prev_of, origin_of, end_of, face_of};
ghost use Rattle.dcel_maps.specs.Walking.{ccw_of, cw_of};
ghost use Rattle.dcel_c.specs.Calls.{kept_in, link_in};
ghost use Rattle.dcel_c.specs.Steps.{link_of};

use crate::mesh::DcelMesh;
use crate::status::NONE;
use spade_dcel::handles::FixedDirectedEdgeHandle;

/// A step from a half edge.
#[derive(Clone, Copy)]
pub enum Step {
    Next,
    Prev,
    Rev,
    Ccw,
    Cw,
    From,
    To,
    Face,
}

/// Returns the number of what the step leads to, or [`NONE`] if there is no such live half edge.
#[inline(always)]
fn take_step(mesh: &mut DcelMesh, edge: u32, step: Step) -> u64
    ensures step { result ≡ link_in (link_of step) (kept_in mesh.old) edge }
    ensures same { kept_in mesh.new ≡ kept_in mesh.old }
{
    if !mesh.is_open {
        return NONE;
    }
    let dcel = mesh.held.as_mut();
    let edge = FixedDirectedEdgeHandle::new(edge as usize);
    if !dcel.is_live_edge(edge.as_undirected()) {
        return NONE;
    }
    let edge = dcel.directed_edge(edge);
    let number = match step {
        Step::Next => edge.next().index(),
        Step::Prev => edge.prev().index(),
        Step::Rev => edge.rev().index(),
        Step::Ccw => edge.ccw().index(),
        Step::Cw => edge.cw().index(),
        Step::From => edge.from().index(),
        Step::To => edge.to().index(),
        Step::Face => edge.face().index(),
    };
    number as u64
}

/// Returns the half edge after it on its face, or [`NONE`] if it isn't live.
#[unsafe(no_mangle)]
pub extern "C" fn dcel_next(mesh: &mut DcelMesh, edge: u32) -> u64
    ensures step { result ≡ link_in next_of (kept_in mesh.old) edge }
    ensures same { kept_in mesh.new ≡ kept_in mesh.old }
{
    take_step(mesh, edge, Step::Next)
}

/// Returns the half edge before it on its face, or [`NONE`] if it isn't live.
#[unsafe(no_mangle)]
pub extern "C" fn dcel_prev(mesh: &mut DcelMesh, edge: u32) -> u64
    ensures step { result ≡ link_in prev_of (kept_in mesh.old) edge }
    ensures same { kept_in mesh.new ≡ kept_in mesh.old }
{
    take_step(mesh, edge, Step::Prev)
}

/// Returns the other half of its edge, or [`NONE`] if it isn't live.
#[unsafe(no_mangle)]
pub extern "C" fn dcel_rev(mesh: &mut DcelMesh, edge: u32) -> u64
    ensures step { result ≡ link_in (λ shape h. rev h) (kept_in mesh.old) edge }
    ensures same { kept_in mesh.new ≡ kept_in mesh.old }
{
    take_step(mesh, edge, Step::Rev)
}

/// Returns the half edge after it out of the same vertex, or [`NONE`] if it isn't live.
#[unsafe(no_mangle)]
pub extern "C" fn dcel_ccw(mesh: &mut DcelMesh, edge: u32) -> u64
    ensures step { result ≡ link_in ccw_of (kept_in mesh.old) edge }
    ensures same { kept_in mesh.new ≡ kept_in mesh.old }
{
    take_step(mesh, edge, Step::Ccw)
}

/// Returns the half edge before it out of the same vertex, or [`NONE`] if it isn't live.
#[unsafe(no_mangle)]
pub extern "C" fn dcel_cw(mesh: &mut DcelMesh, edge: u32) -> u64
    ensures step { result ≡ link_in cw_of (kept_in mesh.old) edge }
    ensures same { kept_in mesh.new ≡ kept_in mesh.old }
{
    take_step(mesh, edge, Step::Cw)
}

/// Returns the vertex that it starts at, or [`NONE`] if it isn't live.
#[unsafe(no_mangle)]
pub extern "C" fn dcel_from(mesh: &mut DcelMesh, edge: u32) -> u64
    ensures step { result ≡ link_in origin_of (kept_in mesh.old) edge }
    ensures same { kept_in mesh.new ≡ kept_in mesh.old }
{
    take_step(mesh, edge, Step::From)
}

/// Returns the vertex that it ends at, or [`NONE`] if it isn't live.
#[unsafe(no_mangle)]
pub extern "C" fn dcel_to(mesh: &mut DcelMesh, edge: u32) -> u64
    ensures step { result ≡ link_in end_of (kept_in mesh.old) edge }
    ensures same { kept_in mesh.new ≡ kept_in mesh.old }
{
    take_step(mesh, edge, Step::To)
}

/// Returns the face that it lies on, or [`NONE`] if it isn't live.
#[unsafe(no_mangle)]
pub extern "C" fn dcel_face(mesh: &mut DcelMesh, edge: u32) -> u64
    ensures step { result ≡ link_in face_of (kept_in mesh.old) edge }
    ensures same { kept_in mesh.new ≡ kept_in mesh.old }
{
    take_step(mesh, edge, Step::Face)
}
