//! What holds of whatever C holds.

ghost use Rattle.std.specs.Prelude.{◌≡◌};
ghost use Rattle.dcel_c.specs.Calls.{kept_in};
ghost use Rattle.dcel_c.specs.Laws.{IsSoundIfKept};

use crate::mesh::DcelMesh;
use spade_dcel::laws::every_mesh;

/// Ensures that the mesh, if there is one, is sound, a sphere, anchored and sized.
pub fn every_kept_mesh(mesh: &mut DcelMesh)
    ensures sound { IsSoundIfKept (kept_in mesh.old) }
    ensures same { kept_in mesh.new ≡ kept_in mesh.old }
{
    if mesh.is_open {
        every_mesh(mesh.held.as_mut());
    }
}
