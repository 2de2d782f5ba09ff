//! Numbering faces by the marked edges between them and the outer face.

ghost use Rattle.std.specs.Prelude.{◌≡◌, ℕ, ◌+◌, ◌-◌, ◌/◌, ◌<◌, ◌≤◌, ◌++◌, [], ◌∷◌, true, false, IfOk, OnOk, length, map, replicate, slice_index};
ghost use Rattle.dcel_fixed.specs.HalfEdges.{rev};
ghost use Rattle.dcel_maps.specs.Shapes.{IsLive, face_count, face_is_live, face_of};
ghost use Rattle.dcel_maps.specs.Walking.{in_mesh};
ghost use Rattle.dcel_regions.specs.Marked.{IsMarked};
ghost use Rattle.dcel_regions.specs.Numbering.{IsNumbered, IsUnderWay, faces_over, work};
ghost use Rattle.dcel_regions.specs.Regions.{IsReached};
ghost use Rattle.spade_dcel.specs.Faces.{face_edges_of};
ghost use Rattle.spade_dcel.specs.Handles.{mesh_behind, number_of};

use crate::mark::Mark;
use spade_dcel::dcel::Dcel;
use spade_dcel::handles::{FaceHandle, FixedFaceHandle, OUTER_FACE, PossiblyOuterTag};
use spade_dcel::laws::every_mesh;
use std::alloc::{AllocError, Allocator};
use std::mem;

/// Returns for each face its depth: the least number of marked edges between it and the outer face.
///
/// A path leads from face to face across edges, and the depth counts the marked ones that it
/// crosses. So the outer face has 0, and so have all faces that it reaches across free edges; faces
/// behind one marked edge have 1, and so on. The faces on both sides of a free edge have the same
/// number, those of a marked one numbers that differ by at most one. If the marked edges are the
/// borders of polygons and of their holes, the numbers show what is inside: 1 in a polygon, 2 in a
/// hole of it. A marked edge that ends in a face divides nothing.
///
/// A face that an open removal has given up has 0. The time is linear: each face is numbered once,
/// and each half edge examined once. If memory runs out it returns `AllocError`.
pub fn regions<V, DE, F, A: Allocator, L: Allocator + Clone>(
    dcel: &Dcel<V, DE, Mark, F, A>,
    alloc: L,
) -> Result<Vec<usize, L>, AllocError>
    ensures count { IfOk result (λ numbers. length numbers.items ≡ face_count dcel.now.shape) }
    ensures reached { IfOk result (λ numbers. (f : ℕ) → face_is_live dcel.now.shape f ≡ true → IsReached dcel.now f (slice_index numbers.items f)) }
    ensures least { IfOk result (λ numbers. (f k : ℕ) → IsReached dcel.now f k → slice_index numbers.items f ≤ k) }
    ensures given_up { IfOk result (λ numbers. (f : ℕ) → face_is_live dcel.now.shape f ≡ false → slice_index numbers.items f ≡ 0) }
    ensures outer { IfOk result (λ numbers. slice_index numbers.items 0 ≡ 0) }
    ensures free { IfOk result (λ numbers. (h : ℕ) → IsLive dcel.now.shape h → ¬ IsMarked dcel.now (h / 2)
        → slice_index numbers.items (face_of dcel.now.shape (rev h)) ≡ slice_index numbers.items (face_of dcel.now.shape h)) }
    ensures marked { IfOk result (λ numbers. (h : ℕ) → IsLive dcel.now.shape h → IsMarked dcel.now (h / 2)
        → slice_index numbers.items (face_of dcel.now.shape (rev h)) ≤ slice_index numbers.items (face_of dcel.now.shape h) + 1) }
{
    every_mesh(dcel);
    let mut numbers = vec![in alloc.clone()?; 0; dcel.num_faces()]?;
    number_each(dcel, alloc, &mut numbers)?;
    count_from_zero(&mut numbers);
    Ok(numbers)
}

// Numbers each face from 1 on, and leaves 0 where there is none to reach.
fn number_each<V, DE, F, A: Allocator, L: Allocator + Clone>(
    dcel: &Dcel<V, DE, Mark, F, A>,
    alloc: L,
    numbers: &mut Vec<usize, L>,
) -> Result<(), AllocError>
    requires { numbers.old.items ≡ replicate (face_count dcel.now.shape) 0 }
    ensures { OnOk result (IsNumbered dcel.now numbers.new.items) }
{
    every_mesh(dcel);
    let mut due = Vec::new(alloc.clone()?);
    let mut beyond = Vec::new(alloc);
    due.push(OUTER_FACE)?;
    let mut level = 0;
    while let Some(face) = due.pop() {
        number_face(dcel, face, level, numbers, &mut due, &mut beyond)?;
        if due.is_empty() {
            mem::swap(&mut due, &mut beyond);
            level += 1;
        }
    }
    Ok(())
}

// Numbers a face, unless it has a number, and lists the faces beside it: over free edges as due at
// this level, over marked ones at the next.
fn number_face<V, DE, F, A: Allocator, L: Allocator>(
    dcel: &Dcel<V, DE, Mark, F, A>,
    face: FixedFaceHandle<PossiblyOuterTag>,
    level: usize,
    numbers: &mut Vec<usize, L>,
    due: &mut Vec<FixedFaceHandle<PossiblyOuterTag>, L>,
    beyond: &mut Vec<FixedFaceHandle<PossiblyOuterTag>, L>,
) -> Result<(), AllocError>
    requires { IsUnderWay dcel.now level numbers.old.items (due.old.items ++ face ∷ []) beyond.old.items }
    ensures under_way { OnOk result (IsUnderWay dcel.now level numbers.new.items due.new.items beyond.new.items) }
    ensures less { OnOk result (work dcel.now.shape.words numbers.new.items due.new.items beyond.new.items
        < work dcel.now.shape.words numbers.old.items (due.old.items ++ face ∷ []) beyond.old.items) }
{
    every_mesh(dcel);
    if numbers[face.index()] > 0 {
        return Ok(());
    }
    numbers[face.index()] = level + 1;
    list_beside(dcel.face(face), due, beyond)
}

// Appends the faces on the other sides of a face's half edges to one of two lists.
fn list_beside<V, DE, F, A: Allocator, L: Allocator>(
    face: FaceHandle<'_, PossiblyOuterTag, V, DE, Mark, F, A>,
    due: &mut Vec<FixedFaceHandle<PossiblyOuterTag>, L>,
    beyond: &mut Vec<FixedFaceHandle<PossiblyOuterTag>, L>,
) -> Result<(), AllocError>
    ensures due { let mesh = mesh_behind face.entry in
        OnOk result (due.new.items ≡ due.old.items ++ faces_over Mark.Free (in_mesh mesh (face_edges_of mesh (number_of face.entry)))) }
    ensures beyond { let mesh = mesh_behind face.entry in
        OnOk result (beyond.new.items ≡ beyond.old.items ++ faces_over Mark.Constraint (in_mesh mesh (face_edges_of mesh (number_of face.entry)))) }
{
    for edge in face.directed_edges() {
        let beside = edge.rev().face().fix();
        match *edge.as_undirected().data() {
            Mark::Free => due.push(beside)?,
            Mark::Constraint => beyond.push(beside)?,
        }
    }
    Ok(())
}

// Takes one off each number, and leaves what is 0.
fn count_from_zero<L: Allocator>(numbers: &mut Vec<usize, L>)
    ensures { numbers.new.items ≡ map (λ n. n - 1) numbers.old.items }
{
    for number in numbers.iter_mut() {
        *number = number.saturating_sub(1);
    }
}
