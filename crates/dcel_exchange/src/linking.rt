//! The links of numbered sides, and of the border around them.

ghost use Rattle.std.specs.Prelude.{◌≡◌, ℕ, ◌+◌, ◌^◌, ◌<◌, ◌≤◌, IfErr, IfOk, OnOk, None, Some, length, slice_index, slice_index_or};
ghost use Rattle.dcel_exchange.specs.Bordering.{AreFound, AreLinked};
ghost use Rattle.dcel_exchange.specs.Numbering.{AreNumbered};
ghost use Rattle.dcel_exchange.specs.Reasons.{Tells};
ghost use Rattle.dcel_fixed.specs.HalfEdges.{rev};

use crate::numbering::Numbering;
use crate::refusal::FacesError;
use crate::sides::Sides;
use std::alloc::{AllocError, Allocator};

/// Finds the half edge that is no side and starts at each vertex.
pub(crate) fn find_border<A: Allocator + Clone>(
    alloc: &A,
    sides: &Sides<A>,
    numbering: &Numbering<A>,
    vertices: usize,
) -> Result<Vec<Option<u32>, A>, FacesError>
    requires few { length numbering.now.origin.items ≤ 2 ^ 32 }
    requires numbered { AreNumbered sides.now.from.items sides.now.to.items (length sides.now.from.items) numbering.now.half.items numbering.now.side.items numbering.now.origin.items }
    requires below { (h : ℕ) → h < length numbering.now.origin.items → slice_index numbering.now.origin.items h < vertices }
    ensures places { IfOk result (λ border. length border.items ≡ vertices) }
    ensures border { IfOk result (λ border. AreFound numbering.now.side.items numbering.now.origin.items (length numbering.now.origin.items) border.items) }
    ensures reason { IfErr result (Tells sides.now.from.items sides.now.to.items sides.now.face.items vertices) }
{
    let mut border = vec![in alloc.clone()?; None; vertices]?;
    for half in 0..numbering.origin.len() {
        if let Err(origin) = note_border(numbering, half, &mut border) {
            return Err(FacesError::BorderTwice(origin));
        }
    }
    Ok(border)
}

/// Notes a half edge, if it is no side, at the vertex where it starts, or returns a vertex where
/// one was noted before.
fn note_border<A: Allocator>(
    numbering: &Numbering<A>,
    half: usize,
    border: &mut Vec<Option<u32>, A>,
) -> Result<(), u32>
    requires sides { length numbering.now.side.items ≡ length numbering.now.origin.items }
    requires below { half < length numbering.now.origin.items }
    requires few { length numbering.now.origin.items ≤ 2 ^ 32 }
    requires within { slice_index numbering.now.origin.items half < length border.old.items }
    requires found { AreFound numbering.now.side.items numbering.now.origin.items half border.old.items }
    ensures places { length border.new.items ≡ length border.old.items }
    ensures found { OnOk result (AreFound numbering.now.side.items numbering.now.origin.items (half + 1) border.new.items) }
    ensures bare { IfErr result (λ v. slice_index_or numbering.now.side.items half None ≡ None) }
    ensures start { IfErr result (λ v. slice_index numbering.now.origin.items half ≡ v) }
    ensures before { IfErr result (λ v. (h : ℕ) × (slice_index_or border.old.items v None ≡ Some h)) }
{
    match numbering.side(half) {
        Some(_) => return Ok(()),
        None => {}
    }
    let origin = numbering.origin(half);
    match found_at(border, origin) {
        Some(_) => return Err(origin),
        None => {}
    }
    border[origin as usize] = Some(half as u32);
    Ok(())
}

/// Returns the half edge that was noted at a vertex.
fn found_at<A: Allocator>(border: &Vec<Option<u32>, A>, vertex: u32) -> Option<u32>
    requires { vertex < length border.now.items }
    ensures { result ≡ slice_index_or border.now.items vertex None }
{
    border[vertex as usize]
}

/// Lists the next half edge and the face of each half edge.
pub(crate) fn list_links<A: Allocator + Clone>(
    alloc: &A,
    sides: &Sides<A>,
    numbering: &Numbering<A>,
    border: &Vec<Option<u32>, A>,
) -> Result<(Vec<u32, A>, Vec<u32, A>), AllocError>
    requires numbered { AreNumbered sides.now.from.items sides.now.to.items (length sides.now.from.items) numbering.now.half.items numbering.now.side.items numbering.now.origin.items }
    requires afters { length sides.now.after.items ≡ length sides.now.from.items }
    requires faces { length sides.now.face.items ≡ length sides.now.from.items }
    requires after { (p : ℕ) → p < length sides.now.from.items → slice_index sides.now.after.items p < length sides.now.from.items }
    requires few { (p : ℕ) → p < length sides.now.from.items → slice_index sides.now.face.items p + 1 < 2 ^ 32 }
    requires below { (h : ℕ) → h < length numbering.now.origin.items → slice_index numbering.now.origin.items h < length border.now.items }
    ensures { IfOk result (λ lists. AreLinked numbering.now.side.items numbering.now.half.items sides.now.after.items sides.now.face.items numbering.now.origin.items border.now.items (length numbering.now.origin.items) lists.0.items lists.1.items) }
{
    let mut next = Vec::new(alloc.clone()?);
    let mut face = Vec::new(alloc.clone()?);
    for half in 0..numbering.origin.len() {
        next.push(next_after(sides, numbering, border, half))?;
        face.push(face_of(sides, numbering, half))?;
    }
    Ok((next, face))
}

/// Returns what comes after a half edge.
fn next_after<A: Allocator>(
    sides: &Sides<A>,
    numbering: &Numbering<A>,
    border: &Vec<Option<u32>, A>,
    half: usize,
) -> u32
    requires numbered { AreNumbered sides.now.from.items sides.now.to.items (length sides.now.from.items) numbering.now.half.items numbering.now.side.items numbering.now.origin.items }
    requires afters { length sides.now.after.items ≡ length sides.now.from.items }
    requires after { (p : ℕ) → p < length sides.now.from.items → slice_index sides.now.after.items p < length sides.now.from.items }
    requires below { (h : ℕ) → h < length numbering.now.origin.items → slice_index numbering.now.origin.items h < length border.now.items }
    requires within { half < length numbering.now.origin.items }
    ensures side { (p : ℕ) → slice_index_or numbering.now.side.items half None ≡ Some p → result ≡ slice_index numbering.now.half.items (slice_index sides.now.after.items p) }
    ensures border { (k : ℕ) → slice_index_or numbering.now.side.items half None ≡ None → slice_index_or border.now.items (slice_index numbering.now.origin.items (rev half)) None ≡ Some k → result ≡ k }
{
    match numbering.side(half) {
        Some(side) => numbering.half(sides.after(side as usize) as usize),
        // As many border edges come to a vertex as leave it, so there is one.
        None => found_at(border, numbering.origin(other_place(half))).unwrap_or(0),
    }
}

/// Returns the face of a half edge.
fn face_of<A: Allocator>(sides: &Sides<A>, numbering: &Numbering<A>, half: usize) -> u32
    requires numbered { AreNumbered sides.now.from.items sides.now.to.items (length sides.now.from.items) numbering.now.half.items numbering.now.side.items numbering.now.origin.items }
    requires faces { length sides.now.face.items ≡ length sides.now.from.items }
    requires few { (p : ℕ) → p < length sides.now.from.items → slice_index sides.now.face.items p + 1 < 2 ^ 32 }
    requires within { half < length numbering.now.origin.items }
    ensures side { (p : ℕ) → slice_index_or numbering.now.side.items half None ≡ Some p → result ≡ slice_index sides.now.face.items p + 1 }
    ensures border { slice_index_or numbering.now.side.items half None ≡ None → result ≡ 0 }
{
    match numbering.side(half) {
        Some(side) => sides.owner(side as usize) + 1,
        None => 0,
    }
}

/// Returns the other half of an edge.
#[tactic(auto, using(dcel_fixed::proofs::Halves::xor_one))]
fn other_place(half: usize) -> usize
    ensures { result ≡ rev half }
{
    half ^ 1
}
