//! The sides of all faces in one list, face by face.

ghost use Rattle.std.specs.Prelude.{◌≡◌, ◌≢◌, ℕ, ◌+◌, ◌^◌, ◌<◌, ◌≤◌, ◌++◌, IfErr, IfOk, OnOk, length, map, replicate, slice_index};
ghost use Rattle.dcel_exchange.specs.Closed.{IsInRange};
ghost use Rattle.dcel_exchange.specs.Corners.{AreSides, turned};
ghost use Rattle.dcel_exchange.specs.Reasons.{Means, Tells};
ghost use Rattle.dcel_maps.specs.Numbers.{numbers_between};

use crate::refusal::FacesError;
use std::alloc::{AllocError, Allocator};
use std::convert::AsSlice;

// The most corners that there may be, so that half edges have numbers below 2^32.
const MOST: usize = 2_147_483_648;

/// The sides of faces, in the order of their corners: side `k` of a face leads from its
/// corner `k` to the next one.
#[derive(Drop)]
pub(crate) struct Sides<A: Allocator> {
    /// Where each side starts.
    pub from: Vec<u32, A>,
    /// Where it ends.
    pub to: Vec<u32, A>,
    /// The place of its face in the list.
    pub face: Vec<u32, A>,
    /// The next side of its face.
    pub after: Vec<u32, A>,
}

/// Lists the sides of all faces.
pub(crate) fn list_sides<A: Allocator + Clone, S: AsSlice<u32>>(
    alloc: &A,
    faces: &[S],
) -> Result<Sides<A>, FacesError>
    ensures sides { IfOk result (λ sides. AreSides (map S.items faces.now) sides.from.items sides.to.items sides.face.items sides.after.items) }
    ensures reason { (vertices : ℕ) → IfErr result (Means vertices (map S.items faces.now)) }
    ensures in_range { IfErr result IsInRange }
{
    let mut sides = Sides {
        from: Vec::new(alloc.clone()?),
        to: Vec::new(alloc.clone()?),
        face: Vec::new(alloc.clone()?),
        after: Vec::new(alloc.clone()?),
    };
    for index in 0..faces.len() {
        let corners = faces[index].as_slice();
        if corners.len() < 3 {
            return Err(FacesError::FewCorners(index));
        }
        if corners.len() > MOST - sides.from.len() {
            return Err(FacesError::TooManyCorners);
        }
        sides.add(corners, index as u32)?;
    }
    Ok(sides)
}

impl<A: Allocator> Sides<A> {
    /// Adds the sides of a face.
    fn add(&mut self, corners: &[u32], face: u32) -> Result<(), AllocError>
        requires some { 0 < length corners.now }
        requires few { length self.old.from.items + length corners.now ≤ 2 ^ 31 }
        requires faces { length self.old.face.items ≤ 2 ^ 31 }
        ensures from { OnOk result (self.new.from.items ≡ self.old.from.items ++ corners.now) }
        ensures to { OnOk result (self.new.to.items ≡ self.old.to.items ++ turned corners.now) }
        ensures face { OnOk result (self.new.face.items ≡ self.old.face.items ++ replicate (length corners.now) face) }
        ensures after { OnOk result (let first = length self.old.from.items in
            self.new.after.items ≡ self.old.after.items ++ turned (numbers_between first (first + length corners.now))) }
    {
        let first = self.from.len();
        self.from.extend_from_slice(corners)?;
        add_turned(&mut self.to, corners)?;
        self.face.resize(self.face.len() + corners.len(), face)?;
        add_round(&mut self.after, first, first + corners.len())
    }

    /// Returns where a side starts and ends.
    pub fn ends(&self, side: usize) -> (u32, u32)
        requires below { side < length self.now.from.items }
        requires ends { length self.now.to.items ≡ length self.now.from.items }
        ensures start { result.0 ≡ slice_index self.now.from.items side }
        ensures end { result.1 ≡ slice_index self.now.to.items side }
    {
        (self.from[side], self.to[side])
    }

    /// Returns the next side of a side's face.
    pub fn after(&self, side: usize) -> u32
        requires { side < length self.now.after.items }
        ensures { result ≡ slice_index self.now.after.items side }
    {
        self.after[side]
    }

    /// Returns the place of a side's face.
    pub fn owner(&self, side: usize) -> u32
        requires { side < length self.now.face.items }
        ensures { result ≡ slice_index self.now.face.items side }
    {
        self.face[side]
    }
}

/// Adds corners, from the second one on, and then the first.
fn add_turned<A: Allocator>(list: &mut Vec<u32, A>, corners: &[u32]) -> Result<(), AllocError>
    requires { 0 < length corners.now }
    ensures { OnOk result (list.new.items ≡ list.old.items ++ turned corners.now) }
{
    list.extend_from_slice(&corners[1..])?;
    list.push(corners[0])?;
    Ok(())
}

/// Adds the numbers between two, from the second one on, and then the first.
fn add_round<A: Allocator>(
    list: &mut Vec<u32, A>,
    first: usize,
    end: usize,
) -> Result<(), AllocError>
    requires some { first < end }
    requires few { end ≤ 2 ^ 31 }
    ensures { OnOk result (list.new.items ≡ list.old.items ++ turned (numbers_between first end)) }
{
    for number in first + 1..end {
        list.push(number as u32)?;
    }
    list.push(first as u32)?;
    Ok(())
}

/// Looks for a corner that is no vertex, and for a side whose ends are one.
pub(crate) fn check_ends<A: Allocator>(sides: &Sides<A>, vertices: usize) -> Result<(), FacesError>
    requires ends { length sides.now.to.items ≡ length sides.now.from.items }
    requires faces { length sides.now.face.items ≡ length sides.now.from.items }
    ensures below { OnOk result ((p : ℕ) → p < length sides.now.from.items → slice_index sides.now.from.items p < vertices) }
    ensures apart { OnOk result ((p : ℕ) → p < length sides.now.from.items → slice_index sides.now.from.items p ≢ slice_index sides.now.to.items p) }
    ensures reason { IfErr result (Tells sides.now.from.items sides.now.to.items sides.now.face.items vertices) }
{
    for side in 0..sides.from.len() {
        let (from, to) = sides.ends(side);
        if from as usize >= vertices {
            return Err(FacesError::NoVertex(sides.owner(side), from));
        }
        if from == to {
            return Err(FacesError::OneEnd(sides.owner(side), from));
        }
    }
    Ok(())
}
