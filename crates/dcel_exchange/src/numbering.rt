//! Numbers for the half edges of sides.

ghost use Rattle.std.specs.Prelude.{◌≡◌, ◌≢◌, ℕ, ◌+◌, ◌^◌, ◌<◌, ◌≤◌, [], ◌∷◌, ◌++◌, IfErr, IfOk, IfSome, None, OnOk, Some, length, slice_index, slice_index_or, slice_set};
ghost use Rattle.dcel_exchange.specs.Chains.{AreChained, IsFound};
ghost use Rattle.dcel_exchange.specs.Numbering.{AreDistinct, AreNumbered, side_of_found};
ghost use Rattle.dcel_exchange.specs.Reasons.{Tells};

use crate::chains::Chains;
use crate::refusal::FacesError;
use crate::sides::Sides;
use std::alloc::{AllocError, Allocator};

/// Which half edge each side is, and which side, if any, each half edge.
#[derive(Drop)]
pub(crate) struct Numbering<A: Allocator> {
    /// The half edge of each side.
    pub half: Vec<u32, A>,
    /// The side of each half edge.
    pub side: Vec<Option<u32>, A>,
    /// The vertex that each half edge starts at.
    pub origin: Vec<u32, A>,
}

/// Gives each side a half edge: a new edge's even half, or the other half of the edge of the side
/// that leads back, where that came before.
pub(crate) fn number_sides<A: Allocator + Clone>(
    alloc: &A,
    sides: &Sides<A>,
    vertices: usize,
) -> Result<Numbering<A>, FacesError>
    requires ends { length sides.now.to.items ≡ length sides.now.from.items }
    requires faces { length sides.now.face.items ≡ length sides.now.from.items }
    requires few { length sides.now.from.items ≤ 2 ^ 31 }
    requires starts { (p : ℕ) → p < length sides.now.from.items → slice_index sides.now.from.items p < vertices }
    requires stops { (p : ℕ) → p < length sides.now.from.items → slice_index sides.now.to.items p < vertices }
    requires apart { (p : ℕ) → p < length sides.now.from.items → slice_index sides.now.from.items p ≢ slice_index sides.now.to.items p }
    ensures numbered { IfOk result (λ n. AreNumbered sides.now.from.items sides.now.to.items (length sides.now.from.items) n.half.items n.side.items n.origin.items) }
    ensures distinct { IfOk result (λ n. AreDistinct sides.now.from.items sides.now.to.items (length sides.now.from.items)) }
    ensures reason { (count : ℕ) → IfErr result (Tells sides.now.from.items sides.now.to.items sides.now.face.items count) }
{
    let mut chains = Chains::new(alloc, &sides.from, vertices)?;
    let mut numbering = Numbering::with_capacity(alloc, sides.from.len())?;
    for side in 0..sides.from.len() {
        let (from, to) = sides.ends(side);
        let found = chains.find(&numbering.origin, from, to);
        if let Some(other) = numbering.side_of(found) {
            return Err(FacesError::SideTwice(
                sides.owner(other as usize),
                sides.owner(side),
                from,
                to,
            ));
        }
        numbering.number(&mut chains, sides, side, found)?;
    }
    Ok(numbering)
}

impl<A: Allocator> Numbering<A> {
    /// Makes an empty one with room for so many sides.
    fn with_capacity(alloc: &A, sides: usize) -> Result<Self, AllocError>
    where
        A: Clone,
        ensures half { IfOk result (λ n. n.half.items ≡ []) }
        ensures side { IfOk result (λ n. n.side.items ≡ []) }
        ensures origin { IfOk result (λ n. n.origin.items ≡ []) }
    {
        Ok(Numbering {
            half: Vec::with_capacity(alloc.clone()?, sides)?,
            side: Vec::with_capacity(alloc.clone()?, sides)?,
            origin: Vec::with_capacity(alloc.clone()?, sides)?,
        })
    }

    /// Returns the side of a half edge, if one was found and has a side.
    fn side_of(&self, found: Option<u32>) -> Option<u32>
        requires { IfSome found (λ h. h < length self.now.side.items) }
        ensures { result ≡ side_of_found self.now.side.items found }
    {
        match found {
            Some(half) => self.side[half as usize],
            None => None,
        }
    }

    /// Numbers a side that leads where none has led yet. It becomes the half edge that was found
    /// there, or one of a new edge.
    fn number(
        &mut self,
        chains: &mut Chains<A>,
        sides: &Sides<A>,
        side: usize,
        found: Option<u32>,
    ) -> Result<(), AllocError>
        requires ends { length sides.now.to.items ≡ length sides.now.from.items }
        requires below { side < length sides.now.from.items }
        requires few { length sides.now.from.items ≤ 2 ^ 31 }
        requires start { slice_index sides.now.from.items side < length chains.old.last.items }
        requires end { slice_index sides.now.to.items side < length chains.old.last.items }
        requires apart { slice_index sides.now.from.items side ≢ slice_index sides.now.to.items side }
        requires numbered { AreNumbered sides.now.from.items sides.now.to.items side self.old.half.items self.old.side.items self.old.origin.items }
        requires distinct { AreDistinct sides.now.from.items sides.now.to.items side }
        requires chained { AreChained (length chains.old.last.items) chains.old.starts.items self.old.origin.items chains.old.last.items chains.old.before.items }
        requires found { IsFound self.old.origin.items (slice_index sides.now.from.items side) (slice_index sides.now.to.items side) found }
        requires free { side_of_found self.old.side.items found ≡ None }
        ensures numbered { OnOk result (AreNumbered sides.now.from.items sides.now.to.items (side + 1) self.new.half.items self.new.side.items self.new.origin.items) }
        ensures distinct { OnOk result (AreDistinct sides.now.from.items sides.now.to.items (side + 1)) }
        ensures chained { OnOk result (AreChained (length chains.old.last.items) chains.new.starts.items self.new.origin.items chains.new.last.items chains.new.before.items) }
    {
        match found {
            Some(half) => self.add_second(half, side as u32)?,
            None => {
                let (from, to) = sides.ends(side);
                chains.add(&self.origin, from, to)?;
                self.add_first(from, to, side as u32)?;
            }
        }
        Ok(())
    }

    /// Gives a side the even half of a new edge.
    fn add_first(&mut self, from: u32, to: u32, side: u32) -> Result<(), AllocError>
        requires { length self.old.origin.items < 2 ^ 32 }
        ensures half { OnOk result (self.new.half.items ≡ self.old.half.items ++ length self.old.origin.items ∷ []) }
        ensures side { OnOk result (self.new.side.items ≡ self.old.side.items ++ Some side ∷ None ∷ []) }
        ensures origin { OnOk result (self.new.origin.items ≡ self.old.origin.items ++ from ∷ to ∷ []) }
    {
        let half = self.origin.len() as u32;
        self.half.push(half)?;
        self.side.push(Some(side))?;
        self.side.push(None)?;
        self.origin.push(from)?;
        self.origin.push(to)?;
        Ok(())
    }

    /// Gives a side the other half of the edge of a side that leads back.
    fn add_second(&mut self, half: u32, side: u32) -> Result<(), AllocError>
        requires { half < length self.old.side.items }
        ensures half { OnOk result (self.new.half.items ≡ self.old.half.items ++ half ∷ []) }
        ensures side { OnOk result (self.new.side.items ≡ slice_set self.old.side.items half (Some side)) }
        ensures origin { OnOk result (self.new.origin.items ≡ self.old.origin.items) }
    {
        self.half.push(half)?;
        self.side[half as usize] = Some(side);
        Ok(())
    }
}

/// What was numbered.
impl<A: Allocator> Numbering<A> {
    /// Returns the half edge of a side.
    pub fn half(&self, side: usize) -> u32
        requires { side < length self.now.half.items }
        ensures { result ≡ slice_index self.now.half.items side }
    {
        self.half[side]
    }

    /// Returns the side of a half edge.
    pub fn side(&self, half: usize) -> Option<u32>
        requires { half < length self.now.side.items }
        ensures { result ≡ slice_index_or self.now.side.items half None }
    {
        self.side[half]
    }

    /// Returns the vertex that a half edge starts at.
    pub fn origin(&self, half: usize) -> u32
        requires { half < length self.now.origin.items }
        ensures { result ≡ slice_index self.now.origin.items half }
    {
        self.origin[half]
    }
}
