//! Finding the edges of sides by their ends.

ghost use Rattle.std.specs.Prelude.{◌≡◌, ◌≢◌, ℕ, ◌+◌, ◌^◌, ◌<◌, ◌≤◌, ◌==◌, [], ◌∷◌, ◌++◌, IfOk, None, OnOk, Some, count_by, length, slice_index, slice_index_or, slice_set, true};
ghost use Rattle.dcel_exchange.specs.Chains.{AreChained, IsFound, hangs};
ghost use Rattle.dcel_fixed.specs.HalfEdges.{rev};

use dcel_fixed::other_half;
use std::alloc::{AllocError, Allocator};

/// The edges so far, each found by its ends.
///
/// An edge hangs at the end where fewer sides start, and at the smaller one where as many do. Each
/// vertex has a chain of the half edges that start there and whose edges hang there, from the last
/// one on. A look-up goes along one chain, which is no longer than twice the lower of two counts
/// of sides. In sum that is linear for the faces of a mesh, since a planar graph is the union of
/// three forests, and for any sides of which none comes twice it is at most their number times its
/// square root: Chiba and Nishizeki, "Arboricity and subgraph listing algorithms", 1985.
#[derive(Drop)]
pub(crate) struct Chains<A: Allocator> {
    /// How many sides start at each vertex.
    pub starts: Vec<u32, A>,
    /// The last half edge in the chain of each vertex.
    pub last: Vec<Option<u32>, A>,
    /// The half edge that comes before that of each edge in its chain.
    pub before: Vec<Option<u32>, A>,
}

impl<A: Allocator> Chains<A> {
    /// Makes empty chains for sides that start at these vertices.
    pub fn new(alloc: &A, from: &[u32], vertices: usize) -> Result<Self, AllocError>
    where
        A: Clone,
        requires few { length from.now ≤ 2 ^ 31 }
        requires below { (p : ℕ) → p < length from.now → slice_index from.now p < vertices }
        ensures { IfOk result (λ chains. AreChained vertices chains.starts.items [] chains.last.items chains.before.items) }
    {
        let starts = count_starts(alloc.clone()?, from, vertices)?;
        let last = vec![in alloc.clone()?; None; vertices]?;
        let before = Vec::with_capacity(alloc.clone()?, from.len() / 2)?;
        Ok(Chains {
            starts,
            last,
            before,
        })
    }

    /// Returns the half edge that leads from one vertex to another, if there is one.
    pub fn find(&self, origin: &[u32], from: u32, to: u32) -> Option<u32>
        requires chained { AreChained (length self.now.last.items) self.now.starts.items origin.now self.now.last.items self.now.before.items }
        requires start { from < length self.now.last.items }
        requires end { to < length self.now.last.items }
        requires apart { from ≢ to }
        ensures { IsFound origin.now from to result }
    {
        if self.hangs_at(from, to) {
            return self.search(origin, from, to);
        }
        match self.search(origin, to, from) {
            Some(half) => Some(other_half(half as usize) as u32),
            None => None,
        }
    }

    /// Adds the edge whose even half comes next and leads from one vertex to another.
    pub fn add(&mut self, origin: &[u32], from: u32, to: u32) -> Result<(), AllocError>
        requires chained { AreChained (length self.old.last.items) self.old.starts.items origin.now self.old.last.items self.old.before.items }
        requires few { length origin.now < 2 ^ 32 }
        requires start { from < length self.old.last.items }
        requires end { to < length self.old.last.items }
        requires apart { from ≢ to }
        ensures { OnOk result (AreChained (length self.old.last.items) self.new.starts.items (origin.now ++ from ∷ to ∷ []) self.new.last.items self.new.before.items) }
    {
        let even = origin.len();
        if self.hangs_at(from, to) {
            self.put(from, even as u32)
        } else {
            self.put(to, other_half(even) as u32)
        }
    }

    /// Tells at which end an edge hangs: at this one, or at the other.
    fn hangs_at(&self, end: u32, other: u32) -> bool
        requires end { end < length self.now.starts.items }
        requires other { other < length self.now.starts.items }
        ensures { result ≡ hangs self.now.starts.items end other }
    {
        let here = self.starts[end as usize];
        let there = self.starts[other as usize];
        here < there || (here == there && end < other)
    }

    /// Looks for the half edge that leads to another vertex in the chain of one.
    fn search(&self, origin: &[u32], end: u32, other: u32) -> Option<u32>
        requires chained { AreChained (length self.now.last.items) self.now.starts.items origin.now self.now.last.items self.now.before.items }
        requires below { end < length self.now.last.items }
        requires hangs { hangs self.now.starts.items end other ≡ true }
        ensures { IsFound origin.now end other result }
    {
        let mut next = self.last[end as usize];
        while let Some(half) = next {
            if origin[other_half(half as usize)] == other {
                return Some(half);
            }
            next = self.before[half as usize / 2];
        }
        None
    }

    /// Puts a half edge last in the chain of the vertex where it starts.
    fn put(&mut self, end: u32, half: u32) -> Result<(), AllocError>
        requires { end < length self.old.last.items }
        ensures starts { self.new.starts.items ≡ self.old.starts.items }
        ensures last { OnOk result (self.new.last.items ≡ slice_set self.old.last.items end (Some half)) }
        ensures before { OnOk result (self.new.before.items ≡ self.old.before.items ++ slice_index_or self.old.last.items end None ∷ []) }
    {
        self.before.push(self.last[end as usize])?;
        self.last[end as usize] = Some(half);
        Ok(())
    }
}

/// Counts the sides that start at each vertex.
fn count_starts<A: Allocator>(
    alloc: A,
    from: &[u32],
    vertices: usize,
) -> Result<Vec<u32, A>, AllocError>
    requires few { length from.now ≤ 2 ^ 31 }
    requires below { (p : ℕ) → p < length from.now → slice_index from.now p < vertices }
    ensures places { IfOk result (λ counts. length counts.items ≡ vertices) }
    ensures counts { IfOk result (λ counts. (v : ℕ) → v < vertices → slice_index counts.items v ≡ count_by (λ start. start == v) from.now) }
{
    let mut counts = vec![in alloc; 0; vertices]?;
    for start in from {
        counts[*start as usize] += 1;
    }
    Ok(counts)
}
