//! The links of each half edge, in the order of their numbers.

ghost use Rattle.std.specs.Prelude.{◌≡◌, ◌*◌, map};
ghost use Rattle.std.specs.Iterator.{YieldsFirst, item_count};
ghost use Rattle.dcel_exchange.specs.Links.{link_of};
ghost use Rattle.dcel_maps.specs.Numbers.{numbers_between};
ghost use Rattle.dcel_maps.specs.Removals.{Closed};
ghost use Rattle.dcel_maps.specs.Shapes.{IsLive};
ghost use Rattle.spade_dcel.specs.Handles.{mesh_behind, number_of};

use spade_dcel::dcel::Dcel;
use spade_dcel::handles::DirectedEdgeHandle;
use spade_dcel::iterators::LiveDirectedEdgeIterator;
use std::alloc::{Allocator, Global};
use std::marker::Model;

/// The links of a half edge, by number.
#[derive(Clone, Copy, PartialEq, Eq, Debug, Drop)]
pub struct Link {
    /// The next half edge around its face.
    pub next: u32,
    /// The vertex where it starts.
    pub origin: u32,
    /// Its face.
    pub face: u32,
}

/// The links of the half edges of a mesh, in the order of their numbers.
///
/// It does not allocate. Contracts see the links still to come.
#[derive(Drop)]
pub struct LinkIterator<'a, V, DE, UE, F, A: Allocator = Global> {
    edges: LiveDirectedEdgeIterator<'a, V, DE, UE, F, A>,
}

impl<'a, V, DE, UE, F, A: Allocator> Model for LinkIterator<'a, V, DE, UE, F, A> {
    ghost use Rattle.std.specs.Prelude.{List, map};
    ghost use Rattle.dcel_exchange.specs.Links.{link_of};
    ghost use Rattle.dcel_exchange.specs.declared.steps.Link.{Link};

    ghost Value = { List Link };

    ghost view = { λ links. map (λ edge. link_of edge.0.shape edge.1) links.edges };
}

impl<'a, V, DE, UE, F, A: Allocator> Iterator for LinkIterator<'a, V, DE, UE, F, A> {
    type Item = Link;

    ghost next_gives = { YieldsFirst (λ links. links) };

    ghost remaining = { item_count (λ links. links) };

    #[inline]
    fn next(&mut self) -> Option<Link> {
        match self.edges.next() {
            Some(edge) => Some(read_link(edge)),
            None => None,
        }
    }
}

// Returns the links of a live half edge.
#[inline]
fn read_link<V, DE, UE, F, A: Allocator>(edge: DirectedEdgeHandle<'_, V, DE, UE, F, A>) -> Link
    requires { IsLive (mesh_behind edge).shape (number_of edge) }
    ensures { result ≡ link_of (mesh_behind edge.entry).shape (number_of edge.entry) }
{
    Link {
        next: edge.next().fix().index() as u32,
        origin: edge.from().fix().index() as u32,
        face: edge.face().fix().index() as u32,
    }
}

/// Returns the links of all half edges, in the order of their numbers.
///
/// Asks that no removal is open ([`removal_state`](Dcel::removal_state) is `Closed`): then all half
/// edges are live, and the items are those of half edges 0, 1 and so on.
#[inline]
pub fn links<V, DE, UE, F, A: Allocator>(
    dcel: &Dcel<V, DE, UE, F, A>,
) -> LinkIterator<'_, V, DE, UE, F, A>
    requires { dcel.now.shape.removal ≡ Closed }
    ensures { result ≡ map (link_of dcel.now.shape) (numbers_between 0 (2 * dcel.now.shape.edges)) }
{
    LinkIterator {
        edges: dcel.live_directed_edges(),
    }
}
