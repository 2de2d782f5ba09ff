//! Appending three edges together, vector by vector.

ghost use Rattle.std.specs.Prelude.{◌≡◌, ◌+◌, ◌-◌, ◌≤◌, [], ◌∷◌, ◌++◌, vec_len, vec_capacity};

use crate::{NewEdge, Store};
use std::alloc::Allocator;

impl<V, DE, UE, F, A: Allocator> Store<V, DE, UE, F, A> {
    /// Appends three edges, in this order.
    ///
    /// The result is that of three calls of [`push_edge`](Self::push_edge), but the vectors are
    /// written one after another, each of them once. Asks for room for three edges, which
    /// [`reserve`](Self::reserve) provides.
    #[inline]
    pub fn push_three_edges(
        &mut self,
        first: NewEdge<DE, UE>,
        second: NewEdge<DE, UE>,
        third: NewEdge<DE, UE>,
    )
        requires { 3 ≤ self.old.edge_room }
        ensures { self.new ≡ record self.old {
          next = self.old.next ++ first.normalized.next ∷ first.reversed.next
              ∷ second.normalized.next ∷ second.reversed.next ∷ third.normalized.next ∷ third.reversed.next ∷ [];
          prev = self.old.prev ++ first.normalized.prev ∷ first.reversed.prev
              ∷ second.normalized.prev ∷ second.reversed.prev ∷ third.normalized.prev ∷ third.reversed.prev ∷ [];
          origin = self.old.origin ++ first.normalized.origin ∷ first.reversed.origin
              ∷ second.normalized.origin ∷ second.reversed.origin ∷ third.normalized.origin ∷ third.reversed.origin ∷ [];
          face = self.old.face ++ first.normalized.face ∷ first.reversed.face
              ∷ second.normalized.face ∷ second.reversed.face ∷ third.normalized.face ∷ third.reversed.face ∷ [];
          directed_data = self.old.directed_data ++ first.edge_data.normalized ∷ first.edge_data.reversed
              ∷ second.edge_data.normalized ∷ second.edge_data.reversed ∷ third.edge_data.normalized ∷ third.edge_data.reversed ∷ [];
          undirected_data = self.old.undirected_data
              ++ first.edge_data.undirected ∷ second.edge_data.undirected ∷ third.edge_data.undirected ∷ [];
          edge_room = self.old.edge_room - 3;
        } }
    {
        let (a, b) = (first.normalized, first.reversed);
        let (c, d) = (second.normalized, second.reversed);
        let (e, f) = (third.normalized, third.reversed);
        let (ab, cd, ef) = (first.edge_data, second.edge_data, third.edge_data);
        push_pairs(
            &mut self.next,
            (a.next, b.next),
            (c.next, d.next),
            (e.next, f.next),
        );
        push_pairs(
            &mut self.prev,
            (a.prev, b.prev),
            (c.prev, d.prev),
            (e.prev, f.prev),
        );
        push_pairs(
            &mut self.origin,
            (a.origin, b.origin),
            (c.origin, d.origin),
            (e.origin, f.origin),
        );
        push_pairs(
            &mut self.face,
            (a.face, b.face),
            (c.face, d.face),
            (e.face, f.face),
        );
        push_pairs(
            &mut self.directed_data,
            (ab.normalized, ab.reversed),
            (cd.normalized, cd.reversed),
            (ef.normalized, ef.reversed),
        );
        self.undirected_data.push_reserved(ab.undirected);
        self.undirected_data.push_reserved(cd.undirected);
        self.undirected_data.push_reserved(ef.undirected);
    }
}

// Appends the two items of each of three edges to a vector of half edges.
#[inline]
fn push_pairs<T, A: Allocator>(items: &mut Vec<T, A>, first: (T, T), second: (T, T), third: (T, T))
    requires { vec_len items.old + 6 ≤ vec_capacity items.old }
    ensures items { items.new.items ≡ items.old.items
        ++ first.0 ∷ first.1 ∷ second.0 ∷ second.1 ∷ third.0 ∷ third.1 ∷ [] }
    ensures len { vec_len items.new ≡ vec_len items.old + 6 }
    ensures capacity { vec_capacity items.new ≡ vec_capacity items.old }
{
    items.push_reserved(first.0);
    items.push_reserved(first.1);
    items.push_reserved(second.0);
    items.push_reserved(second.1);
    items.push_reserved(third.0);
    items.push_reserved(third.1);
}
