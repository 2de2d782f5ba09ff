//! A caller's own steps, over the public trait alone.

ghost use Rattle.dcel_tests_handles.specs.Steps.{rev_lawful};
ghost use Rattle.dcel_fixed.specs.HalfEdges.{rev};
ghost use Rattle.dcel_maps.specs.Laws.{back_lawful};
ghost use Rattle.dcel_maps.specs.Shapes.{next_of, prev_of};

use spade_dcel::handles::DirectedEdgeHandle;
use spade_dcel::iterators::NextBackFn;
use std::alloc::Allocator;

/// Goes from a half edge to the other half of its edge, and so back.
pub struct RevNextBackFn;

impl NextBackFn for RevNextBackFn {
    ghost step = { λ s h. rev h };

    ghost step_back = { λ s h. rev h };

    ghost lawful = { λ s sound links. rev_lawful s };

    fn next<'a, V, DE, UE, F, A: Allocator>(
        edge: DirectedEdgeHandle<'a, V, DE, UE, F, A>,
    ) -> DirectedEdgeHandle<'a, V, DE, UE, F, A> {
        edge.rev()
    }

    fn next_back<'a, V, DE, UE, F, A: Allocator>(
        edge: DirectedEdgeHandle<'a, V, DE, UE, F, A>,
    ) -> DirectedEdgeHandle<'a, V, DE, UE, F, A> {
        edge.rev()
    }
}

/// Goes round a face the other way: by `prev`, and back by `next`.
pub struct PrevNextBackFn;

impl NextBackFn for PrevNextBackFn {
    ghost step = { prev_of };

    ghost step_back = { next_of };

    ghost lawful = { λ s sound links. back_lawful s (next_of s) (prev_of s) links };

    fn next<'a, V, DE, UE, F, A: Allocator>(
        edge: DirectedEdgeHandle<'a, V, DE, UE, F, A>,
    ) -> DirectedEdgeHandle<'a, V, DE, UE, F, A> {
        edge.prev()
    }

    fn next_back<'a, V, DE, UE, F, A: Allocator>(
        edge: DirectedEdgeHandle<'a, V, DE, UE, F, A>,
    ) -> DirectedEdgeHandle<'a, V, DE, UE, F, A> {
        edge.next()
    }
}
