//! Calls on a whole store: clear, map, clone.

ghost use Rattle.std.specs.Prelude.{◌≡◌, ◌<◌, All, IfOk, IfErr, length, vec_len, vec_capacity};
ghost use Rattle.std.specs.List.{AllZip};
ghost use Rattle.dcel_store.specs.Whole.{cleared, with_vertex_data, with_undirected_data, AreClones};

use crate::{FaceEntry, Store, VertexEntry};
use std::alloc::{AllocError, AllocFailed, Allocator};

impl<V, DE, UE, F, A: Allocator> Store<V, DE, UE, F, A> {
    /// Takes out all vertices, all edges and all faces but the first, which loses its anchor.
    ///
    /// Asks that there is a face. It neither allocates nor frees memory: there is room for what was
    /// taken out.
    pub fn clear(&mut self)
    where
        V: Drop,
        DE: Drop,
        UE: Drop,
        F: Drop,
        requires { 0 < length self.old.face_data }
        ensures { self.new ≡ cleared self.old }
    {
        self.vertices.clear();
        self.next.clear();
        self.prev.clear();
        self.origin.clear();
        self.face.clear();
        self.directed_data.clear();
        self.undirected_data.clear();
        self.faces.truncate(1);
        let first = &mut self.faces[0];
        first.adjacent_edge = None;
    }

    /// Replaces the datum of each vertex by what `f` returns for it.
    ///
    /// Asks that `f` may be called on each of them. All memory is requested from `alloc` before `f`
    /// is first called. If it runs out, it returns `AllocFailed` with the store as it was.
    pub fn map_vertices<V2: Drop, M: Fn(V) -> V2 + Drop>(
        self,
        alloc: A,
        f: M,
    ) -> Result<Store<V2, DE, UE, F, A>, AllocFailed<Self>>
    where
        V: Drop,
        requires { All (M.pre f) self.vertex_data }
        ensures answered { IfOk result (λ store. AllZip (M.post f) self.vertex_data store.vertex_data) }
        ensures same { IfOk result (λ store. store ≡ with_vertex_data self store.vertex_data) }
        ensures back { IfErr result (λ refused. refused.value ≡ self) }
    {
        let map = |vertex: VertexEntry<V>| -> VertexEntry<V2>
            requires { M.pre f vertex.data }
        {
            VertexEntry {
                data: f(vertex.data),
                out_edge: vertex.out_edge,
            }
        };
        match mapped(self.vertices, alloc, map) {
            Ok(vertices) => Ok(Store {
                vertices,
                next: self.next,
                prev: self.prev,
                origin: self.origin,
                face: self.face,
                directed_data: self.directed_data,
                undirected_data: self.undirected_data,
                faces: self.faces,
            }),
            Err(refused) => Err(AllocFailed {
                value: Store {
                    vertices: refused.value,
                    ..self
                },
            }),
        }
    }

    /// Replaces the datum of each edge by what `f` returns for it.
    ///
    /// The data of half edges stay. Otherwise it is like [`map_vertices`](Self::map_vertices).
    pub fn map_undirected_edges<UE2: Drop, M: Fn(UE) -> UE2 + Drop>(
        self,
        alloc: A,
        f: M,
    ) -> Result<Store<V, DE, UE2, F, A>, AllocFailed<Self>>
    where
        UE: Drop,
        requires { All (M.pre f) self.undirected_data }
        ensures answered { IfOk result (λ store. AllZip (M.post f) self.undirected_data store.undirected_data) }
        ensures same { IfOk result (λ store. store ≡ with_undirected_data self store.undirected_data) }
        ensures back { IfErr result (λ refused. refused.value ≡ self) }
    {
        match mapped(self.undirected_data, alloc, f) {
            Ok(undirected_data) => Ok(Store {
                vertices: self.vertices,
                next: self.next,
                prev: self.prev,
                origin: self.origin,
                face: self.face,
                directed_data: self.directed_data,
                undirected_data,
                faces: self.faces,
            }),
            Err(refused) => Err(AllocFailed {
                value: Store {
                    undirected_data: refused.value,
                    ..self
                },
            }),
        }
    }
}

impl<V: Clone, DE: Clone, UE: Clone, F: Clone, A: Allocator + Clone> Store<V, DE, UE, F, A> {
    /// Returns a store with a clone of each datum and the same links and anchors.
    ///
    /// It clones `alloc` once for the vertices and six times for the edges. If memory runs out or a
    /// clone fails it returns `AllocError`.
    pub fn try_clone(&self, alloc: A) -> Result<Self, AllocError>
        ensures { IfOk result (AreClones V.is_clone DE.is_clone UE.is_clone F.is_clone self.now) }
    {
        let vertices = self.vertices.to_vec(alloc.clone()?)?;
        let next = Vec::from_slice(alloc.clone()?, &self.next)?;
        let prev = Vec::from_slice(alloc.clone()?, &self.prev)?;
        let origin = Vec::from_slice(alloc.clone()?, &self.origin)?;
        let face = Vec::from_slice(alloc.clone()?, &self.face)?;
        let directed_data = self.directed_data.to_vec(alloc.clone()?)?;
        let undirected_data = cloned(&self.undirected_data, alloc.clone()?)?;
        let faces = self.faces.to_vec(alloc)?;
        Ok(Store {
            vertices,
            next,
            prev,
            origin,
            face,
            directed_data,
            undirected_data,
            faces,
        })
    }
}

// Data are cloned, links and anchors copied.
impl<V: Clone> Clone for VertexEntry<V> {
    ghost is_clone = { λ x y. V.is_clone x.data y.data × (y.out_edge ≡ x.out_edge) };

    fn clone(&self) -> Result<Self, AllocError> {
        Ok(VertexEntry {
            data: self.data.clone()?,
            out_edge: self.out_edge,
        })
    }
}

impl<F: Clone> Clone for FaceEntry<F> {
    ghost is_clone = { λ x y. F.is_clone x.data y.data × (y.adjacent_edge ≡ x.adjacent_edge) };

    fn clone(&self) -> Result<Self, AllocError> {
        Ok(FaceEntry {
            data: self.data.clone()?,
            adjacent_edge: self.adjacent_edge,
        })
    }
}

// Clones each item into a vector without spare places. `to_vec` doesn't promise that, and for a
// spare place in the vector of the edges' data those of half edges would need two.
fn cloned<X: Clone, A: Allocator>(items: &[X], alloc: A) -> Result<Vec<X, A>, AllocError>
    ensures clones { IfOk result (λ clones. AllZip X.is_clone items.now clones.items) }
    ensures exact { IfOk result (λ clones. vec_capacity clones ≡ vec_len clones) }
{
    let mut clones = Vec::with_capacity(alloc, items.len())?;
    for item in items {
        clones.push_reserved(item.clone()?);
    }
    Ok(clones)
}

// Maps each item into a vector without spare places, which is allocated before `f` is first called.
// If memory runs out, it returns the items.
fn mapped<X: Drop, Y: Drop, A: Allocator, M: Fn(X) -> Y + Drop>(
    items: Vec<X, A>,
    alloc: A,
    f: M,
) -> Result<Vec<Y, A>, AllocFailed<Vec<X, A>>>
    requires { All (M.pre f) items.items }
    ensures answered { IfOk result (λ answers. AllZip (M.post f) items.items answers.items) }
    ensures exact { IfOk result (λ answers. vec_capacity answers ≡ vec_len answers) }
    ensures back { IfErr result (λ refused. refused.value ≡ items) }
{
    let mut answers = match Vec::with_capacity(alloc, items.len()) {
        Ok(answers) => answers,
        Err(_) => return Err(AllocFailed { value: items }),
    };
    for item in items {
        answers.push_reserved(f(item));
    }
    Ok(answers)
}
