//! Calls on a whole mesh: reserve memory, clear, map the data, clone.

ghost use Rattle.std.specs.Prelude.{◌≡◌, ◌∷◌, [], All, IfOk, IfErr};
ghost use Rattle.std.specs.List.{AllZip};
ghost use Rattle.dcel_maps.specs.Conditions.{HasRoom};
ghost use Rattle.dcel_maps.specs.EditLists.{EditedBy};
ghost use Rattle.dcel_maps.specs.EditLists.EditKind.{emptied};
ghost use Rattle.dcel_maps.specs.edits.Whole.{cleared, with_vertex_data, with_undirected_data, IsClone, ClonesEqual};
ghost use Rattle.dcel_maps.specs.Shapes.{IsMesh};

use crate::dcel::Dcel;
use crate::operations::NoMemory;
use std::alloc::{AllocError, Allocator};

/// Calls on the whole mesh.
impl<V, DE, UE, F, A: Allocator> Dcel<V, DE, UE, F, A> {
    /// Reserves memory for this many more vertices, undirected edges and faces.
    ///
    /// The contract says only that the mesh does not change, whether there was memory or not: no
    /// clause sees capacity. If the call succeeds, that many elements can be added without another
    /// request for memory.
    ///
    /// Asks that there are numbers left for them ([`has_room`](Self::has_room)). If memory runs out
    /// it returns `AllocError`; some of the memory may have been reserved by then.
    pub fn reserve_capacity(
        &mut self,
        vertices: usize,
        undirected_edges: usize,
        faces: usize,
    ) -> Result<(), AllocError>
        requires { HasRoom self.old.shape vertices undirected_edges faces }
        ensures { self.new ≡ self.old }
    {
        self.store.reserve(vertices, undirected_edges, faces)
    }

    /// Takes out all vertices, all edges and all inner faces.
    ///
    /// The outer face stays, with its datum. An open removal is closed. It allocates nothing and
    /// frees no memory: elements that are added later need none, up to the old counts. No clause
    /// of this contract sees that.
    pub fn clear(&mut self)
    where
        V: Drop,
        DE: Drop,
        UE: Drop,
        F: Drop,
        ensures edit { self.new ≡ cleared self.old }
        ensures edits { EditedBy (emptied ∷ []) self.old self.new }
        ensures mesh { IsMesh self.new }
    {
        self.store.clear();
        self.removal.close();
    }

    /// Maps the data of the vertices with a closure.
    ///
    /// Returns the mesh with the new data. Asks that the closure may be called on each old datum.
    /// All memory is requested from `alloc` before the first call; if it runs out, [`NoMemory`]
    /// returns the whole mesh.
    pub fn map_vertices<V2: Drop, M: Fn(V) -> V2 + Drop>(
        self,
        alloc: A,
        f: M,
    ) -> Result<Dcel<V2, DE, UE, F, A>, NoMemory<Self>>
    where
        V: Drop,
        requires { All (M.pre f) self.vertex_data }
        ensures answered { IfOk result (λ dcel. AllZip (M.post f) self.vertex_data dcel.vertex_data) }
        ensures same { IfOk result (λ dcel. dcel ≡ with_vertex_data self dcel.vertex_data) }
        ensures edits { IfOk result (EditedBy [] self) }
        ensures back { IfErr result (λ refused. refused.back ≡ self) }
        ensures mesh { IfOk result IsMesh }
    {
        let Dcel { store, removal } = self;
        match store.map_vertices(alloc, f) {
            Ok(store) => Ok(Dcel { store, removal }),
            Err(refused) => Err(NoMemory {
                back: Dcel {
                    store: refused.value,
                    removal,
                },
            }),
        }
    }

    /// Maps the data of the undirected edges with a closure.
    ///
    /// Returns the mesh with the new data. Asks that the closure may be called on each old datum.
    /// All memory is requested from `alloc` before the first call; if it runs out, [`NoMemory`]
    /// returns the whole mesh.
    pub fn map_undirected_edges<UE2: Drop, M: Fn(UE) -> UE2 + Drop>(
        self,
        alloc: A,
        f: M,
    ) -> Result<Dcel<V, DE, UE2, F, A>, NoMemory<Self>>
    where
        DE: Drop,
        UE: Drop,
        requires { All (M.pre f) self.undirected_data }
        ensures answered { IfOk result (λ dcel. AllZip (M.post f) self.undirected_data dcel.undirected_data) }
        ensures same { IfOk result (λ dcel. dcel ≡ with_undirected_data self dcel.undirected_data) }
        ensures edits { IfOk result (EditedBy [] self) }
        ensures back { IfErr result (λ refused. refused.back ≡ self) }
        ensures mesh { IfOk result IsMesh }
    {
        let Dcel { store, removal } = self;
        match store.map_undirected_edges(alloc, f) {
            Ok(store) => Ok(Dcel { store, removal }),
            Err(refused) => Err(NoMemory {
                back: Dcel {
                    store: refused.value,
                    removal,
                },
            }),
        }
    }
}

/// The clone.
impl<V: Clone, DE: Clone, UE: Clone, F: Clone, A: Allocator + Clone> Dcel<V, DE, UE, F, A> {
    /// Clones the mesh, with a clone of each datum, in memory of `alloc`.
    ///
    /// Everything else is the same, so the meshes are equal if the clones of data are. If memory
    /// runs out, or a datum cannot be cloned, it returns `AllocError`.
    pub fn try_clone(&self, alloc: A) -> Result<Self, AllocError>
        ensures clone { IfOk result (IsClone V.is_clone DE.is_clone UE.is_clone F.is_clone self.now) }
        ensures equal { ClonesEqual V.is_clone → ClonesEqual DE.is_clone → ClonesEqual UE.is_clone → ClonesEqual F.is_clone
            → IfOk result (λ dcel. dcel ≡ self.now) }
        ensures edits { IfOk result (EditedBy [] self.now) }
        ensures mesh { IfOk result IsMesh }
    {
        let removal = self.removal.try_clone(&alloc)?;
        let store = self.store.try_clone(alloc)?;
        Ok(Dcel { store, removal })
    }
}
