//! What the host holds, and the memory that it lends.

ghost use Rattle.std.specs.Prelude.{◌≡◌, ◌≢◌};
ghost use Rattle.mesh_page.specs.Keeping.{IsOpen, thing_in};
ghost use Rattle.mesh_page.specs.declared.desk.Thing.TheVariants.{Nothing};

use crate::desk::{Desk, Thing};
use crate::held::Held;
use crate::holder::MeshPageKept;
use crate::status::{DONE, NO_MEMORY};
use lent_heap::{Heap, Memory};

/// Lends memory for good: to the heap of the desk if it is open, and else a heap is made in the
/// memory, and a desk in the heap with nothing on it. What is on the desk stays.
///
/// Returns 0, or 2 if the memory is too small for a heap and a desk, which then isn't open.
#[unsafe(no_mangle)]
pub extern "C" fn mesh_page_lend(kept: &mut MeshPageKept, memory: Memory) -> u32
    ensures done { result ≡ 0 → IsOpen kept.new }
    ensures refused { result ≢ 0 → (result ≡ 2) × ¬ IsOpen kept.new }
    ensures same { thing_in kept.new ≡ thing_in kept.old }
{
    if kept.is_open {
        kept.held.as_mut().heap.lend(memory);
        return DONE;
    }
    match Heap::leak(memory) {
        Some(heap) => put(heap, kept, Thing::Nothing),
        None => NO_MEMORY,
    }
}

/// Frees what is on the desk. The desk stays, for what is made next.
#[unsafe(no_mangle)]
pub extern "C" fn mesh_page_free(kept: &mut MeshPageKept)
    ensures { thing_in kept.new ≡ Nothing }
{
    if kept.is_open {
        kept.held.as_mut().thing = Thing::Nothing;
    }
}

/// Puts a thing on the desk, and frees what was there. If there is no desk yet, one is made; if there
/// is no memory for it, nothing changes.
pub(crate) fn put(heap: &'static Heap, kept: &mut MeshPageKept, thing: Thing) -> u32
    ensures done { result ≡ 0 → thing_in kept.new ≡ thing }
    ensures open { result ≡ 0 → IsOpen kept.new }
    ensures refused { result ≢ 0 → (result ≡ 2) × ¬ IsOpen kept.new × (thing_in kept.new ≡ thing_in kept.old) }
{
    if kept.is_open {
        kept.held.as_mut().thing = thing;
        return DONE;
    }
    let Ok(desk) = Box::new(heap, Desk { heap, thing }) else {
        return NO_MEMORY;
    };
    *kept = MeshPageKept {
        held: Held::of(desk),
        is_open: true,
    };
    DONE
}
