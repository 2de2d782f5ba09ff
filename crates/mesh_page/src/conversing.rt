//! Meshes that are kept: lines edit them, and they are drawn.

ghost use Rattle.std.specs.Prelude.{◌≡◌, ◌≢◌, ◌⊎◌, ◌↔◌, ◌≤◌, ◌<◌, ℕ, List, None, length};
ghost use Rattle.dcel_exports.specs.Answers.{HasAnswer};
ghost use Rattle.mesh_page.specs.Conversing.{Hears, IsBlank, IsReply};
ghost use Rattle.mesh_page.specs.Keeping.{AreSo, IsOpen, IsSo, mesh_in, thing_in};

mod answering;

use crate::desk::{Conversation, Thing};
use crate::holder::MeshPageKept;
use crate::kept::put;
use crate::status::{NO_MEMORY, NOT_KEPT};

/// Puts an empty mesh on a desk, in the heap of another one, and frees what was on it.
///
/// Returns 0; 2 if there is no memory, and 4 if the other desk isn't open: then what was on the desk
/// stays.
#[unsafe(no_mangle)]
pub extern "C" fn mesh_page_mesh(from: &mut MeshPageKept, kept: &mut MeshPageKept) -> u32
    ensures done { result ≡ 0 → IsSo IsBlank (mesh_in kept.new) }
    ensures refused { result ≢ 0 → thing_in kept.new ≡ thing_in kept.old }
    ensures none { (result ≡ 4) ↔ (¬ IsOpen from.old) }
    ensures status { (result ≡ 0) ⊎ (result ≡ 2) ⊎ (result ≡ 4) }
    ensures same { thing_in from.new ≡ thing_in from.old }
{
    if !from.is_open {
        return NOT_KEPT;
    }
    let heap = from.held.as_mut().heap;
    match Conversation::new(heap) {
        Ok(made) => put(heap, kept, Thing::Mesh(made)),
        Err(_) => NO_MEMORY,
    }
}

/// Has the mesh do what a line says, a command or a query, and puts the reply into the buffer, with the
/// line feed at its end.
///
/// As many bytes as fit are put there, from the front, and what lies behind them stays. `needed` is how
/// many bytes the reply has. Returns 0 if all are there, and 1 if the buffer was short; 2 if there is no
/// memory for the line, and then nothing changes; 5 if there is none for the reply: the mesh did what
/// the line says, and with 1 and 5 `mesh_page_last_reply` puts the reply; 4 if no mesh is kept. From 2 on
/// the buffer stays as it was, and `needed` is 0.
#[unsafe(no_mangle)]
pub extern "C" fn mesh_page_answer(
    kept: &mut MeshPageKept,
    line: &[u8],
    reply: &mut [u8],
    needed: &mut u64,
) -> u32
    ensures hears { (result ≤ 1) ⊎ (result ≡ 5) → AreSo (Hears line.now) (mesh_in kept.old) (mesh_in kept.new) }
    ensures reply { result ≤ 1 → IsSo (λ mesh. HasAnswer (IsReply mesh) reply.old reply.new needed.new) (mesh_in kept.new) }
    ensures done { result ≡ 0 → needed.new ≤ length reply.old }
    ensures short { result ≡ 1 → length reply.old < needed.new }
    ensures none { (result ≡ 4) ↔ (mesh_in kept.old ≡ None) }
    ensures same { (result ≡ 2) ⊎ (result ≡ 4) → thing_in kept.new ≡ thing_in kept.old }
    ensures untold { 2 ≤ result → (reply.new ≡ reply.old) × (needed.new ≡ 0) }
    ensures status { (result ≤ 2) ⊎ ((result ≡ 4) ⊎ (result ≡ 5)) }
{
    *needed = 0;
    if !kept.is_open {
        return NOT_KEPT;
    }
    let desk = kept.held.as_mut();
    let heap = desk.heap;
    match &mut desk.thing {
        Thing::Mesh(mesh) => answering::answer(heap, mesh, line, reply, needed),
        Thing::Delaunay(_) => NOT_KEPT,
        Thing::Constrained(_) => NOT_KEPT,
        Thing::Nothing => NOT_KEPT,
    }
}

/// Puts the reply to the last line into the buffer once more, none before the first line.
///
/// Returns 0 if all of it is there, and 1 if the buffer was short; 2 if there is no memory, and 4 if no
/// mesh is kept: then the buffer stays, and `needed` is 0.
#[unsafe(no_mangle)]
pub extern "C" fn mesh_page_last_reply(
    kept: &mut MeshPageKept,
    reply: &mut [u8],
    needed: &mut u64,
) -> u32
    ensures reply { result ≤ 1 → IsSo (λ mesh. HasAnswer (IsReply mesh) reply.old reply.new needed.new) (mesh_in kept.old) }
    ensures done { result ≡ 0 → needed.new ≤ length reply.old }
    ensures short { result ≡ 1 → length reply.old < needed.new }
    ensures none { (result ≡ 4) ↔ (mesh_in kept.old ≡ None) }
    ensures untold { 2 ≤ result → (reply.new ≡ reply.old) × (needed.new ≡ 0) }
    ensures status { (result ≤ 2) ⊎ (result ≡ 4) }
    ensures same { thing_in kept.new ≡ thing_in kept.old }
{
    *needed = 0;
    if !kept.is_open {
        return NOT_KEPT;
    }
    let desk = kept.held.as_mut();
    let heap = desk.heap;
    match &desk.thing {
        Thing::Mesh(mesh) => answering::put_last(heap, mesh, reply, needed),
        Thing::Delaunay(_) => NOT_KEPT,
        Thing::Constrained(_) => NOT_KEPT,
        Thing::Nothing => NOT_KEPT,
    }
}

/// Puts the SVG of the mesh into `svg`, on request with its anchors, as `mesh_page_picture` does.
///
/// Returns 0 if all of it is there, and 1 if the buffer was short; 2 if there is no memory, and 4 if no
/// mesh is kept: then the buffer stays, and `needed` is 0.
#[unsafe(no_mangle)]
pub extern "C" fn mesh_page_draw(
    kept: &mut MeshPageKept,
    anchors: bool,
    svg: &mut [u8],
    needed: &mut u64,
) -> u32
    ensures text { result ≤ 1 → HasAnswer (λ (text : List ℕ). Unit {0}) svg.old svg.new needed.new }
    ensures done { result ≡ 0 → needed.new ≤ length svg.old }
    ensures short { result ≡ 1 → length svg.old < needed.new }
    ensures none { (result ≡ 4) ↔ (mesh_in kept.old ≡ None) }
    ensures untold { 2 ≤ result → (svg.new ≡ svg.old) × (needed.new ≡ 0) }
    ensures status { (result ≤ 2) ⊎ (result ≡ 4) }
    ensures same { thing_in kept.new ≡ thing_in kept.old }
{
    *needed = 0;
    if !kept.is_open {
        return NOT_KEPT;
    }
    let desk = kept.held.as_mut();
    let heap = desk.heap;
    match &desk.thing {
        Thing::Mesh(mesh) => answering::draw(heap, mesh, anchors, svg, needed),
        Thing::Delaunay(_) => NOT_KEPT,
        Thing::Constrained(_) => NOT_KEPT,
        Thing::Nothing => NOT_KEPT,
    }
}
