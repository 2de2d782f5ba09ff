//! The picture of the mesh that lines leave.

ghost use Rattle.std.specs.Prelude.{◌≡◌, ◌≢◌, ◌≤◌, ◌<◌, ℕ, List, length};
ghost use Rattle.dcel_exports.specs.Answers.{HasAnswer};

use dcel_commands::commands::Refusal;
use dcel_exports::put;
use dcel_exports::status::NO_MEMORY;
use dcel_replay::{Replay, Wrong};
use dcel_svg::{Picture, Style, spread, write_svg};
use dcel_text::lines::split_line;
use lent_heap::{Heap, Memory};
use std::alloc::{AllocError, Allocator};
use std::io;

/// Carries the lines out on an empty mesh, and puts the SVG of the mesh that they leave into `svg`,
/// on request with its anchors. A line that is bad or refused leaves the mesh as it was.
///
/// As many bytes as fit are put there, from the front, and what lies behind them stays. `needed` is
/// how many bytes all are. Returns 0 if all are there, and 1 if the buffer was short; 2 if the
/// memory lent was too small for a line or the picture, and then the buffer stays as it was and
/// `needed` is 0.
#[unsafe(no_mangle)]
pub extern "C" fn mesh_page_picture(
    memory: Memory,
    lines: &[u8],
    anchors: bool,
    svg: &mut [u8],
    needed: &mut u64,
) -> u32
    ensures text { result ≢ 2 → HasAnswer (λ (text : List ℕ). Unit {0}) svg.old svg.new needed.new }
    ensures done { result ≡ 0 → needed.new ≤ length svg.old }
    ensures short { result ≡ 1 → length svg.old < needed.new }
    ensures no_memory { result ≡ 2 → (svg.new ≡ svg.old) × (needed.new ≡ 0) }
    ensures no_other { result ≤ 2 }
{
    let heap = Heap::new(memory);
    let Ok(text) = drawn(&heap, lines, Style::HalfEdges { anchors }) else {
        *needed = 0;
        return NO_MEMORY;
    };
    put(&text, svg, needed)
}

/// Returns the SVG of the mesh that the lines leave.
fn drawn<A: Allocator + Copy>(alloc: A, lines: &[u8], style: Style) -> io::Result<Vec<u8, A>> {
    let replay = replayed(alloc, lines)?;
    draw(alloc, &replay, style)
}

/// Returns the SVG of a mesh, with what an open removal has given up.
pub(crate) fn draw<A: Allocator + Copy>(
    alloc: A,
    replay: &Replay<A>,
    style: Style,
) -> io::Result<Vec<u8, A>> {
    let (mesh, before) = (replay.mesh(), replay.before());
    let places = spread(alloc, mesh, before)?;
    let picture = Picture::new(alloc, mesh, before, &places)?;
    let mut text = Vec::new(alloc);
    write_svg(&picture, style, &mut text)?;
    Ok(text)
}

/// Carries the lines out, as long as there is memory for each.
fn replayed<A: Allocator + Copy>(alloc: A, lines: &[u8]) -> Result<Replay<A>, AllocError> {
    let mut replay = Replay::new(alloc)?;
    let mut rest = lines;
    while let Some((line, others)) = split_line(rest) {
        take(&mut replay, line)?;
        rest = others;
    }
    take(&mut replay, rest)?;
    Ok(replay)
}

/// Does what a line says, unless it is bad or refused for another reason than want of memory.
fn take<A: Allocator + Copy>(replay: &mut Replay<A>, line: &[u8]) -> Result<(), AllocError> {
    match replay.take(line) {
        Err(Wrong::OutOfMemory(_)) => Err(AllocError),
        Err(Wrong::Refused(Refusal::OutOfMemory)) => Err(AllocError),
        _ => Ok(()),
    }
}
