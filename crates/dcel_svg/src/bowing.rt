//! Where edges bend.

ghost use Rattle.std.specs.Prelude.{◌≡◌};

use crate::bends::ranks;
use crate::reading::drawn;
use dcel_drawn::{Bend, Place, Places};
use spade_dcel::dcel::Dcel;
use spade_dcel::handles::FixedUndirectedEdgeHandle;
use std::alloc::{AllocError, Allocator};

/// Bends edges that join the same two vertices, and are straight so far, to both sides.
///
/// Those that a removal has given up are bent too, beyond the others, if it is told where they lay
/// `before`. If memory runs out it returns `AllocError`, and some edges may be bent by then.
pub fn bow<V, DE, UE, F, A: Allocator, B: Allocator + Copy>(
    alloc: B,
    mesh: &Dcel<V, DE, UE, F, A>,
    before: Option<&Dcel<V, DE, UE, F, A>>,
    places: &mut Places<B>,
) -> Result<(), AllocError>
    ensures { places.new.vertices.items ≡ places.old.vertices.items }
{
    let ranks = ranks(alloc, mesh, before, places.bends.as_slice())?;
    for number in 0..mesh.num_undirected_edges() {
        let half = FixedUndirectedEdgeHandle::new(number).as_directed();
        let mut bend = places.bend(number);
        if let (None, Some(rank), Some(edge)) = (
            bend,
            ranks.get(number),
            drawn(mesh, before, half),
        ) {
            let (from, to) = (edge.from().index(), edge.to().index());
            if rank.count > 1 {
                bend = arc(
                    places.vertex(from.min(to)),
                    places.vertex(from.max(to)),
                    rank.offset(),
                );
            }
        }
        put(&mut places.bends, number, bend)?;
    }
    Ok(())
}

/// Returns the arc that bends so far to the left, as a part of its length, or None if it is straight.
fn arc(from: Option<Place>, to: Option<Place>, offset: f64) -> Option<Bend> {
    let (from, to) = (from?, to?);
    if offset == 0.0 {
        return None;
    }
    let aside = to.minus(from).left().times(offset);
    Some(Bend {
        tip: from.middle(to).plus(aside),
        cut: 0.5,
    })
}

/// Puts an entry into a list at its number, or at the end if the list is that long.
fn put<T: Copy, B: Allocator>(
    list: &mut Vec<Option<T>, B>,
    number: usize,
    entry: Option<T>,
) -> Result<(), AllocError> {
    if let Some(old) = list.get_mut(number) {
        *old = entry;
        return Ok(());
    }
    list.push(entry)?;
    Ok(())
}
