//! The items of a list that are to be kept, and the places that they have then.

ghost use Rattle.std.specs.Prelude.{◌≡◌, ◌++◌, ◌∷◌, [], None, false, if◌then◌else◌, IfOk, IfSome, OnOk, map};
ghost use Rattle.std.specs.List.{slice_index_or};
ghost use Rattle.dcel_output.specs.Keeping.{across_among, kept, number_after, placed, placed_across, places_among};

use dcel_delaunay::lists::Across;
use std::alloc::{AllocError, Allocator};

/// Returns the items of a list whose flags, in the same places of another one, are set. An item
/// without a flag isn't kept.
///
/// If memory runs out it returns `AllocError`.
pub fn kept<T: Copy, B: Allocator>(
    alloc: B,
    items: &[T],
    flags: &[bool],
) -> Result<Vec<T, B>, AllocError>
    ensures { IfOk result (λ list. list.items ≡ kept flags.now items.now) }
{
    let mut list = Vec::new(alloc);
    for (place, item) in items.iter().enumerate() {
        keep(&mut list, *item, is_set(flags, place))?;
    }
    Ok(list)
}

/// Appends an item to a list, if it is to be kept.
fn keep<T: Copy, B: Allocator>(
    list: &mut Vec<T, B>,
    item: T,
    is_kept: bool,
) -> Result<(), AllocError>
    ensures { OnOk result (list.new.items ≡ list.old.items ++ (if is_kept then item ∷ [] else [])) }
{
    if !is_kept {
        return Ok(());
    }
    list.push(item)?;
    Ok(())
}

/// Returns whether there is a flag in this place, and it is set.
pub(crate) fn is_set(flags: &[bool], place: usize) -> bool
    ensures { result ≡ slice_index_or flags.now place false }
{
    match flags.get(place) {
        Some(flag) => *flag,
        None => false,
    }
}

/// Returns what is across from the corners of the triangles that are kept, by their places among
/// these: none in place of a triangle that isn't kept.
///
/// If memory runs out, or more than 2^32 triangles are kept, it returns `AllocError`.
pub fn kept_neighbors<B: Allocator + Copy>(
    alloc: B,
    neighbors: &[Across],
    flags: &[bool],
) -> Result<Vec<Across, B>, AllocError>
    ensures { IfOk result (λ list. list.items ≡ map (across_among flags.now) (kept flags.now neighbors.now)) }
{
    let places = places_among(alloc, flags)?;
    let mut list = kept(alloc, neighbors, flags)?;
    place_each(&mut list, &places);
    Ok(list)
}

/// Returns for each item its place among those that are kept, if it is one.
fn places_among<B: Allocator>(alloc: B, flags: &[bool]) -> Result<Vec<Option<u32>, B>, AllocError>
    ensures { IfOk result (λ list. list.items ≡ places_among 0 flags.now) }
{
    let mut places = Vec::with_capacity(alloc, flags.len())?;
    let mut number = 0u32;
    let mut left = flags;
    while let Some((&flag, after)) = left.split_first() {
        places.push(if flag { Some(number) } else { None })?;
        let Some(next) = number_after(number, flag) else {
            return Err(AllocError);
        };
        number = next;
        left = after;
    }
    Ok(places)
}

/// Returns how many are kept with one more item, if that is a number.
fn number_after(number: u32, flag: bool) -> Option<u32>
    ensures { IfSome result (λ next. next ≡ number_after number flag) }
{
    if flag {
        number.checked_add(1)
    } else {
        Some(number)
    }
}

/// Gives what is across the places that it has in a list.
fn place_each(list: &mut [Across], places: &[Option<u32>])
    ensures { list.new ≡ map (placed_across places.now) list.old }
{
    for across in list.iter_mut() {
        *across = placed_across(places, *across);
    }
}

fn placed_across(places: &[Option<u32>], across: Across) -> Across
    ensures { result ≡ placed_across places.now across }
{
    Across {
        first: placed(places, across.first),
        second: placed(places, across.second),
        third: placed(places, across.third),
    }
}

/// Returns the place that a list has for a triangle, if there is one and it has.
fn placed(places: &[Option<u32>], triangle: Option<u32>) -> Option<u32>
    ensures { result ≡ placed places.now triangle }
{
    match triangle {
        Some(number) => place_at(places, number as usize),
        None => None,
    }
}

fn place_at(places: &[Option<u32>], number: usize) -> Option<u32>
    ensures { result ≡ slice_index_or places.now number None }
{
    match places.get(number) {
        Some(place) => *place,
        None => None,
    }
}
