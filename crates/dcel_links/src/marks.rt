//! Marks on numbers, counted and gone over.

ghost use Rattle.std.specs.Prelude.{◌≡◌, ℕ, ◌<◌, ◌≤◌, IfNone, IfSome, false, length, slice_index_or};
ghost use Rattle.dcel_maps.specs.Maps.{count};
ghost use Rattle.dcel_links.specs.Marks.{Marked};

/// Returns how many numbers are marked.
pub(crate) fn count_marks(marks: &[bool]) -> usize
    ensures number { result ≡ count (λ k. slice_index_or marks.now k false) (length marks.now) }
    ensures at_most { result ≤ length marks.now }
{
    let mut found = 0;
    for mark in marks {
        if *mark {
            found += 1;
        }
    }
    found
}

/// Looks for a number, from this one on, that isn't marked.
pub(crate) fn find_unmarked(marks: &[bool], first: usize) -> Option<usize>
    ensures all { IfNone result ((k : ℕ) → first ≤ k → k < length marks.now → Marked marks.now k) }
    ensures one { IfSome result (λ k. (first ≤ k) × (k < length marks.now) × ¬ Marked marks.now k) }
{
    for number in first..marks.len() {
        if !marks[number] {
            return Some(number);
        }
    }
    None
}
