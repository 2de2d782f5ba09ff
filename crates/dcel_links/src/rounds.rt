//! Rounds of steps, each marked whole.

ghost use Rattle.std.specs.Prelude.{◌≡◌, ℕ, ◌<◌, ◌≤◌, ◌^◌, IfErr, IfNone, IfOk, IfSome, OnOk, false, length, slice_index, slice_index_or};
ghost use Rattle.dcel_links.specs.Checks.{AreBelow, IsWhole};
ghost use Rattle.dcel_links.specs.Faults.{InParts};
ghost use Rattle.dcel_links.specs.Marks.{IsBlank, IsClosed, IsOneToOne, MarksLabels, MarksRound};

use std::alloc::{AllocError, Allocator};

// Marks what steps lead to from a number, until they lead back to it.
fn mark_round(steps: &[u32], start: usize, seen: &mut [bool])
    requires lengths { length seen.old ≡ length steps.now }
    requires below { AreBelow (length steps.now) steps.now }
    requires apart { IsOneToOne steps.now }
    requires start { start < length steps.now }
    requires unmarked { slice_index_or seen.old start false ≡ false }
    requires closed { IsClosed steps.now seen.old }
    ensures { MarksRound steps.now start seen.old seen.new }
{
    seen[start] = true;
    let mut at = steps[start] as usize;
    while at != start {
        seen[at] = true;
        at = steps[at] as usize;
    }
}

// Looks for a label whose numbers are not a single cycle of the steps. If there is none, it marks
// the labels that occur.
fn find_parts(steps: &[u32], labels: &[u32], seen: &mut [bool], used: &mut [bool]) -> Option<usize>
    requires lengths { length seen.old ≡ length steps.now }
    requires labels_length { length labels.now ≡ length steps.now }
    requires below { AreBelow (length steps.now) steps.now }
    requires labels_below { AreBelow (length used.old) labels.now }
    requires apart { IsOneToOne steps.now }
    requires along { (x : ℕ) → x < length steps.now
        → slice_index labels.now (slice_index steps.now x) ≡ slice_index labels.now x }
    requires blank { IsBlank seen.old }
    requires blank_labels { IsBlank used.old }
    ensures whole { IfNone result (IsWhole (length steps.now) (λ x. slice_index steps.now x) (λ x. slice_index labels.now x)) }
    ensures used { IfNone result (MarksLabels labels.now used.new) }
    ensures parts { IfSome result (λ v. InParts (length steps.now) (λ x. slice_index steps.now x) (λ x. slice_index labels.now x) v) }
{
    for start in 0..steps.len() {
        if !seen[start] {
            let label = labels[start] as usize;
            if used[label] {
                return Some(label);
            }
            used[label] = true;
            mark_round(steps, start, seen);
        }
    }
    None
}

/// Marks the labels that occur, all below a count, or returns one whose numbers are not a single
/// cycle of the steps.
pub(crate) fn mark_labels<A: Allocator + Clone>(
    alloc: &A,
    steps: &[u32],
    labels: &[u32],
    count: usize,
) -> Result<Result<Vec<bool, A>, usize>, AllocError>
    requires length { length labels.now ≡ length steps.now }
    requires below { AreBelow (length steps.now) steps.now }
    requires labels_below { AreBelow count labels.now }
    requires apart { IsOneToOne steps.now }
    requires along { (x : ℕ) → x < length steps.now
        → slice_index labels.now (slice_index steps.now x) ≡ slice_index labels.now x }
    ensures whole { IfOk result (λ found. OnOk found (IsWhole (length steps.now) (λ x. slice_index steps.now x) (λ x. slice_index labels.now x))) }
    ensures length { IfOk result (λ found. IfOk found (λ used. length used.items ≡ count)) }
    ensures used { IfOk result (λ found. IfOk found (λ used. MarksLabels labels.now used.items)) }
    ensures parts { IfOk result (λ found. IfErr found (InParts (length steps.now) (λ x. slice_index steps.now x) (λ x. slice_index labels.now x))) }
{
    let mut seen = vec![in alloc.clone()?; false; steps.len()]?;
    let mut used = vec![in alloc.clone()?; false; count]?;
    match find_parts(steps, labels, &mut seen, &mut used) {
        Some(label) => Ok(Err(label)),
        None => Ok(Ok(used)),
    }
}
