//! Checking half edges that are given as anchors of vertices or faces.

ghost use Rattle.std.specs.Prelude.{◌≡◌, ◌≢◌, ℕ, ◌<◌, IfNone, IfSome, None, length, slice_index};
ghost use Rattle.dcel_links.specs.Anchors.{AreAnchors, IsAnchor, IsAnchoredAt, anchor_of};

/// Looks for a wrong anchor among those of vertices, or among those of faces.
///
/// `labels` has an item for each half edge: the vertex where it starts, or its face. `anchors` has
/// one for each vertex or face: one of its half edges, or None if it has none. Returns a number
/// whose anchor is wrong, if there is one. Any lists may be given. It reads each once, and
/// allocates nothing.
pub fn find_wrong_anchor(labels: &[u32], anchors: &[Option<u32>]) -> Option<usize>
    ensures right { IfNone result (AreAnchors labels.now anchors.now) }
    ensures below { IfSome result (λ v. v < length anchors.now) }
    ensures wrong { IfSome result (λ v. ¬ IsAnchor labels.now v (anchor_of anchors.now v)) }
{
    if let Some(number) = find_missing(labels, anchors) {
        return Some(number);
    }
    find_misplaced(labels, anchors)
}

// Looks for a number that labels a half edge and has no anchor.
fn find_missing(labels: &[u32], anchors: &[Option<u32>]) -> Option<usize>
    ensures none_missing { IfNone result ((h : ℕ) → h < length labels.now → slice_index labels.now h < length anchors.now
        → anchor_of anchors.now (slice_index labels.now h) ≢ None) }
    ensures below { IfSome result (λ v. v < length anchors.now) }
    ensures wrong { IfSome result (λ v. ¬ IsAnchor labels.now v (anchor_of anchors.now v)) }
{
    for half in 0..labels.len() {
        let number = labels[half] as usize;
        if number < anchors.len() {
            if anchors[number].is_none() {
                return Some(number);
            }
        }
    }
    None
}

// Looks for an anchor that is no half edge, or one of another number.
fn find_misplaced(labels: &[u32], anchors: &[Option<u32>]) -> Option<usize>
    ensures placed { IfNone result ((v : ℕ) → v < length anchors.now → IfSome (anchor_of anchors.now v) (IsAnchoredAt labels.now v)) }
    ensures below { IfSome result (λ v. v < length anchors.now) }
    ensures wrong { IfSome result (λ v. ¬ IsAnchor labels.now v (anchor_of anchors.now v)) }
{
    for number in 0..anchors.len() {
        if let Some(half) = anchors[number] {
            if half as usize >= labels.len() {
                return Some(number);
            }
            if labels[half as usize] as usize != number {
                return Some(number);
            }
        }
    }
    None
}
