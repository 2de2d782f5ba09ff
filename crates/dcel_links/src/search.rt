//! What is reached from half edge 0.

ghost use Rattle.std.specs.Prelude.{◌≡◌, ℕ, ◌+◌, ◌<◌, ◌≤◌, ◌%◌, ◌^◌, IfNone, IfSome, length, slice_index};
ghost use Rattle.dcel_maps.specs.Maps.{Reaches};
ghost use Rattle.dcel_links.specs.Checks.{AreBelow};
ghost use Rattle.dcel_links.specs.Marks.{IsBlank};
ghost use Rattle.dcel_links.specs.Search.{Leads, Queue, Visits};

use crate::marks::find_unmarked;
use dcel_fixed::other_half;

// Marks a half edge and puts it at the end of the queue, if it isn't there.
fn visit(half: usize, marks: &mut [bool], order: &mut [u32], tail: usize) -> usize
    requires half { half < length marks.old }
    requires few { length marks.old ≤ 2 ^ 32 }
    requires queue { Queue marks.old order.old tail }
    ensures { Visits half marks.old order.old tail marks.new order.new result }
{
    if marks[half] {
        return tail;
    }
    marks[half] = true;
    order[tail] = half as u32;
    tail + 1
}

/// Looks for a half edge that isn't reached from half edge 0 by what comes next and other halves.
pub(crate) fn find_cut_off(next: &[u32], marks: &mut [bool], order: &mut [u32]) -> Option<usize>
    requires marks_length { length marks.old ≡ length next.now }
    requires order_length { length order.old ≡ length next.now }
    requires few { length next.now ≤ 2 ^ 32 }
    requires some { 0 < length next.now }
    requires even { length next.now % 2 ≡ 0 }
    requires below { AreBelow (length next.now) next.now }
    requires blank { IsBlank marks.old }
    ensures one { IfNone result ((h : ℕ) → h < length next.now → Reaches (Leads next.now) 0 h) }
    ensures cut_off { IfSome result (λ h. (h < length next.now) × ¬ Reaches (Leads next.now) 0 h) }
{
    let mut tail = visit(0, marks, order, 0);
    let mut head = 0;
    while head < tail {
        let half = order[head] as usize;
        tail = visit(next[half] as usize, marks, order, tail);
        tail = visit(other_half(half), marks, order, tail);
        head += 1;
    }
    if let Some(half) = find_unmarked(marks, 0) {
        return Some(half);
    }
    None
}
