//! Colors of faces.

use dcel_drawn::Picture;
use std::alloc::{AllocError, Allocator};

/// How many colors there are.
const COLORS: usize = 7;

/// A face beside one of a lesser number.
#[derive(Clone, Copy, PartialEq, Eq, PartialOrd, Ord)]
struct Border {
    face: usize,
    lesser: usize,
}

/// Returns a color for each face, another one than those of the faces beside it as long as these
/// leave one.
pub(crate) fn colors_of<B: Allocator + Copy>(
    picture: &Picture<B>,
) -> Result<Vec<usize, B>, AllocError> {
    let mut colors = Vec::new(*picture.patches.allocator());
    for patch in &picture.patches {
        colors.push(patch.number % COLORS)?;
    }
    let borders = borders_of(picture)?;
    let mut taken = [false; COLORS];
    let mut last = 0;
    for border in &borders {
        if border.face != last {
            taken = [false; COLORS];
            last = border.face;
        }
        mark(&mut taken, colors.get(border.lesser));
        if let Some(color) = colors.get_mut(border.face) {
            *color = free_color(&taken, border.face);
        }
    }
    Ok(colors)
}

/// Lists the inner faces that share an edge, by the greater of their numbers.
fn borders_of<B: Allocator + Copy>(picture: &Picture<B>) -> Result<Vec<Border, B>, AllocError> {
    let mut borders = Vec::new(*picture.patches.allocator());
    for (edge, other) in picture
        .strokes
        .iter()
        .zip(picture.strokes.iter().skip(1))
        .step_by(2)
    {
        if let (Some(left), Some(right)) = (edge.face, other.face) {
            if left > 0 && right > 0 && left != right {
                borders.push(Border {
                    face: left.max(right),
                    lesser: left.min(right),
                })?;
            }
        }
    }
    borders.sort_unstable();
    Ok(borders)
}

/// Marks a color as taken.
fn mark(taken: &mut [bool], color: Option<&usize>) {
    if let Some(color) = color {
        if let Some(entry) = taken.get_mut(*color) {
            *entry = true;
        }
    }
}

/// Returns the first color that isn't taken, from the one of this face on.
fn free_color(taken: &[bool], face: usize) -> usize {
    for step in 0..COLORS {
        let color = (face % COLORS + step) % COLORS;
        if taken.get(color) == Some(&false) {
            return color;
        }
    }
    face % COLORS
}
