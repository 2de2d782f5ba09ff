//! The first word of a file in the Object File Format.

use crate::fault::Wrong;

/// The first words that are known, with how many numbers each vertex has behind its coordinates:
/// two of a texture (`ST`), four of a color (`C`), three of a normal (`N`).
const HEADERS: [(&str, usize); 8] = [
    ("OFF", 0),
    ("STOFF", 2),
    ("COFF", 4),
    ("NOFF", 3),
    ("CNOFF", 7),
    ("STCOFF", 6),
    ("STNOFF", 5),
    ("STCNOFF", 9),
];

/// The first words of a line of OBJ.
const OBJ_WORDS: [&str; 10] = ["v", "vn", "vt", "f", "o", "g", "s", "l", "mtllib", "usemtl"];

/// Returns how many numbers each vertex has behind its coordinates in a file that begins so, or
/// what such a file looks like.
pub fn extras_of(first: &str) -> Result<usize, Wrong> {
    // A small n tells of another number of coordinates.
    if !first.ends_with("nOFF") {
        for (known, extras) in HEADERS {
            if first.eq_ignore_ascii_case(known) {
                return Ok(extras);
            }
        }
    }
    Err(fault_of(first))
}

/// The first words of other formats, with the formats.
const OTHERS: [(&str, &str, &str); 3] = [
    ("ply", "PLY", "ply"),
    ("solid", "STL", "stl"),
    ("vertices", "words", "words"),
];

fn fault_of(first: &str) -> Wrong {
    if OBJ_WORDS.contains(&first) {
        return Wrong::NotOff("OBJ", "obj");
    }
    for (known, format, name) in OTHERS {
        if first == known {
            return Wrong::NotOff(format, name);
        }
    }
    if is_other_off(first) {
        return Wrong::beginning(first, "OFF is read with three coordinates alone");
    }
    Wrong::beginning(first, "not with OFF")
}

/// Returns whether it is a kind of OFF, as `4OFF` and `nOFF`.
fn is_other_off(first: &str) -> bool {
    match first.split_at_checked(first.len().saturating_sub(3)) {
        Some((_, ending)) => ending.eq_ignore_ascii_case("OFF"),
        None => false,
    }
}
