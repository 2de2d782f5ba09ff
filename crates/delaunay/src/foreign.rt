//! Formats that aren't read, by how their lines look.

use crate::fault::Wrong;
use crate::quoting::Sentence;

/// Words that begin a line of WKT.
const SHAPES: &[&str] = &[
    "POINT",
    "LINESTRING",
    "POLYGON",
    "MULTI",
    "GEOMETRYCOLLECTION",
];

/// Returns why a line is refused: for its format, if that is known, or for what is wrong with it.
pub fn why_refused(line: &str, wrong: Wrong) -> Wrong {
    match format_of(line.trim_ascii()) {
        Some(sentence) => Wrong::quoting(sentence, line),
        None => wrong,
    }
}

/// Returns why a line that has two columns is refused: for commas in its numbers, if it has some.
pub fn why_no_numbers(line: &str, wrong: Wrong) -> Wrong {
    if line.contains(';') && line.contains(',') {
        Wrong::quoting(Sentence::DecimalComma, line)
    } else {
        wrong
    }
}

/// Returns what is to be said of the format of a line, if it is known.
fn format_of(line: &str) -> Option<Sentence> {
    if line.contains('\0') {
        return Some(Sentence::Binary);
    }
    if SHAPES.iter().any(|shape| line.starts_with(*shape)) {
        return Some(Sentence::Wkt);
    }
    match line.chars().next()? {
        '{' => Some(Sentence::Json),
        '<' => Some(Sentence::Xml),
        '[' | '(' => Some(Sentence::Brackets),
        _ => None,
    }
}
