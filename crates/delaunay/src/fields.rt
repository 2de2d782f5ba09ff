//! The fields of a line: what is between two separators. In quotes nothing separates.

use dcel_programs::before_comment;

/// The separator that stands for all blanks.
const BLANK: char = ' ';

/// Returns the field of a line in a place, counted from 0, by the line's separator.
pub fn field(line: &str, separator: char, place: usize) -> Option<&str> {
    let mut is_quoted = false;
    let mut fields = line
        .split(|next: char| separates(separator, next, &mut is_quoted))
        .filter(|field| separator != BLANK || !field.is_empty());
    Some(unquoted(fields.nth(place)?))
}

/// Returns the place of the first field of a line that is this name.
pub fn place_of(line: &str, name: &str) -> Option<usize> {
    let separator = separator_of(line);
    let mut is_quoted = false;
    let mut fields = line
        .split(|next: char| separates(separator, next, &mut is_quoted))
        .filter(|field| separator != BLANK || !field.is_empty());
    fields.position(|field| unquoted(field) == name)
}

/// Returns a field without the blanks and the quotes around it.
pub fn unquoted(field: &str) -> &str {
    let word = field.trim_ascii();
    match word.strip_prefix('"') {
        Some(rest) => rest.strip_suffix('"').unwrap_or(word).trim_ascii(),
        None => word,
    }
}

/// Returns what stands before the first `#` of a line that is in no quotes.
pub fn uncommented(line: &str) -> &str {
    if !line.contains('"') {
        return before_comment(line);
    }
    let mut is_quoted = false;
    let mut parts = line.split(|next: char| separates('#', next, &mut is_quoted));
    parts.next().unwrap_or(line)
}

/// Returns the first one of a tab, a semicolon and a comma that separates something in a line, and
/// blanks if none does.
pub fn separator_of(line: &str) -> char {
    if is_separated(line, '\t') {
        '\t'
    } else if is_separated(line, ';') {
        ';'
    } else if is_separated(line, ',') {
        ','
    } else {
        BLANK
    }
}

/// Returns whether this character separates something in a line.
fn is_separated(line: &str, separator: char) -> bool {
    if !line.contains(separator) || !line.contains('"') {
        return line.contains(separator);
    }
    let mut is_quoted = false;
    line.contains(|next: char| separates(separator, next, &mut is_quoted))
}

/// Returns whether a character separates fields, and notes whether it begins or ends quotes.
fn separates(separator: char, next: char, is_quoted: &mut bool) -> bool {
    if next == '"' {
        *is_quoted = !*is_quoted;
    }
    if *is_quoted {
        return false;
    }
    next == separator || separator == BLANK && next.is_ascii_whitespace()
}
