//! Blocks of rows.

use std::alloc::Global;
use std::test::Fail;

/// A row of a block.
#[derive(Clone, Copy)]
pub struct Row<'a> {
    /// The block, whose other lines make the mesh.
    pub block: &'a str,
    /// What stands before the line, mostly how many requests for memory it makes.
    pub requests: &'a str,
    /// The line.
    pub line: &'a str,
    /// What stands after the line, if anything: a reply.
    pub reply: &'a str,
}

/// Returns whether the text is a row.
fn is_row(text: &str) -> bool {
    !text.starts_with('#') && text.contains(": ")
}

/// Returns whether the text is a line that makes the mesh.
pub fn is_of_mesh(text: &str) -> bool {
    !text.is_empty() && !text.starts_with('#') && !text.contains(": ")
}

/// Returns the row that a text is.
fn row_of<'a>(block: &'a str, text: &'a str) -> Row<'a> {
    let (requests, rest) = text.split_once(": ").unwrap_or(("", text));
    let (line, reply) = rest.split_once(": ").unwrap_or((rest, ""));
    Row {
        block,
        requests,
        line,
        reply,
    }
}

/// Returns the rows of a block.
pub fn rows_of<'a>(block: &'a str, alloc: Global) -> Result<Vec<Row<'a>>, Fail> {
    let mut rows = Vec::new(alloc);
    for text in block.lines() {
        if is_row(text) {
            rows.push(row_of(block, text))?;
        }
    }
    Ok(rows)
}

/// Reads a number.
pub fn number(text: &str) -> Result<u64, Fail> {
    match text.parse() {
        Ok(number) => Ok(number),
        Err(_) => Err(Fail::new(format_args!("no number: {text}"))),
    }
}
