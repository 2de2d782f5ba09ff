//! Lines: the one that meets the refusal is refused, and the run goes on as if it weren't there.
//!
//! A row may have a reply behind its line: the line's last request is answered by this one then, and
//! leaves the mesh as it is, too.

use crate::rows::{Row, is_of_mesh, number, rows_of};
use crate::swept::Swept;
use dcel_bench::checks::{holds, same};
use dcel_bench::refusing::{Refusals, Refusing};
use dcel_bench::talks::{push_line, run_lines};
use dcel_commands::commands::RunFault;
use std::alloc::{AllocError, Global};
use std::test::Fail;

/// The function that is called.
const CALL: &str = "run";

/// Lines that come after those of each block. They take no memory.
const SEEN: &str =
    "words\ncounts\nhull\ncheck\norigin 0\norigin 5\nout 0\nout 3\nget 0\nbetween 0 1";

/// What a line is answered that is refused memory.
const REFUSED: &str = "refused 20 OutOfMemory";

/// What a run writes, and how many requests it makes.
type Ran = (Vec<u8>, u64);

/// Runs these lines with these requests refused.
fn run(lines: &[u8], refusals: Refusals, alloc: Global) -> Result<Ran, Fail> {
    let memory = Refusing::new(alloc);
    memory.refuse(refusals);
    let ran = run_lines(&memory, lines, alloc);
    ran.ended?;
    Ok((ran.written, memory.requests()))
}

/// Adds the lines of a block that have memory.
fn push_mesh<'a>(lines: &mut Vec<&'a str>, block: &'a str) -> Result<(), AllocError> {
    for line in block.lines() {
        if is_of_mesh(line) {
            lines.push(line)?;
        }
    }
    Ok(())
}

fn push_rows<'a>(lines: &mut Vec<&'a str>, rows: &[Row<'a>]) -> Result<(), AllocError> {
    for row in rows {
        lines.push(row.line)?;
    }
    Ok(())
}

fn push_all(text: &mut Vec<u8>, lines: &[&str]) -> Result<(), AllocError> {
    for line in lines {
        push_line(text, *line)?;
    }
    Ok(())
}

fn push_joined(
    text: &mut Vec<u8>,
    lines: &[&str],
    [place, next]: [usize; 2],
) -> Result<(), AllocError> {
    push_all(text, lines.get(..place).unwrap_or(&[]))?;
    push_all(text, lines.get(next..).unwrap_or(&[]))
}

/// Returns the lines up to one place and from another one on.
fn joined(lines: &[&str], places: [usize; 2], alloc: Global) -> Result<Vec<u8>, AllocError> {
    let mut text = Vec::new(alloc);
    push_joined(&mut text, lines, places)?;
    Ok(text)
}

/// Runs the lines up to one place and from another one on, and refuses nothing.
fn run_all(lines: &[&str], places: [usize; 2], alloc: Global) -> Result<Ran, Fail> {
    let text = joined(lines, places, alloc)?;
    run(&text, Refusals::None, alloc)
}

/// Returns how many requests a run over the lines up to a place makes.
fn requests_before(lines: &[&str], place: usize, alloc: Global) -> Result<u64, Fail> {
    let (_, requests) = run_all(lines, [place, lines.len()], alloc)?;
    Ok(requests)
}

/// Adds to the replies to the lines before one the reply to it, and those to the lines after it as
/// they are without it.
fn push_rest(replies: &mut Vec<u8>, reply: &str, without: &[u8]) -> Result<(), AllocError> {
    let rest = without.get(replies.len()..).unwrap_or(&[]);
    push_line(replies, reply)?;
    replies.extend_from_slice(rest)
}

fn with_reply(
    lines: &[&str],
    place: usize,
    reply: &str,
    without: &[u8],
    alloc: Global,
) -> Result<Vec<u8>, Fail> {
    let (mut replies, _) = run_all(lines, [place, lines.len()], alloc)?;
    push_rest(&mut replies, reply, without)?;
    Ok(replies)
}

/// Returns what is written if the line at this place is answered so, and changes nothing.
fn wanted(lines: &[&str], place: usize, reply: &str, alloc: Global) -> Result<Vec<u8>, Fail> {
    let (without, _) = run_all(lines, [place, place.saturating_add(1)], alloc)?;
    with_reply(lines, place, reply, &without, alloc)
}

/// Checks that these texts are the same.
fn check_text(written: &[u8], wanted: &[u8], request: u64, alloc: Global) -> Result<(), Fail> {
    let written = String::from_utf8_lossy(alloc, written)?;
    let wanted = String::from_utf8_lossy(alloc, wanted)?;
    same(written, wanted, format_args!("{CALL}: request {request}"))
}

/// Checks what a run over these lines writes if the request of this number is refused.
fn check_refused(text: &[u8], request: u64, wanted: &[u8], alloc: Global) -> Result<(), Fail> {
    let (written, _) = run(text, Refusals::One(request), alloc)?;
    check_text(&written, wanted, request, alloc)
}

/// Refuses each request from the first of these numbers up to the second, which these lines make.
fn refuse_each(
    text: &[u8],
    [first, end]: [u64; 2],
    wanted: &[u8],
    alloc: Global,
) -> Result<(), Fail> {
    for request in first..end {
        check_refused(text, request, wanted, alloc)?;
    }
    Ok(())
}

fn refuse_all(
    lines: &[&str],
    place: usize,
    requests: [u64; 2],
    wanted: &[u8],
    alloc: Global,
) -> Result<(), Fail> {
    let text = joined(lines, [place, place], alloc)?;
    refuse_each(&text, requests, wanted, alloc)
}

/// Refuses these requests, which the line at this place makes, and is answered so.
fn refuse_some(
    lines: &[&str],
    place: usize,
    requests: [u64; 2],
    reply: &str,
    alloc: Global,
) -> Result<(), Fail> {
    let wanted = wanted(lines, place, reply, alloc)?;
    refuse_all(lines, place, requests, &wanted, alloc)
}

/// Returns the number of the first request of the line at this place, after checking how many it
/// makes.
fn first_request(
    lines: &[&str],
    place: usize,
    row: Row,
    requests: u64,
    alloc: Global,
) -> Result<u64, Fail> {
    let first = requests_before(lines, place, alloc)?;
    let end = requests_before(lines, place.saturating_add(1), alloc)?;
    let what = format_args!("{CALL}: requests of {} after {}", row.line, row.block);
    same(end.saturating_sub(first), requests, what)?;
    Ok(first)
}

/// Refuses the row at this place each of its requests in turn.
fn refuse(
    lines: &[&str],
    place: usize,
    row: Row,
    requests: u64,
    alloc: Global,
) -> Result<(), Fail> {
    let first = first_request(lines, place, row, requests, alloc)?;
    let end = first.saturating_add(requests);
    let last = end.saturating_sub(u64::from(!row.reply.is_empty()));
    refuse_some(lines, place, [first, last], REFUSED, alloc)?;
    refuse_some(lines, place, [last, end], row.reply, alloc)
}

/// Checks that a run whose first request is refused ends before it reads or writes, and that none
/// comes after it before the first line.
fn check_no_run(alloc: Global) -> Result<(), Fail> {
    let requests = requests_before(&[], 0, alloc)?;
    same(requests, 1, "requests for the first mesh")?;
    let memory = Refusing::new(alloc);
    memory.refuse(Refusals::One(0));
    let ran = run_lines(&memory, b"append 0\n", alloc);
    let is_refused = matches!(&ran.ended, Err(RunFault::Memory));
    let is_silent = !ran.has_read && ran.written.is_empty();
    holds(
        is_refused && is_silent && memory.requests() == 1,
        "a run without memory for its first mesh",
    )
}

/// Refuses each row, of which the first is at this place among the lines.
fn refuse_rows(
    lines: &[&str],
    begin: usize,
    rows: &[Row],
    swept: &mut Swept,
    alloc: Global,
) -> Result<(), Fail> {
    for (place, row) in rows.iter().enumerate() {
        let requests = number(row.requests)?;
        refuse(lines, begin.saturating_add(place), *row, requests, alloc)?;
        swept.note(CALL, requests)?;
    }
    Ok(())
}

/// Checks that what comes after a block makes no request.
fn check_seen(lines: &[&str], end: usize, alloc: Global) -> Result<(), Fail> {
    let before = requests_before(lines, end, alloc)?;
    let all = requests_before(lines, lines.len(), alloc)?;
    same(all, before, "requests of queries")
}

/// Adds the lines of a block that have memory, then those of its rows, and what comes after each
/// block.
fn push_lines<'a>(
    lines: &mut Vec<&'a str>,
    block: &'a str,
    rows: &[Row<'a>],
) -> Result<(), AllocError> {
    push_mesh(lines, block)?;
    push_rows(lines, rows)?;
    lines.push(SEEN)?;
    Ok(())
}

/// Sweeps the rows of a block, whose lines end in them and in what comes after each block.
fn sweep(lines: &[&str], rows: &[Row], swept: &mut Swept, alloc: Global) -> Result<(), Fail> {
    let end = lines.len().saturating_sub(1);
    let begin = end.saturating_sub(rows.len());
    refuse_rows(lines, begin, rows, swept, alloc)?;
    check_seen(lines, end, alloc)
}

fn sweep_rows<'a>(
    block: &'a str,
    rows: &[Row<'a>],
    swept: &mut Swept,
    alloc: Global,
) -> Result<(), Fail> {
    let mut lines = Vec::new(alloc);
    push_lines(&mut lines, block, rows)?;
    sweep(&lines, rows, swept, alloc)
}

/// Sweeps the lines of a block.
pub fn sweep_block(block: &str, swept: &mut Swept, alloc: Global) -> Result<(), Fail> {
    check_no_run(alloc)?;
    let rows = rows_of(block, alloc)?;
    sweep_rows(block, &rows, swept, alloc)
}
