//! The file that is written, where it is named behind the one that is read.

use crate::arguments::Arguments;
use crate::fault::{Fault, Wrong, at_all};
use crate::parts::name_of;
use std::fs;
use std::os::unix::fs::MetadataExt;
use std::rt::Files;

const NO_FORMAT: &str =
    "neither an option nor an ending .off, .obj, .ply or .words says what to write";

const KEPT: &str = "this is the file that is read, and it isn't written over";

/// Refuses a file to write whose name doesn't say its format, or that is the one to read.
pub fn check_target(rt: &(impl Files + AllocGlobal), arguments: &Arguments) -> Result<(), Fault> {
    match (arguments.kept, arguments.target) {
        (Some(_), Some(target)) if !arguments.has_format => {
            Err(at_all(Wrong::quoting(NO_FORMAT, target)))
        }
        (Some(kept), Some(target)) if !arguments.has_parts => refuse_kept(rt, kept, target),
        _ => Ok(()),
    }
}

/// Refuses to write the files of so many parts if one of them is the file that is read.
pub fn check_targets(
    rt: &(impl Files + AllocGlobal),
    arguments: &Arguments,
    parts: usize,
) -> Result<(), Fault> {
    match (arguments.kept, arguments.target) {
        (Some(kept), Some(target)) => check_names(rt, kept, target, parts),
        _ => Ok(()),
    }
}

fn check_names(
    rt: &(impl Files + AllocGlobal),
    kept: &str,
    target: &str,
    parts: usize,
) -> Result<(), Fault> {
    for number in 0..parts {
        let name = name_of(rt.alloc(), target, number)?;
        refuse_kept(rt, kept, name.as_str())?;
    }
    Ok(())
}

fn refuse_kept(rt: &impl Files, kept: &str, target: &str) -> Result<(), Fault> {
    if is_same_file(rt, kept, target) {
        return Err(at_all(Wrong::quoting(KEPT, target)));
    }
    Ok(())
}

/// Returns whether two paths lead to one file. A terminal or a pipe is none.
fn is_same_file(rt: &impl Files, one: &str, other: &str) -> bool {
    match (fs::metadata(rt, one), fs::metadata(rt, other)) {
        (Ok(one), Ok(other)) => {
            one.is_file() && one.dev() == other.dev() && one.ino() == other.ino()
        }
        _ => false,
    }
}
