//! Runs the talks in the files that are named, by `dcel_commands`, and compares each reply with the
//! one written under its line.
//!
//! In a file `# NAME` begins a talk, with an empty mesh. `limit N` gives it another limit than
//! 2^31, with `faults` each of its reads and of its writes fails in turn, `> LINE` is a line, and
//! the lines under it are its reply. Empty lines have no meaning. If a reply differs, the program
//! reports which and exits with status 1.
#![tactic(auto)]

mod script;

use crate::script::Script;
use anyhow::{Context, Result};
use std::alloc::Global;
use std::{env, fs};

fn main(rt: HostRuntime) -> Result<()> {
    for name in env::args(&rt)?.skip(1) {
        let text = fs::read_to_string(&rt, name.as_str()).context(&name)?;
        let count = check_talks(rt.alloc(), text.as_str()).context(&name)?;
        println!(rt; "{name}: {count} talks")?;
    }
    Ok(())
}

/// Checks the talks of a file. Returns how many there are.
fn check_talks(alloc: Global, text: &str) -> Result<usize> {
    let mut script = Script::new(alloc, "what stands above the first talk")?;
    let mut count = 0usize;
    for line in text.split('\n') {
        if let Some(name) = line.strip_prefix("# ") {
            script.check(alloc)?;
            script = Script::new(alloc, name)?;
            count = count.saturating_add(1);
        } else {
            script.take(alloc, line)?;
        }
    }
    script.check(alloc)?;
    Ok(count)
}
