//! The words that the program is started with.

use crate::fault::Fault;
use crate::workloads::{ALL, Workload};
use std::alloc::Global;
use std::env;
use std::rt::Env;

/// The workloads, and the sizes, if no argument names others.
const ALL_WORKLOADS: &str =
    "insert,insert_reserved,walk,walk_both_ends,faces,extend,hull,neighbors,split,flip,swap,clone,map,remove,legalize";

const ALL_SIZES: &str = "1000,100000,1000000";

/// What to run, and what to print.
#[derive(Drop)]
pub struct Arguments {
    /// The workloads with their names.
    pub workloads: Vec<(&'static str, Workload)>,
    pub sizes: Vec<u32>,

    /// Whether half edges, edges and faces have data too.
    pub is_full: bool,

    /// Whether a line shows the time of an operation.
    pub shows_times: bool,
}

impl Arguments {
    /// Reads the program's arguments: a list of workloads, a list of sizes, and then any of `full`
    /// and `checksums`; or `--help`.
    pub fn read(rt: &(impl Env + AllocGlobal)) -> Result<Arguments, Fault> {
        let mut words = env::args(rt)?;
        let _program = words.next();
        let names = words.next();
        if names.as_ref().is_some_and(|word| word.as_str() == "--help") {
            return Err(Fault::Help);
        }
        let sizes = words.next();
        let names = names.as_ref().map_or(ALL_WORKLOADS, |word| word.as_str());
        let sizes = sizes.as_ref().map_or(ALL_SIZES, |word| word.as_str());
        let mut arguments = Arguments {
            workloads: workloads_of(rt.alloc(), names)?,
            sizes: sizes_of(rt.alloc(), sizes)?,
            is_full: false,
            shows_times: true,
        };
        for word in words {
            arguments.heed(word.as_str())?;
        }
        Ok(arguments)
    }

    /// Reads a word after the two lists.
    fn heed(&mut self, word: &str) -> Result<(), Fault> {
        match word {
            "full" => self.is_full = true,
            "checksums" => self.shows_times = false,
            _ => return Err(Fault::BadArguments),
        }
        Ok(())
    }
}

/// Returns the workload with this name, and the name.
fn parse(name: &str) -> Option<(&'static str, Workload)> {
    for workload in &ALL {
        if workload.0 == name {
            return Some(*workload);
        }
    }
    None
}

/// Reads a list of workloads, separated by commas.
fn workloads_of(alloc: Global, list: &str) -> Result<Vec<(&'static str, Workload)>, Fault> {
    list.split(',')
        .map(|name| parse(name).ok_or(Fault::BadArguments))
        .try_collect(alloc)
}

/// Reads a list of sizes, separated by commas.
fn sizes_of(alloc: Global, list: &str) -> Result<Vec<u32>, Fault> {
    list.split(',')
        .map(|digits| digits.parse().map_err(|_| Fault::BadArguments))
        .try_collect(alloc)
}
