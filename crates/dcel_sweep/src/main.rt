//! The memory sweep: of each call of the layer and of its commands it refuses the first request
//! for memory, then the second, and so on. After each refusal the mesh has to be as before, what
//! was passed in has to be back, and exactly the call that met the refusal has to report it. Then
//! the call is repeated, and has to leave what it leaves if nothing is refused.
//!
//! Its arguments name files of rows: in `.calls`, `.meshes` and `.removals` only calls, in `.flips`
//! legalizations, in `.lists` commands one after another, in `.runs` lines. Blocks of a file are
//! separated by empty lines; `#` begins a comment. The lines of a block construct a mesh. A line
//! after a number is a row: the number is that of its requests for memory. A row may end in a reply.
//!
//! The program prints how many requests of each function were refused, or ends at the first row
//! that fails. `tools/gate/check_sweep` looks for functions without a row.
#![tactic(auto)]

mod at_once;
mod calls;
mod flips;
mod grows;
mod links;
mod lists;
mod operations;
mod removes;
mod rows;
mod runs;
mod swept;
mod watched;
mod whole;

use crate::swept::Swept;
use std::alloc::Global;
use std::rt::{Env, Files};
use std::test::Fail;
use std::{env, fs};

fn main(rt: HostRuntime) -> Result<(), Fail> {
    let mut swept = Swept::new(rt.alloc());
    sweep(&rt, &mut swept)
}

/// Sweeps all, and prints how many requests were refused.
fn sweep(rt: &(impl Env + Files + Print + AllocGlobal), swept: &mut Swept) -> Result<(), Fail> {
    for name in env::args(rt)?.skip(1) {
        sweep_named(rt, name.as_str(), swept)?;
    }
    links::sweep_all(swept, rt.alloc())?;
    for (function, rows, requests) in swept.functions() {
        println!(rt; "{function}: rows {rows}, requests refused {requests}")?;
    }
    Ok(())
}

/// Sweeps the rows of the file with this name.
fn sweep_named(rt: &(impl Files + AllocGlobal), name: &str, swept: &mut Swept) -> Result<(), Fail> {
    let text = fs::read_to_string(rt, name)?;
    sweep_file(name, text.as_str(), swept, rt.alloc())
}

/// Sweeps the rows of a file as the end of its name tells.
fn sweep_file(name: &str, text: &str, swept: &mut Swept, alloc: Global) -> Result<(), Fail> {
    let Some((_, kind)) = name.rsplit_once('.') else {
        return Err(Fail::new(format_args!("{name} tells no kind of rows")));
    };
    for block in text.split("\n\n") {
        sweep_block(kind, block, swept, alloc)?;
    }
    Ok(())
}

fn sweep_block(kind: &str, block: &str, swept: &mut Swept, alloc: Global) -> Result<(), Fail> {
    match kind {
        "calls" => calls::sweep_commands(block, swept, alloc),
        "meshes" => calls::sweep_meshes(block, swept, alloc),
        "removals" => calls::sweep_removals(block, swept, alloc),
        "flips" => flips::sweep_block(block, swept, alloc),
        "lists" => lists::sweep_block(block, swept, alloc),
        "runs" => runs::sweep_block(block, swept, alloc),
        _ => Err(Fail::new(format_args!("no kind of rows: {kind}"))),
    }
}
