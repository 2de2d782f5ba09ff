//! Example programs over `spade_dcel`, one per file: edit a mesh, meet what calls ask for, refine a
//! mesh, find paths on its graph, read its Voronoi diagram, and flip edges by a rule of the
//! caller's own. Start with `editing`.
#![tactic(auto)]

mod asking;
mod editing;
mod refining;
mod settling;
mod voronoi;
mod walking;

use std::io;

fn main(rt: HostRuntime) -> io::Result<()> {
    editing::show(&rt, rt.alloc())?;
    asking::show(&rt, rt.alloc())?;
    refining::show(&rt, rt.alloc())?;
    walking::show(&rt, rt.alloc())?;
    voronoi::show(&rt, rt.alloc())?;
    settling::show(&rt, rt.alloc())
}
