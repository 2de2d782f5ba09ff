//! Legalization by number.

ghost use Rattle.std.specs.Prelude.{◌≡◌, ◌≢◌};
ghost use Rattle.dcel_commands.specs.Instructions.{Legalize};
ghost use Rattle.dcel_commands.specs.Responses.{response};
ghost use Rattle.dcel_c.specs.Calls.{kept_in};
ghost use Rattle.dcel_c.specs.Edits.{EditsByLists, Tells};
ghost use Rattle.dcel_c.specs.Legalizing.{legalized_told, reply_told};

use crate::edits::edit;
use crate::lists::handles;
use crate::mesh::DcelMesh;
use crate::status::{DONE, OUT_OF_MEMORY};
use dcel_commands::commands::{Command, Reply};
use dcel_commands::legalize::Legalized;
use std::alloc::Global;

/// How many edges were flipped, and how that ended: 0 if none is left to flip, 1 if as many flips
/// were made as are allowed, 2 if the list of edges found no memory to grow.
#[repr(C)]
#[derive(Clone, Copy)]
pub struct DcelLegalized {
    pub flips: u64,
    pub ended: u32,
}

/// Returns what is told of flips.
fn tell(legalized: Legalized) -> DcelLegalized
    ensures { result ≡ legalized_told legalized }
{
    let ended = match legalized {
        Legalized::Done { .. } => 0,
        Legalized::Stopped { .. } => 1,
        Legalized::OutOfMemory { .. } => 2,
    };
    DcelLegalized {
        flips: legalized.flips() as u64,
        ended,
    }
}

/// Returns what the reply tells of flips.
fn flips_in(reply: Reply<u64, Global>) -> DcelLegalized
    ensures { result ≡ reply_told (response reply) }
{
    match reply {
        Reply::Flips(legalized) => tell(legalized),
        _ => DcelLegalized { flips: 0, ended: 0 },
    }
}

/// Flips edges by number, at most this many times, from the last edge of the list on.
///
/// If the list of edges finds no memory to grow, it is carried out as far as it came.
#[unsafe(no_mangle)]
pub extern "C" fn dcel_legalize_by_number(
    alloc: Global,
    mesh: &mut DcelMesh,
    max_flips: u64,
    edges: &[u32],
    legalized: &mut DcelLegalized,
) -> u32
    ensures edit { EditsByLists (kept_in mesh.old) (Legalize max_flips edges.now) (kept_in mesh.new) result }
    ensures told { result ≡ 0 → Tells reply_told (kept_in mesh.old) (Legalize max_flips edges.now) (kept_in mesh.new) legalized.new }
    ensures untold { result ≢ 0 → legalized.new ≡ legalized.old }
    ensures never_short { result ≢ 22 }
{
    let Ok(edges) = handles(alloc, edges) else {
        return OUT_OF_MEMORY;
    };
    match edit(mesh, Command::Legalize(max_flips as usize, edges)) {
        Ok(reply) => {
            *legalized = flips_in(reply);
            DONE
        }
        Err(status) => status,
    }
}
