//! The line `clear`: what it asks, and how it is carried out.

ghost use Rattle.std.specs.Prelude.{ℕ};
ghost use Rattle.dcel_commands.specs.Vocabulary.{Carries, answered};
ghost use Rattle.dcel_commands.specs.request.Clear.{clear};

use crate::commands::{Refused, Reply};
use spade_dcel::dcel::Dcel;
use std::alloc::Allocator;

/// Carries the command out, or refuses it and leaves the mesh as it was.
pub fn carry_out<V: Drop, DE: Default + Drop, UE: Default + Drop, F: Default + Drop, A: Allocator>(
    dcel: &mut Dcel<V, DE, UE, F, A>,
) -> Result<Reply<V, A>, Refused<V>>
    ensures { (limit : ℕ) → Carries DE.is_default UE.is_default F.is_default limit dcel.old clear (answered result) dcel.new }
{
    dcel.clear();
    Ok(Reply::Ok)
}
