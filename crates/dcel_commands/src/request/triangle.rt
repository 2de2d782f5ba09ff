//! The line `triangle D D D`: what it asks, and how it is carried out.

ghost use Rattle.std.specs.Prelude.{◌≡◌};
ghost use Rattle.dcel_commands.specs.Vocabulary.{Carries, answered};
ghost use Rattle.dcel_commands.specs.request.Triangle.{triangle};

use crate::commands::{Handed, Refused, Reply};
use crate::refusal::Refusal;
use spade_dcel::dcel::Dcel;
use spade_dcel::operations::{NoMemory, new_triangle};
use std::alloc::Allocator;

/// Carries the command out, or refuses it and leaves the mesh as it was.
pub fn carry_out<
    V: Drop,
    DE: Default + Drop,
    UE: Default + Drop,
    F: Default + Drop,
    A: Allocator + Clone,
>(
    dcel: &mut Dcel<V, DE, UE, F, A>,
    vertices: (V, V, V),
    limit: usize,
) -> Result<Reply<V, A>, Refused<V>>
    ensures { Carries DE.is_default UE.is_default F.is_default limit dcel.old (triangle vertices.0 vertices.1 vertices.2) (answered result) dcel.new }
{
    if limit < 3 {
        return Err(refused(Refusal::NoRoom, vertices));
    }
    let alloc = match dcel.allocator().clone() {
        Ok(alloc) => alloc,
        Err(_) => return Err(refused(Refusal::OutOfMemory, vertices)),
    };
    match new_triangle(alloc, vertices) {
        Ok(made) => {
            *dcel = made;
            Ok(Reply::Ok)
        }
        Err(NoMemory { back }) => Err(refused(Refusal::OutOfMemory, back)),
    }
}

/// Returns the refusal of a command that carried these data.
fn refused<V>(why: Refusal, vertices: (V, V, V)) -> Refused<V>
    ensures { result ≡ record { why = why; back = Handed.Three vertices.0 vertices.1 vertices.2 } }
{
    let (first, second, third) = vertices;
    Refused {
        why,
        back: Handed::Three(first, second, third),
    }
}
