//! A type that stands in both of a constructor's two places: what is made of it is made once, and is one part in both.
ghost use Rattle.std.specs.Prelude.{◌≡◌, [], ◌∷◌, IfOk, IfSome};
ghost use Rattle.pure_tunify.specs.Working.{twice_applied};

use pure_typ::{Name, Typ, whole_size_of_typ};
use std::alloc::{AllocError, Global};

/// More nodes than a type has that isn't compared with the one beside it.
const MANY: u64 = 64;

/// The type that stands in both of two places, where it has many nodes.
pub fn twice(types: &[Typ]) -> Option<&Typ>
    ensures { IfSome result (λ t. types.now ≡ t.now ∷ t.now ∷ []) }
{
    if types.len() != 2 {
        return None;
    }
    let (front, back) = (&types[0], &types[1]);
    if whole_size_of_typ(front) <= MANY {
        return None;
    }
    if front == back {
        return Some(front);
    }
    None
}

/// The constructor applied to the type twice.
pub fn applied_twice(alloc: Global, name: Name, part: Typ) -> Result<Typ, AllocError>
    ensures { IfOk result (λ t. t ≡ twice_applied name part) }
{
    let copy = part.copy(alloc)?;
    let mut types = Vec::with_capacity(alloc, 2)?;
    types.push(copy)?;
    types.push(part)?;
    Typ::constructed(alloc, name, types)
}
