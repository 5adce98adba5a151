//! How large and how deep terms and types are.
ghost use Rattle.std.specs.Prelude.{◌≡◌};
ghost use Rattle.pure_definitions.specs.Types.Typ.{typ_size, typ_depth};
ghost use Rattle.pure_definitions.specs.Terms.Limits.{cut_off};
ghost use Rattle.pure_norm.specs.Measures.{one};

use pure_term::Typ;
use pure_typ::{depth_of_typ, size_of_typ};

/// How many nodes a term has, and how many stand on its longest path.
#[derive(Clone, Copy)]
pub struct Measure {
    pub size: u32,
    pub depth: u32,
}

/// The measure of a single node.
pub fn node() -> Measure
    ensures { result ≡ one }
{
    Measure { size: 1, depth: 1 }
}

/// The measure of a type, cut off at `u32::MAX`.
pub fn measure_of_typ(t: &Typ) -> Measure
    ensures size { result.size ≡ cut_off (typ_size t.now) }
    ensures depth { result.depth ≡ cut_off (typ_depth t.now) }
{
    Measure {
        size: size_of_typ(t),
        depth: depth_of_typ(t),
    }
}
