//! What constructors are applied to, with its measures.
ghost use Rattle.std.specs.Prelude.{◌≡◌, ℕ, length, IfOk};
ghost use Rattle.pure_definitions.specs.Types.Typ.{typs_of, typs_size, typs_depth};
ghost use Rattle.pure_definitions.specs.Terms.Measures.{kept_count, typs_index_above, are_ground};
ghost use Rattle.pure_typ.specs.TypView.{args_list};
ghost use Rattle.pure_typ.specs.TypKept.{AreMeasures, AreArgsMeasured};

use crate::measure::{index_above_of_typ, is_ground_typ, whole_depth_of_typ, whole_size_of_typ};
use crate::typ::{ArgList, Args, ArgsKept, Typ};
use std::alloc::{AllocError, Global};
use std::sync::Arc;

/// The measures of these types.
fn measured(types: &[Typ]) -> ArgsKept
    ensures { AreMeasures (typs_of types.now) result }
{
    let mut kept = ArgsKept {
        size: 0,
        depth: 0,
        above: 0,
        ground: true,
    };
    for typ in types {
        kept = ArgsKept {
            size: kept.size.saturating_add(whole_size_of_typ(typ)),
            depth: kept.depth.max(whole_depth_of_typ(typ)),
            above: kept.above.max(index_above_of_typ(typ)),
            ground: kept.ground & is_ground_typ(typ),
        };
    }
    kept
}

impl Args {
    /// These types; none take no memory.
    pub fn make(alloc: Global, types: Vec<Typ>) -> Result<Args, AllocError>
        ensures { IfOk result (λ args. (args_list args ≡ types.items) × AreArgsMeasured args) }
    {
        if types.is_empty() {
            return Ok(Args::Nullary);
        }
        let kept = measured(types.as_slice());
        Ok(Args::Shared(Arc::new(alloc, ArgList { types, kept })?))
    }

    /// The types, in order.
    pub fn as_slice(&self) -> &[Typ]
        ensures { result.now ≡ args_list self.now }
    {
        match self {
            Args::Nullary => &[],
            Args::Shared(list) => list.types.as_slice(),
        }
    }

    /// How many types there are.
    pub fn len(&self) -> usize
        ensures { result ≡ length (args_list self.now) }
    {
        self.as_slice().len()
    }

    /// The same types once more.
    pub fn copy(&self) -> Result<Args, AllocError>
        ensures { IfOk result (λ args. (args_list args ≡ args_list self.now) × (AreArgsMeasured self.now → AreArgsMeasured args)) }
    {
        match self {
            Args::Nullary => Ok(Args::Nullary),
            Args::Shared(list) => Ok(Args::Shared(Arc::try_clone(list)?)),
        }
    }

    /// Their sizes together, cut off at `u64::MAX`.
    pub fn size(&self) -> u64
        requires { AreArgsMeasured self.now }
        ensures { result ≡ kept_count (typs_size (typs_of (args_list self.now))) }
    {
        match self {
            Args::Nullary => 0,
            Args::Shared(list) => list.kept.size,
        }
    }

    /// The greatest of their depths, cut off at `u64::MAX`.
    pub fn depth(&self) -> u64
        requires { AreArgsMeasured self.now }
        ensures { result ≡ kept_count (typs_depth (typs_of (args_list self.now))) }
    {
        match self {
            Args::Nullary => 0,
            Args::Shared(list) => list.kept.depth,
        }
    }

    /// One above the greatest index of a schematic variable in them, or 0.
    pub fn above(&self) -> u64
        requires { AreArgsMeasured self.now }
        ensures { result ≡ typs_index_above (typs_of (args_list self.now)) }
    {
        match self {
            Args::Nullary => 0,
            Args::Shared(list) => list.kept.above,
        }
    }

    /// Whether there is no type variable in them.
    pub fn are_ground(&self) -> bool
        requires { AreArgsMeasured self.now }
        ensures { result ≡ are_ground (typs_of (args_list self.now)) }
    {
        match self {
            Args::Nullary => true,
            Args::Shared(list) => list.kept.ground,
        }
    }
}
