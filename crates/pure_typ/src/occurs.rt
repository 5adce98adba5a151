//! Where a type occurs in a type.
ghost use Rattle.std.specs.Prelude.{◌↔◌, IsTrue};
ghost use Rattle.pure_definitions.specs.Types.Typ.{typs_of};
ghost use Rattle.pure_definitions.specs.Types.Occurs.{OccursInTyp, OccursInTyps};

use crate::typ::{Typ, TypNode};

/// Whether some subtree of the type equals `v` as it stands.
#[cycle(occurs_in_typ)]
pub fn occurs_in_typ(v: &Typ, t: &Typ) -> bool
    ensures { IsTrue result ↔ OccursInTyp v.now t.now }
{
    if v == t {
        return true;
    }
    match &t.node {
        TypNode::TFree { .. } => false,
        TypNode::TVar { .. } => false,
        TypNode::Con { args, .. } => occurs_in_some(v, args.as_slice()),
    }
}

/// Whether some subtree of one of the types equals `v` as it stands.
#[cycle(occurs_in_typ)]
fn occurs_in_some(v: &Typ, types: &[Typ]) -> bool
    ensures { IsTrue result ↔ OccursInTyps v.now (typs_of types.now) }
{
    for typ in types {
        if occurs_in_typ(v, typ) {
            return true;
        }
    }
    false
}
