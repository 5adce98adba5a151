//! Where a variable occurs in a type.
ghost use Rattle.std.specs.Prelude.{◌↔◌, IsTrue};
ghost use Rattle.pure_definitions.specs.Types.Typ as tree;
ghost use Rattle.pure_definitions.specs.Types.Occurs.{OccursInTyp};

use pure_typ::{Name, Sort, Typ, TypNode, index_above_of_typ, occurs_in_typ};

/// Whether the schematic variable occurs in the type. A part whose variables have lower indexes isn't looked through.
fn occurs_schematic(name: Name, index: u32, sort: &Sort, t: &Typ) -> bool
    ensures { IsTrue result ↔ OccursInTyp (tree.TVar name index sort.now) t.now }
{
    if index_above_of_typ(t) <= u64::from(index) {
        return false;
    }
    match &t.node {
        TypNode::TFree { .. } => false,
        TypNode::TVar {
            name: other,
            index: number,
            sort: own,
        } => name == *other && index == *number && *sort == *own,
        TypNode::Con { args, .. } => {
            let args = args.as_slice();
            for arg in args {
                if occurs_schematic(name, index, sort, arg) {
                    return true;
                }
            }
            false
        }
    }
}

/// Whether the variable occurs in the type. A schematic one is soon told from a constructor.
pub fn variable_occurs(variable: &Typ, t: &Typ) -> bool
    ensures { IsTrue result ↔ OccursInTyp variable.now t.now }
{
    match &variable.node {
        TypNode::TVar { name, index, sort } => occurs_schematic(*name, *index, sort, t),
        TypNode::TFree { .. } => occurs_in_typ(variable, t),
        TypNode::Con { .. } => occurs_in_typ(variable, t),
    }
}
