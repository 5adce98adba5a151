//! Types in which no variable is set.
ghost use Rattle.std.specs.Prelude.{◌≡◌, MatchOption};
ghost use Rattle.std.specs.Bool.{OnTrue};
ghost use Rattle.pure_definitions.specs.Terms.Subst.{typ_instance};
ghost use Rattle.pure_tunify.specs.Settings.{composed};
ghost use Rattle.pure_tunify.specs.Working.{IsUntouched};

use crate::meeting::is_schematic;
use crate::occurs::variable_occurs;
use crate::settings::Settings;
use pure_typ::{MAX_SIZE, Typ, TypNode, index_above_of_typ, is_typ_within};

/// The most nodes of a type that is looked through, a part without schematic variables counted as one.
const FEW: u32 = 64;

/// What is left of so many nodes when those of the type are counted; none where a variable of it is set, or it has more. A
/// part without schematic variables is one node here.
fn free_leaves(settings: &Settings, t: &Typ, left: u32) -> Option<u32>
    ensures { MatchOption result (Unit {0}) (λ _. typ_instance (composed settings.now.sets) t.now ≡ t.now) }
{
    if left == 0 {
        return None;
    }
    if index_above_of_typ(t) == 0 {
        return Some(left - 1);
    }
    match &t.node {
        TypNode::TFree { .. } => Some(left - 1),
        TypNode::TVar { .. } => match settings.find(t) {
            Some(_) => None,
            None => Some(left - 1),
        },
        TypNode::Con { args, .. } => {
            let args = args.as_slice();
            let mut rest = left - 1;
            for arg in args {
                let Some(less) = free_leaves(settings, arg, rest) else {
                    return None;
                };
                rest = less;
            }
            Some(rest)
        }
    }
}

/// Whether the variable doesn't occur in the type, nor one that is set, where few nodes of the type are looked through and it
/// is within the limits.
pub fn is_free(settings: &Settings, variable: &Typ, t: &Typ) -> bool
    ensures { OnTrue result (IsUntouched settings.now.sets variable.now t.now) }
{
    if !is_typ_within(t) {
        return false;
    }
    match free_leaves(settings, t, FEW) {
        None => false,
        Some(_) => !variable_occurs(variable, t),
    }
}

/// Whether no variable of the type is set; false also where it has more nodes than a type within the limits.
pub fn stays(settings: &Settings, t: &Typ) -> bool
    ensures { OnTrue result (typ_instance (composed settings.now.sets) t.now ≡ t.now) }
{
    match free_leaves(settings, t, MAX_SIZE) {
        None => false,
        Some(_) => true,
    }
}

/// Whether what stands for the first type has no variable that is set, where it is looked through: it is so where the first
/// type is a variable, since most images have none.
pub fn is_settled(settings: &Settings, t: &Typ, top: &Typ) -> bool
    ensures { OnTrue result (typ_instance (composed settings.now.sets) top.now ≡ top.now) }
{
    if !is_schematic(t) {
        return false;
    }
    stays(settings, top)
}
