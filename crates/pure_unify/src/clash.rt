//! A root that fails at its first pair, told without a copy.
ghost use Rattle.std.specs.Prelude.{ℕ};
ghost use Rattle.std.specs.Bool.{OnTrue};
ghost use Rattle.pure_text.specs.Lists.{Each};
ghost use Rattle.pure_definitions.specs.Types.Order.{Algebra};
ghost use Rattle.pure_unify_definitions.specs.Node as nodes;
ghost use Rattle.pure_unify_definitions.specs.Simplification.{Visits, Failed};
ghost use Rattle.pure_unify_nodes.specs.SideAnswer.{AreSidesTyped};
ghost use Rattle.pure_unify.specs.Clashes.{AreRigidApart, IsClash, AreClashing};

use crate::own::are_own;
use pure_term::Term;
use pure_theorem::{Pair, are_same};
use pure_unify_nodes::have_one_typ;
use pure_unify_sides::{Heads, compared_heads, head, is_schematic};

/// Whether the heads aren't schematic, differ, and aren't constants of one name.
fn are_rigid_apart(h: &Term, k: &Term) -> bool
    ensures { OnTrue result (AreRigidApart h.now k.now) }
{
    if is_schematic(h) {
        return false;
    }
    if is_schematic(k) {
        return false;
    }
    let Heads::Apart = compared_heads(h, k) else {
        return false;
    };
    true
}

/// Whether the pair's sides are of one type, and their heads rigid and apart.
fn is_clash(pair: &Pair) -> bool
    requires { AreSidesTyped pair.now }
    ensures { OnTrue result (IsClash pair.now) }
{
    if !are_rigid_apart(head(&pair.left), head(&pair.right)) {
        return false;
    }
    have_one_typ(&pair.left, &pair.right)
}

/// Whether the first of the pairs whose sides aren't equal is such a pair.
fn are_clashing(pairs: &[Pair]) -> bool
    requires { Each AreSidesTyped pairs.now }
    ensures { OnTrue result (AreClashing pairs.now) }
{
    let Some((first, rest)) = pairs.split_first() else {
        return false;
    };
    if is_clash(first) {
        return true;
    }
    if !are_same(&first.left, &first.right) {
        return false;
    }
    are_clashing(rest)
}

/// Whether the root of these pairs fails, where that is told by heads alone: all sides are in long form, and the first of
/// them that aren't equal have heads which are rigid and apart. Most hypotheses that don't serve are refused so.
pub fn fails_at_once(pairs: &[Pair]) -> bool
    requires { Each AreSidesTyped pairs.now }
    ensures { OnTrue result ((A : Algebra) (maxidx : ℕ) → Visits A maxidx (nodes.root pairs.now) Failed) }
{
    if !are_clashing(pairs) {
        return false;
    }
    are_own(pairs)
}
