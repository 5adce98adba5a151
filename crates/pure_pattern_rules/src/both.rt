//! Pairs of two flexible sides.
ghost use Rattle.std.specs.Prelude.{◌≡◌, ◌≢◌, ◌<◌, ◌^◌, ◌↔◌, true, IsTrue, IfOk};
ghost use Rattle.pure_definitions.specs.Types.Typ.{typ_depth};
ghost use Rattle.pure_definitions.specs.Terms.Term.{Var};
ghost use Rattle.pure_unify_definitions.specs.Fronts as fronts;
ghost use Rattle.pure_pattern_laws.specs.Patterns.{IsPatternPair};
ghost use Rattle.pure_pattern_rules.specs.Treated.{AreSidesWithin, IsAnswered, IsTreatedAs, AreImagesWithin};
ghost use Rattle.pure_pattern_rules.specs.Flexible.{IsSetTo, AreSetTo, agreeing_of, left_of, right_of};

use crate::flexible::{Flexible, flexible_of};
use crate::images::{agreeing_image, left_image, right_image};
use crate::sets::{set_both, set_to};
use crate::treatment::Treatment;
use pure_theorem::{Pair, are_same_typs};
use pure_typ::Grow;
use std::alloc::Global;

/// Whether the variables are one.
fn is_same_variable(f: &Flexible, g: &Flexible) -> bool
    ensures { IsTrue result ↔ (Var f.now.name f.now.index f.now.typ ≡ Var g.now.name g.now.index g.now.typ) }
{
    f.name == g.name && f.index == g.index && are_same_typs(&f.typ, &g.typ)
}

/// One variable on both sides: those of its arguments are kept that agree.
fn one_variable(alloc: Global, index: u32, f: &Flexible, g: &Flexible) -> Result<Treatment, Grow>
    requires { typ_depth f.now.typ < 2 ^ 32 }
    ensures treated { IsAnswered (IsSetTo f.now (agreeing_of index f.now g.now)) result }
    ensures within { IfOk result AreImagesWithin }
{
    let image = agreeing_image(alloc, index, &f.typ, &f.places, &g.places)?;
    set_to(alloc, f, &image)
}

/// Two variables: those of their arguments are kept that stand on both sides.
fn two_variables(alloc: Global, index: u32, f: &Flexible, g: &Flexible) -> Result<Treatment, Grow>
    requires first { typ_depth f.now.typ < 2 ^ 32 }
    requires second { typ_depth g.now.typ < 2 ^ 32 }
    ensures treated { IsAnswered (AreSetTo f.now (left_of index f.now g.now) g.now (right_of index f.now g.now)) result }
    ensures within { IfOk result AreImagesWithin }
{
    let image = left_image(alloc, index, &f.typ, &f.places, &g.places)?;
    let other = right_image(alloc, index, &g.typ, &f.places, &g.places)?;
    set_both(alloc, f, &image, g, &other)
}

/// The treatment of a pair of two flexible sides that differ.
pub fn both_flexible(alloc: Global, index: u32, pair: &Pair) -> Result<Treatment, Grow>
    requires patterns { IsPatternPair pair.now }
    requires within { AreSidesWithin pair.now }
    requires left { fronts.is_flexible pair.now.left ≡ true }
    requires right { fronts.is_flexible pair.now.right ≡ true }
    requires differ { pair.now.left ≢ pair.now.right }
    ensures treated { IsTreatedAs index pair.now result }
    ensures within { IfOk result AreImagesWithin }
{
    let f = flexible_of(alloc, &pair.left)?;
    let g = flexible_of(alloc, &pair.right)?;
    if is_same_variable(&f, &g) {
        return one_variable(alloc, index, &f, &g);
    }
    two_variables(alloc, index, &f, &g)
}
