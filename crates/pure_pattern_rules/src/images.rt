//! Images by the rules for two flexible sides: a new variable that is applied to some of the image's bound variables.
ghost use Rattle.std.specs.Prelude.{◌≡◌, ◌<◌, ◌^◌, IfOk};
ghost use Rattle.pure_definitions.specs.Types.Typ.{typ_depth};
ghost use Rattle.pure_definitions.specs.Terms.Term as tree;
ghost use Rattle.pure_pattern_laws.specs.Treatment as rules;

use crate::applied::{applied_to_agreeing, applied_to_left, applied_to_right};
use pure_pattern_terms::{agreeing_typ, left_typ, right_typ};
use pure_term::{Name, Term, TermNode, Typ};
use pure_unify_sides::{below_domains, domain_count};
use std::alloc::{AllocError, Global};
use std::sync::Arc;

/// The new variable of this index and type.
fn new_variable(alloc: Global, index: u32, typ: Typ) -> Result<Arc<Term>, AllocError>
    ensures { IfOk result (λ v. v.value ≡ tree.Var 0 index typ) }
{
    let node = TermNode::Var {
        name: Name(0),
        index,
        typ,
    };
    Ok(Arc::new(alloc, Term { node })?)
}

/// The image of a variable of the type that stands applied to both lists: the variables of the places where they agree are kept.
pub fn agreeing_image(
    alloc: Global,
    index: u32,
    typ: &Typ,
    zs: &[u32],
    ws: &[u32],
) -> Result<Term, AllocError>
    requires { typ_depth typ.now < 2 ^ 32 }
    ensures { IfOk result (λ u. u ≡ rules.agreeing_image index typ.now zs.now ws.now) }
{
    let own = agreeing_typ(alloc, typ, zs, ws)?;
    let variable = new_variable(alloc, index, own)?;
    let body = applied_to_agreeing(alloc, variable, domain_count(typ), zs, ws)?;
    let image = below_domains(alloc, typ, body)?;
    Ok(image.copy(alloc)?)
}

/// The image of the variable of the type that stands applied to the first list, where another stands applied to the second: what stands in both is kept.
pub fn left_image(
    alloc: Global,
    index: u32,
    typ: &Typ,
    zs: &[u32],
    ws: &[u32],
) -> Result<Term, AllocError>
    requires { typ_depth typ.now < 2 ^ 32 }
    ensures { IfOk result (λ u. u ≡ rules.left_image index typ.now zs.now ws.now) }
{
    let own = left_typ(alloc, typ, zs, ws)?;
    let variable = new_variable(alloc, index, own)?;
    let body = applied_to_left(alloc, variable, domain_count(typ), zs, ws)?;
    let image = below_domains(alloc, typ, body)?;
    Ok(image.copy(alloc)?)
}

/// The image of the variable of the type that stands applied to the second list.
pub fn right_image(
    alloc: Global,
    index: u32,
    typ: &Typ,
    zs: &[u32],
    ws: &[u32],
) -> Result<Term, AllocError>
    requires { typ_depth typ.now < 2 ^ 32 }
    ensures { IfOk result (λ u. u ≡ rules.right_image index typ.now zs.now ws.now) }
{
    let own = right_typ(alloc, typ, zs, ws)?;
    let variable = new_variable(alloc, index, own)?;
    let body = applied_to_right(alloc, variable, domain_count(typ), zs, ws)?;
    let image = below_domains(alloc, typ, body)?;
    Ok(image.copy(alloc)?)
}
