//! Type variables that are numbered by first occurrence, and replaced.
ghost use Rattle.std.specs.Prelude.{◌≡◌, IfOk, OnOk};
ghost use Rattle.pure_definitions.specs.Types.Typ as tree;
ghost use Rattle.pure_definitions.specs.Terms.Term as term_tree;
ghost use Rattle.pure_tunify.specs.Occurrences.{schematics, schematics_of};
ghost use Rattle.pure_tunify.specs.Working.{twice_applied};
ghost use Rattle.pure_elab.specs.Numbered as spec;
ghost use Rattle.pure_elab.specs.Numbering.{image_of};
ghost use Rattle.pure_elab.specs.Numbers.{entries, IsNumberedTyp, AreNumberedTyps, IsTermNumbered};

use crate::nodes::{abstraction, application};
use crate::numbers::{Numbering, Numbers, image_in};
use pure_term::{Term, TermNode, index_above_of};
use pure_tunify::{applied_twice, twice};
use pure_typ::{Name, Typ, TypNode, index_above_of_typ};
use std::alloc::{AllocError, Global};
use std::sync::Arc;

/// Numbers the variables of a type: the type with their images in their places. One without schematic variables is handed
/// back as it is.
#[cycle(number_typ)]
pub(crate) fn number_typ(
    alloc: Global,
    numbering: Numbering,
    first: u32,
    numbers: &mut Numbers,
    t: &Typ,
) -> Result<Typ, AllocError>
    ensures added { OnOk result (entries (image_of numbering) first numbers.new ≡ spec.numbered (image_of numbering) first (entries (image_of numbering) first numbers.old) (schematics t.now)) }
    ensures typ { IfOk result (IsNumberedTyp (image_of numbering) first (entries (image_of numbering) first numbers.new) t.now) }
{
    if index_above_of_typ(t) == 0 {
        let same = t.copy(alloc)?;
        return Ok(same);
    }
    match &t.node {
        TypNode::TFree { .. } => t.copy(alloc),
        TypNode::TVar { name, index, sort } => {
            let own = sort.copy(alloc)?;
            let image = image_in(alloc, numbering, first, numbers, *name, *index, own)?;
            Ok(image)
        }
        TypNode::Con { name, args } => {
            let args = args.as_slice();
            if let Some(part) = twice(args) {
                let same = number_twice(alloc, numbering, first, numbers, *name, part)?;
                return Ok(same);
            }
            let images = number_typs(alloc, numbering, first, numbers, args)?;
            let typ = Typ::constructed(alloc, *name, images)?;
            Ok(typ)
        }
    }
}

/// The same for a constructor applied to one type twice: its image is made once, and is one part in both places.
#[cycle(number_typ)]
fn number_twice(
    alloc: Global,
    numbering: Numbering,
    first: u32,
    numbers: &mut Numbers,
    name: Name,
    part: &Typ,
) -> Result<Typ, AllocError>
    ensures added { OnOk result (entries (image_of numbering) first numbers.new ≡ spec.numbered (image_of numbering) first (entries (image_of numbering) first numbers.old) (schematics (twice_applied name part.now))) }
    ensures typ { IfOk result (IsNumberedTyp (image_of numbering) first (entries (image_of numbering) first numbers.new) (twice_applied name part.now)) }
{
    let image = number_typ(alloc, numbering, first, numbers, part)?;
    let typ = applied_twice(alloc, name, image)?;
    Ok(typ)
}

/// The same for types.
#[cycle(number_typ)]
fn number_typs(
    alloc: Global,
    numbering: Numbering,
    first: u32,
    numbers: &mut Numbers,
    types: &[Typ],
) -> Result<Vec<Typ>, AllocError>
    ensures added { OnOk result (entries (image_of numbering) first numbers.new ≡ spec.numbered (image_of numbering) first (entries (image_of numbering) first numbers.old) (schematics_of (tree.typs_of types.now))) }
    ensures typs { IfOk result (λ us. AreNumberedTyps (image_of numbering) first (entries (image_of numbering) first numbers.new) types.now us.items) }
{
    let mut images = Vec::with_capacity(alloc, types.len())?;
    for typ in types {
        let image = number_typ(alloc, numbering, first, numbers, typ)?;
        images.push(image)?;
    }
    Ok(images)
}

/// The same for the type of a constant.
#[inline(never)]
fn number_constant(
    alloc: Global,
    numbering: Numbering,
    first: u32,
    numbers: &mut Numbers,
    name: Name,
    typ: &Typ,
) -> Result<Arc<Term>, AllocError>
    ensures { IfOk result (λ u. IsTermNumbered (image_of numbering) first (entries (image_of numbering) first numbers.old) (entries (image_of numbering) first numbers.new) (term_tree.Const name typ.now) u.value) }
{
    let typ = number_typ(alloc, numbering, first, numbers, typ)?;
    let node = TermNode::Const { name, typ };
    Ok(Arc::new(alloc, Term { node })?)
}

/// The same for the type of a fixed variable.
#[inline(never)]
fn number_fixed(
    alloc: Global,
    numbering: Numbering,
    first: u32,
    numbers: &mut Numbers,
    name: Name,
    typ: &Typ,
) -> Result<Arc<Term>, AllocError>
    ensures { IfOk result (λ u. IsTermNumbered (image_of numbering) first (entries (image_of numbering) first numbers.old) (entries (image_of numbering) first numbers.new) (term_tree.Free name typ.now) u.value) }
{
    let typ = number_typ(alloc, numbering, first, numbers, typ)?;
    let node = TermNode::Free { name, typ };
    Ok(Arc::new(alloc, Term { node })?)
}

/// The same for the type of a schematic variable.
#[inline(never)]
fn number_schematic(
    alloc: Global,
    numbering: Numbering,
    first: u32,
    numbers: &mut Numbers,
    name: Name,
    index: u32,
    typ: &Typ,
) -> Result<Arc<Term>, AllocError>
    ensures { IfOk result (λ u. IsTermNumbered (image_of numbering) first (entries (image_of numbering) first numbers.old) (entries (image_of numbering) first numbers.new) (term_tree.Var name index typ.now) u.value) }
{
    let typ = number_typ(alloc, numbering, first, numbers, typ)?;
    let node = TermNode::Var { name, index, typ };
    Ok(Arc::new(alloc, Term { node })?)
}

/// The same for the types of a term.
pub(crate) fn number_term(
    alloc: Global,
    numbering: Numbering,
    first: u32,
    numbers: &mut Numbers,
    t: &Arc<Term>,
) -> Result<Arc<Term>, AllocError>
    ensures { IfOk result (λ u. IsTermNumbered (image_of numbering) first (entries (image_of numbering) first numbers.old) (entries (image_of numbering) first numbers.new) t.now.value u.value) }
{
    let whole: &Term = t;
    if index_above_of(whole) == 0 {
        let same = Arc::try_clone(t)?;
        return Ok(same);
    }
    match &whole.node {
        TermNode::Const { name, typ } => {
            number_constant(alloc, numbering, first, numbers, *name, typ)
        }
        TermNode::Free { name, typ } => number_fixed(alloc, numbering, first, numbers, *name, typ),
        TermNode::Var { name, index, typ } => {
            number_schematic(alloc, numbering, first, numbers, *name, *index, typ)
        }
        TermNode::Bound { .. } => Arc::try_clone(t),
        TermNode::Abs { typ, body, .. } => {
            let typ = number_typ(alloc, numbering, first, numbers, typ)?;
            let body = number_term(alloc, numbering, first, numbers, body)?;
            let made = abstraction(alloc, typ, body)?;
            Ok(made)
        }
        TermNode::App { fun, arg, .. } => {
            let fun = number_term(alloc, numbering, first, numbers, fun)?;
            let arg = number_term(alloc, numbering, first, numbers, arg)?;
            let made = application(alloc, fun, arg)?;
            Ok(made)
        }
    }
}
