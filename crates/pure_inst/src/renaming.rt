//! Types and terms with variables renamed.
ghost use Rattle.std.specs.Prelude.{◌≡◌, ◌↔◌, ◌+◌, ◌<◌, [], IsTrue, IfOk, map};
ghost use Rattle.pure_text.specs.Lists.{Each};
ghost use Rattle.pure_definitions.specs.Types.Typ as typ_tree;
ghost use Rattle.pure_definitions.specs.Terms.Term as tree;
ghost use Rattle.pure_definitions.specs.Terms.Subst.{typ_instance};
ghost use Rattle.pure_inst.specs.Named.{is_named};
ghost use Rattle.pure_inst.specs.Renaming.{renamed_typs, renamed_terms, renamed, IsRaisableTyp, IsRaisable, IsPairRaisable};
ghost use Rattle.pure_inst.specs.Image.{pair_image};

use crate::named::is_named;
use pure_term::{
    Name, Sort, Term, TermNode, Typ, TypNode, copied, index_above_of, index_above_of_typ,
    is_ground_typ,
};
use pure_theorem::Pair;
use std::alloc::{AllocError, Global};
use std::marker::Model;
use std::sync::Arc;

/// What becomes of variables: fixed ones of these names become schematic with the index, and indexes of schematic ones are raised by so much.
#[derive(Debug, Drop)]
pub struct Renaming {
    typs: Vec<Name>,
    terms: Vec<Name>,
    index: u32,
    by: u32,
}

impl Model for Renaming {
    ghost use Rattle.pure_inst.specs.Renaming.{Renames};

    ghost Value = { Renames };

    ghost view = { λ r. record { typs = r.typs.items; terms = r.terms.items; index = r.index; by = r.by } };
}

impl Renaming {
    /// Fixed variables of these names become schematic with the index.
    pub fn schematic(
        alloc: Global,
        tfrees: &[Name],
        frees: &[Name],
        index: u32,
    ) -> Result<Renaming, AllocError>
        ensures { IfOk result (λ r. r ≡ record { typs = tfrees.now; terms = frees.now; index = index; by = 0 }) }
    {
        let typs = Vec::from_slice(alloc, tfrees)?;
        let terms = Vec::from_slice(alloc, frees)?;
        Ok(Renaming {
            typs,
            terms,
            index,
            by: 0,
        })
    }

    /// Indexes are raised by so much.
    pub fn raising(alloc: Global, by: u32) -> Renaming
        ensures { result ≡ record { typs = []; terms = []; index = 0; by = by } }
    {
        let typs = Vec::new(alloc);
        let terms = Vec::new(alloc);
        Renaming {
            typs,
            terms,
            index: 0,
            by,
        }
    }

    /// Whether fixed type variables of this name become schematic.
    fn names_typ(&self, name: Name) -> bool
        ensures { result ≡ is_named self.now.typs name }
    {
        is_named(&self.typs, name)
    }

    /// Whether fixed variables of this name become schematic.
    fn names_term(&self, name: Name) -> bool
        ensures { result ≡ is_named self.now.terms name }
    {
        is_named(&self.terms, name)
    }

    /// Whether no name is given, so that fixed variables stay fixed.
    fn keeps_fixed(&self) -> bool
        ensures { IsTrue result ↔ ((self.now.typs ≡ []) × (self.now.terms ≡ [])) }
    {
        self.typs.is_empty() && self.terms.is_empty()
    }

    /// The index of those that become schematic.
    fn index(&self) -> u32
        ensures { result ≡ self.now.index }
    {
        self.index
    }

    /// The index, raised.
    fn raised(&self, index: u32) -> u32
        requires { 0 < self.now.by → index + self.now.by < 4294967296 }
        ensures { result ≡ index + self.now.by }
    {
        if self.by == 0 {
            return index;
        }
        index + self.by
    }
}

/// A fixed type variable, renamed.
fn renamed_fixed_typ(
    alloc: Global,
    renaming: &Renaming,
    name: Name,
    sort: &Sort,
) -> Result<Typ, AllocError>
    ensures { IfOk result (λ T. T ≡ renamed_typs renaming.now (typ_tree.TFree name sort.now)) }
{
    let sort = sort.copy(alloc)?;
    if renaming.names_typ(name) {
        let index = renaming.index();
        return Ok(Typ {
            node: TypNode::TVar { name, index, sort },
        });
    }
    Ok(Typ {
        node: TypNode::TFree { name, sort },
    })
}

/// A schematic type variable, renamed.
fn renamed_schematic_typ(
    alloc: Global,
    renaming: &Renaming,
    name: Name,
    index: u32,
    sort: &Sort,
) -> Result<Typ, AllocError>
    requires { 0 < renaming.now.by → index + renaming.now.by < 4294967296 }
    ensures { IfOk result (λ T. T ≡ renamed_typs renaming.now (typ_tree.TVar name index sort.now)) }
{
    let sort = sort.copy(alloc)?;
    let index = renaming.raised(index);
    Ok(Typ {
        node: TypNode::TVar { name, index, sort },
    })
}

/// Whether the kept measures tell that the type stays as it is.
fn typ_stays(renaming: &Renaming, t: &Typ) -> bool
    ensures { IsTrue result → typ_instance (renamed_typs renaming.now) t.now ≡ t.now }
{
    if is_ground_typ(t) {
        return true;
    }
    if !renaming.keeps_fixed() {
        return false;
    }
    if index_above_of_typ(t) != 0 {
        return false;
    }
    true
}

/// The type, renamed. One that stays as it is is shared.
pub fn renamed_typ(alloc: Global, renaming: &Renaming, t: &Typ) -> Result<Typ, AllocError>
    requires { IsRaisableTyp renaming.now.by t.now }
    ensures { IfOk result (λ u. u ≡ typ_instance (renamed_typs renaming.now) t.now) }
{
    if typ_stays(renaming, t) {
        return t.copy(alloc);
    }
    match &t.node {
        TypNode::TFree { name, sort } => renamed_fixed_typ(alloc, renaming, *name, sort),
        TypNode::TVar { name, index, sort } => {
            renamed_schematic_typ(alloc, renaming, *name, *index, sort)
        }
        TypNode::Con { name, args } => {
            let args = args.as_slice();
            let mut images = Vec::with_capacity(alloc, args.len())?;
            for arg in args {
                images.push(renamed_typ(alloc, renaming, arg)?)?;
            }
            Typ::constructed(alloc, *name, images)
        }
    }
}

/// A fixed variable, renamed, with its type that was renamed before.
fn renamed_fixed(renaming: &Renaming, name: Name, typ: Typ) -> Term
    ensures { (T : typ_tree.Typ) → typ ≡ typ_instance (renamed_typs renaming.now) T → result ≡ renamed_terms renaming.now (tree.Free name T) }
{
    if renaming.names_term(name) {
        let index = renaming.index();
        return Term {
            node: TermNode::Var { name, index, typ },
        };
    }
    Term {
        node: TermNode::Free { name, typ },
    }
}

/// A schematic variable, renamed, with its type that was renamed before.
fn renamed_schematic(renaming: &Renaming, name: Name, index: u32, typ: Typ) -> Term
    requires { 0 < renaming.now.by → index + renaming.now.by < 4294967296 }
    ensures { (T : typ_tree.Typ) → typ ≡ typ_instance (renamed_typs renaming.now) T → result ≡ renamed_terms renaming.now (tree.Var name index T) }
{
    let index = renaming.raised(index);
    Term {
        node: TermNode::Var { name, index, typ },
    }
}

/// Whether the kept measures tell that the term stays as it is.
fn stays(renaming: &Renaming, t: &Term) -> bool
    ensures { IsTrue result → renamed renaming.now t.now ≡ t.now }
{
    if !renaming.keeps_fixed() {
        return false;
    }
    if index_above_of(t) != 0 {
        return false;
    }
    true
}

/// The term, renamed. A part that stays as it is is handed back.
fn renamed_part(alloc: Global, renaming: &Renaming, t: &Arc<Term>) -> Result<Arc<Term>, AllocError>
    requires { IsRaisable renaming.now.by t.now.value }
    ensures { IfOk result (λ u. u.value ≡ renamed renaming.now t.now.value) }
{
    let whole: &Term = t;
    if stays(renaming, whole) {
        return Arc::try_clone(t);
    }
    match &whole.node {
        TermNode::Const { name, typ } => {
            let typ = renamed_typ(alloc, renaming, typ)?;
            let node = TermNode::Const { name: *name, typ };
            Ok(Arc::new(alloc, Term { node })?)
        }
        TermNode::Free { name, typ } => {
            let typ = renamed_typ(alloc, renaming, typ)?;
            Ok(Arc::new(alloc, renamed_fixed(renaming, *name, typ))?)
        }
        TermNode::Var { name, index, typ } => {
            let typ = renamed_typ(alloc, renaming, typ)?;
            Ok(Arc::new(alloc, renamed_schematic(renaming, *name, *index, typ))?)
        }
        TermNode::Bound { .. } => Arc::try_clone(t),
        TermNode::Abs { typ, body, .. } => {
            let typ = renamed_typ(alloc, renaming, typ)?;
            let body = renamed_part(alloc, renaming, body)?;
            Ok(Arc::new(alloc, Term::abs(typ, body))?)
        }
        TermNode::App { fun, arg, .. } => {
            let fun = renamed_part(alloc, renaming, fun)?;
            let arg = renamed_part(alloc, renaming, arg)?;
            Ok(Arc::new(alloc, Term::app(fun, arg))?)
        }
    }
}

/// The term, renamed.
pub fn renamed(alloc: Global, renaming: &Renaming, t: &Term) -> Result<Term, AllocError>
    requires { IsRaisable renaming.now.by t.now }
    ensures { IfOk result (λ u. u ≡ renamed renaming.now t.now) }
{
    let t = copied(alloc, t)?;
    let made = renamed_part(alloc, renaming, &t)?;
    made.copy(alloc)
}

/// The terms, renamed.
pub fn renamed_terms(
    alloc: Global,
    renaming: &Renaming,
    terms: &[Term],
) -> Result<Vec<Term>, AllocError>
    requires { Each (IsRaisable renaming.now.by) terms.now }
    ensures { IfOk result (λ images. images.items ≡ map (renamed renaming.now) terms.now) }
{
    let mut images = Vec::with_capacity(alloc, terms.len())?;
    for term in terms {
        images.push(renamed(alloc, renaming, term)?)?;
    }
    Ok(images)
}

/// The pair, renamed.
fn renamed_pair(alloc: Global, renaming: &Renaming, pair: &Pair) -> Result<Pair, AllocError>
    requires { IsPairRaisable renaming.now.by pair.now }
    ensures { IfOk result (λ image. image ≡ pair_image (renamed renaming.now) pair.now) }
{
    let left = renamed(alloc, renaming, &pair.left)?;
    let right = renamed(alloc, renaming, &pair.right)?;
    Ok(Pair { left, right })
}

/// The pairs, renamed.
pub fn renamed_pairs(
    alloc: Global,
    renaming: &Renaming,
    pairs: &[Pair],
) -> Result<Vec<Pair>, AllocError>
    requires { Each (IsPairRaisable renaming.now.by) pairs.now }
    ensures { IfOk result (λ images. images.items ≡ map (pair_image (renamed renaming.now)) pairs.now) }
{
    let mut images = Vec::with_capacity(alloc, pairs.len())?;
    for pair in pairs {
        images.push(renamed_pair(alloc, renaming, pair)?)?;
    }
    Ok(images)
}
