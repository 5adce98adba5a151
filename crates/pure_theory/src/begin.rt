//! Theories that begin with the merge of others.
ghost use Rattle.std.specs.Prelude.{◌≡◌, ◌<◌, ◌++◌, [], IfOk, IfErr, OnOk, Some, length, slice_get};
ghost use Rattle.std.specs.List.{list_any};
ghost use Rattle.pure_definitions.specs.Types.Order.{IsCoregular};
ghost use Rattle.pure_definitions.specs.Declarations.Decl.{algebra_of};
ghost use Rattle.pure_logic.specs.Beginning.{IsAdded, IsMerge, theory_eq, theories_of, ancestors_of, IsBeginning};
ghost use Rattle.pure_logic.specs.Laws.Contents.{AreAgreed};
ghost use Rattle.pure_theory_tables.specs.Named.{AreNamedOnce};
ghost use Rattle.pure_text.specs.Lists.{Each};
ghost use Rattle.pure_theory.specs.Stage.{IsSound};
ghost use Rattle.pure_theory.specs.Begin.{contents, MayBegin, IsMergeRefusal, IsBeginRefusal};
ghost use Rattle.pure_theory.specs.Once.{once_more, all_once_more};

use crate::fault::DeclFault;
use crate::theory::Theory;
use crate::theory_id::Known;
use pure_order::Order;
use pure_term::Name;
use pure_theory_tables::{Declarations, shared};
use std::alloc::{AllocError, Global};
use std::marker::Model;
use std::sync::Arc;

/// What parents have declared, merged so far, with its classes and arities.
#[derive(Drop)]
struct Merged {
    declared: Declarations,
    order: Arc<Order>,
}

impl Model for Merged {
    ghost use Rattle.std.specs.Prelude.{◌≡◌, List};
    ghost use Rattle.std.specs.Coded.{coded_list};
    ghost use Rattle.pure_definitions.specs.Declarations.Decl.{Decl, algebra_of};
    ghost use Rattle.pure_theory_tables.specs.Codes.{coded_decl};

    ghost Value = { List Decl };

    ghost coded = { coded_list coded_decl };

    ghost view = { λ m. m.declared };

    ghost invariant = { λ m. m.order.value ≡ algebra_of m.declared };
}

impl Merged {
    /// What one theory declares.
    fn first(theory: &Theory) -> Result<Merged, AllocError>
        ensures { IfOk result (λ merged. merged ≡ theory.now.declarations) }
    {
        let order = Arc::try_clone(&theory.order)?;
        let declared = theory.declared.share()?;
        Ok(Merged { declared, order })
    }

    /// The classes and arities.
    fn order(&self) -> &Order
        ensures { result.now ≡ algebra_of self.now }
    {
        &*self.order
    }

    /// What the theory declares too.
    fn with(&self, alloc: Global, theory: &Theory) -> Result<Merged, DeclFault>
        requires { AreNamedOnce (self.now ++ theory.now.declarations) }
        ensures ok { IfOk result (λ more. IsAdded self.now theory.now.declarations more) }
        ensures coregular { IfOk result (λ more. IsCoregular (algebra_of more)) }
        ensures fault { IfErr result (IsMergeRefusal self.now theory.now.declarations) }
    {
        theory.content_is_sound();
        let own = self.order();
        let other = theory.order();
        let united = own.merge(alloc, other)?;
        let order = shared(alloc, united)?;
        let declared = self.declared.with_all(&theory.declared)?;
        Ok(Merged { declared, order })
    }
}

/// The parent at the place, whose content is sound.
pub(crate) fn parent_at(parents: &[Arc<Theory>], place: usize) -> &Theory
    requires { place < length parents.now }
    ensures held { slice_get (contents parents.now) place ≡ Some result.now }
    ensures sound { IsSound result.now }
{
    let parent = &*parents[place];
    parent.content_is_sound();
    parent
}

/// What the theory declares too. What was merged before is let go of here alone.
fn grown(alloc: Global, merged: Merged, theory: &Theory) -> Result<Merged, DeclFault>
    requires { AreNamedOnce (merged ++ theory.now.declarations) }
    ensures ok { IfOk result (λ more. IsAdded merged theory.now.declarations more) }
    ensures coregular { IfOk result (λ more. IsCoregular (algebra_of more)) }
    ensures fault { IfErr result (IsMergeRefusal merged theory.now.declarations) }
{
    merged.with(alloc, theory)
}

/// The merge of the theories, one after the other.
fn merge_of(alloc: Global, parents: &[Arc<Theory>]) -> Result<Merged, DeclFault>
    requires some { ¬ (contents parents.now ≡ []) }
    requires agreed { AreAgreed (contents parents.now) }
    ensures ok { IfOk result (IsMerge (contents parents.now)) }
    ensures sound { OnOk result (Each IsSound (contents parents.now)) }
    ensures fault { IfErr result (IsBeginRefusal (contents parents.now)) }
{
    let first = parent_at(parents, 0);
    let mut merged = Merged::first(first)?;
    for place in 1..parents.len() {
        let parent = parent_at(parents, place);
        merged = grown(alloc, merged, parent)?;
    }
    Ok(merged)
}

/// Whether the theories have one name and one index.
pub(crate) fn is_same_theory(first: Known, second: Known) -> bool
    ensures { result ≡ theory_eq first second }
{
    first.name.0 == second.name.0 && first.index == second.index
}

/// Whether the theory is one of these.
fn is_among(theory: Known, theories: &[Known]) -> bool
    ensures { result ≡ list_any (theory_eq theory) theories.now }
{
    for other in theories {
        if is_same_theory(theory, *other) {
            return true;
        }
    }
    false
}

/// Appends the theory, if it isn't there yet.
fn put_theory(theories: &mut Vec<Known>, theory: Known) -> Result<(), AllocError>
    ensures { OnOk result (theories.new.items ≡ once_more theories.old.items theory) }
{
    if !is_among(theory, theories.as_slice()) {
        theories.push(theory)?;
    }
    Ok(())
}

/// Appends the theories, each if it isn't there yet.
fn put_all(theories: &mut Vec<Known>, others: &[Known]) -> Result<(), AllocError>
    ensures { OnOk result (theories.new.items ≡ all_once_more theories.old.items others.now) }
{
    for other in others {
        put_theory(theories, *other)?;
    }
    Ok(())
}

/// Appends the theory's ancestors and then the theory itself, each if it isn't there yet.
fn put_theories(theories: &mut Vec<Known>, theory: &Theory) -> Result<(), AllocError>
    ensures { OnOk result (theories.new.items ≡ all_once_more theories.old.items (theories_of theory.now)) }
{
    put_all(theories, theory.ancestor_list())?;
    if let Some(own) = theory.own_theory() {
        put_theory(theories, own)?;
    }
    Ok(())
}

/// The ancestors of a theory with these parents.
pub(crate) fn ancestors(
    alloc: Global,
    parents: &[Arc<Theory>],
) -> Result<Arc<Vec<Known>>, AllocError>
    ensures { IfOk result (λ theories. theories.value.items ≡ ancestors_of (contents parents.now)) }
{
    let mut theories = Vec::new(alloc);
    for place in 0..parents.len() {
        let parent = parent_at(parents, place);
        put_theories(&mut theories, parent)?;
    }
    let theories = shared(alloc, theories)?;
    Ok(theories)
}

impl Theory {
    /// A theory that begins with the merge of its parents, with its name and its index in load order, where `may_begin` says so.
    pub fn begin(
        alloc: Global,
        index: u32,
        name: Name,
        parents: &[Arc<Theory>],
    ) -> Result<Theory, DeclFault>
        requires { MayBegin (record { name = name; index = index }) (contents parents.now) }
        ensures ok { IfOk result (IsBeginning (record { name = name; index = index }) (contents parents.now)) }
        ensures fault { IfErr result (IsBeginRefusal (contents parents.now)) }
    {
        let ancestors = ancestors(alloc, parents)?;
        let merged = merge_of(alloc, parents)?;
        let Merged { declared, order } = merged;
        let own = Some(Known { name, index });
        Ok(Theory {
            alloc,
            declared,
            order,
            own,
            ancestors,
        })
    }
}
