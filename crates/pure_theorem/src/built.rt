//! The built facts as terms.
ghost use Rattle.std.specs.Prelude.{◌≡◌, [], IfOk};
ghost use Rattle.pure_definitions.specs.Types.Typ.{arrow, prop};
ghost use Rattle.pure_definitions.specs.Types.Typ as typ_tree;
ghost use Rattle.pure_definitions.specs.Terms.Term as tree;
ghost use Rattle.pure_logic.specs.PureContent.{any_typ};
ghost use Rattle.pure_logic.specs.Connectives.{all, imp, eq};
ghost use Rattle.pure_logic.specs.BuiltFacts.{other_typ, reflexivity, substitutivity, function_extensionality, propositional_extensionality, modus_ponens, specialisation};
ghost use Rattle.pure_theorem.specs.Built.{built_proposition};

use crate::connective::{all_of, equation, equation_of, implication_of, prop_typ};
use pure_term::{Name, Sort, Term, TermNode, Typ, TypNode};
use std::alloc::{AllocError, Global};
use std::sync::Arc;

/// A built fact: reflexivity, substitution, extensionality of functions and of propositions, modus ponens, and specialisation.
#[derive(Clone, Copy, PartialEq, Eq)]
pub enum Built {
    Refl,
    Subst,
    Ext,
    Iff,
    Mp,
    Spec,
}

/// The schematic type variable of this name, without classes.
fn typ_variable(name: u32) -> Typ
    ensures { result ≡ typ_tree.TVar name 0 [] }
{
    let name = Name(name);
    let sort = Sort::empty();
    Typ {
        node: TypNode::TVar {
            name,
            index: 0,
            sort,
        },
    }
}

/// The schematic variable of this name.
fn variable(name: u32, typ: Typ) -> Term
    ensures { result ≡ tree.Var name 0 typ }
{
    let name = Name(name);
    Term {
        node: TermNode::Var {
            name,
            index: 0,
            typ,
        },
    }
}

/// The schematic variable of type prop.
fn proposition(alloc: Global, name: u32) -> Term
    ensures { result ≡ tree.Var name 0 prop }
{
    variable(name, prop_typ(alloc))
}

/// The term, to be shared: so what a `?` lets go of below are pointers.
fn shared(alloc: Global, term: Term) -> Result<Arc<Term>, AllocError>
    ensures { IfOk result (λ t. t.value ≡ term) }
{
    Ok(Arc::new(alloc, term)?)
}

/// The schematic variable of functions to the second of the types.
fn function(alloc: Global, name: u32, range: Typ) -> Result<Arc<Term>, AllocError>
    ensures { IfOk result (λ t. t.value ≡ tree.Var name 0 (arrow any_typ range)) }
{
    let typ = Typ::arrow(alloc, typ_variable(0), range)?;
    shared(alloc, variable(name, typ))
}

/// The innermost bound variable.
fn bound() -> Term
    ensures { result ≡ tree.Bound 0 }
{
    Term {
        node: TermNode::Bound { place: 0 },
    }
}

/// `!!x. B`, over the type variable.
fn for_all(alloc: Global, body: Arc<Term>) -> Result<Term, AllocError>
    ensures { IfOk result (λ t. t ≡ all any_typ body.value) }
{
    let function = Term::abs(typ_variable(0), body);
    all_of(alloc, &typ_variable(0), function)
}

/// The schematic predicate applied to the term.
fn predicate(alloc: Global, name: u32, argument: Arc<Term>) -> Result<Arc<Term>, AllocError>
    ensures { IfOk result (λ t. t.value ≡ tree.App (tree.Var name 0 (arrow any_typ prop)) argument.value) }
{
    let function = function(alloc, name, prop_typ(alloc))?;
    shared(alloc, Term::app(function, argument))
}

/// `t == u`, for terms of the first type variable.
fn equal_terms(alloc: Global, left: Term, right: Term) -> Result<Term, AllocError>
    ensures { IfOk result (λ t. t ≡ eq any_typ left right) }
{
    equation(alloc, &typ_variable(0), left, right)
}

/// `?x == ?x`
fn reflexivity(alloc: Global) -> Result<Term, AllocError>
    ensures { IfOk result (λ t. t ≡ reflexivity) }
{
    let left = variable(0, typ_variable(0));
    let right = variable(0, typ_variable(0));
    equal_terms(alloc, left, right)
}

/// The schematic predicate of the variable of this name.
fn predicate_of(alloc: Global, name: u32, argument: u32) -> Result<Arc<Term>, AllocError>
    ensures { IfOk result (λ t. t.value ≡ tree.App (tree.Var name 0 (arrow any_typ prop)) (tree.Var argument 0 any_typ)) }
{
    let variable = shared(alloc, variable(argument, typ_variable(0)))?;
    predicate(alloc, name, variable)
}

/// `?P ?x ==> ?P ?y`
fn substituted(alloc: Global) -> Result<Arc<Term>, AllocError>
    ensures { IfOk result (λ t. t.value ≡ imp (tree.App (tree.Var 2 0 (arrow any_typ prop)) (tree.Var 0 0 any_typ)) (tree.App (tree.Var 2 0 (arrow any_typ prop)) (tree.Var 1 0 any_typ))) }
{
    let premise = predicate_of(alloc, 2, 0)?;
    let conclusion = predicate_of(alloc, 2, 1)?;
    shared(alloc, implication_of(alloc, premise, conclusion)?)
}

/// `?x == ?y`
fn equal_variables(alloc: Global) -> Result<Arc<Term>, AllocError>
    ensures { IfOk result (λ t. t.value ≡ eq any_typ (tree.Var 0 0 any_typ) (tree.Var 1 0 any_typ)) }
{
    let left = variable(0, typ_variable(0));
    let right = variable(1, typ_variable(0));
    shared(alloc, equal_terms(alloc, left, right)?)
}

/// `?x == ?y ==> ?P ?x ==> ?P ?y`
fn substitutivity(alloc: Global) -> Result<Term, AllocError>
    ensures { IfOk result (λ t. t ≡ substitutivity) }
{
    let sides = equal_variables(alloc)?;
    let rest = substituted(alloc)?;
    implication_of(alloc, sides, rest)
}

/// The schematic function applied to the bound variable.
fn function_of_bound(alloc: Global, name: u32) -> Result<Arc<Term>, AllocError>
    ensures { IfOk result (λ t. t.value ≡ tree.App (tree.Var name 0 (arrow any_typ other_typ)) (tree.Bound 0)) }
{
    let function = function(alloc, name, typ_variable(1))?;
    let bound = shared(alloc, bound())?;
    shared(alloc, Term::app(function, bound))
}

/// `?f x == ?g x`, for the bound variable x
fn equal_at_bound(alloc: Global) -> Result<Term, AllocError>
    ensures { IfOk result (λ t. t ≡ eq other_typ (tree.App (tree.Var 0 0 (arrow any_typ other_typ)) (tree.Bound 0)) (tree.App (tree.Var 1 0 (arrow any_typ other_typ)) (tree.Bound 0))) }
{
    let left = function_of_bound(alloc, 0)?;
    let right = function_of_bound(alloc, 1)?;
    equation_of(alloc, &typ_variable(1), left, right)
}

/// `?f == ?g`, for functions
fn equal_functions(alloc: Global) -> Result<Term, AllocError>
    ensures { IfOk result (λ t. t ≡ eq (arrow any_typ other_typ) (tree.Var 0 0 (arrow any_typ other_typ)) (tree.Var 1 0 (arrow any_typ other_typ))) }
{
    let left = function(alloc, 0, typ_variable(1))?;
    let right = function(alloc, 1, typ_variable(1))?;
    let typ = Typ::arrow(alloc, typ_variable(0), typ_variable(1))?;
    equation_of(alloc, &typ, left, right)
}

/// `(!!x. ?f x == ?g x) ==> ?f == ?g`
fn function_extensionality(alloc: Global) -> Result<Term, AllocError>
    ensures { IfOk result (λ t. t ≡ function_extensionality) }
{
    let body = shared(alloc, equal_at_bound(alloc)?)?;
    let premise = shared(alloc, for_all(alloc, body)?)?;
    let conclusion = shared(alloc, equal_functions(alloc)?)?;
    implication_of(alloc, premise, conclusion)
}

/// `?A ==> ?B`, for the names of the two
fn implied(alloc: Global, premise: u32, conclusion: u32) -> Result<Arc<Term>, AllocError>
    ensures { IfOk result (λ t. t.value ≡ imp (tree.Var premise 0 prop) (tree.Var conclusion 0 prop)) }
{
    let premise = shared(alloc, proposition(alloc, premise))?;
    let conclusion = shared(alloc, proposition(alloc, conclusion))?;
    shared(alloc, implication_of(alloc, premise, conclusion)?)
}

/// `?A == ?B`
fn equal_propositions(alloc: Global) -> Result<Term, AllocError>
    ensures { IfOk result (λ t. t ≡ eq prop (tree.Var 0 0 prop) (tree.Var 1 0 prop)) }
{
    let (left, right) = (proposition(alloc, 0), proposition(alloc, 1));
    equation(alloc, &prop_typ(alloc), left, right)
}

/// `(?B ==> ?A) ==> ?A == ?B`
fn equal_where_implied(alloc: Global) -> Result<Arc<Term>, AllocError>
    ensures { IfOk result (λ t. t.value ≡ imp (imp (tree.Var 1 0 prop) (tree.Var 0 0 prop)) (eq prop (tree.Var 0 0 prop) (tree.Var 1 0 prop))) }
{
    let back = implied(alloc, 1, 0)?;
    let sides = shared(alloc, equal_propositions(alloc)?)?;
    shared(alloc, implication_of(alloc, back, sides)?)
}

/// `(?A ==> ?B) ==> (?B ==> ?A) ==> ?A == ?B`
fn propositional_extensionality(alloc: Global) -> Result<Term, AllocError>
    ensures { IfOk result (λ t. t ≡ propositional_extensionality) }
{
    let forth = implied(alloc, 0, 1)?;
    let rest = equal_where_implied(alloc)?;
    implication_of(alloc, forth, rest)
}

/// `(?A ==> ?B) ==> ?A ==> ?B`
fn modus_ponens(alloc: Global) -> Result<Term, AllocError>
    ensures { IfOk result (λ t. t ≡ modus_ponens) }
{
    let premise = implied(alloc, 0, 1)?;
    let conclusion = implied(alloc, 0, 1)?;
    implication_of(alloc, premise, conclusion)
}

/// `(!!x. ?P x) ==> ?P ?x`
fn specialisation(alloc: Global) -> Result<Term, AllocError>
    ensures { IfOk result (λ t. t ≡ specialisation) }
{
    let bound = shared(alloc, bound())?;
    let body = predicate(alloc, 0, bound)?;
    let premise = shared(alloc, for_all(alloc, body)?)?;
    let conclusion = predicate_of(alloc, 0, 1)?;
    implication_of(alloc, premise, conclusion)
}

/// The built fact as a term.
pub fn built_term(alloc: Global, which: Built) -> Result<Term, AllocError>
    ensures { IfOk result (λ t. t ≡ built_proposition which) }
{
    match which {
        Built::Refl => reflexivity(alloc),
        Built::Subst => substitutivity(alloc),
        Built::Ext => function_extensionality(alloc),
        Built::Iff => propositional_extensionality(alloc),
        Built::Mp => modus_ponens(alloc),
        Built::Spec => specialisation(alloc),
    }
}
