//! Where a token of the commands leads to. The groups of places stay functions of their own when they are compiled, since each
//! function pays at its entry for all its locals.
ghost use Rattle.std.specs.Prelude.{◌≡◌, IfOk};
ghost use Rattle.pure_grammar.specs.Theories.Reader as spec;
ghost use Rattle.pure_script.specs.Lexemes.{seen_lexeme};
ghost use Rattle.pure_script.specs.Places.{seen_head, seen_rest, seen_type_place, seen_arity_place, seen_lemma_place, seen_turn, seen_course, seen_ended, any_turn};

use crate::lexeme::Lexeme;
use crate::place::{
    ArityPlace, Course, HeadPlace, LemmaPlace, RestPlace, Turn, TypePlace, command_begun, leave,
};
use crate::{arity, class, item, proof, typedecl};
use std::alloc::{AllocError, Global};

/// Where a token of the declaration of a type leads to.
#[inline(never)]
fn type_turn(alloc: Global, place: TypePlace, l: Lexeme<'_>) -> Result<Turn, AllocError>
    ensures { IfOk result (λ turn. seen_turn turn ≡ any_turn (seen_type_place place) (seen_lexeme l.entry)) }
{
    match place {
        TypePlace::AtParams => typedecl::at_params(alloc, l),
        TypePlace::AtParam { params } => typedecl::at_param(alloc, params, l),
        TypePlace::AfterParam { params } => typedecl::after_param(params, l),
        TypePlace::AtTypeName { params } => typedecl::at_type_name(alloc, params, l),
    }
}

/// Where a token of an arity, outside its domains, leads to.
#[inline(never)]
fn arity_turn(alloc: Global, place: ArityPlace, l: Lexeme<'_>) -> Result<Turn, AllocError>
    ensures { IfOk result (λ turn. seen_turn turn ≡ any_turn (seen_arity_place place) (seen_lexeme l.entry)) }
{
    match place {
        ArityPlace::AtConstructor => arity::at_constructor(alloc, l),
        ArityPlace::AfterConstructor { con } => Ok(arity::after_constructor(con, l)),
        ArityPlace::AtDomains { con } => arity::at_domains(alloc, con, l),
        ArityPlace::AtArityClass { con, doms } => arity::at_arity_class(alloc, con, doms, l),
    }
}

/// Where a token of a lemma, before its proof, leads to.
#[inline(never)]
fn lemma_turn(alloc: Global, place: LemmaPlace, l: Lexeme<'_>) -> Result<Turn, AllocError>
    ensures { IfOk result (λ turn. seen_turn turn ≡ any_turn (seen_lemma_place place) (seen_lexeme l.entry)) }
{
    match place {
        LemmaPlace::AtLemma => proof::at_lemma(alloc, l),
        LemmaPlace::AfterLemma { name } => Ok(proof::after_lemma(name, l)),
        LemmaPlace::AtLemmaText { name } => Ok(proof::at_lemma_text(alloc, name, l)),
    }
}

/// Where the token leads to from a place between commands or in the head of one.
pub(crate) fn head_turn(alloc: Global, place: HeadPlace, l: Lexeme<'_>) -> Result<Turn, AllocError>
    ensures { IfOk result (λ turn. seen_turn turn ≡ any_turn (seen_head place) (seen_lexeme l.entry)) }
{
    match place {
        HeadPlace::AtCommand => Ok(leave(command_begun(l))),
        HeadPlace::AfterEnd => Ok(Turn::Refuses),
        HeadPlace::AtClassName => class::at_class_name(alloc, l),
        HeadPlace::OfType { place } => type_turn(alloc, place, l),
        HeadPlace::OfArity { place } => arity_turn(alloc, place, l),
        HeadPlace::OfLemma { place } => lemma_turn(alloc, place, l),
    }
}

/// How a token of the rest of a command goes on, with its place and what is read in place.
#[tactic(auto, using(crate::proofs::Versions::same_class, crate::proofs::Versions::same_domains, crate::proofs::Versions::same_item))]
pub(crate) fn rest_course(
    alloc: Global,
    version: u32,
    place: &mut RestPlace,
    l: Lexeme<'_>,
) -> Result<Course, AllocError>
    ensures { IfOk result (λ course. seen_course course place.new (seen_lexeme l.entry) ≡ spec.turn version (seen_rest place.old) (seen_lexeme l.entry)) }
{
    match place {
        RestPlace::InClass { class, place: at } => class::class_course(alloc, class, at, l),
        RestPlace::InDomains { domains, place: at } => arity::domains_course(alloc, domains, at, l),
        RestPlace::OfItem { place: at } => item::item_course(alloc, at, l),
        RestPlace::InProof { goal, place: at } => proof::proof_course(alloc, version, goal, at, l),
    }
}

/// What the token leads to that ends the rest of a command, or an item of it.
pub(crate) fn ended(place: RestPlace, l: Lexeme<'_>) -> Turn
    ensures { seen_turn result ≡ seen_ended place (seen_lexeme l.entry) }
{
    match place {
        RestPlace::InClass { class, .. } => class::declared(class, l),
        RestPlace::InDomains { domains, .. } => arity::closed(domains),
        RestPlace::OfItem { place } => item::added(place),
        RestPlace::InProof { goal, .. } => proof::proved(goal),
    }
}
