//! The places of a theory's text, and where a token leads to.
ghost use Rattle.std.specs.Prelude.{◌≡◌, IfOk};
ghost use Rattle.pure_grammar.specs.Theories.Lexeme as lexeme;
ghost use Rattle.pure_grammar.specs.Theories.Reader as spec;
ghost use Rattle.pure_script.specs.Seen.{seen_command};
ghost use Rattle.pure_script.specs.Places.{seen_place, seen_type_place, seen_arity_place, seen_lemma_place, seen_item_place, seen_begun, seen_turn};
ghost use Rattle.pure_script.specs.Lexemes.{seen_lexeme};

use crate::lexeme::{Lexeme, ident_in, is_word, name_in, variable_in};
use crate::texts::Texts;
use crate::theory::{Command, Have, Span, Step};
use pure_grammar::Keyword;
use pure_text::{Text, TextList};
use std::alloc::{AllocError, Global};

/// The methods that take one fact.
#[derive(Clone, Copy)]
pub(crate) enum FactMethod {
    Rule,
    Erule,
    Drule,
}

/// What a proof is of: the lemma, or the have of it that stands open.
#[derive(Clone, Copy)]
pub(crate) enum Subject {
    Lemma,
    Have,
}

/// A place in a lemma, behind its statement; `last` says that the method is that of `by`.
#[derive(Clone, Copy)]
pub(crate) enum ProofPlace {
    AtProof,
    AtHave,
    AfterHave,
    AtHaveText,
    AtStep,
    AtNumber,
    AtMethod { last: bool },
    AtBasic { last: bool },
    AfterBasic { last: bool },
    AtFact { last: bool, method: FactMethod },
    AtUnfolded { last: bool },
    AfterUnfolded { last: bool },
}

/// The name and the statement of a have, as far as they are read.
#[derive(Drop)]
pub(crate) struct OpenHave {
    pub(crate) name: Text,
    pub(crate) prop: Span,
}

/// A lemma with its haves so far and the one that stands open, the steps so far of the proof that is read, and the facts so
/// far of the `unfold` that stands open.
#[derive(Drop)]
pub(crate) struct Goal {
    pub(crate) name: Text,
    pub(crate) prop: Span,
    pub(crate) haves: Vec<Have>,
    pub(crate) have: OpenHave,
    pub(crate) subject: Subject,
    pub(crate) script: Vec<Step>,
    pub(crate) facts: TextList,
}

/// A class with those above it so far.
#[derive(Drop)]
pub(crate) struct NewClass {
    pub(crate) name: Text,
    pub(crate) above: Vec<Text>,
}

/// A place behind the name of a class.
#[derive(Clone, Copy)]
pub(crate) enum AbovePlace {
    AfterClassName,
    AtAbove,
    AfterAbove,
}

/// A place in the declaration of a type.
#[derive(Drop)]
pub(crate) enum TypePlace {
    AtParams,
    AtParam { params: Texts },
    AfterParam { params: Texts },
    AtTypeName { params: u32 },
}

/// The domains of an arity so far, and the classes so far of the sort that stands open.
#[derive(Drop)]
pub(crate) struct Domains {
    pub(crate) con: Text,
    pub(crate) doms: Vec<Vec<Text>>,
    pub(crate) sort: Vec<Text>,
}

/// A place in the domains of an arity.
#[derive(Clone, Copy)]
pub(crate) enum SortPlace {
    AtSort,
    AfterSort,
    AtFirstClass,
    AtNextClass,
    AfterClass,
}

/// A place in an arity, outside its domains.
#[derive(Drop)]
pub(crate) enum ArityPlace {
    AtConstructor,
    AfterConstructor { con: Text },
    AtDomains { con: Text },
    AtArityClass { con: Text, doms: Vec<Vec<Text>> },
}

/// A constant, an axiom or a definition, with the ranges that are read so far.
#[derive(Drop)]
pub(crate) struct Item {
    pub(crate) name: Text,
    pub(crate) typ: Span,
    pub(crate) prop: Span,
}

/// A place behind the name of a constant, an axiom or a definition.
#[derive(Clone, Copy)]
pub(crate) enum NamedPlace {
    AfterItem,
    AtItemType,
    AfterAxiom,
    AtAxiomText,
    AfterDefinition,
    AtDefinitionType,
    AfterDefinitionType,
    AtDefinitionText,
}

/// A place in the declaration of constants or axioms, or in a definition.
#[derive(Drop)]
pub(crate) enum ItemPlace {
    AtItem,
    AfterItemType,
    AtWhere,
    AtAxiom,
    AfterAxiomText,
    AtDefinition,
    InItem { item: Item, place: NamedPlace },
}

/// A place in a lemma, before its proof.
#[derive(Drop)]
pub(crate) enum LemmaPlace {
    AtLemma,
    AfterLemma { name: Text },
    AtLemmaText { name: Text },
}

/// A place between commands or in the head of one, which a token moves.
#[derive(Drop)]
pub(crate) enum HeadPlace {
    AtCommand,
    AfterEnd,
    AtClassName,
    OfType { place: TypePlace },
    OfArity { place: ArityPlace },
    OfLemma { place: LemmaPlace },
}

/// A place in the rest of a command, which is read in place, so that no token moves it.
#[derive(Drop)]
pub(crate) enum RestPlace {
    InClass { class: NewClass, place: AbovePlace },
    InDomains { domains: Domains, place: SortPlace },
    OfItem { place: ItemPlace },
    InProof { goal: Goal, place: ProofPlace },
}

/// A place among the commands, with what was read of the current one.
#[derive(Drop)]
pub(crate) enum Place {
    AtHead { place: HeadPlace },
    AtRest { place: RestPlace },
}

/// What a token leads to: another place, or a command that it ends and another place, or nothing.
#[derive(Drop)]
pub(crate) enum Turn {
    Moves { place: Place },
    Adds { command: Command, place: Place },
    Refuses,
}

/// How a token of the rest of a command goes on: the rest does, or it or an item of it ends, or the token begins the next
/// command, or the token refuses.
#[derive(Clone, Copy)]
pub(crate) enum Course {
    Stays,
    Ends,
    Leaves,
    Refuses,
}

/// Between commands.
pub(crate) fn at_command() -> Place
    ensures { seen_place result ≡ spec.AtCommand }
{
    Place::AtHead {
        place: HeadPlace::AtCommand,
    }
}

/// In the declaration of a type.
pub(crate) fn of_type(place: TypePlace) -> Place
    ensures { seen_place result ≡ seen_type_place place }
{
    Place::AtHead {
        place: HeadPlace::OfType { place },
    }
}

/// In an arity, outside its domains.
pub(crate) fn of_arity(place: ArityPlace) -> Place
    ensures { seen_place result ≡ seen_arity_place place }
{
    Place::AtHead {
        place: HeadPlace::OfArity { place },
    }
}

/// In a lemma, before its proof.
pub(crate) fn of_lemma(place: LemmaPlace) -> Place
    ensures { seen_place result ≡ seen_lemma_place place }
{
    Place::AtHead {
        place: HeadPlace::OfLemma { place },
    }
}

/// In constants, axioms or a definition.
pub(crate) fn of_item(place: ItemPlace) -> Place
    ensures { seen_place result ≡ seen_item_place place }
{
    Place::AtRest {
        place: RestPlace::OfItem { place },
    }
}

/// Drops the place. Apart, since each function that drops one itself pays for all its variants.
pub(crate) fn discard(_place: Place) {}

/// To the place, if so.
pub(crate) fn moves_if(so: bool, place: Place) -> Turn
    ensures { seen_turn result ≡ spec.moves_if so (seen_place place) }
{
    if so {
        return Turn::Moves { place };
    }
    discard(place);
    Turn::Refuses
}

/// The place that a token begins: a command, or the end.
pub(crate) fn command_begun(lexeme: Lexeme<'_>) -> Option<Place>
    ensures { seen_begun result ≡ spec.command_begun (seen_lexeme lexeme.entry) }
{
    if is_word(Keyword::Class, lexeme) {
        return Some(Place::AtHead {
            place: HeadPlace::AtClassName,
        });
    }
    if is_word(Keyword::Typedecl, lexeme) {
        return Some(of_type(TypePlace::AtParams));
    }
    if is_word(Keyword::Arities, lexeme) {
        return Some(of_arity(ArityPlace::AtConstructor));
    }
    if is_word(Keyword::Consts, lexeme) {
        return Some(of_item(ItemPlace::AtItem));
    }
    if is_word(Keyword::Axiomatization, lexeme) {
        return Some(of_item(ItemPlace::AtWhere));
    }
    if is_word(Keyword::Definition, lexeme) {
        return Some(of_item(ItemPlace::AtDefinition));
    }
    if is_word(Keyword::Lemma, lexeme) {
        return Some(of_lemma(LemmaPlace::AtLemma));
    }
    if is_word(Keyword::Theorem, lexeme) {
        return Some(of_lemma(LemmaPlace::AtLemma));
    }
    if is_word(Keyword::End, lexeme) {
        return Some(Place::AtHead {
            place: HeadPlace::AfterEnd,
        });
    }
    None
}

/// The next command begins, or the end.
pub(crate) fn leave(begun: Option<Place>) -> Turn
    ensures { seen_turn result ≡ spec.leave (seen_begun begun) }
{
    match begun {
        None => Turn::Refuses,
        Some(place) => Turn::Moves { place },
    }
}

/// This command ends, and the next one begins, or the end.
pub(crate) fn leave_with(command: Command, begun: Option<Place>) -> Turn
    ensures { seen_turn result ≡ spec.leave_with (seen_command command) (seen_begun begun) }
{
    match begun {
        None => Turn::Refuses,
        Some(place) => Turn::Adds { command, place },
    }
}

/// The text of an identifier.
pub(crate) fn ident(alloc: Global, found: Lexeme<'_>) -> Result<Option<Text>, AllocError>
    ensures { IfOk result (λ text. text ≡ lexeme.ident_in (seen_lexeme found.entry)) }
{
    match ident_in(found) {
        None => Ok(None),
        Some(bytes) => Ok(Some(Text::make(alloc, bytes)?)),
    }
}

/// The text of a name, qualified or not.
pub(crate) fn name(alloc: Global, found: Lexeme<'_>) -> Result<Option<Text>, AllocError>
    ensures { IfOk result (λ text. text ≡ lexeme.name_in (seen_lexeme found.entry)) }
{
    match name_in(found) {
        None => Ok(None),
        Some(bytes) => Ok(Some(Text::make(alloc, bytes)?)),
    }
}

/// The text of a type variable.
pub(crate) fn variable(alloc: Global, found: Lexeme<'_>) -> Result<Option<Text>, AllocError>
    ensures { IfOk result (λ text. text ≡ lexeme.variable_in (seen_lexeme found.entry)) }
{
    match variable_in(found) {
        None => Ok(None),
        Some(bytes) => Ok(Some(Text::make(alloc, bytes)?)),
    }
}
