//! The places of a whole theory's text, and where each token leads to.
ghost use Rattle.std.specs.Prelude.{◌≡◌, IfOk, Some, [], ◌∷◌};
ghost use Rattle.pure_grammar.specs.Theories.Lexeme.{Ends};
ghost use Rattle.pure_grammar.specs.Theories.PhraseTree.{with_text};
ghost use Rattle.pure_grammar.specs.Theories.Reader as spec;
ghost use Rattle.pure_script.specs.Seen.{seen_commands};
ghost use Rattle.pure_script.specs.Places.{seen_place, seen_head, seen_rest, seen_type_place, seen_arity_place, seen_item_place, seen_lemma_place, seen_proof, seen_domains, seen_class, seen_named, seen_turn, seen_ended, any_turn};
ghost use Rattle.pure_script.specs.Lexemes.{seen_lexeme};
ghost use Rattle.pure_script.specs.States.{seen_state, seen_front, seen_next, seen_header, seen_end, IsNext, IsLed, IsImport};

use crate::lexeme::{Lexeme, is_word, number_in};
use crate::place::{
    AbovePlace, ArityPlace, Course, Domains, Goal, HeadPlace, Item, ItemPlace, LemmaPlace,
    NamedPlace, NewClass, Place, ProofPlace, RestPlace, SortPlace, Turn, TypePlace, at_command,
    command_begun, discard, ident, leave,
};
use crate::texts::Texts;
use crate::theory::{Command, TheoryText};
use crate::turn::{self, head_turn, rest_course};
use pure_grammar::{Keyword, TokenKind};
use pure_text::Text;
use std::alloc::{AllocError, Global};
use std::mem;

/// The version, the name and the imports of a theory.
#[derive(Drop)]
pub(crate) struct Header {
    pub(crate) version: u32,
    pub(crate) name: Text,
    pub(crate) imports: Texts,
}

/// A place before `begin`, with what was read before it.
#[derive(Drop)]
pub(crate) enum Front {
    AtStart,
    AtVersion,
    AfterVersion { version: u32 },
    AtTheoryName { version: u32 },
    AfterTheoryName { version: u32, name: Text },
    AtImport { version: u32, name: Text },
    AfterImport { header: Header },
}

/// A place in the text, with what was read before it.
#[derive(Drop)]
pub(crate) enum State {
    InFront {
        front: Front,
    },
    InBody {
        header: Header,
        commands: Vec<Command>,
        place: Place,
    },
}

/// The state behind `begin`.
fn body_begun(alloc: Global, header: Header) -> State
    ensures { seen_state result ≡ spec.body_begun (seen_header header) }
{
    let commands = Vec::new(alloc);
    State::InBody {
        header,
        commands,
        place: at_command(),
    }
}

/// The list of one text.
fn only(alloc: Global, text: Text) -> Result<Texts, AllocError>
    ensures { IfOk result (λ texts. texts ≡ text ∷ []) }
{
    let (_, texts) = Texts::none(alloc).with(alloc, text)?;
    Ok(texts)
}

/// The imports with one more, unless it is there.
fn with_import(alloc: Global, imports: Texts, theory: Text) -> Result<Texts, AllocError>
    ensures { IfOk result (λ all. all ≡ with_text imports theory) }
{
    let (_, all) = imports.with(alloc, theory)?;
    Ok(all)
}

/// A state before the commands.
fn in_front(front: Front) -> Option<State>
    ensures { seen_next result ≡ Some (seen_front front) }
{
    Some(State::InFront { front })
}

/// Where a text begins.
fn at_start(lexeme: Lexeme<'_>) -> Option<State>
    ensures { seen_next result ≡ spec.next spec.AtStart (seen_lexeme lexeme.entry) }
{
    if is_word(Keyword::Version, lexeme) {
        return in_front(Front::AtVersion);
    }
    if is_word(Keyword::Theory, lexeme) {
        return in_front(Front::AtTheoryName { version: 1 });
    }
    None
}

/// Behind `version`.
fn at_version(lexeme: Lexeme<'_>) -> Option<State>
    ensures { seen_next result ≡ spec.next spec.AtVersion (seen_lexeme lexeme.entry) }
{
    match number_in(lexeme) {
        None => None,
        Some(version) => in_front(Front::AfterVersion { version }),
    }
}

/// Behind the number of the version.
fn after_version(version: u32, lexeme: Lexeme<'_>) -> Option<State>
    ensures { seen_next result ≡ spec.next (spec.AfterVersion version) (seen_lexeme lexeme.entry) }
{
    if is_word(Keyword::Theory, lexeme) {
        return in_front(Front::AtTheoryName { version });
    }
    None
}

/// Behind `theory`.
fn at_theory_name(
    alloc: Global,
    version: u32,
    lexeme: Lexeme<'_>,
) -> Result<Option<State>, AllocError>
    ensures { IfOk result (λ next. seen_next next ≡ spec.next (spec.AtTheoryName version) (seen_lexeme lexeme.entry)) }
{
    match ident(alloc, lexeme)? {
        None => Ok(None),
        Some(name) => Ok(in_front(Front::AfterTheoryName { version, name })),
    }
}

/// Behind the name of the theory.
fn after_theory_name(
    alloc: Global,
    version: u32,
    name: Text,
    lexeme: Lexeme<'_>,
) -> Result<Option<State>, AllocError>
    ensures { IfOk result (λ next. seen_next next ≡ spec.next (spec.AfterTheoryName version name) (seen_lexeme lexeme.entry)) }
{
    if is_word(Keyword::Imports, lexeme) {
        return Ok(in_front(Front::AtImport { version, name }));
    }
    if is_word(Keyword::Begin, lexeme) {
        let imports = only(alloc, Text::make(alloc, b"Pure")?)?;
        let header = Header {
            version,
            name,
            imports,
        };
        return Ok(Some(body_begun(alloc, header)));
    }
    Ok(None)
}

/// Behind `imports`.
fn at_import(
    alloc: Global,
    version: u32,
    name: Text,
    lexeme: Lexeme<'_>,
) -> Result<Option<State>, AllocError>
    ensures { IfOk result (λ next. seen_next next ≡ spec.next (spec.AtImport version name) (seen_lexeme lexeme.entry)) }
{
    match ident(alloc, lexeme)? {
        None => Ok(None),
        Some(theory) => {
            let imports = only(alloc, theory)?;
            let header = Header {
                version,
                name,
                imports,
            };
            Ok(in_front(Front::AfterImport { header }))
        }
    }
}

/// Behind an import.
fn after_import(
    alloc: Global,
    header: Header,
    lexeme: Lexeme<'_>,
) -> Result<Option<State>, AllocError>
    ensures { IfOk result (λ next. seen_next next ≡ spec.next (spec.AfterImport (seen_header header)) (seen_lexeme lexeme.entry)) }
{
    match ident(alloc, lexeme)? {
        Some(theory) => {
            let imports = with_import(alloc, header.imports, theory)?;
            let header = Header {
                version: header.version,
                name: header.name,
                imports,
            };
            Ok(in_front(Front::AfterImport { header }))
        }
        None => {
            if is_word(Keyword::Begin, lexeme) {
                return Ok(Some(body_begun(alloc, header)));
            }
            Ok(None)
        }
    }
}

/// The state behind a token before the commands, or None exactly where none goes on.
#[inline(never)]
fn front_next(alloc: Global, front: Front, lexeme: Lexeme<'_>) -> Result<Option<State>, AllocError>
    ensures { IfOk result (λ next. seen_next next ≡ spec.next (seen_front front) (seen_lexeme lexeme.entry)) }
{
    match front {
        Front::AtStart => Ok(at_start(lexeme)),
        Front::AtVersion => Ok(at_version(lexeme)),
        Front::AfterVersion { version } => Ok(after_version(version, lexeme)),
        Front::AtTheoryName { version } => at_theory_name(alloc, version, lexeme),
        Front::AfterTheoryName { version, name } => after_theory_name(alloc, version, name, lexeme),
        Front::AtImport { version, name } => at_import(alloc, version, name, lexeme),
        Front::AfterImport { header } => after_import(alloc, header, lexeme),
    }
}

/// The place becomes this one. Apart, as `discard`.
fn put(place: &mut Place, behind: Place)
    ensures { seen_place place.new ≡ seen_place behind }
{
    discard(mem::replace(place, behind));
}

/// Follows a turn, and whether it goes on.
fn led(commands: &mut Vec<Command>, place: &mut Place, turn: Turn) -> Result<bool, AllocError>
    ensures { IfOk result (λ on. IsLed on (seen_commands commands.new.items) (seen_place place.new) (seen_commands commands.old.items) (seen_turn turn)) }
{
    match turn {
        Turn::Moves { place: behind } => {
            put(place, behind);
            Ok(true)
        }
        Turn::Adds {
            command,
            place: behind,
        } => {
            put(place, behind);
            commands.push(command)?;
            Ok(true)
        }
        Turn::Refuses => Ok(false),
    }
}

/// One token more of the head of a command, and whether it goes on.
#[inline(never)]
fn in_head(
    alloc: Global,
    commands: &mut Vec<Command>,
    place: &mut Place,
    head: HeadPlace,
    lexeme: Lexeme<'_>,
) -> Result<bool, AllocError>
    ensures { IfOk result (λ on. IsLed on (seen_commands commands.new.items) (seen_place place.new) (seen_commands commands.old.items) (any_turn (seen_head head) (seen_lexeme lexeme.entry))) }
{
    led(commands, place, head_turn(alloc, head, lexeme)?)
}

/// The rest of a command ends, or an item of it, and whether the text goes on.
#[inline(never)]
fn finish(
    commands: &mut Vec<Command>,
    place: &mut Place,
    rest: RestPlace,
    lexeme: Lexeme<'_>,
) -> Result<bool, AllocError>
    ensures { IfOk result (λ on. IsLed on (seen_commands commands.new.items) (seen_place place.new) (seen_commands commands.old.items) (seen_ended rest (seen_lexeme lexeme.entry))) }
{
    led(commands, place, turn::ended(rest, lexeme))
}

/// The next command begins, or the end, and whether the text goes on.
#[inline(never)]
fn left(
    commands: &mut Vec<Command>,
    place: &mut Place,
    lexeme: Lexeme<'_>,
) -> Result<bool, AllocError>
    ensures { IfOk result (λ on. IsLed on (seen_commands commands.new.items) (seen_place place.new) (seen_commands commands.old.items) (spec.leave (spec.command_begun (seen_lexeme lexeme.entry)))) }
{
    led(commands, place, leave(command_begun(lexeme)))
}

/// One token more of the commands, and whether it goes on.
#[inline(never)]
#[tactic(auto, using(crate::proofs::Versions::same_head))]
fn in_body(
    alloc: Global,
    version: u32,
    commands: &mut Vec<Command>,
    place: &mut Place,
    lexeme: Lexeme<'_>,
) -> Result<bool, AllocError>
    ensures { IfOk result (λ on. IsLed on (seen_commands commands.new.items) (seen_place place.new) (seen_commands commands.old.items) (spec.turn version (seen_place place.old) (seen_lexeme lexeme.entry))) }
{
    match place {
        Place::AtHead { place: here } => {
            let head = mem::replace(here, HeadPlace::AtCommand);
            in_head(alloc, commands, place, head, lexeme)
        }
        Place::AtRest { place: here } => match rest_course(alloc, version, here, lexeme)? {
            Course::Stays => Ok(true),
            Course::Refuses => Ok(false),
            Course::Leaves => left(commands, place, lexeme),
            Course::Ends => {
                let nothing = ItemPlace::AtItem;
                let rest = mem::replace(here, RestPlace::OfItem { place: nothing });
                finish(commands, place, rest, lexeme)
            }
        },
    }
}

/// Goes on where the token is one import more, and else stays.
#[inline(never)]
fn is_import(alloc: Global, front: &mut Front, lexeme: Lexeme<'_>) -> Result<bool, AllocError>
    ensures { IfOk result (λ on. IsImport on front.new front.old (spec.next (seen_front front.old) (seen_lexeme lexeme.entry))) }
{
    match front {
        Front::AfterImport { header } => match ident(alloc, lexeme)? {
            None => Ok(false),
            Some(theory) => {
                header.imports.add(alloc, theory)?;
                Ok(true)
            }
        },
        _ => Ok(false),
    }
}

/// Drops the place before the commands. Apart, as the other `discard`.
fn discard_front(_front: Front) {}

/// Drops the state.
pub(crate) fn discard_state(state: State) {
    match state {
        State::InFront { front } => discard_front(front),
        State::InBody { place, .. } => discard(place),
    }
}

/// The state becomes this one.
fn enter(state: &mut State, behind: State)
    ensures { seen_state state.new ≡ seen_state behind }
{
    discard_state(mem::replace(state, behind));
}

/// Goes to the state behind a token. Apart from `goes_on`, whose every call would pay for the room that the front takes.
#[inline(never)]
#[tactic(auto, using(crate::proofs::Steps::body_next_same))]
fn goes_anywhere(alloc: Global, state: &mut State, lexeme: Lexeme<'_>) -> Result<bool, AllocError>
    ensures { IfOk result (λ on. IsNext on (seen_state state.new) (spec.next (seen_state state.old) (seen_lexeme lexeme.entry))) }
{
    match state {
        State::InBody {
            header,
            commands,
            place,
        } => in_body(alloc, header.version, commands, place, lexeme),
        State::InFront { front } => {
            if is_import(alloc, front, lexeme)? {
                return Ok(true);
            }
            let here = mem::replace(front, Front::AtStart);
            match front_next(alloc, here, lexeme)? {
                None => Ok(false),
                Some(behind) => {
                    enter(state, behind);
                    Ok(true)
                }
            }
        }
    }
}

/// Goes to the state behind a token; false exactly where none goes on.
#[tactic(auto, using(crate::proofs::Steps::body_next_same))]
pub(crate) fn goes_on(
    alloc: Global,
    state: &mut State,
    lexeme: Lexeme<'_>,
) -> Result<bool, AllocError>
    ensures { IfOk result (λ on. IsNext on (seen_state state.new) (spec.next (seen_state state.old) (seen_lexeme lexeme.entry))) }
{
    match state {
        State::InBody {
            header,
            commands,
            place,
        } => in_body(alloc, header.version, commands, place, lexeme),
        State::InFront { .. } => goes_anywhere(alloc, state, lexeme),
    }
}

/// Whether `end` was read.
fn is_after_end(place: &Place) -> bool
    ensures { result ≡ spec.is_after_end (seen_place place.now) }
{
    match place {
        Place::AtHead {
            place: HeadPlace::AfterEnd,
        } => true,
        _ => false,
    }
}

/// The theory, where its text may end, and else None.
pub(crate) fn ended(state: State) -> Option<TheoryText>
    ensures { seen_end result ≡ spec.next (seen_state state) Ends }
{
    match state {
        State::InBody {
            header,
            commands,
            place,
        } => {
            let may_end = is_after_end(&place);
            discard(place);
            if may_end {
                return Some(TheoryText {
                    version: header.version,
                    name: header.name,
                    imports: header.imports.into_list(),
                    commands,
                });
            }
            None
        }
        State::InFront { front } => {
            discard_front(front);
            None
        }
    }
}

/// What may stand before the commands.
fn front_kind(front: &Front) -> TokenKind
    ensures { result ≡ spec.expected (seen_front front.now) }
{
    match front {
        Front::AtStart => TokenKind::Word,
        Front::AtVersion => TokenKind::Number,
        Front::AfterVersion { .. } => TokenKind::Word,
        Front::AtTheoryName { .. } => TokenKind::Ident,
        Front::AfterTheoryName { .. } => TokenKind::Word,
        Front::AtImport { .. } => TokenKind::Ident,
        Front::AfterImport { .. } => TokenKind::Word,
    }
}

/// What may stand in a lemma, behind its statement.
fn proof_kind(goal: &Goal, place: ProofPlace) -> TokenKind
    ensures { result ≡ spec.kind_at (seen_proof goal.now place) }
{
    match place {
        ProofPlace::AtProof => TokenKind::Word,
        ProofPlace::AtHave => TokenKind::Ident,
        ProofPlace::AfterHave => TokenKind::Symbol,
        ProofPlace::AtHaveText => TokenKind::Quote,
        ProofPlace::AtStep => TokenKind::Word,
        ProofPlace::AtNumber => TokenKind::Number,
        ProofPlace::AtMethod { .. } => TokenKind::Ident,
        ProofPlace::AtBasic { .. } => TokenKind::Ident,
        ProofPlace::AfterBasic { .. } => TokenKind::Symbol,
        ProofPlace::AtFact { .. } => TokenKind::Ident,
        ProofPlace::AtUnfolded { .. } => TokenKind::Ident,
        ProofPlace::AfterUnfolded { .. } => TokenKind::Symbol,
    }
}

/// What may stand behind the name of a class.
fn above_kind(class: &NewClass, place: AbovePlace) -> TokenKind
    ensures { result ≡ spec.kind_at (seen_class class.now place) }
{
    match place {
        AbovePlace::AfterClassName => TokenKind::Word,
        AbovePlace::AtAbove => TokenKind::Ident,
        AbovePlace::AfterAbove => TokenKind::Word,
    }
}

/// What may stand in the declaration of a type.
fn type_kind(place: &TypePlace) -> TokenKind
    ensures { result ≡ spec.kind_at (seen_type_place place.now) }
{
    match place {
        TypePlace::AtParams => TokenKind::Ident,
        TypePlace::AtParam { .. } => TokenKind::TypeVar,
        TypePlace::AfterParam { .. } => TokenKind::Symbol,
        TypePlace::AtTypeName { .. } => TokenKind::Ident,
    }
}

/// What may stand in domains.
fn sort_kind(domains: &Domains, place: SortPlace) -> TokenKind
    ensures { result ≡ spec.kind_at (seen_domains domains.now place) }
{
    match place {
        SortPlace::AtSort => TokenKind::Ident,
        SortPlace::AfterSort => TokenKind::Symbol,
        SortPlace::AtFirstClass => TokenKind::Ident,
        SortPlace::AtNextClass => TokenKind::Ident,
        SortPlace::AfterClass => TokenKind::Symbol,
    }
}

/// What may stand in an arity, outside its domains.
fn arity_kind(place: &ArityPlace) -> TokenKind
    ensures { result ≡ spec.kind_at (seen_arity_place place.now) }
{
    match place {
        ArityPlace::AtConstructor => TokenKind::Ident,
        ArityPlace::AfterConstructor { .. } => TokenKind::Symbol,
        ArityPlace::AtDomains { .. } => TokenKind::Ident,
        ArityPlace::AtArityClass { .. } => TokenKind::Ident,
    }
}

/// What may stand behind the name of an item.
fn named_kind(item: &Item, place: NamedPlace) -> TokenKind
    ensures { result ≡ spec.kind_at (seen_named item.now place) }
{
    match place {
        NamedPlace::AfterItem => TokenKind::Symbol,
        NamedPlace::AtItemType => TokenKind::Quote,
        NamedPlace::AfterAxiom => TokenKind::Symbol,
        NamedPlace::AtAxiomText => TokenKind::Quote,
        NamedPlace::AfterDefinition => TokenKind::Symbol,
        NamedPlace::AtDefinitionType => TokenKind::Quote,
        NamedPlace::AfterDefinitionType => TokenKind::Word,
        NamedPlace::AtDefinitionText => TokenKind::Quote,
    }
}

/// What may stand in constants, axioms or a definition.
fn item_kind(place: &ItemPlace) -> TokenKind
    ensures { result ≡ spec.kind_at (seen_item_place place.now) }
{
    match place {
        ItemPlace::AtItem => TokenKind::Ident,
        ItemPlace::AfterItemType => TokenKind::Word,
        ItemPlace::AtWhere => TokenKind::Word,
        ItemPlace::AtAxiom => TokenKind::Ident,
        ItemPlace::AfterAxiomText => TokenKind::Word,
        ItemPlace::AtDefinition => TokenKind::Ident,
        ItemPlace::InItem { item, place } => named_kind(item, *place),
    }
}

/// What may stand in a lemma, before its proof.
fn lemma_kind(place: &LemmaPlace) -> TokenKind
    ensures { result ≡ spec.kind_at (seen_lemma_place place.now) }
{
    match place {
        LemmaPlace::AtLemma => TokenKind::Ident,
        LemmaPlace::AfterLemma { .. } => TokenKind::Symbol,
        LemmaPlace::AtLemmaText { .. } => TokenKind::Quote,
    }
}

/// What may stand between commands or in the head of one.
fn head_kind(place: &HeadPlace) -> TokenKind
    ensures { result ≡ spec.kind_at (seen_head place.now) }
{
    match place {
        HeadPlace::AtCommand => TokenKind::Word,
        HeadPlace::AfterEnd => TokenKind::End,
        HeadPlace::AtClassName => TokenKind::Ident,
        HeadPlace::OfType { place } => type_kind(place),
        HeadPlace::OfArity { place } => arity_kind(place),
        HeadPlace::OfLemma { place } => lemma_kind(place),
    }
}

/// What may stand in the rest of a command.
fn rest_kind(place: &RestPlace) -> TokenKind
    ensures { result ≡ spec.kind_at (seen_rest place.now) }
{
    match place {
        RestPlace::InClass { class, place } => above_kind(class, *place),
        RestPlace::InDomains { domains, place } => sort_kind(domains, *place),
        RestPlace::OfItem { place } => item_kind(place),
        RestPlace::InProof { goal, place } => proof_kind(goal, *place),
    }
}

/// What may stand among the commands.
fn kind_at(place: &Place) -> TokenKind
    ensures { result ≡ spec.kind_at (seen_place place.now) }
{
    match place {
        Place::AtHead { place } => head_kind(place),
        Place::AtRest { place } => rest_kind(place),
    }
}

/// A kind of token that may stand next, or the end.
pub(crate) fn expected(state: &State) -> TokenKind
    ensures { result ≡ spec.expected (seen_state state.now) }
{
    match state {
        State::InFront { front } => front_kind(front),
        State::InBody { place, .. } => kind_at(place),
    }
}
