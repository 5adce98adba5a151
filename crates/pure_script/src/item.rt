//! Constants, axioms and definitions, which are read in place, so that no token moves them.
ghost use Rattle.std.specs.Prelude.{◌≡◌, IfOk};
ghost use Rattle.pure_grammar.specs.Theories.Reader as spec;
ghost use Rattle.pure_script.specs.Seen.{span};
ghost use Rattle.pure_script.specs.Places.{seen_turn, seen_named, seen_item_place, seen_added_item, seen_added, seen_named_course, seen_item_course, any_turn};
ghost use Rattle.pure_script.specs.Lexemes.{seen_lexeme};

use crate::lexeme::{Lexeme, is_sign, is_word, quote_in, type_in};
use crate::place::{Course, Item, ItemPlace, NamedPlace, Turn, at_command, ident, of_item};
use crate::theory::{Command, Span};
use pure_grammar::{Keyword, Sign};
use pure_text::Text;
use std::alloc::{AllocError, Global};

/// An item of which only the name is read.
fn item(name: Text) -> Item
    ensures { result.name ≡ name }
{
    let nowhere = Span { from: 0, to: 0 };
    Item {
        name,
        typ: nowhere,
        prop: nowhere,
    }
}

/// Behind `consts`.
fn at_item(alloc: Global, place: &mut ItemPlace, lexeme: Lexeme<'_>) -> Result<Course, AllocError>
    ensures { IfOk result (λ course. seen_item_course course place.new (seen_lexeme lexeme.entry) ≡ any_turn spec.AtItem (seen_lexeme lexeme.entry)) }
{
    match ident(alloc, lexeme)? {
        None => Ok(Course::Refuses),
        Some(name) => {
            *place = ItemPlace::InItem {
                item: item(name),
                place: NamedPlace::AfterItem,
            };
            Ok(Course::Stays)
        }
    }
}

/// Behind the type of a constant.
fn after_item_type(
    alloc: Global,
    place: &mut ItemPlace,
    lexeme: Lexeme<'_>,
) -> Result<Course, AllocError>
    ensures { IfOk result (λ course. seen_item_course course place.new (seen_lexeme lexeme.entry) ≡ any_turn spec.AfterItemType (seen_lexeme lexeme.entry)) }
{
    match ident(alloc, lexeme)? {
        None => Ok(Course::Leaves),
        Some(name) => {
            *place = ItemPlace::InItem {
                item: item(name),
                place: NamedPlace::AfterItem,
            };
            Ok(Course::Stays)
        }
    }
}

/// Behind `axiomatization`.
fn at_where(place: &mut ItemPlace, lexeme: Lexeme<'_>) -> Course
    ensures { seen_item_course result place.new (seen_lexeme lexeme.entry) ≡ any_turn spec.AtWhere (seen_lexeme lexeme.entry) }
{
    if is_word(Keyword::Where, lexeme) {
        *place = ItemPlace::AtAxiom;
        return Course::Stays;
    }
    Course::Refuses
}

/// Where the name of an axiom stands.
fn at_axiom(alloc: Global, place: &mut ItemPlace, lexeme: Lexeme<'_>) -> Result<Course, AllocError>
    ensures { IfOk result (λ course. seen_item_course course place.new (seen_lexeme lexeme.entry) ≡ any_turn spec.AtAxiom (seen_lexeme lexeme.entry)) }
{
    match ident(alloc, lexeme)? {
        None => Ok(Course::Refuses),
        Some(name) => {
            *place = ItemPlace::InItem {
                item: item(name),
                place: NamedPlace::AfterAxiom,
            };
            Ok(Course::Stays)
        }
    }
}

/// Behind the proposition of an axiom.
fn after_axiom_text(place: &mut ItemPlace, lexeme: Lexeme<'_>) -> Course
    ensures { seen_item_course result place.new (seen_lexeme lexeme.entry) ≡ any_turn spec.AfterAxiomText (seen_lexeme lexeme.entry) }
{
    if is_word(Keyword::And, lexeme) {
        *place = ItemPlace::AtAxiom;
        return Course::Stays;
    }
    Course::Leaves
}

/// Behind `definition`.
fn at_definition(
    alloc: Global,
    place: &mut ItemPlace,
    lexeme: Lexeme<'_>,
) -> Result<Course, AllocError>
    ensures { IfOk result (λ course. seen_item_course course place.new (seen_lexeme lexeme.entry) ≡ any_turn spec.AtDefinition (seen_lexeme lexeme.entry)) }
{
    match ident(alloc, lexeme)? {
        None => Ok(Course::Refuses),
        Some(name) => {
            *place = ItemPlace::InItem {
                item: item(name),
                place: NamedPlace::AfterDefinition,
            };
            Ok(Course::Stays)
        }
    }
}

/// Behind the name of a constant.
fn after_item(item: &Item, place: &mut NamedPlace, lexeme: Lexeme<'_>) -> Course
    ensures { seen_named_course result item.now place.new (seen_lexeme lexeme.entry) ≡ any_turn (spec.AfterItem item.now.name) (seen_lexeme lexeme.entry) }
{
    if is_sign(Sign::DoubleColon, lexeme) {
        *place = NamedPlace::AtItemType;
        return Course::Stays;
    }
    Course::Refuses
}

/// Behind the `::` of a constant.
fn at_item_type(item: &mut Item, place: &mut NamedPlace, lexeme: Lexeme<'_>) -> Course
    ensures { seen_named_course result item.new place.new (seen_lexeme lexeme.entry) ≡ any_turn (spec.AtItemType item.old.name) (seen_lexeme lexeme.entry) }
{
    match type_in(lexeme) {
        None => Course::Refuses,
        Some(typ) => {
            item.typ = typ;
            *place = NamedPlace::AtItemType;
            Course::Ends
        }
    }
}

/// Behind the name of an axiom.
fn after_axiom(item: &Item, place: &mut NamedPlace, lexeme: Lexeme<'_>) -> Course
    ensures { seen_named_course result item.now place.new (seen_lexeme lexeme.entry) ≡ any_turn (spec.AfterAxiom item.now.name) (seen_lexeme lexeme.entry) }
{
    if is_sign(Sign::Colon, lexeme) {
        *place = NamedPlace::AtAxiomText;
        return Course::Stays;
    }
    Course::Refuses
}

/// Behind the `:` of an axiom.
fn at_axiom_text(item: &mut Item, place: &mut NamedPlace, lexeme: Lexeme<'_>) -> Course
    ensures { seen_named_course result item.new place.new (seen_lexeme lexeme.entry) ≡ any_turn (spec.AtAxiomText item.old.name) (seen_lexeme lexeme.entry) }
{
    match quote_in(lexeme) {
        None => Course::Refuses,
        Some(prop) => {
            item.prop = prop;
            *place = NamedPlace::AtAxiomText;
            Course::Ends
        }
    }
}

/// Behind the name that is defined.
fn after_definition(item: &Item, place: &mut NamedPlace, lexeme: Lexeme<'_>) -> Course
    ensures { seen_named_course result item.now place.new (seen_lexeme lexeme.entry) ≡ any_turn (spec.AfterDefinition item.now.name) (seen_lexeme lexeme.entry) }
{
    if is_sign(Sign::DoubleColon, lexeme) {
        *place = NamedPlace::AtDefinitionType;
        return Course::Stays;
    }
    Course::Refuses
}

/// Behind the `::` of a definition.
fn at_definition_type(item: &mut Item, place: &mut NamedPlace, lexeme: Lexeme<'_>) -> Course
    ensures { seen_named_course result item.new place.new (seen_lexeme lexeme.entry) ≡ any_turn (spec.AtDefinitionType item.old.name) (seen_lexeme lexeme.entry) }
{
    match type_in(lexeme) {
        None => Course::Refuses,
        Some(typ) => {
            item.typ = typ;
            *place = NamedPlace::AfterDefinitionType;
            Course::Stays
        }
    }
}

/// Behind the type of a definition.
fn after_definition_type(item: &Item, place: &mut NamedPlace, lexeme: Lexeme<'_>) -> Course
    ensures { seen_named_course result item.now place.new (seen_lexeme lexeme.entry) ≡ any_turn (spec.AfterDefinitionType item.now.name (span item.now.typ)) (seen_lexeme lexeme.entry) }
{
    if is_word(Keyword::Where, lexeme) {
        *place = NamedPlace::AtDefinitionText;
        return Course::Stays;
    }
    Course::Refuses
}

/// Behind the `where` of a definition.
fn at_definition_text(item: &mut Item, place: &mut NamedPlace, lexeme: Lexeme<'_>) -> Course
    ensures { seen_named_course result item.new place.new (seen_lexeme lexeme.entry) ≡ any_turn (spec.AtDefinitionText item.old.name (span item.old.typ)) (seen_lexeme lexeme.entry) }
{
    match quote_in(lexeme) {
        None => Course::Refuses,
        Some(prop) => {
            item.prop = prop;
            *place = NamedPlace::AtDefinitionText;
            Course::Ends
        }
    }
}

/// How a token behind the name of an item goes on, with its place and what is read in place.
fn named_course(item: &mut Item, place: &mut NamedPlace, lexeme: Lexeme<'_>) -> Course
    ensures { seen_named_course result item.new place.new (seen_lexeme lexeme.entry) ≡ any_turn (seen_named item.old place.old) (seen_lexeme lexeme.entry) }
{
    match *place {
        NamedPlace::AfterItem => after_item(item, place, lexeme),
        NamedPlace::AtItemType => at_item_type(item, place, lexeme),
        NamedPlace::AfterAxiom => after_axiom(item, place, lexeme),
        NamedPlace::AtAxiomText => at_axiom_text(item, place, lexeme),
        NamedPlace::AfterDefinition => after_definition(item, place, lexeme),
        NamedPlace::AtDefinitionType => at_definition_type(item, place, lexeme),
        NamedPlace::AfterDefinitionType => after_definition_type(item, place, lexeme),
        NamedPlace::AtDefinitionText => at_definition_text(item, place, lexeme),
    }
}

/// How a token of an item goes on, with its place and what is read in place.
#[inline(never)]
pub(crate) fn item_course(
    alloc: Global,
    place: &mut ItemPlace,
    lexeme: Lexeme<'_>,
) -> Result<Course, AllocError>
    ensures { IfOk result (λ course. seen_item_course course place.new (seen_lexeme lexeme.entry) ≡ any_turn (seen_item_place place.old) (seen_lexeme lexeme.entry)) }
{
    match place {
        ItemPlace::AtItem => at_item(alloc, place, lexeme),
        ItemPlace::AfterItemType => after_item_type(alloc, place, lexeme),
        ItemPlace::AtWhere => Ok(at_where(place, lexeme)),
        ItemPlace::AtAxiom => at_axiom(alloc, place, lexeme),
        ItemPlace::AfterAxiomText => Ok(after_axiom_text(place, lexeme)),
        ItemPlace::AtDefinition => at_definition(alloc, place, lexeme),
        ItemPlace::InItem { item, place: at } => Ok(named_course(item, at, lexeme)),
    }
}

/// The command of an item that is read, and the place behind it.
fn added_item(item: Item, place: NamedPlace) -> Turn
    ensures { seen_turn result ≡ seen_added_item item place }
{
    let Item { name, typ, prop } = item;
    match place {
        NamedPlace::AtItemType => Turn::Adds {
            command: Command::Const { name, typ },
            place: of_item(ItemPlace::AfterItemType),
        },
        NamedPlace::AtAxiomText => Turn::Adds {
            command: Command::Axiom { name, prop },
            place: of_item(ItemPlace::AfterAxiomText),
        },
        NamedPlace::AtDefinitionText => Turn::Adds {
            command: Command::Definition { name, typ, prop },
            place: at_command(),
        },
        _ => Turn::Refuses,
    }
}

/// The command of the item that is read, and the place behind it.
pub(crate) fn added(place: ItemPlace) -> Turn
    ensures { seen_turn result ≡ seen_added place }
{
    match place {
        ItemPlace::InItem { item, place } => added_item(item, place),
        _ => Turn::Refuses,
    }
}
