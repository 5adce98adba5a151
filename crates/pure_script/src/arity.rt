//! Arities. The domains are read in place, so that no token moves them.
ghost use Rattle.std.specs.Prelude.{◌≡◌, IfOk, [], ◌∷◌, ◌++◌};
ghost use Rattle.pure_grammar.specs.Theories.Reader as spec;
ghost use Rattle.pure_script.specs.Seen.{sorts};
ghost use Rattle.pure_script.specs.Places.{seen_turn, seen_domains, seen_domains_course, any_turn};
ghost use Rattle.pure_script.specs.Lexemes.{seen_lexeme};

use crate::lexeme::{Lexeme, is_sign};
use crate::place::{
    ArityPlace, Course, Domains, Place, RestPlace, SortPlace, Turn, at_command, moves_if, name,
    of_arity,
};
use crate::theory::Command;
use pure_grammar::Sign;
use pure_text::Text;
use std::alloc::{AllocError, Global};
use std::mem;

/// Behind `arities`.
pub(crate) fn at_constructor(alloc: Global, lexeme: Lexeme<'_>) -> Result<Turn, AllocError>
    ensures { IfOk result (λ turn. seen_turn turn ≡ any_turn spec.AtConstructor (seen_lexeme lexeme.entry)) }
{
    match name(alloc, lexeme)? {
        None => Ok(Turn::Refuses),
        Some(con) => Ok(Turn::Moves {
            place: of_arity(ArityPlace::AfterConstructor { con }),
        }),
    }
}

/// Behind the constructor.
pub(crate) fn after_constructor(con: Text, lexeme: Lexeme<'_>) -> Turn
    ensures { seen_turn result ≡ any_turn (spec.AfterConstructor con) (seen_lexeme lexeme.entry) }
{
    let so = is_sign(Sign::DoubleColon, lexeme);
    moves_if(so, of_arity(ArityPlace::AtDomains { con }))
}

/// Behind the domains, where the class stands.
pub(crate) fn at_arity_class(
    alloc: Global,
    con: Text,
    doms: Vec<Vec<Text>>,
    lexeme: Lexeme<'_>,
) -> Result<Turn, AllocError>
    ensures { IfOk result (λ turn. seen_turn turn ≡ any_turn (spec.AtArityClass con (sorts doms.items)) (seen_lexeme lexeme.entry)) }
{
    match name(alloc, lexeme)? {
        None => Ok(Turn::Refuses),
        Some(class) => Ok(Turn::Adds {
            command: Command::Arity { con, doms, class },
            place: at_command(),
        }),
    }
}

/// Behind `::`, where domains may stand.
pub(crate) fn at_domains(alloc: Global, con: Text, lexeme: Lexeme<'_>) -> Result<Turn, AllocError>
    ensures { IfOk result (λ turn. seen_turn turn ≡ any_turn (spec.AtDomains con) (seen_lexeme lexeme.entry)) }
{
    let doms = Vec::new(alloc);
    if is_sign(Sign::OpenParenthesis, lexeme) {
        let sort = Vec::new(alloc);
        let domains = Domains { con, doms, sort };
        let place = SortPlace::AtSort;
        return Ok(Turn::Moves {
            place: Place::AtRest {
                place: RestPlace::InDomains { domains, place },
            },
        });
    }
    at_arity_class(alloc, con, doms, lexeme)
}

/// The sort of one class, with room for no other.
fn one_class(alloc: Global, class: Text) -> Result<Vec<Text>, AllocError>
    ensures { IfOk result (λ sort. sort.items ≡ class ∷ []) }
{
    let mut sort = Vec::with_capacity(alloc, 1)?;
    sort.push(class)?;
    Ok(sort)
}

/// The domains get one more.
fn add_sort(domains: &mut Domains, sort: Vec<Text>) -> Result<(), AllocError>
    ensures con { IfOk result (λ _. domains.new.con ≡ domains.old.con) }
    ensures doms { IfOk result (λ _. sorts domains.new.doms.items ≡ sorts domains.old.doms.items ++ sort.items ∷ []) }
{
    domains.doms.push(sort)?;
    Ok(())
}

/// Where a sort begins.
fn at_sort(
    alloc: Global,
    domains: &mut Domains,
    place: &mut SortPlace,
    lexeme: Lexeme<'_>,
) -> Result<Course, AllocError>
    ensures { IfOk result (λ course. seen_domains_course course domains.new place.new (seen_lexeme lexeme.entry) ≡ any_turn (spec.AtSort domains.old.con (sorts domains.old.doms.items)) (seen_lexeme lexeme.entry)) }
{
    if is_sign(Sign::OpenBrace, lexeme) {
        *place = SortPlace::AtFirstClass;
        return Ok(Course::Stays);
    }
    match name(alloc, lexeme)? {
        None => Ok(Course::Refuses),
        Some(class) => {
            add_sort(domains, one_class(alloc, class)?)?;
            *place = SortPlace::AfterSort;
            Ok(Course::Stays)
        }
    }
}

/// Behind a sort.
fn after_sort(domains: &mut Domains, place: &mut SortPlace, lexeme: Lexeme<'_>) -> Course
    ensures { seen_domains_course result domains.new place.new (seen_lexeme lexeme.entry) ≡ any_turn (spec.AfterSort domains.old.con (sorts domains.old.doms.items)) (seen_lexeme lexeme.entry) }
{
    if is_sign(Sign::Comma, lexeme) {
        *place = SortPlace::AtSort;
        return Course::Stays;
    }
    if is_sign(Sign::CloseParenthesis, lexeme) {
        return Course::Ends;
    }
    Course::Refuses
}

/// Behind `{`.
fn at_first_class(
    alloc: Global,
    domains: &mut Domains,
    place: &mut SortPlace,
    lexeme: Lexeme<'_>,
) -> Result<Course, AllocError>
    ensures { IfOk result (λ course. seen_domains_course course domains.new place.new (seen_lexeme lexeme.entry) ≡ any_turn (spec.AtFirstClass domains.old.con (sorts domains.old.doms.items)) (seen_lexeme lexeme.entry)) }
{
    if is_sign(Sign::CloseBrace, lexeme) {
        add_sort(domains, Vec::new(alloc))?;
        *place = SortPlace::AfterSort;
        return Ok(Course::Stays);
    }
    match name(alloc, lexeme)? {
        None => Ok(Course::Refuses),
        Some(class) => {
            domains.sort = one_class(alloc, class)?;
            *place = SortPlace::AfterClass;
            Ok(Course::Stays)
        }
    }
}

/// Behind a comma in braces.
fn at_next_class(
    alloc: Global,
    domains: &mut Domains,
    place: &mut SortPlace,
    lexeme: Lexeme<'_>,
) -> Result<Course, AllocError>
    ensures { IfOk result (λ course. seen_domains_course course domains.new place.new (seen_lexeme lexeme.entry) ≡ any_turn (spec.AtNextClass domains.old.con (sorts domains.old.doms.items) domains.old.sort.items) (seen_lexeme lexeme.entry)) }
{
    match name(alloc, lexeme)? {
        None => Ok(Course::Refuses),
        Some(class) => {
            domains.sort.push(class)?;
            *place = SortPlace::AfterClass;
            Ok(Course::Stays)
        }
    }
}

/// Behind a class in braces.
fn after_class(
    alloc: Global,
    domains: &mut Domains,
    place: &mut SortPlace,
    lexeme: Lexeme<'_>,
) -> Result<Course, AllocError>
    ensures { IfOk result (λ course. seen_domains_course course domains.new place.new (seen_lexeme lexeme.entry) ≡ any_turn (spec.AfterClass domains.old.con (sorts domains.old.doms.items) domains.old.sort.items) (seen_lexeme lexeme.entry)) }
{
    if is_sign(Sign::Comma, lexeme) {
        *place = SortPlace::AtNextClass;
        return Ok(Course::Stays);
    }
    if is_sign(Sign::CloseBrace, lexeme) {
        let sort = mem::replace(&mut domains.sort, Vec::new(alloc));
        add_sort(domains, sort)?;
        *place = SortPlace::AfterSort;
        return Ok(Course::Stays);
    }
    Ok(Course::Refuses)
}

/// How a token of the domains goes on, with its place and what is read in place.
#[inline(never)]
pub(crate) fn domains_course(
    alloc: Global,
    domains: &mut Domains,
    place: &mut SortPlace,
    lexeme: Lexeme<'_>,
) -> Result<Course, AllocError>
    ensures { IfOk result (λ course. seen_domains_course course domains.new place.new (seen_lexeme lexeme.entry) ≡ any_turn (seen_domains domains.old place.old) (seen_lexeme lexeme.entry)) }
{
    match *place {
        SortPlace::AtSort => at_sort(alloc, domains, place, lexeme),
        SortPlace::AfterSort => Ok(after_sort(domains, place, lexeme)),
        SortPlace::AtFirstClass => at_first_class(alloc, domains, place, lexeme),
        SortPlace::AtNextClass => at_next_class(alloc, domains, place, lexeme),
        SortPlace::AfterClass => after_class(alloc, domains, place, lexeme),
    }
}

/// To the place behind the domains.
pub(crate) fn closed(domains: Domains) -> Turn
    ensures { seen_turn result ≡ spec.Moves (spec.AtArityClass domains.con (sorts domains.doms.items)) }
{
    let Domains { con, doms, .. } = domains;
    Turn::Moves {
        place: of_arity(ArityPlace::AtArityClass { con, doms }),
    }
}
