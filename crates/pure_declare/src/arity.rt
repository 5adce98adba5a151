//! Arities.
ghost use Rattle.std.specs.Prelude.{◌≡◌, ℕ};
ghost use Rattle.pure_text.specs.Lists.{IsIn, Each};
ghost use Rattle.pure_definitions.specs.Declarations.Decl.{ConDecl, IsDeclaredClass};
ghost use Rattle.pure_script.specs.Seen.{sorts};
ghost use Rattle.pure_statements.specs.Chain.{Answers};
ghost use Rattle.pure_declare.specs.Commands.{AreKnown, IsFoundArityChange, IsClassArityChange, IsDomainsArityChange, IsArityChange};

use crate::change::Change;
use crate::fault::failed_declaration;
use crate::lookups::{found_class, found_sorts, found_typ};
use crate::place::Place;
use pure_statements::Failed;
use pure_text::Text;
use pure_typ::{Name, Sort};
use std::alloc::Global;

/// An arity whose names are found.
fn found_arity(
    alloc: Global,
    place: &Place<'_>,
    con: Name,
    domains: &[Sort],
    class: Name,
) -> Result<Change, Failed>
    requires { AreKnown place.now (record { con = con; domains = domains.now; class = class }) }
    ensures { Answers (IsFoundArityChange place.now (record { con = con; domains = domains.now; class = class })) result }
{
    match place.theory().declare_arity(con, domains, class) {
        Ok(next) => Ok(Change::quiet(alloc, next)),
        Err(fault) => Err(failed_declaration(fault)),
    }
}

/// An arity whose constructor and domains are found.
fn class_arity(
    alloc: Global,
    place: &Place<'_>,
    con: Name,
    domains: &[Sort],
    class: &[u8],
) -> Result<Change, Failed>
    requires con { (n : ℕ) × IsIn (ConDecl con n) place.now.content.declarations }
    requires domains { Each (Each (IsDeclaredClass place.now.content.declarations)) domains.now }
    ensures { Answers (IsClassArityChange place.now con domains.now class.now) result }
{
    place.is_in_session();
    let _ = place.theory();
    let found = found_class(place, class)?;
    found_arity(alloc, place, con, domains, found)
}

/// An arity whose constructor is found.
fn domains_arity(
    alloc: Global,
    place: &Place<'_>,
    con: Name,
    domains: &[Vec<Text>],
    class: &[u8],
) -> Result<Change, Failed>
    requires { (n : ℕ) × IsIn (ConDecl con n) place.now.content.declarations }
    ensures { Answers (IsDomainsArityChange place.now con (sorts domains.now) class.now) result }
{
    place.is_in_session();
    let _ = place.theory();
    let found = found_sorts(alloc, place, domains)?;
    class_arity(alloc, place, con, found.as_slice(), class)
}

/// An arity.
pub(crate) fn arity_change(
    alloc: Global,
    place: &Place<'_>,
    con: &[u8],
    domains: &[Vec<Text>],
    class: &[u8],
) -> Result<Change, Failed>
    ensures { Answers (IsArityChange place.now con.now (sorts domains.now) class.now) result }
{
    place.is_in_session();
    let _ = place.theory();
    let found = found_typ(place, con)?;
    domains_arity(alloc, place, found, domains, class)
}
