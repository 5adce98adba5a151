//! The conflicts between the arities of two tables, and the least of them.
ghost use Rattle.std.specs.Prelude.{◌≡◌, ◌↔◌, IsTrue, IfOk};
ghost use Rattle.pure_text.specs.Lists.{Each};
ghost use Rattle.pure_order_tables.specs.Arities.{IsKnown};
ghost use Rattle.pure_order_tables.specs.ArityView.{arities_of, arity_of};
ghost use Rattle.pure_order_tables.specs.Kept.{AreKeptEntries, IsKeptEntry};
ghost use Rattle.pure_definitions.specs.Types.Order.{Algebra};
ghost use Rattle.pure_order_tables.specs.Classes.{IsDeclared};
ghost use Rattle.pure_order_tables.specs.Uncovered.{Extends};
ghost use Rattle.pure_order_tables.specs.Exposed.{AreExposed, AreIn, AreSides, Clash, FindsClash, FindsConflict, IsExposed, names_in};

use crate::names::lesser_names;
use crate::rows::{holds, meet};
use crate::tables::{ArityEntry, Tables};
use pure_shared_maps::GrownList;
use pure_typ::Name;
use std::alloc::{AllocError, Global};

/// An arity that other tables lack: its constructor and class, the number of the class, and the numbers of the classes above it at which the others don't cover it.
#[derive(Drop)]
pub(crate) struct Exposed {
    con: Name,
    class: Name,
    number: usize,
    row: Vec<u64>,
}

/// Whether the arities are in conflict.
fn clash(first: &Exposed, second: &Exposed) -> bool
    ensures { IsTrue result ↔ Clash first.now second.now }
{
    first.con == second.con
        && (holds(first.row.as_slice(), second.number)
            || holds(second.row.as_slice(), first.number)
            || meet(first.row.as_slice(), second.row.as_slice()))
}

/// Their constructor and their classes, the lesser first.
fn names(first: &Exposed, second: &Exposed) -> (Name, Name, Name)
    ensures { result ≡ names_in first.now second.now }
{
    let lower = first.class.0.min(second.class.0);
    let upper = first.class.0.max(second.class.0);
    (first.con, Name(lower), Name(upper))
}

/// The least constructor and the least two classes of a first and a second arity in conflict.
fn least_clash(firsts: &[Exposed], seconds: &[Exposed]) -> Option<(Name, Name, Name)>
    ensures { FindsClash (AreIn firsts.now seconds.now) result }
{
    let mut least = None;
    for first in firsts {
        for second in seconds {
            if clash(first, second) {
                least = Some(lesser_names(least, names(first, second)));
            }
        }
    }
    least
}

impl Tables {
    /// What the conflicts of an arity rest on, beside the arities of other tables.
    fn expose(
        &self,
        alloc: Global,
        arity: &ArityEntry,
        entries: &GrownList<ArityEntry>,
        other: &Tables,
    ) -> Result<Exposed, AllocError>
        requires extends { Extends self.now other.now }
        requires kept { IsKeptEntry self.now.classes arity.now }
        requires entries { AreKeptEntries self.now.classes other.now entries.now }
        requires declared { IsDeclared self.now.classes arity.now.class }
        ensures { IfOk result (IsExposed self.now other.now (arity_of arity.now)) }
    {
        let number = self.number_of(arity.class);
        let row = self.uncovered(alloc, arity, entries, other)?;
        Ok(Exposed {
            con: arity.con,
            class: arity.class,
            number,
            row,
        })
    }

    /// The same of each of some arities that the others, which are those of other tables, lack.
    fn exposed(
        &self,
        alloc: Global,
        arities: &GrownList<ArityEntry>,
        entries: &GrownList<ArityEntry>,
        other: &Tables,
    ) -> Result<Vec<Exposed>, AllocError>
        requires extends { Extends self.now other.now }
        requires known { Each (IsKnown self.now.classes) (arities_of arities.now) }
        requires kept { Each (IsKeptEntry self.now.classes) arities.now }
        requires entries { AreKeptEntries self.now.classes other.now entries.now }
        ensures { IfOk result (λ exposed. (A : Algebra) → A.arities ≡ arities_of arities.now → AreExposed self.now A other.now exposed.items) }
    {
        let mut exposed = Vec::new(alloc);
        for i in 0..arities.len() {
            let arity = arities.get(i);
            if !other.has_same(arity) {
                exposed.push(self.expose(alloc, arity, entries, other)?)?;
            }
        }
        Ok(exposed)
    }

    /// The least constructor and the least two classes of arities in conflict, once the arities of both tables stand with these classes. These tables have the arities of the first; those of the second are given.
    pub(crate) fn least_conflict(
        &self,
        alloc: Global,
        first: &Tables,
        second: &Tables,
        theirs: &GrownList<ArityEntry>,
    ) -> Result<Option<(Name, Name, Name)>, AllocError>
        requires sides { AreSides self.now first.now second.now }
        requires same { self.now.arities ≡ first.now.arities }
        requires theirs { AreKeptEntries self.now.classes second.now theirs.now }
        ensures { IfOk result (FindsConflict self.now first.now second.now) }
    {
        let own = self.arities();
        let firsts = self.exposed(alloc, own, theirs, second)?;
        let seconds = self.exposed(alloc, theirs, own, first)?;
        Ok(least_clash(firsts.as_slice(), seconds.as_slice()))
    }
}
