//! The declared classes and arities, and the place of the greatest arity of each constructor for each class.
ghost use Rattle.std.specs.Prelude.{◌≡◌, ◌↔◌, ◌⊎◌, ◌<◌, ℕ, List, [], IsTrue, OnOk, OnErr, IfOk, IfSome, MatchBool, MatchOption, length};
ghost use Rattle.std.specs.Arc.{arc_value};
ghost use Rattle.std.specs.Bool.{OnTrue};
ghost use Rattle.std.specs.List.Sorted.{IsStrictlyIncreasing};
ghost use Rattle.pure_text.specs.Lists.{IsIn, Each};
ghost use Rattle.pure_definitions.specs.Types.Order.{Arity, Class, IsClassBelow, HasClassBelow, IsCoregular};
ghost use Rattle.pure_order_tables.specs.Classes.{Agree, Follows, IsAntisymmetric, IsDeclared};
ghost use Rattle.pure_order_tables.specs.ClassView.{classes_of};
ghost use Rattle.pure_order_tables.specs.ClassTable.{IsNumber, name_at};
ghost use Rattle.pure_order_tables.specs.Uncovered.{IsUpRow};
ghost use Rattle.pure_order_tables.specs.Arities.{IsArityBelow, IsGreatestIfAny, IsAboveGreatest, IsKnown, IsNotAbove, with_class, with_arity};
ghost use Rattle.pure_order_tables.specs.Checks.{AreGreater, IsDecided};
ghost use Rattle.pure_order_tables.specs.ArityView.{arity_of, arities_of};
ghost use Rattle.pure_order_tables.specs.ArityTable.{IsPlace, IsSlot};
ghost use Rattle.pure_order_tables.specs.Kept.{IsKeptEntry, words_in};

use crate::classes::{ClassEntry, ClassTable};
use crate::slots::{Slot, placed};
use pure_shared_maps::{GrownList, GrownMap};
use pure_typ::{Name, Sort};
use std::alloc::{AllocError, Global};
use std::marker::Model;
use std::sync::Arc;

/// A declared arity: applied to types of the domains, the constructor makes a type of the class. The domains stand behind a pointer that other tables share;
/// so do rows of the numbers of the classes above those of a domain, for domains of many classes.
#[derive(Drop)]
pub struct ArityEntry {
    pub con: Name,
    pub class: Name,
    pub domains: Arc<Vec<Sort>>,
    pub(crate) rows: Option<Arc<Vec<Vec<u64>>>>,
}

/// Declared classes and arities, and for each constructor with arities its slot: for each class the place of the arity with the greatest domains. Other tables share all three.
#[derive(Drop)]
pub struct Tables {
    classes: ClassTable,
    arities: GrownList<ArityEntry>,
    slots: GrownMap<Slot>,
}

/// Rows that are the same.
fn shared_rows(rows: &Option<Arc<Vec<Vec<u64>>>>) -> Result<Option<Arc<Vec<Vec<u64>>>>, AllocError>
    ensures { IfOk result (λ copy. (i : ℕ) → words_in copy i ≡ words_in rows.now i) }
{
    match rows {
        None => Ok(None),
        Some(rows) => {
            let copy = rows.clone()?;
            Ok(Some(copy))
        }
    }
}

impl ArityEntry {
    /// An arity, which no tables have yet.
    pub fn new(con: Name, class: Name, domains: Arc<Vec<Sort>>) -> ArityEntry
        ensures { arity_of result ≡ record { con = con; domains = (arc_value domains).items; class = class } }
    {
        let rows = None;
        ArityEntry {
            con,
            class,
            domains,
            rows,
        }
    }

    /// The sorts of the domains.
    pub fn sorts(&self) -> &[Sort]
        ensures { result.now ≡ (arity_of self.now).domains }
    {
        self.domains.as_slice()
    }

    /// The same arity, which shares the domains.
    pub(crate) fn share(&self) -> Result<ArityEntry, AllocError>
        ensures same { IfOk result (λ copy. arity_of copy ≡ arity_of self.now) }
        ensures rows { IfOk result (λ copy. (i : ℕ) → words_in copy.rows i ≡ words_in self.now.rows i) }
    {
        let domains = self.domains.clone()?;
        let rows = shared_rows(&self.rows)?;
        Ok(ArityEntry {
            con: self.con,
            class: self.class,
            domains,
            rows,
        })
    }

    /// The same arity with these rows.
    pub(crate) fn with_rows(
        &self,
        rows: Option<Arc<Vec<Vec<u64>>>>,
    ) -> Result<ArityEntry, AllocError>
        ensures same { IfOk result (λ copy. arity_of copy ≡ arity_of self.now) }
        ensures rows { IfOk result (λ copy. copy.rows ≡ rows) }
    {
        let domains = self.domains.clone()?;
        Ok(ArityEntry {
            con: self.con,
            class: self.class,
            domains,
            rows,
        })
    }

    /// The row beside the domain at the place; an empty one where none is kept.
    pub(crate) fn row(&self, place: usize) -> &[u64]
        ensures { result.now ≡ words_in self.now.rows place }
    {
        match &self.rows {
            None => &[],
            Some(rows) => match rows.get(place) {
                None => &[],
                Some(row) => row.as_slice(),
            },
        }
    }
}

impl Model for Tables {
    ghost use Rattle.pure_definitions.specs.Types.Order.{Algebra};

    ghost Value = { Algebra };

    ghost use Rattle.pure_order_tables.specs.ArityView.{algebra_of};
    ghost use Rattle.pure_order_tables.specs.ArityTable.{IsTable};

    ghost view = { λ t. algebra_of t.classes t.arities };

    ghost invariant = { λ t. IsTable t.classes t.arities t.slots };
}

impl Tables {
    /// Nothing declared.
    pub fn empty(alloc: Global) -> Tables
        ensures { result ≡ record { classes = []; arities = [] } }
    {
        Tables {
            classes: ClassTable::empty(alloc),
            arities: GrownList::empty(alloc),
            slots: GrownMap::empty(alloc),
        }
    }

    /// A copy, which shares what stands behind pointers.
    pub fn copy(&self, alloc: Global) -> Result<Tables, AllocError>
        ensures { IfOk result (λ copy. copy ≡ self.now) }
    {
        let classes = self.classes.copy(alloc)?;
        let arities = self.arities.share(alloc)?;
        let slots = self.slots.share(alloc)?;
        Ok(Tables {
            classes,
            arities,
            slots,
        })
    }

    /// Whether the class is declared.
    pub fn is_declared(&self, class: Name) -> bool
        ensures { IsTrue result ↔ IsDeclared self.now.classes class }
    {
        self.classes.is_declared(class)
    }

    /// Whether the first class is below the second.
    pub fn below(&self, first: Name, second: Name) -> bool
        ensures { IsTrue result ↔ IsClassBelow self.now first second }
    {
        self.classes.below(first, second)
    }

    /// The classes above a declared class, itself among them, ascending.
    pub fn above(&self, class: Name) -> Option<&[Name]>
        ensures are { MatchOption result (¬ IsDeclared self.now.classes class) (λ names. (d : ℕ) → IsIn d names.now ↔ IsClassBelow self.now class d) }
        ensures declared { IfSome result (λ _. IsDeclared self.now.classes class) }
        ensures ascend { IfSome result (λ names. IsStrictlyIncreasing names.now) }
    {
        match self.classes.above(class) {
            None => None,
            Some(names) => Some(names),
        }
    }

    /// The count of classes.
    pub(crate) fn class_count(&self) -> usize
        ensures { result ≡ length self.now.classes }
    {
        self.classes.count()
    }

    /// The class with a number.
    pub(crate) fn class_name(&self, number: usize) -> Name
        requires { number < length self.now.classes }
        ensures { result ≡ name_at self.now.classes number }
    {
        self.classes.name(number)
    }

    /// The number of the class, if it is declared.
    pub(crate) fn find_number(&self, class: Name) -> Option<usize>
        ensures { MatchOption result (¬ IsDeclared self.now.classes class) (IsNumber self.now.classes class) }
    {
        match self.classes.number(class) {
            None => None,
            Some(number) => Some(number),
        }
    }

    /// The number of a declared class.
    pub(crate) fn number_of(&self, class: Name) -> usize
        requires { IsDeclared self.now.classes class }
        ensures { IsNumber self.now.classes class result }
    {
        match self.classes.number(class) {
            None => 0,
            Some(number) => number,
        }
    }

    /// The numbers of the classes above the class with a number.
    pub(crate) fn row_of(&self, number: usize) -> &[u64]
        requires { number < length self.now.classes }
        ensures { IsUpRow self.now (name_at self.now.classes number) result.now }
    {
        self.classes.row_of(number)
    }

    /// Whether a class that both tables declare has the same classes declared above it in both.
    pub fn agrees(&self, other: &Tables) -> bool
        ensures { IsTrue result ↔ Agree self.now.classes other.now.classes }
    {
        self.classes.agrees(&other.classes)
    }

    /// Whether one of the classes is below the class.
    pub fn some_below(&self, classes: &[Name], class: Name) -> bool
        ensures { IsTrue result ↔ HasClassBelow self.now classes.now class }
    {
        for lower in classes {
            if self.below(*lower, class) {
                return true;
            }
        }
        false
    }

    /// The order is decided.
    pub fn order_is_decided(&self)
        ensures { IsDecided self.now }
    {
        self.classes.order_is_decided();
    }

    /// Classes are declared in order, and arities name declared classes.
    pub(crate) fn are_in_order(&self)
        ensures ordered { Follows [] self.now.classes }
        ensures known { Each (IsKnown self.now.classes) self.now.arities }
    {
        self.classes.are_in_order();
    }

    /// No two classes are below each other.
    pub fn classes_are_apart(&self)
        ensures { IsAntisymmetric self.now }
    {
        self.classes.classes_are_apart();
    }

    /// The place for the class by a constructor's slot.
    fn place_in(&self, slot: &Slot, class: Name) -> Option<usize>
        requires { slot.now.first < length self.now.arities }
        ensures { (k : ℕ) → IsSlot self.now k slot.now → MatchOption result ((q : Arity) → ¬ IsArityBelow self.now k class q) (IsPlace self.now k class) }
    {
        if let Some(place) = slot.later.get(class.0) {
            return Some(*place);
        }
        let first = self.arities().get(slot.first);
        if self.below(first.class, class) {
            return Some(slot.first);
        }
        None
    }

    /// The place of an arity of the constructor for a class below this one, the greatest if there is a greatest.
    pub fn place(&self, con: Name, class: Name) -> Option<usize>
        ensures { MatchOption result ((q : Arity) → ¬ IsArityBelow self.now con class q) (IsPlace self.now con class) }
    {
        match self.slots.get(con.0) {
            None => None,
            Some(slot) => self.place_in(slot, class),
        }
    }

    /// Whether the constructor has no arity.
    pub(crate) fn is_bare(&self, con: Name) -> bool
        ensures { OnTrue result ((d : ℕ) (q : Arity) → ¬ IsArityBelow self.now con d q) }
    {
        match self.slots.get(con.0) {
            None => true,
            Some(_) => false,
        }
    }

    /// The domains of an arity of the constructor for a class below this one, the greatest if there is a greatest.
    pub fn candidate(&self, con: Name, class: Name) -> Option<&[Sort]>
        ensures { MatchOption result ((q : Arity) → ¬ IsArityBelow self.now con class q) (λ domains. (q : Arity) × (q.domains ≡ domains.now) × IsGreatestIfAny self.now con class q) }
    {
        match self.place(con, class) {
            None => None,
            Some(place) => {
                let entry = self.arities().get(place);
                Some(entry.sorts())
            }
        }
    }

    /// Where there is an arity of a constructor for a class below another, there is one that is the greatest if there is a greatest.
    pub(crate) fn have_candidates(&self)
        ensures { (k d : ℕ) (q : Arity) → IsArityBelow self.now k d q → (c : Arity) × IsGreatestIfAny self.now k d c }
    {
        self.order_is_decided();
        let _ = &self.slots;
    }

    /// The count of arities.
    pub fn arity_count(&self) -> usize
        ensures { result ≡ length self.now.arities }
    {
        self.arities.len()
    }

    /// The slot of the arity's constructor once the arity stands behind the others, where it is the greatest at these classes.
    fn slot_with(
        &self,
        alloc: Global,
        arity: &ArityEntry,
        greater: &[Name],
    ) -> Result<Slot, AllocError>
        requires { AreGreater self.now (arity_of arity.now) greater.now }
        ensures { IfOk result (IsSlot (with_arity self.now (arity_of arity.now)) arity.now.con) }
    {
        self.order_is_decided();
        let last = self.arity_count();
        let con = arity.con;
        let Some(slot) = self.slots.get(con.0) else {
            let later = GrownMap::empty(alloc);
            return Ok(Slot { first: last, later });
        };
        let entries = placed(alloc, greater, last)?;
        let mut later = slot.later.share(alloc)?;
        later.put_all(alloc, entries)?;
        Ok(Slot {
            first: slot.first,
            later,
        })
    }

    /// Declares a class.
    pub fn push_class(
        &mut self,
        alloc: Global,
        class: Name,
        above: &[Name],
    ) -> Result<(), AllocError>
        requires fresh { ¬ IsDeclared self.old.classes class }
        requires known { Each (IsDeclared self.old.classes) above.now }
        ensures ok { OnOk result (self.new ≡ with_class self.old (record { name = class; above = above.now })) }
        ensures err { OnErr result (self.new ≡ self.old) }
        ensures coregular { IsCoregular self.old → IsCoregular self.new }
    {
        self.classes.push(alloc, class, above)?;
        Ok(())
    }

    /// The tables with a class more.
    pub(crate) fn with_class(
        self,
        alloc: Global,
        class: Name,
        above: &[Name],
    ) -> Result<Tables, AllocError>
        requires fresh { ¬ IsDeclared self.classes class }
        requires known { Each (IsDeclared self.classes) above.now }
        ensures { IfOk result (λ more. more ≡ with_class self (record { name = class; above = above.now })) }
    {
        let Tables {
            classes,
            arities,
            slots,
        } = self;
        let more = classes.with(alloc, class, above)?;
        Ok(Tables {
            classes: more,
            arities,
            slots,
        })
    }

    /// Puts in an arity, which is the greatest at these classes.
    pub(crate) fn push_arity(
        &mut self,
        alloc: Global,
        arity: ArityEntry,
        greater: &[Name],
    ) -> Result<(), AllocError>
        requires kept { IsKeptEntry self.old.classes arity }
        requires known { IsKnown self.old.classes (arity_of arity) }
        requires greater { AreGreater self.old (arity_of arity) greater.now }
        ensures ok { OnOk result (self.new ≡ with_arity self.old (arity_of arity)) }
        ensures err { OnErr result (self.new ≡ self.old) }
    {
        let con = arity.con;
        let slot = self.slot_with(alloc, &arity, greater)?;
        let slot = Arc::new(alloc, slot)?;
        let arity = Arc::new(alloc, arity)?;
        let mut slots = self.slots.share(alloc)?;
        slots.put(alloc, con.0, slot)?;
        self.arities.push(alloc, arity)?;
        self.slots = slots;
        Ok(())
    }

    /// The declared arities.
    pub fn arities(&self) -> &GrownList<ArityEntry>
        ensures are { arities_of result.now ≡ self.now.arities }
        ensures known { Each (IsKnown self.now.classes) self.now.arities }
        ensures kept { Each (IsKeptEntry self.now.classes) result.now }
    {
        &self.arities
    }

    /// The declared classes.
    pub(crate) fn class_entries(&self) -> &GrownList<ClassEntry>
        ensures are { classes_of result.now ≡ self.now.classes }
        ensures ordered { Follows [] self.now.classes }
    {
        self.classes.entries()
    }
}
