//! The algebra of declared classes and arities, its questions and its declarations.
ghost use Rattle.std.specs.Prelude.{◌≡◌, ◌↔◌, ℕ, [], IsTrue, OnOk, OnErr, IfOk, IfErr, IfSome, MatchOption};
ghost use Rattle.std.specs.Arc.{arc_value};
ghost use Rattle.std.specs.List.Sorted.{IsStrictlyIncreasing};
ghost use Rattle.pure_text.specs.Lists.{IsIn, Each};
ghost use Rattle.pure_definitions.specs.Types.Typ.{Typs, Con};
ghost use Rattle.pure_definitions.specs.Types.Order.{Arity, IsClassBelow, IsSortBelow, IsOfClass, IsOfSort, AreOfSorts, IsCoregular};
ghost use Rattle.pure_order_tables.specs.Classes.{Agree, IsAntisymmetric, IsDeclared};
ghost use Rattle.pure_order_tables.specs.Arities.{IsArityBelow, IsKnown, IsUnion, IsUnionInOrder, with_class, with_arity};
ghost use Rattle.pure_order_tables.specs.Checks.{IsDirected};
ghost use Rattle.pure_order.specs.Domains.{AreGreatestDomains, IsAboveAnother, IsReduced};
ghost use Rattle.pure_order_tables.specs.Twice.{IsTwiceRow};
ghost use Rattle.pure_order_tables.specs.Unknown.{HasArityFor};
ghost use Rattle.pure_order.specs.FaultView.{IsClassFault, IsArityFault, IsMergeFault};

use crate::fault::OrderFault;
use crate::places::MOST_PLACES;
use crate::walk::is_of_sort;
use pure_order_tables::{ArityEntry, Tables};
use pure_typ::{Name, Sort, Typ, TypNode};
use std::alloc::{AllocError, Global};
use std::marker::Model;
use std::sync::Arc;

/// Declared classes and arities, coregular.
#[derive(Drop)]
pub struct Order {
    tables: Tables,
}

impl Model for Order {
    ghost use Rattle.pure_definitions.specs.Types.Order.{Algebra, IsCoregular};

    ghost Value = { Algebra };

    ghost view = { λ o. o.tables };

    ghost invariant = { λ o. IsCoregular o.tables };
}

/// The domains behind a pointer.
fn share(alloc: Global, domains: Vec<Sort>) -> Result<Arc<Vec<Sort>>, AllocError>
    ensures { IfOk result (λ shared. arc_value shared ≡ domains) }
{
    let shared = Arc::new(alloc, domains)?;
    Ok(shared)
}

impl Order {
    /// No classes and no arities.
    pub fn empty(alloc: Global) -> Order
        ensures { result ≡ record { classes = []; arities = [] } }
    {
        Order {
            tables: Tables::empty(alloc),
        }
    }

    /// A copy, which shares with the order what stands behind pointers.
    pub fn copy(&self, alloc: Global) -> Result<Order, AllocError>
        ensures { IfOk result (λ copy. copy ≡ self.now) }
    {
        let tables = self.tables.copy(alloc)?;
        Ok(Order { tables })
    }

    /// Whether the first class is below the second.
    pub fn below(&self, first: Name, second: Name) -> bool
        ensures { IsTrue result ↔ IsClassBelow self.now first second }
    {
        self.tables.below(first, second)
    }

    /// Whether the class is declared.
    pub fn is_declared(&self, class: Name) -> bool
        ensures { IsTrue result ↔ IsDeclared self.now.classes class }
    {
        self.tables.is_declared(class)
    }

    /// The classes above a declared class, itself among them, ascending; none where the class isn't declared.
    pub fn above(&self, class: Name) -> Option<&[Name]>
        ensures are { MatchOption result (¬ IsDeclared self.now.classes class) (λ names. (d : ℕ) → IsIn d names.now ↔ IsClassBelow self.now class d) }
        ensures declared { IfSome result (λ _. IsDeclared self.now.classes class) }
        ensures ascend { IfSome result (λ names. IsStrictlyIncreasing names.now) }
    {
        match self.tables.above(class) {
            None => None,
            Some(names) => Some(names),
        }
    }

    /// The domains of a declared arity of the constructor for the class itself; none where there is none.
    pub fn arity(&self, con: Name, class: Name) -> Option<&[Sort]>
        ensures { MatchOption result (¬ HasArityFor self.now con class) (λ domains. IsIn (record { con = con; domains = domains.now; class = class }) self.now.arities) }
    {
        match self.tables.arity(con, class) {
            None => None,
            Some(domains) => Some(domains),
        }
    }

    /// Whether a class that both orders declare has the same classes declared above it in both. Only such orders can be merged.
    pub fn agrees(&self, other: &Order) -> bool
        ensures { IsTrue result ↔ Agree self.now.classes other.now.classes }
    {
        self.tables.agrees(&other.tables)
    }

    /// Whether the first sort is below the second.
    pub fn sort_below(&self, first: &Sort, second: &Sort) -> bool
        ensures { IsTrue result ↔ IsSortBelow self.now first.now second.now }
    {
        self.tables.sort_below(first, second)
    }

    /// The greatest domains among those of the constructor's arities for classes below this one, which are directed.
    pub fn domains(&self, con: Name, class: Name) -> Option<&[Sort]>
        ensures greatest { MatchOption result ((q : Arity) → ¬ IsArityBelow self.now con class q) (λ domains. AreGreatestDomains self.now con class domains.now) }
        ensures of_class { MatchOption result ((ts : Typs) → ¬ IsOfClass self.now (Con con ts) class) (λ domains. (ts : Typs) → IsOfClass self.now (Con con ts) class ↔ AreOfSorts self.now ts domains.now) }
        ensures directed { IsDirected self.now con class }
        ensures coregular { IsCoregular self.now }
    {
        self.tables.order_is_decided();
        match self.tables.candidate(con, class) {
            None => None,
            Some(domains) => Some(domains),
        }
    }

    /// Whether the type is of the class. An argument is walked once for each class of its domain, so that the time may double at each level.
    fn of_class(&self, t: &Typ, class: Name) -> bool
        ensures { IsTrue result ↔ IsOfClass self.now t.now class }
    {
        match &t.node {
            TypNode::TFree { sort, .. } => self.tables.some_below(sort.classes(), class),
            TypNode::TVar { sort, .. } => self.tables.some_below(sort.classes(), class),
            TypNode::Con { name, args } => {
                let args = args.as_slice();
                let Some(domains) = self.domains(*name, class) else {
                    return false;
                };
                if args.len() != domains.len() {
                    return false;
                }
                for i in 0..args.len() {
                    let arg = &args[i];
                    let sort = &domains[i];
                    for lower in sort.classes() {
                        if !self.of_class(arg, *lower) {
                            return false;
                        }
                    }
                }
                true
            }
        }
    }

    /// Whether the type is of the sort, class by class: where a set can't hold the places of all arities.
    fn of_each_class(&self, t: &Typ, s: &Sort) -> bool
        ensures { IsTrue result ↔ IsOfSort self.now t.now s.now }
    {
        for class in s.classes() {
            if !self.of_class(t, *class) {
                return false;
            }
        }
        true
    }

    /// Whether the type is of the sort.
    pub fn of_sort(&self, t: &Typ, s: &Sort) -> bool
        ensures { IsTrue result ↔ IsOfSort self.now t.now s.now }
    {
        if self.tables.arity_count() <= MOST_PLACES {
            is_of_sort(&self.tables, t, s)
        } else {
            self.of_each_class(t, s)
        }
    }

    /// Declares a class, with the classes declared to be above it.
    pub fn add_class(
        &mut self,
        alloc: Global,
        class: Name,
        above: &[Name],
    ) -> Result<(), OrderFault>
        ensures ok { OnOk result (self.new ≡ with_class self.old (record { name = class; above = above.now })) }
        ensures new { OnOk result (Each (IsDeclared self.old.classes) above.now × (¬ IsDeclared self.old.classes class)) }
        ensures coregular { OnOk result (IsCoregular self.new) }
        ensures fault { IfErr result (IsClassFault self.old.classes class above.now) }
        ensures err { OnErr result (self.new ≡ self.old) }
    {
        if let Some(class) = self.tables.first_unknown(above) {
            return Err(OrderFault::UnknownClass { class });
        }
        if self.tables.is_declared(class) {
            return Err(OrderFault::Duplicate);
        }
        self.tables.push_class(alloc, class, above)?;
        Ok(())
    }

    /// Declares an arity.
    pub fn add_arity(
        &mut self,
        alloc: Global,
        con: Name,
        domains: Vec<Sort>,
        class: Name,
    ) -> Result<(), OrderFault>
        ensures ok { OnOk result (self.new ≡ with_arity self.old (record { con = con; domains = domains.items; class = class })) }
        ensures new { OnOk result (IsKnown self.old.classes (record { con = con; domains = domains.items; class = class }) × (¬ HasArityFor self.old con class)) }
        ensures coregular { OnOk result (IsCoregular (with_arity self.old (record { con = con; domains = domains.items; class = class }))) }
        ensures fault { IfErr result (IsArityFault self.old (record { con = con; domains = domains.items; class = class })) }
        ensures err { OnErr result (self.new ≡ self.old) }
    {
        if let Some(class) = self.tables.first_unknown_in(domains.as_slice()) {
            return Err(OrderFault::UnknownClass { class });
        }
        if !self.tables.is_declared(class) {
            return Err(OrderFault::UnknownClass { class });
        }
        if self.tables.has_arity(con, class) {
            return Err(OrderFault::Duplicate);
        }
        let domains = share(alloc, domains)?;
        let arity = ArityEntry::new(con, class, domains);
        let declared = self.tables.declare(alloc, &arity)?;
        match declared {
            Ok(_) => {}
            Err(c2) => return Err(OrderFault::NotCoregular { con, c1: class, c2 }),
        }
        Ok(())
    }

    /// Whether another class of the sort is below the class.
    fn is_above_another(&self, classes: &[Name], class: Name) -> bool
        ensures { IsTrue result ↔ IsAboveAnother self.now classes.now class }
    {
        for other in classes {
            if self.is_other_below(*other, class) {
                return true;
            }
        }
        false
    }

    /// Whether the first class is another one than the second, and below it.
    fn is_other_below(&self, other: Name, class: Name) -> bool
        ensures { IsTrue result ↔ ((¬ (other ≡ class)) × IsClassBelow self.now other class) }
    {
        other.0 != class.0 && self.below(other, class)
    }

    /// The same of a class of the sort, by the row of what is above two of it, if it isn't empty.
    fn is_above_by(&self, s: &Sort, twice: &[u64], class: Name) -> bool
        requires member { IsIn class s.now }
        requires twice { IsTwiceRow self.now s.now twice.now }
        ensures { IsTrue result ↔ IsAboveAnother self.now s.now class }
    {
        if twice.len() == 0 {
            return self.is_above_another(s.classes(), class);
        }
        self.tables.is_in_twice(s, twice, class)
    }

    /// The sort without its classes that are above another one. It is below the sort and above it, and none of its
    /// classes is above another, since no two classes are below each other.
    pub fn reduce(&self, alloc: Global, s: &Sort) -> Result<Sort, AllocError>
        ensures reduced { IfOk result (IsReduced self.now s.now) }
        ensures below { IfOk result (λ r. IsSortBelow self.now r s.now × IsSortBelow self.now s.now r) }
        ensures least { IfOk result (λ r. (b c : ℕ) → IsIn b r → IsIn c r → IsClassBelow self.now b c → b ≡ c) }
        ensures antisymmetric { IsAntisymmetric self.now }
    {
        self.tables.order_is_decided();
        self.tables.classes_are_apart();
        let twice = self.tables.twice_above(alloc, s)?;
        let mut classes = Vec::new(alloc);
        for class in s.classes() {
            if !self.is_above_by(s, twice.as_slice(), *class) {
                classes.push(*class)?;
            }
        }
        let sort = Sort::make(alloc, classes)?;
        Ok(sort)
    }

    /// The union of two orders that agree on the classes declared to be above a class: the declarations of this one, and then those of the other that this one hasn't.
    pub fn merge(&self, alloc: Global, other: &Order) -> Result<Order, OrderFault>
        requires { Agree self.now.classes other.now.classes }
        ensures ok { IfOk result (IsUnion self.now other.now) }
        ensures in_order { IfOk result (IsUnionInOrder self.now other.now) }
        ensures coregular { IfOk result IsCoregular }
        ensures fault { IfErr result (IsMergeFault self.now other.now) }
    {
        match self.tables.united(alloc, &other.tables)? {
            Ok(tables) => Ok(Order { tables }),
            Err(found) => Err(OrderFault::NotCoregular {
                con: found.0,
                c1: found.1,
                c2: found.2,
            }),
        }
    }
}
