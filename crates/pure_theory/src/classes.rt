//! Declarations of classes and arities.
ghost use Rattle.std.specs.Prelude.{◌≡◌, IfOk, IfErr, OnOk};
ghost use Rattle.std.specs.List.Sorted.{IsStrictlyIncreasing};
ghost use Rattle.pure_text.specs.Lists.{IsIn, Each};
ghost use Rattle.pure_definitions.specs.Types.Order.{IsCoregular};
ghost use Rattle.pure_definitions.specs.Declarations.Decl.{ClassDecl, ConDecl, ArityDecl, IsDeclaredClass, algebra_of};
ghost use Rattle.pure_order.specs.OrderTables.Classes.{IsDeclared};
ghost use Rattle.pure_order.specs.OrderTables.Arities.{IsKnown, with_class, with_arity};
ghost use Rattle.pure_order.specs.OrderTables.Unknown.{HasArityFor};
ghost use Rattle.pure_theory.specs.Stage.{with_decl};
ghost use Rattle.pure_theory.specs.Refusals.{HasNamesake, HasCon, IsNewArity, IsClassRefusal, IsArityRefusal, IsCountRefusal, IsGivenClassRefusal, IsGivenArityRefusal};

use crate::fault::DeclFault;
use crate::theory::Theory;
use pure_order::Order;
use pure_term::{Name, Sort};
use pure_theory_tables::shared;
use std::alloc::{AllocError, Global};
use std::sync::Arc;

/// The order with a class more.
fn order_with_class(
    alloc: Global,
    order: &Order,
    class: Name,
    above: &[Name],
) -> Result<Arc<Order>, DeclFault>
    ensures ok { IfOk result (λ more. more.value ≡ with_class order.now (record { name = class; above = above.now })) }
    ensures new { OnOk result (Each (IsDeclared order.now.classes) above.now × (¬ IsDeclared order.now.classes class)) }
    ensures coregular { IfOk result (λ more. IsCoregular more.value) }
    ensures fault { IfErr result (IsGivenClassRefusal order.now.classes class above.now) }
{
    let mut more = order.copy(alloc)?;
    more.add_class(alloc, class, above)?;
    let more = shared(alloc, more)?;
    Ok(more)
}

/// The order with an arity more.
fn order_with_arity(
    alloc: Global,
    order: &Order,
    con: Name,
    domains: Vec<Sort>,
    class: Name,
) -> Result<Arc<Order>, DeclFault>
    ensures ok { IfOk result (λ more. more.value ≡ with_arity order.now (record { con = con; domains = domains.items; class = class })) }
    ensures new { OnOk result (IsKnown order.now.classes (record { con = con; domains = domains.items; class = class }) × (¬ HasArityFor order.now con class)) }
    ensures coregular { IfOk result (λ more. IsCoregular more.value) }
    ensures fault { IfErr result (IsGivenArityRefusal order.now (record { con = con; domains = domains.items; class = class })) }
{
    let mut more = order.copy(alloc)?;
    more.add_arity(alloc, con, domains, class)?;
    let more = shared(alloc, more)?;
    Ok(more)
}

/// An equal sort, whose names ascend, as do all sorts'.
fn copied_sort(alloc: Global, sort: &Sort) -> Result<Sort, AllocError>
    ensures equal { IfOk result (λ copy. copy ≡ sort.now) }
    ensures ascends { IsStrictlyIncreasing sort.now }
{
    let _ = sort.classes();
    let copy = sort.copy(alloc)?;
    Ok(copy)
}

/// Equal sorts.
fn copied_sorts(alloc: Global, sorts: &[Sort]) -> Result<Vec<Sort>, AllocError>
    ensures equal { IfOk result (λ copies. copies.items ≡ sorts.now) }
    ensures ascend { OnOk result (Each IsStrictlyIncreasing sorts.now) }
{
    let mut copies = Vec::new(alloc);
    for sort in sorts {
        let copy = copied_sort(alloc, sort)?;
        copies.push(copy)?;
    }
    Ok(copies)
}

/// The same names, behind a pointer.
fn shared_names(alloc: Global, names: &[Name]) -> Result<Arc<Vec<Name>>, AllocError>
    ensures { IfOk result (λ pointer. pointer.value.items ≡ names.now) }
{
    let copy = Vec::from_slice(alloc, names)?;
    let pointer = shared(alloc, copy)?;
    Ok(pointer)
}

/// Equal sorts, behind a pointer.
fn shared_sorts(alloc: Global, sorts: &[Sort]) -> Result<Arc<Vec<Sort>>, AllocError>
    ensures { IfOk result (λ pointer. pointer.value.items ≡ sorts.now) }
{
    let copies = copied_sorts(alloc, sorts)?;
    let pointer = shared(alloc, copies)?;
    Ok(pointer)
}

impl Theory {
    /// Declares a class, with those declared to be above it.
    pub fn declare_class(&self, name: Name, above: &[Name]) -> Result<Theory, DeclFault>
        ensures ok { IfOk result (λ more. more ≡ with_decl self.now (ClassDecl (record { name = name; above = above.now }))) }
        ensures new { OnOk result (¬ HasNamesake self.now.declarations (ClassDecl (record { name = name; above = above.now }))) }
        ensures known { OnOk result (Each (IsDeclaredClass self.now.declarations) above.now) }
        ensures fault { IfErr result (IsClassRefusal self.now.declarations (record { name = name; above = above.now })) }
    {
        if self.declares_class(name) {
            return Err(DeclFault::Duplicate);
        }
        let order = order_with_class(self.alloc, self.order(), name, above)?;
        let names = shared_names(self.alloc, above)?;
        let declared = self.declared.with_class(name, names)?;
        let more = self.with(declared, order)?;
        Ok(more)
    }

    /// Refuses a constructor that isn't declared with this count of arguments.
    fn check_count(&self, con: Name, count: usize) -> Result<(), DeclFault>
        ensures ok { OnOk result (IsIn (ConDecl con count) self.now.declarations) }
        ensures fault { IfErr result (IsCountRefusal self.now.declarations con count) }
    {
        match self.declared.typ_params(con) {
            None => Err(DeclFault::UnknownType { name: con }),
            Some(params) => {
                if params as usize == count {
                    Ok(())
                } else {
                    Err(DeclFault::WrongCount { name: con })
                }
            }
        }
    }

    /// Declares an arity: applied to types of the domains, the constructor makes a type of the class.
    pub fn declare_arity(&self, con: Name, doms: &[Sort], class: Name) -> Result<Theory, DeclFault>
        ensures ok { IfOk result (λ more. more ≡ with_decl self.now (ArityDecl (record { con = con; domains = doms.now; class = class }))) }
        ensures new { OnOk result (IsNewArity self.now.declarations (record { con = con; domains = doms.now; class = class })) }
        ensures coregular { IfOk result (λ more. IsCoregular (algebra_of more.declarations)) }
        ensures fault { IfErr result (IsArityRefusal self.now.declarations (record { con = con; domains = doms.now; class = class })) }
    {
        self.check_count(con, doms.len())?;
        let given = copied_sorts(self.alloc, doms)?;
        let order = order_with_arity(self.alloc, self.order(), con, given, class)?;
        let domains = shared_sorts(self.alloc, doms)?;
        let declared = self.declared.with_arity(con, domains, class)?;
        let more = self.with(declared, order)?;
        Ok(more)
    }
}
