//! Nodes of terms in blocks of their own. They are made outside of the recursions over terms, whose frames stay small so.
ghost use Rattle.std.specs.Prelude.{◌≡◌, IfOk};
ghost use Rattle.pure_definitions.specs.Terms.Term.{Abs, App};

use pure_term::Term;
use pure_typ::Typ;
use std::alloc::{AllocError, Global};
use std::sync::Arc;

/// An abstraction.
#[inline(never)]
pub(crate) fn abstraction(alloc: Global, typ: Typ, body: Arc<Term>) -> Result<Arc<Term>, AllocError>
    ensures { IfOk result (λ t. t.value ≡ Abs typ body.value) }
{
    Ok(Arc::new(alloc, Term::abs(typ, body))?)
}

/// An application.
#[inline(never)]
pub(crate) fn application(
    alloc: Global,
    fun: Arc<Term>,
    arg: Arc<Term>,
) -> Result<Arc<Term>, AllocError>
    ensures { IfOk result (λ t. t.value ≡ App fun.value arg.value) }
{
    Ok(Arc::new(alloc, Term::app(fun, arg))?)
}
