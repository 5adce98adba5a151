//! Look-ups of facts in the proofs of a lemma, to which promises may be local.
ghost use Rattle.std.specs.Prelude.{◌≡◌, ℕ, MatchOption, IfOk};
ghost use Rattle.std.specs.Option.{option_map};
ghost use Rattle.pure_text.specs.Lists.{IsIn};
ghost use Rattle.pure_definitions.specs.Names.{Label as label};
ghost use Rattle.pure_definitions.specs.Terms.Term as terms;
ghost use Rattle.pure_definitions.specs.Declarations.Decl.{PromiseDecl};
ghost use Rattle.pure_lookup.specs.Laws.{IsInSession};
ghost use Rattle.pure_lookup.specs.LookUps.{IsLocal, IsFoundLocal};
ghost use Rattle.pure_theory.specs.FactView.{seen_fact};

use crate::facts::Fact;
use crate::theory::Theory;
use pure_lookup::theory_in;
use pure_term::{Label, Name, Term};
use pure_typ::{Names, NamesByBase};
use std::alloc::AllocError;

/// A promise: its name, its label and its statement.
#[derive(Clone, Copy)]
struct Promise<'t> {
    name: Name,
    label: Label,
    prop: &'t Term,
}

impl Theory {
    /// The promise of this name.
    fn promise(&self, name: Name) -> Option<Promise<'_>>
        ensures { MatchOption result
            ((l : label) (A : terms.Term) → ¬ IsIn (PromiseDecl name l A) self.now.declarations)
            (λ p. (p.name ≡ name) × IsIn (PromiseDecl name p.label p.prop.now) self.now.declarations) }
    {
        let Some(statement) = self.fact(name) else {
            return None;
        };
        let Some(label) = statement.label() else {
            return None;
        };
        Some(Promise {
            name,
            label,
            prop: statement.prop(),
        })
    }

    /// The promise that is local to the lemma and is written so.
    fn local_promise(&self, names: &Names, written: &[u8], lemma: Name) -> Option<Promise<'_>>
        requires { IsInSession names.now self.now }
        ensures { MatchOption result
            ((n : ℕ) (l : label) (A : terms.Term) → ¬ IsLocal names.now self.now lemma written.now n l A)
            (λ p. IsLocal names.now self.now lemma written.now p.name p.label p.prop.now) }
    {
        if let Some(_) = theory_in(written) {
            return None;
        }
        let Some(text) = names.text(lemma) else {
            return None;
        };
        let Some(name) = names.find_in(text, written) else {
            return None;
        };
        self.promise(name)
    }

    /// The fact that is written so in a proof of the lemma of this name: the promise whose name is the lemma's text, a dot and
    /// what is written, where that has no dot and there is one, else what `find_fact` finds, which is never such a promise.
    ///
    /// # Errors
    ///
    /// Want of memory alone.
    pub fn find_local(
        &self,
        names: &NamesByBase,
        written: &[u8],
        lemma: Name,
    ) -> Result<Option<Fact>, AllocError>
        requires { IsInSession names.now self.now }
        ensures { IfOk result (λ found. IsFoundLocal names.now self.now lemma written.now (option_map seen_fact found)) }
    {
        let Some(promise) = self.local_promise(names.names(), written, lemma) else {
            return self.find_fact(names, written);
        };
        let Promise { name, label, prop } = promise;
        let prop = prop.copy(self.alloc)?;
        Ok(Some(Fact::Promised { name, label, prop }))
    }
}
