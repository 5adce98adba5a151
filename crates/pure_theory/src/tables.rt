//! Theories as certification and inferences ask them.
ghost use Rattle.std.specs.Prelude.{OnOk};
ghost use Rattle.pure_definitions.specs.Declarations.Certified.{IsCertified};
ghost use Rattle.pure_certify.specs.Answer.{IsCertAnswer};

use crate::theory::Theory;
use pure_certify::{CertFault, Tables, certify};
use pure_inst::Ordered;
use pure_order::Order;
use pure_term::{Label, Name, Term, Typ};
use pure_theorem::Base;

impl Tables for Theory {
    ghost declarations = { λ Q. Q.declarations };

    fn typ_params(&self, name: Name) -> Option<u32> {
        self.declared.typ_params(name)
    }

    fn const_typ(&self, name: Name) -> Option<&Typ> {
        self.declared.const_typ(name)
    }

    fn order(&self) -> &Order {
        &*self.order
    }
}

impl Base for Theory {
    ghost content = { λ Q. Q };

    fn axiom_prop(&self, name: Name) -> Option<&Term> {
        match self.declared.axiom_prop(name) {
            None => None,
            Some(prop) => Some(prop),
        }
    }

    fn promise_prop(&self, label: Label) -> Option<&Term> {
        match self.declared.promise_prop(label) {
            None => None,
            Some(prop) => Some(prop),
        }
    }
}

impl Ordered for Theory {
    fn order(&self) -> &Order {
        &*self.order
    }
}

impl Theory {
    /// The type of the term, where it is certified; otherwise its first fault, and last that it has no type.
    pub fn certify(&self, t: &Term) -> Result<Typ, CertFault>
        ensures answer { IsCertAnswer self.now.declarations t.now result }
        ensures certified { OnOk result (IsCertified self.now.declarations t.now) }
    {
        certify(self.alloc, self, t)
    }
}
