//! Theorems with the theories in which they are derivable.
ghost use Rattle.std.specs.Prelude.{◌≡◌, IfOk, IfErr, OnOk};
ghost use Rattle.pure_logic.specs.Content.{IsBelow};
ghost use Rattle.pure_logic.specs.Derivable.{IsDerivable};
ghost use Rattle.pure_theory.specs.Certified.{IsTransferFault};

use crate::theory::{Stage, Theory};
use pure_theorem::Thm;
use pure_theory_tables::Decl;
use std::alloc::AllocError;
use std::marker::Model;
use std::sync::Arc;

/// Why a theorem can't be handed to another theory.
#[derive(Clone, Copy, PartialEq, Eq)]
pub enum TransferFault {
    /// The first declaration of the theorem's theory that the other lacks.
    Missing { declaration: Decl },
    /// Memory was wanted.
    Memory,
}

impl From<AllocError> for TransferFault {
    ghost use Rattle.std.specs.Prelude.{◌≡◌};
    ghost use Rattle.pure_theory.specs.declared.cthm.TransferFault.TheVariants.{Memory};

    ghost from_gives = { λ _ fault. fault ≡ Memory };

    fn from(_error: AllocError) -> TransferFault {
        TransferFault::Memory
    }
}

/// A theory, and a theorem that is derivable in it, both of which copies share.
#[derive(Drop)]
pub struct Cthm {
    stage: Stage,
    thm: Arc<Thm>,
}

impl Model for Cthm {
    ghost use Rattle.pure_logic.specs.Derivable.{IsDerivable};
    ghost use Rattle.pure_theory.specs.Certified.{Certified, coded_certified};

    ghost Value = { Certified };

    ghost coded = { coded_certified };

    ghost view = { λ c. record { content = c.stage.value; theorem = c.thm.value } };

    ghost invariant = { λ c. IsDerivable c.stage.value c.thm.value };
}

impl Cthm {
    /// The theorem in the theory.
    pub fn make(stage: Stage, thm: Arc<Thm>) -> Cthm
        requires { IsDerivable stage.value thm.value }
        ensures { result ≡ record { content = stage.value; theorem = thm.value } }
    {
        Cthm { stage, thm }
    }

    /// The theory.
    pub fn stage(&self) -> &Stage
        ensures { result.now.value ≡ self.now.content }
    {
        &self.stage
    }

    /// The theory behind its pointer.
    fn theory(&self) -> &Theory
        ensures { result.now ≡ self.now.content }
    {
        &*self.stage
    }

    /// The theorem.
    pub fn thm(&self) -> &Thm
        ensures { result.now ≡ self.now.theorem }
    {
        &*self.thm
    }

    /// The theorem is derivable in the theory.
    pub fn theorem_is_derivable(&self)
        ensures { IsDerivable self.now.content self.now.theorem }
    {
        let _ = &self.thm;
    }

    /// An equal value, which shares the theory and the theorem.
    pub fn copy(&self) -> Result<Cthm, AllocError>
        ensures { IfOk result (λ copy. copy ≡ self.now) }
    {
        let stage = Arc::try_clone(&self.stage)?;
        let thm = Arc::try_clone(&self.thm)?;
        Ok(Cthm { stage, thm })
    }

    /// The same theorem in another theory, which must have each declaration of its own.
    pub fn transfer(&self, to: &Stage) -> Result<Cthm, TransferFault>
        ensures ok { IfOk result (λ more. more ≡ record { content = to.now.value; theorem = self.now.theorem }) }
        ensures below { OnOk result (IsBelow self.now.content to.now.value) }
        ensures fault { IfErr result (IsTransferFault self.now.content to.now.value) }
    {
        let own = self.theory();
        own.content_is_sound();
        let other = &**to;
        if let Some(declaration) = own.missing(other) {
            return Err(TransferFault::Missing { declaration });
        }
        let stage = Arc::try_clone(to)?;
        let thm = Arc::try_clone(&self.thm)?;
        Ok(Cthm { stage, thm })
    }
}
