//! Methods of one step.
ghost use Rattle.std.specs.Prelude.{◌≡◌, [], ◌∷◌, IfOk};
ghost use Rattle.pure_grammar.specs.Theories.TheoryText.{Close, Done};
ghost use Rattle.pure_script.specs.Seen.{seen_step, seen_steps};
ghost use Rattle.pure_try.specs.Methods.{script_of};

use pure_script::Step;
use pure_text::Text;
use std::alloc::{AllocError, Global};

/// A method of one step: by assumption, or by a rule, which is the fact with this full name.
#[derive(Drop)]
pub enum Method {
    Assumption,
    Rule { fact: Text },
}

impl Method {
    /// An equal method.
    pub fn copy(&self, alloc: Global) -> Result<Method, AllocError>
        ensures { IfOk result (λ m. m ≡ self.now) }
    {
        match self {
            Method::Assumption => Ok(Method::Assumption),
            Method::Rule { fact } => Ok(Method::Rule {
                fact: fact.copy(alloc)?,
            }),
        }
    }
}

/// The first step of the proof by a method.
fn first_step(alloc: Global, method: &Method) -> Result<Step, AllocError>
    ensures { IfOk result (λ step. (seen_step step ∷ Close ∷ Done ∷ []) ≡ script_of method.now) }
{
    match method {
        Method::Assumption => Ok(Step::Assumption),
        Method::Rule { fact } => Ok(Step::Rule {
            fact: fact.copy(alloc)?,
        }),
    }
}

/// The steps of the proof by a method.
pub(crate) fn script(alloc: Global, method: &Method) -> Result<Vec<Step>, AllocError>
    ensures { IfOk result (λ steps. seen_steps steps.items ≡ script_of method.now) }
{
    let mut steps = Vec::new(alloc);
    steps.push(first_step(alloc, method)?)?;
    steps.push(Step::Close)?;
    steps.push(Step::Done)?;
    Ok(steps)
}
