//! The tree of a theory's text.
ghost use Rattle.std.specs.Prelude.{◌≡◌, IfOk};
ghost use Rattle.pure_script.specs.Seen.{seen_step};

use pure_grammar::TokenKind;
use pure_text::{Text, TextList};
use std::alloc::{AllocError, Global};

/// A range of the source.
#[derive(Clone, Copy)]
pub struct Span {
    pub from: u32,
    pub to: u32,
}

/// A step of a proof. Names of facts are as they are written.
#[derive(Drop)]
pub enum Step {
    Rule { fact: Text },
    Erule { fact: Text },
    Drule { fact: Text },
    Assumption,
    Unfold { facts: TextList },
    Prefer { n: u32 },
    Defer,
    Close,
    Done,
}

impl Step {
    /// An equal step.
    pub fn copy(&self, alloc: Global) -> Result<Step, AllocError>
        ensures { IfOk result (λ step. seen_step step ≡ seen_step self.now) }
    {
        match self {
            Step::Rule { fact } => Ok(Step::Rule {
                fact: fact.copy(alloc)?,
            }),
            Step::Erule { fact } => Ok(Step::Erule {
                fact: fact.copy(alloc)?,
            }),
            Step::Drule { fact } => Ok(Step::Drule {
                fact: fact.copy(alloc)?,
            }),
            Step::Assumption => Ok(Step::Assumption),
            Step::Unfold { facts } => Ok(Step::Unfold {
                facts: facts.copy(alloc)?,
            }),
            Step::Prefer { n } => Ok(Step::Prefer { n: *n }),
            Step::Defer => Ok(Step::Defer),
            Step::Close => Ok(Step::Close),
            Step::Done => Ok(Step::Done),
        }
    }
}

/// A have: a fact that is stated inside a lemma, with a name and a proof of its own.
#[derive(Drop)]
pub struct Have {
    pub name: Text,
    pub prop: Span,
    pub script: Vec<Step>,
}

/// A command; quoted texts without their marks.
#[derive(Drop)]
pub enum Command {
    Class {
        name: Text,
        above: Vec<Text>,
    },
    TypeDecl {
        name: Text,
        params: u32,
    },
    Arity {
        con: Text,
        doms: Vec<Vec<Text>>,
        class: Text,
    },
    Const {
        name: Text,
        typ: Span,
    },
    Axiom {
        name: Text,
        prop: Span,
    },
    Definition {
        name: Text,
        typ: Span,
        prop: Span,
    },
    Lemma {
        name: Text,
        prop: Span,
        haves: Vec<Have>,
        script: Vec<Step>,
    },
}

/// A theory as it is written, in the language of this version.
#[derive(Drop)]
pub struct TheoryText {
    pub version: u32,
    pub name: Text,
    pub imports: Vec<Text>,
    pub commands: Vec<Command>,
}

/// Why tokens are no theory. `Memory` is want of memory.
#[derive(Clone, Copy)]
pub enum ScriptFault {
    Syntax { at: u32, expected: TokenKind },
    Memory,
}

impl From<AllocError> for ScriptFault {
    ghost use Rattle.pure_script.specs.declared.theory.ScriptFault.TheVariants.{Memory};

    ghost from_gives = { λ _ fault. fault ≡ Memory };

    /// Want of memory.
    fn from(_error: AllocError) -> ScriptFault {
        ScriptFault::Memory
    }
}
