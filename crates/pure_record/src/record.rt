//! What a record says.
ghost use Rattle.std.specs.Prelude.{◌≡◌};

use pure_term::{Name, Names, Term, TermBind, Typ, TypBind};
use std::alloc::AllocError;

/// A record: the texts of its identifiers, what its content declares beyond Pure, and the lines of its derivation. All sorts in it are empty.
#[derive(Drop)]
pub struct Record {
    pub names: Names,
    pub items: Vec<Item>,
    pub lines: Vec<Node>,
}

/// What a content declares: a type constructor with the count of its parameters, a constant with its type, or an axiom with its proposition.
#[derive(Drop)]
pub enum Item {
    TypeDecl { name: Name, params: u32 },
    Const { name: Name, typ: Typ },
    Axiom { name: Name, prop: Term },
}

/// A line of a derivation: a node of its tree, which names the lines of its parts. Lines are counted from 0.
#[derive(Drop)]
pub enum Node {
    Axiom {
        name: Name,
        typs: Vec<TypBind>,
        terms: Vec<TermBind>,
    },
    Assume {
        prop: Term,
    },
    AllIntro {
        var: Term,
        line: u32,
    },
    AllElim {
        term: Term,
        line: u32,
    },
    ImpIntro {
        prop: Term,
        line: u32,
    },
    ImpElim {
        imp: u32,
        prem: u32,
    },
    Beta {
        term: Term,
    },
    Refl {
        term: Term,
    },
    Subst {
        p: Term,
        x: Term,
        y: Term,
    },
    Ext {
        f: Term,
        g: Term,
    },
    Iff {
        a: Term,
        b: Term,
    },
}

/// Why tokens are no record: more than 1,000 tokens stand in a row without a `|`, the first of them at the place; or the token at the place, or the source's end, is the first with which no record goes on.
#[derive(Clone, Copy, Debug, PartialEq, Eq)]
pub enum RecordFault {
    TooLong { at: u32 },
    Syntax { at: u32 },
    Memory,
}

impl From<AllocError> for RecordFault {
    ghost use Rattle.pure_record.specs.declared.record.RecordFault.TheVariants.{Memory};

    ghost from_gives = { λ _ fault. fault ≡ Memory };

    fn from(_failed: AllocError) -> RecordFault {
        RecordFault::Memory
    }
}
