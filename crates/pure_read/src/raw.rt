//! The trees of terms and types as they are written.
ghost use Rattle.std.specs.Prelude.{◌≡◌, IfOk, codes, [], ◌∷◌};
ghost use Rattle.pure_grammar.specs.Terms.RawTree as tree;
ghost use Rattle.pure_read.specs.RawView.{seen_annotation};

use pure_grammar::TokenKind;
use pure_text::Text;
use std::alloc::{AllocError, Global};
use std::marker::Model;

/// A class as it is written, with the place of its token.
#[derive(Debug, Drop)]
pub struct RawClass {
    pub at: u32,
    pub name: Text,
}

impl Model for RawClass {
    ghost use Rattle.pure_grammar.specs.Terms.RawTree.{RawClassTree};
    ghost use Rattle.pure_read.specs.RawCodes.{coded_class};

    ghost Value = { RawClassTree };

    ghost coded = { coded_class };

    ghost view = { λ c. record { at = c.at; name = c.name } };
}

/// A type as it is written.
#[cycle(raw_typ)]
#[derive(Debug, Drop)]
pub struct RawTyp {
    pub node: RawTypNode,
}

/// A variable by its token, with the classes that are written, or a constructor with its arguments; an arrow is the
/// constructor `Pure.fun`. Each node has the place of its first token.
#[cycle(raw_typ)]
#[derive(Debug, Drop)]
pub enum RawTypNode {
    Var {
        at: u32,
        kind: TokenKind,
        text: Text,
        sort: Vec<RawClass>,
    },
    Con {
        at: u32,
        name: Text,
        args: Vec<RawTyp>,
    },
}

impl Model for RawTyp {
    ghost use Rattle.pure_grammar.specs.Terms.RawTree as tree;
    ghost use Rattle.pure_read.specs.RawCodes.{coded_raw_typ};

    ghost Value = { tree.RawTypTree };

    ghost coded = { coded_raw_typ };

    ghost use Rattle.pure_read.specs.RawView.{view_raw_typ};

    ghost view = { λ t. view_raw_typ t.node };

    ghost use Rattle.pure_read.specs.RawDepth.{raw_typ_depth};

    ghost size = { raw_typ_depth };

    ghost use Rattle.pure_read.specs.RawFalls.{depth_le-raw_typ_depth};

    ghost size_decreases = { λ t h. depth_le-raw_typ_depth t.node };
}

/// A term as it is written.
#[cycle(raw)]
#[derive(Debug, Drop)]
pub struct Raw {
    pub node: RawNode,
}

/// A variable or constant by its token, an abstraction, an application, or a term with a type; `==>`, `==` and `!!` are
/// applications of the constants `Pure.imp`, `Pure.eq` and `Pure.all`. Each node has the place of its first token. Types stand apart, so that
/// a node takes little room.
#[cycle(raw)]
#[derive(Debug, Drop)]
pub enum RawNode {
    Leaf {
        at: u32,
        kind: TokenKind,
        text: Text,
    },
    Abs {
        at: u32,
        var: Text,
        typ: Option<Box<RawTyp>>,
        body: Box<Raw>,
    },
    App {
        at: u32,
        fun: Box<Raw>,
        arg: Box<Raw>,
    },
    Typed {
        at: u32,
        term: Box<Raw>,
        typ: Box<RawTyp>,
    },
}

impl Model for Raw {
    ghost use Rattle.pure_grammar.specs.Terms.RawTree as tree;
    ghost use Rattle.pure_read.specs.RawCodes.{coded_raw};

    ghost Value = { tree.RawTree };

    ghost coded = { coded_raw };

    ghost use Rattle.pure_read.specs.RawView.{view_raw};

    ghost view = { λ t. view_raw t.node };

    ghost use Rattle.pure_read.specs.RawDepth.{raw_depth};

    ghost size = { raw_depth };

    ghost use Rattle.pure_read.specs.RawFalls.{depth_le-raw_depth};

    ghost size_decreases = { λ t h. depth_le-raw_depth t.node };
}

/// The type in a block of its own, if there is one, so that a binder without a type takes little room.
fn boxed(alloc: Global, typ: Option<RawTyp>) -> Result<Option<Box<RawTyp>>, AllocError>
    ensures { IfOk result (λ found. seen_annotation found ≡ typ) }
{
    match typ {
        None => Ok(None),
        Some(typ) => {
            let typ = Box::new(alloc, typ)?;
            Ok(Some(typ))
        }
    }
}

impl Raw {
    /// A variable or constant.
    pub(crate) fn leaf(
        alloc: Global,
        at: u32,
        kind: TokenKind,
        text: Text,
    ) -> Result<Box<Raw>, AllocError>
        ensures { IfOk result (λ t. t.value ≡ tree.Leaf at kind text) }
    {
        let node = RawNode::Leaf { at, kind, text };
        Ok(Box::new(alloc, Raw { node })?)
    }

    /// An abstraction.
    pub(crate) fn abs(
        alloc: Global,
        at: u32,
        var: Text,
        typ: Option<RawTyp>,
        body: Box<Raw>,
    ) -> Result<Box<Raw>, AllocError>
        ensures { IfOk result (λ t. t.value ≡ tree.Abs at var typ body.value) }
    {
        let typ = boxed(alloc, typ)?;
        let node = RawNode::Abs { at, var, typ, body };
        Ok(Box::new(alloc, Raw { node })?)
    }

    /// `fun arg`.
    pub(crate) fn app(
        alloc: Global,
        at: u32,
        fun: Box<Raw>,
        arg: Box<Raw>,
    ) -> Result<Box<Raw>, AllocError>
        ensures { IfOk result (λ t. t.value ≡ tree.App at fun.value arg.value) }
    {
        let node = RawNode::App { at, fun, arg };
        Ok(Box::new(alloc, Raw { node })?)
    }

    /// `term :: typ`.
    pub(crate) fn typed(
        alloc: Global,
        at: u32,
        term: Box<Raw>,
        typ: RawTyp,
    ) -> Result<Box<Raw>, AllocError>
        ensures { IfOk result (λ t. t.value ≡ tree.Typed at term.value typ) }
    {
        let typ = Box::new(alloc, typ)?;
        let node = RawNode::Typed { at, term, typ };
        Ok(Box::new(alloc, Raw { node })?)
    }

    /// A constant of the notation.
    fn constant(alloc: Global, at: u32, name: &[u8]) -> Result<Box<Raw>, AllocError>
        ensures { IfOk result (λ t. t.value ≡ tree.constant at name.now) }
    {
        let text = Text::make(alloc, name)?;
        Raw::leaf(alloc, at, TokenKind::Qualified, text)
    }

    /// `premise ==> conclusion`.
    pub(crate) fn implication(
        alloc: Global,
        at: u32,
        premise: Box<Raw>,
        conclusion: Box<Raw>,
    ) -> Result<Box<Raw>, AllocError>
        ensures { IfOk result (λ t. t.value ≡ tree.implication at premise.value conclusion.value) }
    {
        let constant = Raw::constant(alloc, at, b"Pure.imp")?;
        let function = Raw::app(alloc, at, constant, premise)?;
        Raw::app(alloc, at, function, conclusion)
    }

    /// `left == right`.
    pub(crate) fn equation(
        alloc: Global,
        at: u32,
        left: Box<Raw>,
        right: Box<Raw>,
    ) -> Result<Box<Raw>, AllocError>
        ensures { IfOk result (λ t. t.value ≡ tree.equation at left.value right.value) }
    {
        let constant = Raw::constant(alloc, at, b"Pure.eq")?;
        let function = Raw::app(alloc, at, constant, left)?;
        Raw::app(alloc, at, function, right)
    }

    /// `!!var. body`, with its binder at the place `binder`.
    pub(crate) fn generality(
        alloc: Global,
        at: u32,
        binder: u32,
        var: Text,
        typ: Option<RawTyp>,
        body: Box<Raw>,
    ) -> Result<Box<Raw>, AllocError>
        ensures { IfOk result (λ t. t.value ≡ tree.generality at binder var typ body.value) }
    {
        let predicate = Raw::abs(alloc, binder, var, typ, body)?;
        let constant = Raw::constant(alloc, at, b"Pure.all")?;
        Raw::app(alloc, at, constant, predicate)
    }
}

impl RawTyp {
    /// A variable with its classes.
    pub(crate) fn var(at: u32, kind: TokenKind, text: Text, sort: Vec<RawClass>) -> RawTyp
        ensures { result ≡ tree.Var at kind text sort.items }
    {
        RawTyp {
            node: RawTypNode::Var {
                at,
                kind,
                text,
                sort,
            },
        }
    }

    /// A constructor with its arguments.
    pub(crate) fn con(at: u32, name: Text, args: Vec<RawTyp>) -> RawTyp
        ensures { result ≡ tree.Con at name (tree.raw_typs_of args.items) }
    {
        RawTyp {
            node: RawTypNode::Con { at, name, args },
        }
    }

    /// `arg name`.
    pub(crate) fn applied(
        alloc: Global,
        at: u32,
        name: Text,
        arg: RawTyp,
    ) -> Result<RawTyp, AllocError>
        ensures { IfOk result (λ t. t ≡ tree.Con at name (tree.also arg tree.none)) }
    {
        let mut args = Vec::new(alloc);
        args.push(arg)?;
        Ok(RawTyp::con(at, name, args))
    }

    /// `domain => range`.
    pub(crate) fn arrow(
        alloc: Global,
        at: u32,
        domain: RawTyp,
        range: RawTyp,
    ) -> Result<RawTyp, AllocError>
        ensures { IfOk result (λ t. t ≡ tree.function_type at domain range) }
    {
        let mut args = Vec::new(alloc);
        args.push(domain)?;
        args.push(range)?;
        Ok(RawTyp::con(at, Text::make(alloc, b"Pure.fun")?, args))
    }
}
