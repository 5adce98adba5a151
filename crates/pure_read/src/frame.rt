//! What stands open to the left of a place in the text.
ghost use Rattle.std.specs.Prelude.{◌≡◌, IfOk, [], ◌∷◌};
ghost use Rattle.pure_grammar.specs.Terms.InnerReader as spec;
ghost use Rattle.pure_read.specs.Frames.{seen_join, seen_frame, seen_stack, seen_popped};

use crate::raw::{Raw, RawTyp};
use pure_text::Text;
use std::alloc::{AllocError, Global};

/// Which of the two signs binds.
#[derive(Clone, Copy)]
pub(crate) enum Quantifier {
    All,
    Lambda,
}

/// A binder: its sign, the place of its node, its own place, and its variable.
#[derive(Drop)]
pub(crate) struct Binder {
    pub(crate) quantifier: Quantifier,
    pub(crate) at: u32,
    pub(crate) binder: u32,
    pub(crate) var: Text,
}

/// What a term ends as soon as something looser follows: the body of a binder, the right side of `==`, or what a premise
/// implies. `at` is where the whole begins, `binder` where the binder does.
#[derive(Drop)]
pub(crate) enum Join {
    LambdaBody {
        at: u32,
        var: Text,
        typ: Option<RawTyp>,
    },
    RightSide {
        at: u32,
        left: Box<Raw>,
    },
    Conclusion {
        at: u32,
        premise: Box<Raw>,
    },
    AllBody {
        at: u32,
        binder: u32,
        var: Text,
        typ: Option<RawTyp>,
    },
}

/// What a term stands in: a list of premises, or parentheses, with the function before them or not.
#[derive(Drop)]
pub(crate) enum TermOpen {
    FirstPremise { at: u32 },
    NextPremise,
    Enclosed { at: u32 },
    Argument { at: u32, function: Box<Raw> },
}

/// What a type stands in: a constraint on a term, a binder in parentheses, a binder by itself, a list of domains,
/// parentheses, or parentheses with arguments before it.
#[derive(Drop)]
pub(crate) enum TypeOpen {
    Constraint { at: u32, term: Box<Raw> },
    BinderType { binder: Binder },
    OnlyBinderType { binder: Binder },
    FirstDomain { at: u32 },
    NextDomain,
    EnclosedType { at: u32 },
    MoreArguments { at: u32, arguments: Vec<RawTyp> },
}

/// One thing that stands open. `Range` is the right side of `=>`.
#[derive(Drop)]
pub(crate) enum Frame {
    Joined { join: Join },
    InTerm { around: TermOpen },
    Range { at: u32, domain: RawTyp },
    InType { around: TypeOpen },
}

/// All that stands open, the innermost last.
#[derive(Drop)]
pub(crate) struct Stack {
    frames: Vec<Frame>,
}

/// The innermost thing that stands open, and all others.
#[derive(Drop)]
pub(crate) enum Popped {
    Nothing,
    Open { frame: Frame, below: Stack },
}

impl Stack {
    /// Nothing stands open.
    pub(crate) fn empty(alloc: Global) -> Stack
        ensures { seen_stack result ≡ [] }
    {
        let frames = Vec::new(alloc);
        Stack { frames }
    }

    /// The stack with one more frame.
    pub(crate) fn with(self, frame: Frame) -> Result<Stack, AllocError>
        ensures { IfOk result (λ stack. seen_stack stack ≡ seen_frame frame ∷ seen_stack self) }
    {
        let mut frames = self.frames;
        frames.push(frame)?;
        Ok(Stack { frames })
    }

    /// Takes the innermost frame off.
    pub(crate) fn pop(self) -> Popped
        ensures { seen_stack self ≡ seen_popped result }
    {
        let mut frames = self.frames;
        match frames.pop() {
            None => Popped::Nothing,
            Some(frame) => Popped::Open {
                frame,
                below: Stack { frames },
            },
        }
    }
}

impl Frame {
    /// Drops it. Apart, since each function that drops one itself pays for all its variants.
    pub(crate) fn discard(self) {
        match self {
            Frame::Joined { join } => join.discard(),
            Frame::InTerm { .. } => {}
            Frame::Range { .. } => {}
            Frame::InType { around } => around.discard(),
        }
    }

    /// Whether it is the right side of `==`.
    pub(crate) fn is_right_side(&self) -> bool
        ensures { result ≡ spec.is_right_side (seen_frame self.now) }
    {
        match self {
            Frame::Joined { join } => join.level() == 2,
            Frame::InTerm { .. } => false,
            Frame::Range { .. } => false,
            Frame::InType { .. } => false,
        }
    }
}

impl TypeOpen {
    /// Drops it.
    pub(crate) fn discard(self) {}
}

impl Join {
    /// Drops it.
    pub(crate) fn discard(self) {}

    /// How tightly: what has at least the level of a token ends before it.
    pub(crate) fn level(&self) -> u8
        ensures { result ≡ spec.join_level (seen_join self.now) }
    {
        match self {
            Join::LambdaBody { .. } => 3,
            Join::RightSide { .. } => 2,
            Join::Conclusion { .. } => 1,
            Join::AllBody { .. } => 1,
        }
    }

    /// Where the whole begins.
    pub(crate) fn at(&self) -> u32
        ensures { result ≡ spec.join_at (seen_join self.now) }
    {
        match self {
            Join::LambdaBody { at, .. } => *at,
            Join::RightSide { at, .. } => *at,
            Join::Conclusion { at, .. } => *at,
            Join::AllBody { at, .. } => *at,
        }
    }

    /// The whole, with the term that ends it.
    pub(crate) fn term(self, alloc: Global, term: Box<Raw>) -> Result<Box<Raw>, AllocError>
        ensures { IfOk result (λ whole. whole.value ≡ spec.join_term (seen_join self) term.value) }
    {
        match self {
            Join::LambdaBody { at, var, typ } => Raw::abs(alloc, at, var, typ, term),
            Join::RightSide { at, left } => Raw::equation(alloc, at, left, term),
            Join::Conclusion { at, premise } => Raw::implication(alloc, at, premise, term),
            Join::AllBody {
                at,
                binder,
                var,
                typ,
            } => Raw::generality(alloc, at, binder, var, typ, term),
        }
    }
}
