//! The forms in which terms are written.
ghost use Rattle.std.specs.Prelude.{◌≡◌, ◌≤◌, ℕ};
ghost use Rattle.pure_definitions.specs.Terms.Term.{App, term_depth};
ghost use Rattle.pure_print.specs.Notation.{notation};
ghost use Rattle.pure_print.specs.TermText.{level};
ghost use Rattle.pure_print.specs.Forms.{is_constant, seen_form, form_depth};

use pure_term::{Name, Term, TermNode};

/// How a term is written, with its parts.
#[derive(Clone, Copy)]
pub(crate) enum Form<'t> {
    Constant {
        name: Name,
    },
    Fixed {
        name: Name,
    },
    Schematic {
        name: Name,
        index: u32,
    },
    Bound {
        place: u32,
    },
    ForAll {
        body: &'t Term,
    },
    Implies {
        left: &'t Term,
        right: &'t Term,
    },
    Equal {
        left: &'t Term,
        right: &'t Term,
    },
    Lambda {
        body: &'t Term,
    },
    Apply {
        function: &'t Term,
        argument: &'t Term,
    },
}

impl<'t> Form<'t> {
    /// The form of the term.
    pub(crate) fn of(t: &'t Term) -> Form<'t>
        ensures is { (n : ℕ) → seen_form n result ≡ notation n t.now }
        ensures falls { form_depth result ≤ term_depth t.now }
    {
        match &t.node {
            TermNode::Const { name, .. } => Form::Constant { name: *name },
            TermNode::Free { name, .. } => Form::Fixed { name: *name },
            TermNode::Var { name, index, .. } => Form::Schematic {
                name: *name,
                index: *index,
            },
            TermNode::Bound { place } => Form::Bound { place: *place },
            TermNode::Abs { body, .. } => Form::Lambda { body },
            TermNode::App { fun, arg, .. } => applied(fun, arg),
        }
    }

    /// How tightly the form binds.
    pub(crate) fn level(&self) -> u8
        ensures { (n : ℕ) → result ≡ level (seen_form n self.now) }
    {
        match self {
            Form::ForAll { .. } => 0,
            Form::Implies { .. } => 1,
            Form::Equal { .. } => 2,
            Form::Lambda { .. } => 3,
            Form::Apply { .. } => 4,
            Form::Constant { .. } => 5,
            Form::Fixed { .. } => 5,
            Form::Schematic { .. } => 5,
            Form::Bound { .. } => 5,
        }
    }
}

/// Whether the term is the constant.
fn is_constant(t: &Term, constant: Name) -> bool
    ensures { result ≡ is_constant constant t.now }
{
    match &t.node {
        TermNode::Const { name, .. } => *name == constant,
        _ => false,
    }
}

/// The form of an application.
fn applied<'t>(function: &'t Term, argument: &'t Term) -> Form<'t>
    ensures is { (n : ℕ) → seen_form n result ≡ notation n (App function.now argument.now) }
    ensures falls { form_depth result ≤ term_depth (App function.now argument.now) }
{
    match (&function.node, &argument.node) {
        (TermNode::Const { name, .. }, TermNode::Abs { body, .. }) if *name == Name::ALL => {
            Form::ForAll { body }
        }
        (TermNode::App { fun, arg, .. }, _) if is_constant(fun, Name::IMP) => Form::Implies {
            left: arg,
            right: argument,
        },
        (TermNode::App { fun, arg, .. }, _) if is_constant(fun, Name::EQ) => Form::Equal {
            left: arg,
            right: argument,
        },
        _ => Form::Apply { function, argument },
    }
}
