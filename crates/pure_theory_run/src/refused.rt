//! The rows of theories that are refused.
ghost use Rattle.std.specs.Prelude.{◌≡◌, ◌++◌, [], List, IfOk};
ghost use Rattle.pure_graph.specs.Session.{parent_refused_text};
ghost use Rattle.pure_logic.specs.Content.{Content};
ghost use Rattle.pure_statements.specs.ReasonText.{reason_text};
ghost use Rattle.pure_statements.specs.declared.reason.Reason.TheVariants as reason;
ghost use Rattle.pure_session_meaning.specs.Theory.Begin.{IsBeginRefusal};
ghost use Rattle.pure_session_meaning.specs.Verdicts.{refused_theory};
ghost use Rattle.pure_theory_run.specs.Parents.{IsConflictRow};

use pure_print::{Row, RowStatus};
use pure_session::parent_refused_text;
use pure_session_meaning::theory::DeclFault;
use pure_statements::{Reason, push_reason};
use pure_text::Text;
use pure_typ::{Name, Names};
use std::alloc::{AllocError, Global};

/// The row of the theory of this name, which is refused for this reason.
#[tactic(auto, unfolding(pure_session_meaning::specs::Verdicts::theory_word, pure_statements::specs::Rows::colon))]
pub fn refused_theory(alloc: Global, theory: &[u8], reason: &[u8]) -> Result<Row, AllocError>
    ensures { IfOk result (λ row. row ≡ refused_theory theory.now reason.now) }
{
    let mut head = Vec::from_slice(alloc, b"theory ")?;
    head.extend_from_slice(theory)?;
    let mut tail = Vec::from_slice(alloc, b": ")?;
    tail.extend_from_slice(reason)?;
    Ok(Row {
        status: RowStatus::Refused,
        head: Text::from(head),
        tail: Text::from(tail),
    })
}

/// The row of a theory whose parent of this name was refused when it began.
pub(crate) fn parent_refused(alloc: Global, theory: &[u8], parent: &[u8]) -> Result<Row, AllocError>
    ensures { IfOk result (λ row. row ≡ refused_theory theory.now (parent_refused_text ++ parent.now)) }
{
    let reason = parent_refused_text(alloc, parent)?;
    refused_theory(alloc, theory, reason.bytes())
}

/// The row of a theory whose parents, merged one after the other, have arities in conflict.
fn not_coregular(
    alloc: Global,
    names: &Names,
    theory: &[u8],
    con: Name,
    c1: Name,
    c2: Name,
) -> Result<Row, AllocError>
    ensures { IfOk result (λ row. row ≡ refused_theory theory.now (reason_text names.now [] (reason.NotCoregular con c1 c2))) }
{
    let mut text = Vec::new(alloc);
    push_reason(
        alloc,
        &mut text,
        names,
        b"",
        &Reason::NotCoregular { con, c1, c2 },
    )?;
    refused_theory(alloc, theory, &text)
}

/// The row of a theory whose parents can't be merged.
pub(crate) fn not_begun(
    alloc: Global,
    names: &Names,
    theory: &[u8],
    fault: DeclFault,
) -> Result<Row, AllocError>
    requires { (parents : List Content) × IsBeginRefusal parents fault }
    ensures { IfOk result (λ row. (parents : List Content) → IsBeginRefusal parents fault → IsConflictRow names.now theory.now parents row) }
{
    match fault {
        DeclFault::NotCoregular { con, c1, c2 } => {
            not_coregular(alloc, names, theory, con, c1, c2)
        }
        DeclFault::Memory => Err(AllocError),
        _ => unreachable!(),
    }
}
