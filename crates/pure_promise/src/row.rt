//! The row of a lemma with its fate.
ghost use Rattle.std.specs.Prelude.{◌≡◌, ◌++◌, ◌∷◌, [], List, IfOk, OnOk, map};
ghost use Rattle.pure_text.specs.Lists.{IsIn, Each};
ghost use Rattle.pure_promise_fates.specs.Entries as fates;
ghost use Rattle.pure_promise_fates.specs.Entries.{AreEntries, IsFate};
ghost use Rattle.pure_promise_fates.specs.Seen.{seen_fate};
ghost use Rattle.pure_theorem.specs.Sets.{IsLabelSet};
ghost use Rattle.pure_print.specs.declared.row.Row as print;
ghost use Rattle.pure_print.specs.Growing.{HoldsRows};
ghost use Rattle.pure_print.specs.RowText.{row_text};
ghost use Rattle.pure_print.specs.NameText.{text_of_name};
ghost use Rattle.pure_print.specs.TermText.{term_text};
ghost use Rattle.pure_promise.specs.declared.entry.Own.TheVariants as own;
ghost use Rattle.pure_promise.specs.Seen.{seen, seen_own, seen_entry, reported};
ghost use Rattle.pure_promise.specs.RowText as spec;

use crate::entry::{Entry, Own};
use crate::fault_text::fault_words;
use crate::names_text::push_labels;
use pure_goal_steps::StepFault;
use pure_print::{
    Row, RowStatus, TableText, push_number, push_text_of_name, push_text_of_term, status_word,
};
use pure_promise_fates::Fate;
use pure_term::{Label, Name, Names, Text};
use std::alloc::{AllocError, Global};

/// The text of a lemma's name.
fn head_of(alloc: Global, names: &Names, name: Name) -> Result<Text, AllocError>
    ensures { IfOk result (λ text. text ≡ text_of_name names.now name) }
{
    let mut text = Vec::new(alloc);
    push_text_of_name(&mut text, names, name)?;
    Ok(Text::from(text))
}

/// Appends a colon and the statement.
#[tactic(auto, unfolding(crate::specs::RowText::colon))]
fn push_statement(text: &mut Vec<u8>, names: &Names, entry: &Entry) -> Result<(), AllocError>
    ensures { OnOk result (text.new.items ≡ text.old.items ++ (spec.colon ++ term_text names.now entry.now.prop.value)) }
{
    text.extend_from_slice(b": ")?;
    push_text_of_term(text, names, &*entry.prop)?;
    Ok(())
}

/// Appends the step that failed, and why.
#[tactic(auto, unfolding(crate::specs::RowText::colon, crate::specs::RowText::step_word))]
fn push_fault(text: &mut Vec<u8>, step: u32, fault: StepFault) -> Result<(), AllocError>
    ensures { OnOk result (text.new.items ≡ text.old.items ++ spec.failed_tail (seen_own (own.Fault step fault))) }
{
    text.extend_from_slice(b": step ")?;
    push_number(text, step as usize)?;
    text.extend_from_slice(b": ")?;
    text.extend_from_slice(fault_words(fault))?;
    Ok(())
}

/// Appends what the row of a failed lemma says.
fn push_failed(text: &mut Vec<u8>, own: &Own) -> Result<(), AllocError>
    ensures { OnOk result (text.new.items ≡ text.old.items ++ spec.failed_tail (seen_own own.now)) }
{
    match own {
        Own::Fault { step, fault } => push_fault(text, *step, *fault),
        Own::Proved { .. } => Ok(()),
        Own::Cancelled => Ok(()),
    }
}

/// Appends the failed lemmas that a tainted one reaches.
#[tactic(auto, unfolding(crate::specs::RowText::by_word))]
fn push_tainted(
    text: &mut Vec<u8>,
    names: &Names,
    entries: &[Entry],
    faults: &[Label],
) -> Result<(), AllocError>
    requires ascend { IsLabelSet (map fates.Entry.label (map reported entries.now)) }
    requires stand { Each (λ l. IsIn l (map fates.Entry.label (map reported entries.now))) faults.now }
    ensures { OnOk result (text.new.items ≡ text.old.items ++ (spec.by_word ++ spec.labels_text names.now (seen entries.now) faults.now)) }
{
    text.extend_from_slice(b": by ")?;
    push_labels(text, names, entries, faults)?;
    Ok(())
}

/// Appends what stands behind the name.
fn push_tail(
    text: &mut Vec<u8>,
    names: &Names,
    entries: &[Entry],
    entry: &Entry,
    fate: &Fate,
) -> Result<(), AllocError>
    requires entries { AreEntries (map reported entries.now) }
    requires fate { IsFate (map reported entries.now) entry.now.label (seen_fate fate.now) }
    ensures { OnOk result (text.new.items ≡ text.old.items ++ spec.tail_text names.now (seen entries.now) (seen_entry entry.now) (seen_fate fate.now)) }
{
    match fate {
        Fate::Proved => push_statement(text, names, entry),
        Fate::Failed => push_failed(text, &entry.own),
        Fate::Tainted { faults } => push_tainted(text, names, entries, faults),
        Fate::Gone => Ok(()),
        Fate::Unsettled => Ok(()),
    }
}

/// What stands behind the name.
fn tail_of(
    alloc: Global,
    names: &Names,
    entries: &[Entry],
    entry: &Entry,
    fate: &Fate,
) -> Result<Text, AllocError>
    requires entries { AreEntries (map reported entries.now) }
    requires fate { IsFate (map reported entries.now) entry.now.label (seen_fate fate.now) }
    ensures { IfOk result (λ text. text ≡ spec.tail_text names.now (seen entries.now) (seen_entry entry.now) (seen_fate fate.now)) }
{
    let mut text = Vec::new(alloc);
    push_tail(&mut text, names, entries, entry, fate)?;
    Ok(Text::from(text))
}

/// The status of a row that says this fate.
pub(crate) fn status_of(fate: &Fate) -> RowStatus
    ensures { result ≡ spec.status_of (seen_fate fate.now) }
{
    match fate {
        Fate::Proved => RowStatus::Proved,
        Fate::Failed => RowStatus::Failed,
        Fate::Tainted { .. } => RowStatus::Tainted,
        Fate::Gone => RowStatus::Cancelled,
        Fate::Unsettled => RowStatus::Unsettled,
    }
}

/// The row of the lemma with this fate.
pub(crate) fn row_of(
    alloc: Global,
    names: &Names,
    entries: &[Entry],
    entry: &Entry,
    fate: &Fate,
) -> Result<Row, AllocError>
    requires entries { AreEntries (map reported entries.now) }
    requires fate { IsFate (map reported entries.now) entry.now.label (seen_fate fate.now) }
    ensures { IfOk result (λ row. row ≡ spec.fate_row names.now (seen entries.now) (seen_entry entry.now) (seen_fate fate.now)) }
{
    let head = head_of(alloc, names, entry.name)?;
    let tail = tail_of(alloc, names, entries, entry, fate)?;
    Ok(Row {
        status: status_of(fate),
        head,
        tail,
    })
}

/// Appends the line of the lemma with this fate.
fn push_line(
    text: &mut Vec<u8>,
    names: &Names,
    entries: &[Entry],
    entry: &Entry,
    fate: &Fate,
) -> Result<(), AllocError>
    requires entries { AreEntries (map reported entries.now) }
    requires fate { IsFate (map reported entries.now) entry.now.label (seen_fate fate.now) }
    ensures { OnOk result (text.new.items ≡ text.old.items ++ row_text (spec.fate_row names.now (seen entries.now) (seen_entry entry.now) (seen_fate fate.now))) }
{
    text.extend_from_slice(status_word(status_of(fate)))?;
    text.push(b' ')?;
    push_text_of_name(text, names, entry.name)?;
    push_tail(text, names, entries, entry, fate)?;
    text.push(b'\n')?;
    Ok(())
}

/// Puts the row of the lemma with this fate behind the others: its bytes go into the table's text at once.
pub(crate) fn put_row_of(
    table: &mut TableText,
    names: &Names,
    entries: &[Entry],
    entry: &Entry,
    fate: &Fate,
) -> Result<(), AllocError>
    requires entries { AreEntries (map reported entries.now) }
    requires fate { IsFate (map reported entries.now) entry.now.label (seen_fate fate.now) }
    ensures { OnOk result ((rows : List print.Row) → HoldsRows table.old rows → HoldsRows table.new (rows ++ spec.fate_row names.now (seen entries.now) (seen_entry entry.now) (seen_fate fate.now) ∷ [])) }
{
    push_line(&mut table.text, names, entries, entry, fate)?;
    table.statuses.push(status_of(fate))?;
    Ok(())
}
