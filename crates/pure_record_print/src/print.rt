//! Records as they are printed.
ghost use Rattle.std.specs.Prelude.{◌≡◌, ℕ, List, IfOk};
ghost use Rattle.pure_record.specs.Seen.{seen_items, seen_lines};
ghost use Rattle.pure_record_print.specs.Printed as spec;
ghost use Rattle.pure_record_print.specs.ReadBack.{IsRecordOf};

use crate::item::push_items;
use crate::line::push_lines;
use pure_record::Record;
use pure_term::Text;
use std::alloc::{AllocError, Global};

/// The text of the record: each of its tokens with a blank behind it, and each item and line in a line of its own. What was read of some source is read back as it was: the names, the items and the lines.
pub fn print_record(alloc: Global, read: &Record) -> Result<Text, AllocError>
    ensures printed { IfOk result (λ text. text ≡ spec.record_text read.now.names (seen_items read.now.items.items) (seen_lines read.now.lines.items)) }
    ensures read_back { IfOk result (λ text. (source : List ℕ) → IsRecordOf source read.now → IsRecordOf text read.now) }
{
    let mut text = Vec::new(alloc);
    text.extend_from_slice(b"begin\n")?;
    push_items(&mut text, &read.names, read.items.as_slice())?;
    push_lines(&mut text, &read.names, read.lines.as_slice())?;
    text.extend_from_slice(b"end\n")?;
    Ok(Text::from(text))
}
