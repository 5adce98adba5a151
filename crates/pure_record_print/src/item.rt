//! The items of a record as they are printed.
ghost use Rattle.std.specs.Prelude.{◌≡◌, ◌++◌, OnOk};
ghost use Rattle.pure_record.specs.Seen.{seen_item, seen_items};
ghost use Rattle.pure_record_print.specs.Printed as spec;

use crate::name::{push_constant_name, push_name, push_numeral, push_typ_name};
use crate::term::push_term;
use crate::typ::push_typ;
use pure_record::Item;
use pure_term::Names;
use std::alloc::AllocError;

/// Appends an item.
fn push_item(text: &mut Vec<u8>, names: &Names, item: &Item) -> Result<(), AllocError>
    ensures { OnOk result (text.new.items ≡ text.old.items ++ spec.item_text names.now (seen_item item.now)) }
{
    match item {
        Item::TypeDecl { name, params } => {
            text.extend_from_slice(b"typedecl ")?;
            push_typ_name(text, names, *name)?;
            push_numeral(text, *params)
        }
        Item::Const { name, typ } => {
            text.extend_from_slice(b"consts ")?;
            push_constant_name(text, names, *name)?;
            text.extend_from_slice(b":: ")?;
            push_typ(text, names, typ)
        }
        Item::Axiom { name, prop } => {
            text.extend_from_slice(b"axiomatization ")?;
            push_name(text, names, *name)?;
            text.extend_from_slice(b": ")?;
            push_term(text, names, prop)
        }
    }
}

/// Appends the items.
pub(crate) fn push_items(
    text: &mut Vec<u8>,
    names: &Names,
    items: &[Item],
) -> Result<(), AllocError>
    ensures { OnOk result (text.new.items ≡ text.old.items ++ spec.items_text names.now (seen_items items.now)) }
{
    for item in items {
        push_item(text, names, item)?;
        text.extend_from_slice(b"|\n")?;
    }
    Ok(())
}
