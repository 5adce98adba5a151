//! Names, indexes and numbers as they are printed.
ghost use Rattle.std.specs.Prelude.{◌≡◌, ◌++◌, OnOk};
ghost use Rattle.std.specs.Fmt.{decimal};
ghost use Rattle.pure_print.specs.NameText.{text_of_name, index_text};
ghost use Rattle.pure_record_print.specs.Printed as spec;
ghost use Rattle.pure_record_print.specs.Printed.{spaced};

use pure_print::{push_number, push_text_of_name};
use pure_term::{Name, Names};
use std::alloc::AllocError;

/// Appends the number and a blank.
pub(crate) fn push_numeral(text: &mut Vec<u8>, number: u32) -> Result<(), AllocError>
    ensures { OnOk result (text.new.items ≡ text.old.items ++ spaced (decimal number)) }
{
    push_number(text, number as usize)?;
    text.extend_from_slice(b" ")?;
    Ok(())
}

/// Appends the index of a schematic variable, unless it is 0, and a blank.
fn push_index(text: &mut Vec<u8>, index: u32) -> Result<(), AllocError>
    ensures { OnOk result (text.new.items ≡ text.old.items ++ spaced (index_text index)) }
{
    if index != 0 {
        text.extend_from_slice(b".")?;
        push_number(text, index as usize)?;
    }
    text.extend_from_slice(b" ")?;
    Ok(())
}

/// Appends the text of the name and a blank.
pub(crate) fn push_name(text: &mut Vec<u8>, names: &Names, name: Name) -> Result<(), AllocError>
    ensures { OnOk result (text.new.items ≡ text.old.items ++ spaced (text_of_name names.now name)) }
{
    push_text_of_name(text, names, name)?;
    text.extend_from_slice(b" ")?;
    Ok(())
}

/// Appends the name and the index of a schematic variable, and a blank.
pub(crate) fn push_variable(
    text: &mut Vec<u8>,
    names: &Names,
    name: Name,
    index: u32,
) -> Result<(), AllocError>
    ensures { OnOk result (text.new.items ≡ text.old.items ++ spec.variable_text names.now name index) }
{
    push_text_of_name(text, names, name)?;
    push_index(text, index)?;
    Ok(())
}

/// Appends the name of a type constructor and a blank.
pub(crate) fn push_typ_name(text: &mut Vec<u8>, names: &Names, name: Name) -> Result<(), AllocError>
    ensures { OnOk result (text.new.items ≡ text.old.items ++ spaced (spec.typ_name_text names.now name)) }
{
    if name == Name::FUN {
        text.extend_from_slice(b"fun ")?;
        return Ok(());
    }
    if name == Name::PROP {
        text.extend_from_slice(b"prop ")?;
        return Ok(());
    }
    push_name(text, names, name)
}

/// Appends the name of a constant and a blank.
pub(crate) fn push_constant_name(
    text: &mut Vec<u8>,
    names: &Names,
    name: Name,
) -> Result<(), AllocError>
    ensures { OnOk result (text.new.items ≡ text.old.items ++ spaced (spec.constant_name_text names.now name)) }
{
    if name == Name::ALL {
        text.extend_from_slice(b"all ")?;
        return Ok(());
    }
    if name == Name::IMP {
        text.extend_from_slice(b"imp ")?;
        return Ok(());
    }
    if name == Name::EQ {
        text.extend_from_slice(b"eq ")?;
        return Ok(());
    }
    if name == Name::PROTECT {
        text.extend_from_slice(b"protect ")?;
        return Ok(());
    }
    push_name(text, names, name)
}
