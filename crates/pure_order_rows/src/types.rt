//! Types, in which a constructor stands in front of what it takes: `'cd` and `"cd` are a fixed and a schematic type
//! variable of the sort {c, d}, I takes nothing, P two types, and every other constructor one; one that stands before fewer takes these.
use crate::sorts::{class, constructor, sort_of};
use pure_rows::Fault;
use pure_typ::{Name, Sort, Typ, TypNode};
use std::alloc::Global;

/// What was read of a type's text from its end: types that no constructor has taken yet, and the classes before them.
#[derive(Drop)]
struct Reader {
    typs: Vec<Typ>,
    classes: Vec<Name>,
}

/// The sort of the classes that were read last.
fn take_sort(alloc: Global, reader: &mut Reader) -> Result<Sort, Fault> {
    let mut classes = Vec::new(alloc);
    for class in reader.classes.iter().rev() {
        classes.push(*class)?;
    }
    reader.classes.clear();
    sort_of(alloc, classes)
}

/// The type of the constructor applied to so many of the types that were read, or to all where there are fewer.
fn take_args(alloc: Global, reader: &mut Reader, con: Name, count: u32) -> Result<Typ, Fault> {
    let mut args = Vec::new(alloc);
    for _ in 0..count {
        if let Some(typ) = reader.typs.pop() {
            args.push(typ)?;
        }
    }
    Ok(Typ::constructed(alloc, con, args)?)
}

/// The fixed type variable with the classes that were read.
fn fixed(alloc: Global, reader: &mut Reader) -> Result<Typ, Fault> {
    let name = Name(0);
    let sort = take_sort(alloc, reader)?;
    let node = TypNode::TFree { name, sort };
    Ok(Typ { node })
}

/// The schematic type variable with the classes that were read.
fn schematic(alloc: Global, reader: &mut Reader) -> Result<Typ, Fault> {
    let (name, index) = (Name(0), 0);
    let sort = take_sort(alloc, reader)?;
    let node = TypNode::TVar { name, index, sort };
    Ok(Typ { node })
}

/// The type that begins with the byte.
fn typ_from(alloc: Global, reader: &mut Reader, byte: u8) -> Result<Typ, Fault> {
    match byte {
        b'\'' => fixed(alloc, reader),
        b'"' => schematic(alloc, reader),
        b'I' => take_args(alloc, reader, constructor(byte)?, 0),
        b'P' => take_args(alloc, reader, constructor(byte)?, 2),
        _ => take_args(alloc, reader, constructor(byte)?, 1),
    }
}

/// Reads one byte more, in front of what was read.
fn read_byte(alloc: Global, reader: &mut Reader, byte: u8) -> Result<(), Fault> {
    if byte.is_ascii_lowercase() {
        reader.classes.push(class(byte)?)?;
    } else {
        let typ = typ_from(alloc, reader, byte)?;
        reader.typs.push(typ)?;
    }
    Ok(())
}

/// The type in the text.
pub(crate) fn typ(alloc: Global, text: &[u8]) -> Result<Typ, Fault> {
    let mut reader = Reader {
        typs: Vec::new(alloc),
        classes: Vec::new(alloc),
    };
    for byte in text.iter().rev() {
        read_byte(alloc, &mut reader, *byte)?;
    }
    match reader.typs.pop() {
        Some(typ) if reader.typs.is_empty() && reader.classes.is_empty() => Ok(typ),
        _ => Err(Fault::Unreadable),
    }
}
