//! Theorems as lines of text.
use crate::stop::Stop;
use pure_kernel::{NamesByBase, Term, print_term};
use std::alloc::Global;
use std::str::from_utf8;

/// Prints a name and a proposition.
pub(crate) fn print_line<R: Print>(
    rt: &R,
    alloc: Global,
    names: &NamesByBase,
    name: &str,
    prop: &Term,
) -> Result<(), Stop> {
    let text = print_term(alloc, names.names(), prop)?;
    let shown = from_utf8(text.bytes()).unwrap_or("no text");
    println!(rt; "{name}: {shown}")?;
    Ok(())
}
