//! The names in a listing of a directory.
ghost use Rattle.std.specs.Prelude.{◌≡◌, IfOk};
ghost use Rattle.std.specs.Iterator.{IsFinite};
ghost use Rattle.pure_io.specs.Entries.{ListsWithin, ListsPast};

use crate::library::LibFault;
use pure_text::Text;
use std::alloc::Global;

/// The names of all entries, those that aren't UTF-8 passed over. Fails past `limit` entries.
pub(crate) fn names_within<I: Iterator<Item = Result<Option<Text>, LibFault>> + Drop>(
    alloc: Global,
    entries: I,
    limit: usize,
) -> Result<Vec<Text>, LibFault>
    requires can { I.can_next entries }
    requires ends { IsFinite (I.remaining entries) }
    ensures all { IfOk result (λ ns. ListsWithin I.next_gives entries limit ns.items) }
    ensures failed { result ≡ Err LibFault.Failed → ListsPast I.next_gives entries limit }
{
    let mut names = Vec::new(alloc);
    let mut count = 0;
    for entry in entries {
        if count == limit {
            return Err(LibFault::Failed);
        }
        count += 1;
        match entry {
            Ok(Some(name)) => {
                if names.push(name).is_err() {
                    return Err(LibFault::Memory);
                }
            }
            Ok(None) => {}
            Err(fault) => return Err(fault),
        }
    }
    Ok(names)
}
