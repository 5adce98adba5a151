//! Records, replayed.
ghost use Rattle.std.specs.Prelude.{IfOk};
ghost use Rattle.pure_logic.specs.Derivable.{IsDerivableAlone};
ghost use Rattle.pure_record.specs.Seen.{seen_items, seen_lines};
ghost use Rattle.pure_replay.specs.Contents.{content_of};
ghost use Rattle.pure_replay.specs.Replayed.{IsReplayed};

use crate::fault::ReplayFault;
use crate::items::declarations;
use crate::lines::last_proposition;
use pure_record::{Item, Node, Record};
use pure_term::Term;
use std::alloc::Global;

/// The proposition of the last of the lines, over the content of the items.
fn replayed(alloc: Global, items: &[Item], nodes: &[Node]) -> Result<Term, ReplayFault>
    ensures { IsReplayed (seen_items items.now) (seen_lines nodes.now) result }
{
    match declarations(alloc, items) {
        Ok(declared) => last_proposition(alloc, &declared, nodes),
        Err(fault) => Err(fault),
    }
}

/// The proposition of the record's last line, which is derivable from the axioms of the record's content alone. Of faults the first counts:
/// `Content`, the first item such that the content up to it isn't one, or a name of its kind is declared twice; `Line`, the first line that
/// names a line that isn't earlier, has a wrong entry in a map, or concludes nothing; `Big`, the first line whose proposition passes the limits
/// of terms, or up to which the sizes of propositions and hypotheses sum to more than 2,000,000; `Empty`, where there is no line; `Open`,
/// where the last line has a hypothesis.
pub fn replay(alloc: Global, rec: &Record) -> Result<Term, ReplayFault>
    ensures answer { IsReplayed (seen_items rec.now.items.items) (seen_lines rec.now.lines.items) result }
    ensures derivable { IfOk result (IsDerivableAlone (content_of (seen_items rec.now.items.items))) }
{
    replayed(alloc, &rec.items, &rec.lines)
}
