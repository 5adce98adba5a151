//! The rows of files that are refused.
ghost use Rattle.std.specs.Prelude.{◌≡◌, ◌++◌, List, IfOk, OnOk, map};
ghost use Rattle.pure_print.specs.declared.row.Row as print;
ghost use Rattle.pure_session.specs.Refused.{seen_refused, all_refused};
ghost use Rattle.pure_table.specs.Table.{refusal_row};

use crate::taking::TakesRows;
use pure_print::Row;
use pure_session::RefusedFile;
use pure_theory_run::refused_theory;
use std::alloc::{AllocError, Global};

/// The row of a file that is refused.
fn refused_row(alloc: Global, file: &RefusedFile) -> Result<Row, AllocError>
    ensures { IfOk result (λ row. row ≡ refusal_row (seen_refused file.now)) }
{
    refused_theory(alloc, file.name.bytes(), file.reason.bytes())
}

/// Puts the rows of files that are refused behind the others.
pub(crate) fn put_refused<T: TakesRows>(
    alloc: Global,
    table: &mut T,
    refused: &[RefusedFile],
) -> Result<(), AllocError>
    ensures { OnOk result ((rows : List print.Row) → T.holds table.old rows → T.holds table.new (rows ++ map refusal_row (all_refused refused.now))) }
{
    for file in refused {
        let row = refused_row(alloc, file)?;
        table.take_row(alloc, &row)?;
    }
    Ok(())
}
