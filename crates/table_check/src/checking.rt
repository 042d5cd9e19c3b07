ghost use Rattle.std.specs.Prelude.{◌≡◌, MatchResult, Some};
ghost use Rattle.share_graph.specs.Checked.{HaveNoFault, IsFirstFault, TablesFault, IsChecked};
ghost use Rattle.share_graph.specs.Forms.{IsOne};

use crate::faults::CheckedRow;
use share_graph::{GraphFault, Tables};

// The first fault of rows: that of the first row that has one.
fn check_rows<R: CheckedRow>(tables: &Tables, rows: &[R]) -> Result<(), GraphFault>
    ensures { MatchResult result (λ _.
        HaveNoFault rows.now (R.has tables.now)) (IsFirstFault rows.now (R.has tables.now)) }
{
    for (place, row) in rows.iter().enumerate() {
        match row.first_fault(tables, place) {
            None => {}
            Some(fault) => return Err(fault),
        }
    }
    Ok(())
}

/// The first fault of tables: by kind of row, then by number, then in the order of the faults.
pub fn check_tables(tables: &Tables) -> Result<(), GraphFault>
    ensures first { MatchResult result (λ _. IsChecked tables.now) (λ fault.
        TablesFault tables.now (Some fault)) }
    ensures one { IsOne (TablesFault tables.now) }
{
    check_rows(tables, tables.accounts.as_slice())?;
    check_rows(tables, tables.apps.as_slice())?;
    check_rows(tables, tables.grains.as_slice())?;
    check_rows(tables, tables.grants.as_slice())?;
    check_rows(tables, tables.saved.as_slice())
}
