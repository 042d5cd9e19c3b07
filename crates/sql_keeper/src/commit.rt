ghost use Rattle.std.specs.Prelude.{OnOk, OnErr};
ghost use Rattle.sqlite.specs.Held.{state};
ghost use Rattle.cloud_keeper.specs.Keeping.{put};
ghost use Rattle.sql_keeper.specs.Schema.{rows_schema};
ghost use Rattle.sql_keeper.specs.KeptRows.{told_at, stop_at, StopsAsBefore, ToldFollow, StillTold, Changed};
ghost use Rattle.sql_keeper.specs.KeptRows.{LeavesTold, IsOver};

use crate::fault::keep_fault;
use crate::own::is_over_rows;
use crate::statements::{prepare_upsert, run_upsert};
use cloud_keeper::{KeepFault, Row};
use sqlite::{Alter, Connection};

// Keeps a row in the table.
fn upsert_row<S: Alter>(conn: &mut Connection<S>, row: &Row) -> Result<(), KeepFault>
    requires over { IsOver rows_schema (state S.Store conn.old) }
    ensures kept { OnOk result (ToldFollow (told_at S.Store conn.old) (told_at S.Store conn.new)
        (put row.now)) }
    ensures same { OnErr result (ToldFollow (told_at S.Store conn.old) (told_at S.Store conn.new)
        (λ rows. rows)) }
    ensures tells { OnOk result (StillTold (told_at S.Store conn.old) (told_at S.Store conn.new)
        (stop_at S.Store conn.new) (put row.now)) }
    ensures stops { StopsAsBefore (stop_at S.Store conn.old) (stop_at S.Store conn.new)
        (Changed (told_at S.Store conn.old) (put row.now)) }
    ensures settled { OnOk result (LeavesTold (told_at S.Store conn.new) (stop_at S.Store conn.new)) }
{
    let statement = match prepare_upsert(conn) {
        Ok(statement) => statement,
        Err(error) => return Err(keep_fault(error)),
    };
    match run_upsert(conn, &statement, row) {
        Ok(_) => Ok(()),
        Err(error) => Err(keep_fault(error)),
    }
}

/// Keeps a row, where the database has the table of the rows alone. Over any other database it fails.
pub fn commit_row<S: Alter>(conn: &mut Connection<S>, row: &Row) -> Result<(), KeepFault>
    ensures kept { OnOk result (ToldFollow (told_at S.Store conn.old) (told_at S.Store conn.new)
        (put row.now)) }
    ensures same { OnErr result (ToldFollow (told_at S.Store conn.old) (told_at S.Store conn.new)
        (λ rows. rows)) }
    ensures tells { OnOk result (StillTold (told_at S.Store conn.old) (told_at S.Store conn.new)
        (stop_at S.Store conn.new) (put row.now)) }
    ensures stops { StopsAsBefore (stop_at S.Store conn.old) (stop_at S.Store conn.new)
        (Changed (told_at S.Store conn.old) (put row.now)) }
    ensures settled { OnOk result (LeavesTold (told_at S.Store conn.new) (stop_at S.Store conn.new)) }
{
    if !is_over_rows(conn) {
        return Err(KeepFault::StoreFailed);
    }
    upsert_row(conn, row)
}
