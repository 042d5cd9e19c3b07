ghost use Rattle.std.specs.Prelude.{◌≡◌, List, Some, IfOk, OnOk};
ghost use Rattle.sqlite.specs.Held.{state};
ghost use Rattle.cloud_keeper.specs.declared.row.Row.{Row};
ghost use Rattle.cloud_keeper.specs.Keeping.{NoOther};
ghost use Rattle.sql_keeper.specs.Schema.{no_schema, rows_schema};
ghost use Rattle.sql_keeper.specs.KeptRows.{told_at, stop_at, StopsAsBefore, ToldFollow, StillTold, LeavesTold, IsOver};

use crate::fault::keep_fault;
use crate::own::{is_over_nothing, is_over_rows};
use crate::statements::{prepare_create, run_create, select_rows};
use crate::stored::ordered_rows_of;
use cloud_keeper::{KeepFault, Row};
use sqlite::{Alter, Connection};
use std::alloc::Global;

// Makes the table in an empty database.
fn make_table<S: Alter>(conn: &mut Connection<S>) -> Result<(), KeepFault>
    requires { IsOver no_schema (state S.Store conn.old) }
    ensures same { ToldFollow (told_at S.Store conn.old) (told_at S.Store conn.new) (λ rows. rows) }
    ensures tells { OnOk result (StillTold (told_at S.Store conn.old) (told_at S.Store conn.new)
        (stop_at S.Store conn.new) (λ rows. rows)) }
    ensures stops { StopsAsBefore (stop_at S.Store conn.old) (stop_at S.Store conn.new) NoOther }
{
    let statement = match prepare_create(conn) {
        Ok(statement) => statement,
        Err(error) => return Err(keep_fault(error)),
    };
    match run_create(conn, &statement) {
        Ok(_) => Ok(()),
        Err(error) => Err(keep_fault(error)),
    }
}

// Makes the table where the database is empty.
fn make_if_missing<S: Alter>(conn: &mut Connection<S>) -> Result<(), KeepFault>
    ensures same { ToldFollow (told_at S.Store conn.old) (told_at S.Store conn.new) (λ rows. rows) }
    ensures tells { OnOk result (StillTold (told_at S.Store conn.old) (told_at S.Store conn.new)
        (stop_at S.Store conn.new) (λ rows. rows)) }
    ensures stops { StopsAsBefore (stop_at S.Store conn.old) (stop_at S.Store conn.new) NoOther }
{
    if is_over_nothing(conn) {
        make_table(conn)
    } else {
        Ok(())
    }
}

// All rows of the table.
fn read_table<S: Alter>(alloc: Global, conn: &mut Connection<S>) -> Result<Vec<Row>, KeepFault>
    requires { IsOver rows_schema (state S.Store conn.old) }
    ensures loaded { (rows : List Row) → told_at S.Store conn.new ≡ Some rows
        → IfOk result (λ loaded. loaded.items ≡ rows) }
    ensures same { ToldFollow (told_at S.Store conn.old) (told_at S.Store conn.new) (λ rows. rows) }
    ensures tells { OnOk result (StillTold (told_at S.Store conn.old) (told_at S.Store conn.new)
        (stop_at S.Store conn.new) (λ rows. rows)) }
    ensures stops { StopsAsBefore (stop_at S.Store conn.old) (stop_at S.Store conn.new) NoOther }
    ensures settled { OnOk result (LeavesTold (told_at S.Store conn.new) (stop_at S.Store conn.new)) }
{
    match select_rows(conn) {
        Ok(stored) => ordered_rows_of(alloc, stored.as_slice()),
        Err(error) => Err(keep_fault(error)),
    }
}

/// All rows of the table, which is made where the database is empty. Over any other database it fails.
pub fn load_rows<S: Alter>(alloc: Global, conn: &mut Connection<S>) -> Result<Vec<Row>, KeepFault>
    ensures loaded { (rows : List Row) → told_at S.Store conn.new ≡ Some rows
        → IfOk result (λ loaded. loaded.items ≡ rows) }
    ensures same { ToldFollow (told_at S.Store conn.old) (told_at S.Store conn.new) (λ rows. rows) }
    ensures tells { OnOk result (StillTold (told_at S.Store conn.old) (told_at S.Store conn.new)
        (stop_at S.Store conn.new) (λ rows. rows)) }
    ensures stops { StopsAsBefore (stop_at S.Store conn.old) (stop_at S.Store conn.new) NoOther }
    ensures settled { OnOk result (LeavesTold (told_at S.Store conn.new) (stop_at S.Store conn.new)) }
{
    match make_if_missing(conn) {
        Ok(()) => {}
        Err(fault) => return Err(fault),
    }
    if !is_over_rows(conn) {
        return Err(KeepFault::StoreFailed);
    }
    read_table(alloc, conn)
}
