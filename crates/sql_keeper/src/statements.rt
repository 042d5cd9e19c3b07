ghost use Rattle.std.specs.Prelude.{◌≡◌, ◌<◌, ◌^◌, [], IfOk, IfErr, IsTrue, List};
ghost use Rattle.sqlite_trees.specs.Tree.{Trees};
ghost use Rattle.sqlite.specs.Held.{state};
ghost use Rattle.sqlite.specs.State.{HasCleanDisk, Executes, Shown, Survives, CommitsBy, CommitsShowing};
ghost use Rattle.sqlite.specs.State.{FailsToQuery, IsNotRun, IsUnchanged};
ghost use Rattle.sql_keeper.specs.Statements.{create_text, upsert_text, select_text, values_of};

use cloud_keeper::Row;
use sqlite::{Alter, Connection, Error, Row as StoredRow, Statement, params};

// A row of the table is a row that is kept. Its key is its kind and its number.
const CREATE: &str =
    "CREATE TABLE IF NOT EXISTS rows(kind INTEGER NOT NULL, num INTEGER NOT NULL, body BLOB NOT NULL, PRIMARY KEY(kind, num)) STRICT";

const UPSERT: &str =
    "INSERT INTO rows(kind, num, body) VALUES (?1, ?2, ?3) ON CONFLICT(kind, num) DO UPDATE SET body = excluded.body";

const SELECT: &str = "SELECT kind, num, body FROM rows ORDER BY kind, num";

/// Compiles the statement that makes the table. It commits nothing, and at Ok the connection is open.
pub fn prepare_create<S: Alter>(conn: &mut Connection<S>) -> Result<Statement, Error>
    ensures ready { HasCleanDisk (state S.Store conn.new)
        → IfOk result (λ s. IsUnchanged (state S.Store conn.old) (state S.Store conn.new)) }
    ensures text { HasCleanDisk (state S.Store conn.new) → IfOk result (λ s. s.text ≡ create_text) }
    ensures refused { HasCleanDisk (state S.Store conn.new)
        → IfErr result (λ e. IsNotRun (state S.Store conn.old) (state S.Store conn.new) create_text [] e) }
    ensures survives { Survives (state S.Store conn.old) (state S.Store conn.new) (λ _. ⊥) }
    ensures stays { IsTrue (state S.Store conn.new).is_open
        → (state S.Store conn.new).may_leave (state S.Store conn.new).committed.trees }
{
    conn.prepare(CREATE)
}

/// Makes the table.
pub fn run_create<S: Alter>(conn: &mut Connection<S>, statement: &Statement) -> Result<usize, Error>
    ensures runs { HasCleanDisk (state S.Store conn.new)
        → Executes statement.now.text [] (state S.Store conn.old) (state S.Store conn.new) result }
    ensures survives { Survives (state S.Store conn.old) (state S.Store conn.new)
        (CommitsBy statement.now.text [] (state S.Store conn.old)) }
{
    statement.execute(conn, &[])
}

/// Compiles the statement that keeps one row. It commits nothing, and at Ok the connection is open.
pub fn prepare_upsert<S: Alter>(conn: &mut Connection<S>) -> Result<Statement, Error>
    ensures ready { HasCleanDisk (state S.Store conn.new)
        → IfOk result (λ s. IsUnchanged (state S.Store conn.old) (state S.Store conn.new)) }
    ensures text { HasCleanDisk (state S.Store conn.new) → IfOk result (λ s. s.text ≡ upsert_text) }
    ensures refused { HasCleanDisk (state S.Store conn.new)
        → IfErr result (λ e. IsNotRun (state S.Store conn.old) (state S.Store conn.new) upsert_text [] e) }
    ensures survives { Survives (state S.Store conn.old) (state S.Store conn.new) (λ _. ⊥) }
{
    conn.prepare(UPSERT)
}

/// Adds a row, or replaces the body of the one of its kind and number. While the connection is open, a stop leaves the last
/// commit alone.
pub fn run_upsert<S: Alter>(
    conn: &mut Connection<S>,
    statement: &Statement,
    row: &Row,
) -> Result<usize, Error>
    ensures runs { HasCleanDisk (state S.Store conn.new)
        → Executes statement.now.text (values_of row.now) (state S.Store conn.old)
        (state S.Store conn.new) result }
    ensures survives { Survives (state S.Store conn.old) (state S.Store conn.new)
        (CommitsBy statement.now.text (values_of row.now) (state S.Store conn.old)) }
    ensures settled { (db : Trees) → IsTrue (state S.Store conn.new).is_open
        → (state S.Store conn.new).may_leave db → db ≡ (state S.Store conn.new).committed.trees }
    ensures in_range { (row.now.kind < 2 ^ 8) × (row.now.num < 2 ^ 32) }
{
    statement.execute(
        conn,
        params![u32::from(row.kind), row.num, row.body.as_slice()],
    )
}

/// All rows of the table, by kind and then by number. While the connection is open, a stop leaves the last commit alone.
pub fn select_rows<S: Alter>(conn: &mut Connection<S>) -> Result<Vec<StoredRow>, Error>
    ensures shown { HasCleanDisk (state S.Store conn.new)
        → IfOk result (λ rows. Shown select_text [] (state S.Store conn.old)
        (state S.Store conn.new) rows.items) }
    ensures unshown { HasCleanDisk (state S.Store conn.new)
        → IfErr result (FailsToQuery select_text [] (state S.Store conn.old) (state S.Store conn.new)) }
    ensures survives { Survives (state S.Store conn.old) (state S.Store conn.new)
        (CommitsShowing select_text [] (state S.Store conn.old)) }
    ensures settled { (db : Trees) → IsTrue (state S.Store conn.new).is_open
        → (state S.Store conn.new).may_leave db → db ≡ (state S.Store conn.new).committed.trees }
{
    conn.query_all(SELECT, &[])
}
