//! One row of the tables.

ghost use Rattle.std.specs.Prelude.{◌≡◌, ◌+◌, ◌-◌, Some, IfOk, option_map, slice_get};
ghost use Rattle.std.specs.Option.{option_copied};
ghost use Rattle.row_tables.specs.Sections.{stored};
ghost use Rattle.row_tables.specs.Checks.{start_of};
ghost use Rattle.row_tables.specs.RowOf.{row_of};
ghost use Rattle.row_tables.specs.TablesRows.{rows_of};
ghost use Rattle.cloud_keeper.specs.declared.row.Row.{Row};

use crate::writing::stored;
use cloud_keeper::Row;
use host_base::{AccountId, AppId, GrainId, GrantId, Memory, SavedId};
use row_codec::Stored;
use share_graph::{Kind, Tables, account, app, grain, grant, saved};
use std::alloc::Global;

// The row of a kind and a number that a value is written as, if there is one.
fn stored_if<T: Stored>(
    alloc: Global,
    kind: u8,
    num: u32,
    value: Option<&T>,
) -> Result<Option<Row>, Memory>
    ensures { IfOk result (λ r. r ≡ option_map (stored kind T.format num) (option_copied value.entry)) }
{
    match value {
        Some(value) => Ok(Some(stored(alloc, kind, num, value)?)),
        None => Ok(None),
    }
}

// The row of a kind and a number, if the tables have it.
fn row_of(alloc: Global, tables: &Tables, kind: Kind, num: u32) -> Result<Option<Row>, Memory>
    ensures { IfOk result (λ r. r ≡ row_of tables.now kind num) }
{
    match kind {
        Kind::Account => stored_if(alloc, 1, num, account(tables, AccountId(num))),
        Kind::App => stored_if(alloc, 2, num, app(tables, AppId(num))),
        Kind::Grain => stored_if(alloc, 3, num, grain(tables, GrainId(num))),
        Kind::Grant => stored_if(alloc, 4, num, grant(tables, GrantId(num))),
        Kind::Saved => stored_if(alloc, 5, num, saved(tables, SavedId(num))),
        _ => Ok(None),
    }
}

/// Writes the row of a kind and a number, which the tables have.
#[tactic(auto, using(crate::proofs::Places::row_there))]
pub fn row_bytes(alloc: Global, tables: &Tables, kind: Kind, num: u32) -> Result<Row, Memory>
    requires { (row : Row) × (row_of tables.now kind num ≡ Some row) }
    ensures row { IfOk result (λ row. row_of tables.now kind num ≡ Some row) }

    // Where it stands among the rows of all tables.
    ensures place { IfOk result (λ row. slice_get (rows_of tables.now) (start_of tables.now kind + (num - 1))
        ≡ Some row) }
{
    match row_of(alloc, tables, kind, num)? {
        Some(row) => Ok(row),
        None => unreachable!(),
    }
}
