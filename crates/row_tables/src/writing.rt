//! Tables that are written as rows.

ghost use Rattle.std.specs.Prelude.{◌≡◌, ◌+◌, ◌++◌, ◌∷◌, [], All, IfOk, OnOk};
ghost use Rattle.share_graph.specs.WellFormed.{IsWellFormed};
ghost use Rattle.share_graph.specs.declared.state.State.{State};
ghost use Rattle.row_tables.specs.Sections.{section_rows, stored, FitsOwn};
ghost use Rattle.row_tables.specs.TablesRows.{rows_of};
ghost use Rattle.row_tables.specs.Kept.{AreRowsOf};

use cloud_keeper::Row;
use host_base::Memory;
use row_codec::{Stored, write_body};
use share_graph::Tables;
use std::alloc::Global;

// The row of a kind and a number that a value is written as.
pub(crate) fn stored<T: Stored>(alloc: Global, kind: u8, num: u32, value: &T) -> Result<Row, Memory>
    ensures written { IfOk result (λ r. r ≡ stored kind T.format num value.now) }
    ensures fits { OnOk result (FitsOwn T.format T.carried T.is_countable value.now) }
{
    let body = write_body(alloc, value)?;
    Ok(Row { kind, num, body })
}

// The number behind a number. No list that fits into memory has so many rows that there is none.
fn next_number(num: u32) -> Result<u32, Memory>
    ensures { IfOk result (λ next. next ≡ num + 1) }
{
    match num.checked_add(1) {
        Some(next) => Ok(next),
        None => Err(Memory),
    }
}

// Appends a row.
fn put_row(rows: &mut Vec<Row>, row: Row) -> Result<(), Memory>
    ensures { OnOk result (rows.new.items ≡ rows.old.items ++ row ∷ []) }
{
    rows.push(row)?;
    Ok(())
}

// Appends the rows of one kind.
fn put_section<T: Stored>(
    alloc: Global,
    rows: &mut Vec<Row>,
    kind: u8,
    values: &[T],
) -> Result<(), Memory>
    ensures written { OnOk result (rows.new.items
        ≡ rows.old.items ++ section_rows kind T.format 1 values.now) }
    ensures fits { OnOk result (All (FitsOwn T.format T.carried T.is_countable) values.now) }
{
    let mut num = 1;
    for value in values {
        let row = stored(alloc, kind, num, value)?;
        put_row(rows, row)?;
        num = next_number(num)?;
    }
    Ok(())
}

/// Writes tables as rows: by kind, and then by number.
pub fn rows_of(alloc: Global, tables: &Tables) -> Result<Vec<Row>, Memory>
    ensures rows { IfOk result (λ rows. rows.items ≡ rows_of tables.now) }

    // The tables of a well-formed state have rows, so these are read back.
    ensures found { IfOk result (λ rows. (s : State) → IsWellFormed s → s.tables ≡ tables.now
        → AreRowsOf tables.now rows.items) }
{
    let mut rows = Vec::new(alloc);
    put_section(alloc, &mut rows, 1, tables.accounts.as_slice())?;
    put_section(alloc, &mut rows, 2, tables.apps.as_slice())?;
    put_section(alloc, &mut rows, 3, tables.grains.as_slice())?;
    put_section(alloc, &mut rows, 4, tables.grants.as_slice())?;
    put_section(alloc, &mut rows, 5, tables.saved.as_slice())?;
    Ok(rows)
}
