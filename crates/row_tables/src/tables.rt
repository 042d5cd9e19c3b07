//! The tables of rows.

ghost use Rattle.std.specs.Prelude.{◌≡◌, ◌<◌, ◌≤◌, ◌^◌, length, drop, Ok, IfOk, OnOk};
ghost use Rattle.share_graph.specs.Checked.{IsChecked};
ghost use Rattle.share_graph.specs.WellFormed.{IsWithinLimits};
ghost use Rattle.share_graph.specs.declared.state.Tables.{Tables};
ghost use Rattle.row_tables.specs.Sections.{GivesRow, AreBytes};
ghost use Rattle.row_tables.specs.Checks.{GivesTables};
ghost use Rattle.row_tables.specs.TablesRows.{tables_of, at_start, ended_rows};
ghost use Rattle.row_tables.specs.Kept.{AreRowsOf};
ghost use Rattle.row_tables.specs.Numbered.{TablesAreNumbered};

use crate::checking::bad_ref;
use crate::sections::section_of;
use crate::stored::{BadRow, LoadFault};
use cloud_keeper::Row;
use row_formats::RowFault;
use share_graph::Tables;
use std::alloc::Global;
use table_check::check_tables;

// Behind the last kind no row may stand.
fn ended(tables: Tables, rows: &[Row], at: usize) -> Result<Tables, LoadFault>
    ensures exact { GivesRow (λ t. t) result (ended_rows tables at (drop at rows.now)) }
    ensures all { OnOk result (length rows.now ≤ at) }
{
    if at < rows.len() {
        let fault = RowFault::BadField(0);
        return Err(LoadFault::BadRow(BadRow { index: at, fault }));
    }
    Ok(tables)
}

// The rows, read from the first to the last.
#[tactic(auto, unfolding(crate::specs::TablesRows::tables_of))]
fn read_all(alloc: Global, rows: &[Row]) -> Result<Tables, LoadFault>
    ensures exact { GivesRow (λ t. t) result (tables_of rows.now) }
    ensures bytes { OnOk result (AreBytes rows.now (length rows.now)) }
{
    let (accounts, at) = section_of(alloc, rows, 0, 1, 4096)?;
    let (apps, at) = section_of(alloc, rows, at, 2, 256)?;
    let (grains, at) = section_of(alloc, rows, at, 3, 16384)?;
    let (grants, at) = section_of(alloc, rows, at, 4, 65536)?;
    let (saved, at) = section_of(alloc, rows, at, 5, 65536)?;
    let tables = Tables {
        accounts,
        apps,
        grains,
        grants,
        saved,
        moment: 0,
    };
    ended(tables, rows, at)
}

// The tables that rows state, before they are checked.
fn read_unchecked(alloc: Global, rows: &[Row]) -> Result<Tables, LoadFault>
    ensures found { IfOk result (λ t. AreRowsOf t rows.now) }
    ensures limits { IfOk result IsWithinLimits }
    ensures exact { GivesRow (λ t. t) result (tables_of rows.now) }
{
    read_all(alloc, rows)
}

// The tables that rows state, where they have no fault.
fn read_checked(alloc: Global, rows: &[Row]) -> Result<Tables, LoadFault>
    ensures found { IfOk result (λ t. AreRowsOf t rows.now) }
    ensures limits { IfOk result IsWithinLimits }
    ensures exact { GivesTables result rows.now }
{
    let tables = read_unchecked(alloc, rows)?;
    match check_tables(&tables) {
        Ok(()) => Ok(tables),
        Err(fault) => Err(LoadFault::BadRow(bad_ref(&tables, fault))),
    }
}

/// Reads the tables that rows state, at a start.
///
/// # Errors
/// Want of memory, and the first bad row.
pub fn tables_of(alloc: Global, rows: &[Row]) -> Result<Tables, LoadFault>
    // What is read has these rows, is within the limits, has no fault, and each row of it carries its number.
    ensures found { IfOk result (λ t. AreRowsOf t rows.now) }
    ensures limits { IfOk result IsWithinLimits }
    ensures checked { IfOk result IsChecked }
    ensures numbered { IfOk result TablesAreNumbered }

    // The moment is that of a start.
    ensures moment { IfOk result (λ t. t.moment ≡ 0) }

    // Tables without a fault are read of their rows, with the moment of a start, unless memory runs out.
    ensures only { (t : Tables) → AreRowsOf t rows.now → IsChecked t
        → GivesRow (λ u. u) result (Ok (at_start t)) }

    // Which row is bad first, and how.
    ensures exact { GivesTables result rows.now }
{
    read_checked(alloc, rows)
}
