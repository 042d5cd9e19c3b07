//! Rows of keepers of rows.

use cloud_keeper::{Keeper, MemKeeper, Row};
use host_base::{Bytes, Fails};
use plain_data::List;
use row_tables::{LoadFault, rows_of, tables_of};
use small_book::small_book;
use std::alloc::Global;
use test_words::{Fault, byte, digits_of, numbers, small};

// The rows that a keeper loads, or its fault.
fn loaded(alloc: Global, kept: &mut MemKeeper) -> Result<String, Fault> {
    let mut text = String::new(alloc);
    match kept.load(alloc) {
        Ok(rows) => {
            for row in &rows {
                let body = hex::encode(alloc, row.body.as_slice())?;
                let line = format!(in alloc; "{} {} {body}", row.kind, row.num)?;
                writeln!(text, "{}", line.as_str().trim_end())?;
            }
        }
        Err(fault) => writeln!(text, "{fault}")?,
    }
    Ok(text)
}

// The row that words state: its kind, its number, and its body.
fn row_of(alloc: Global, text: &str) -> Result<Row, Fault> {
    let (kind, rest) = text.split_once(' ').ok_or(Fault::Unreadable)?;
    let (num, digits) = rest.split_once(' ').unwrap_or((rest, ""));
    Ok(Row {
        kind: byte(kind)?,
        num: small(num)?,
        body: Bytes::new(digits_of(alloc, digits)?),
    })
}

// Keeps the row that words state.
fn committed(alloc: Global, kept: &mut MemKeeper, text: &str) -> Result<String, Fault> {
    let row = row_of(alloc, text)?;
    match kept.commit(alloc, &row) {
        Ok(()) => Ok(String::new(alloc)),
        Err(fault) => Ok(format!(in alloc; "{fault}\n")?),
    }
}

// A keeper in memory that has the rows of the small book.
#[tactic(auto, using(row_tables::proofs::InOrder::rows_in_order))]
fn book_keeper(alloc: Global) -> Result<MemKeeper, Fault> {
    let book = small_book(alloc)?;
    let rows = rows_of(alloc, &book.tables)?;
    Ok(MemKeeper::new(rows, List::empty(alloc)))
}

// What the rows of a keeper state: how many rows of each kind, or the first one that is bad.
fn stated(alloc: Global, kept: &mut MemKeeper) -> Result<String, Fault> {
    let Ok(rows) = kept.load(alloc) else {
        return Err(Fault::Unreadable);
    };
    match tables_of(alloc, rows.as_slice()) {
        Ok(tables) => Ok(format!(in alloc;
            "accounts {} apps {} grains {} grants {} saved {}\n",
            tables.accounts.as_slice().len(),
            tables.apps.as_slice().len(),
            tables.grains.as_slice().len(),
            tables.grants.as_slice().len(),
            tables.saved.as_slice().len()
        )?),
        Err(LoadFault::BadRow(bad)) => Ok(format!(in alloc; "{bad}\n")?),
        Err(LoadFault::Memory) => Err(Fault::Memory),
    }
}

// The calls that words number.
fn calls_of(alloc: Global, text: &str) -> Result<Fails, Fault> {
    Ok(List::new(numbers(alloc, text)?))
}

/// A keeper in memory without rows, which fails at these calls.
pub fn empty_keeper(alloc: Global, fails: Fails) -> MemKeeper {
    MemKeeper::new(Vec::new(alloc), fails)
}

// A keeper of the same rows, which fails at the calls that words number.
fn again(alloc: Global, kept: &mut MemKeeper, text: &str) -> Result<MemKeeper, Fault> {
    match kept.load(alloc) {
        Ok(rows) => Ok(MemKeeper::new(rows, calls_of(alloc, text)?)),
        Err(_) => Err(Fault::Unreadable),
    }
}

/// What a row of a keeper comes to, and how many faults the keeper has counted where it has any.
pub fn kept_by(
    alloc: Global,
    kept: &mut MemKeeper,
    word: &str,
    rest: &str,
) -> Result<String, Fault> {
    let mut text = String::new(alloc);
    match word {
        "mem" => *kept = empty_keeper(alloc, calls_of(alloc, rest)?),
        "stored" => *kept = book_keeper(alloc)?,
        "tables" => text = stated(alloc, kept)?,
        "again" => *kept = again(alloc, kept, rest)?,
        "commit" => text = committed(alloc, kept, rest)?,
        "load" => text = loaded(alloc, kept)?,
        _ => return Err(Fault::Unreadable),
    }
    match kept.faults() {
        0 => Ok(text),
        faults => {
            writeln!(text, "faults {faults}")?;
            Ok(text)
        }
    }
}
