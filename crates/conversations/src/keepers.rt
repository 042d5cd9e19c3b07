//! The rows that a conversation begins with, and what keeps them.

use crate::conversation::Conversation;
use cloud_keeper::{Keeper, MemKeeper, Row};
use host_base::{Bytes, Fails};
use plain_data::List;
use row_tables::rows_of;
use small_book::small_book;
use std::alloc::Global;
use test_words::Fault;

// Puts a row in the place of the one of its kind and number, or behind all others.
fn put_row(alloc: Global, rows: &mut Vec<Row>, row: &Row) -> Result<(), Fault> {
    let body = Bytes::copy_of(alloc, row.body.as_slice())?;
    let place = rows
        .iter()
        .position(|other| other.kind == row.kind && other.num == row.num);
    match place {
        Some(place) => {
            if let Some(other) = rows.get_mut(place) {
                other.body = body;
            }
        }
        None => rows.push(Row {
            kind: row.kind,
            num: row.num,
            body,
        })?,
    }
    Ok(())
}

/// The rows that a conversation begins with.
pub fn first_rows(alloc: Global, conversation: &Conversation) -> Result<Vec<Row>, Fault> {
    let mut rows = Vec::new(alloc);
    if !conversation.kept.empty {
        let book = small_book(alloc)?;
        rows = rows_of(alloc, &book.tables)?;
    }
    for row in &conversation.kept.first {
        put_row(alloc, &mut rows, row)?;
    }
    Ok(rows)
}

/// A keeper in memory that has these rows, in their order, and fails at these calls.
pub fn list_of(alloc: Global, rows: &[Row], fails: Fails) -> Result<MemKeeper, Fault> {
    let mut keeper = MemKeeper::new(Vec::new(alloc), List::empty(alloc));
    for row in rows {
        if keeper.commit(alloc, row).is_err() {
            return Err(Fault::Memory);
        }
    }
    match keeper.load(alloc) {
        Ok(rows) => Ok(MemKeeper::new(rows, fails)),
        Err(_) => Err(Fault::Memory),
    }
}
