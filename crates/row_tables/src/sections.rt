//! The rows of one kind.

ghost use Rattle.std.specs.Prelude.{◌≡◌, ◌+◌, ◌<◌, ◌≤◌, ◌^◌, length, drop, IfOk, OnOk};
ghost use Rattle.row_formats.specs.Exact.{IsBytes};
ghost use Rattle.row_tables.specs.Sections.{GivesRow, AreBytes, body_of, row_at, section_at};

use crate::stored::{BadRow, LoadFault};
use cloud_keeper::Row;
use row_codec::{Stored, read_body};
use row_formats::{ReadError, RowFault};
use row_index::Keyed;
use share_graph::Rows;
use std::alloc::Global;

// A row, whose number has to be the next.
fn row_of<T: Stored + Drop>(
    alloc: Global,
    row: &Row,
    index: usize,
    next: u32,
    limit: u32,
) -> Result<T, LoadFault>
    ensures exact { GivesRow (λ x. x) result (row_at limit (body_of T.format) next index row.now) }
    ensures bytes { OnOk result (IsBytes row.now.body) }
    ensures limited { OnOk result (next ≤ limit) }
{
    if row.num != next || next > limit {
        let fault = RowFault::BadField(0);
        return Err(LoadFault::BadRow(BadRow { index, fault }));
    }
    match read_body(alloc, next, row.body.as_slice()) {
        Ok(value) => Ok(value),
        Err(ReadError::Memory) => Err(LoadFault::Memory),
        Err(ReadError::Fault(fault)) => Err(LoadFault::BadRow(BadRow { index, fault })),
    }
}

/// Reads the rows of a kind from an index on, and gives the index behind them, too.
pub(crate) fn section_of<T: Stored + Keyed + Drop>(
    alloc: Global,
    rows: &[Row],
    from: usize,
    kind: u8,
    limit: u32,
) -> Result<(Rows<T>, usize), LoadFault>
    requires within { from ≤ length rows.now }
    requires limited { limit < 2 ^ 31 }
    ensures within { IfOk result (λ x. x.1 ≤ length rows.now) }
    ensures bytes { IfOk result (λ x. AreBytes rows.now from → AreBytes rows.now x.1) }
    ensures exact { GivesRow (λ x. (x.0, (x.1, drop x.1 rows.now))) result
        (section_at kind limit (body_of T.format) 1 from (drop from rows.now)) }
{
    let mut values = Rows::empty(alloc);
    let mut at = from;
    let mut next = 1;
    while at < rows.len() && rows[at].kind == kind {
        let value = row_of(alloc, &rows[at], at, next, limit)?;
        values.push(value)?;
        at += 1;
        next += 1;
    }
    Ok((values, at))
}
