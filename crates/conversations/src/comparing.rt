//! What came otherwise than a conversation says.

use crate::conversation::{Conversation, Piece};
use cloud_keeper::{Keeper, Row};
use grain_supervise::{Ask, FakeSpawner};
use std::alloc::Global;
use test_words::Fault;

/// What came otherwise: the line that says what must come, what it is of, what was expected, and what came in its
/// place.
pub struct Difference {
    pub line: usize,
    pub of: &'static str,
    pub wanted: Vec<u8>,
    pub came: Vec<u8>,
}

// Written by hand: a proof then has one call wherever one is let go.
impl Drop for Difference {
    fn drop(self) {
        let Difference {
            line: _,
            of: _,
            wanted: _,
            came: _,
        } = self;
    }
}

// Appends what came otherwise.
fn put(
    alloc: Global,
    found: &mut Vec<Difference>,
    line: usize,
    of: &'static str,
    wanted: &[u8],
    came: &[u8],
) -> Result<(), Fault> {
    let wanted = Vec::from_slice(alloc, wanted)?;
    let came = Vec::from_slice(alloc, came)?;
    found.push(Difference {
        line,
        of,
        wanted,
        came,
    })?;
    Ok(())
}

// What is left of bytes behind the pieces that must come first, or the first piece that doesn't, with what comes in its
// place.
fn behind<'a>(pieces: &'a [Piece], came: &'a [u8]) -> Result<&'a [u8], (&'a Piece, &'a [u8])> {
    let mut rest = came;
    for piece in pieces {
        match rest.strip_prefix(piece.bytes.as_slice()) {
            Some(left) => rest = left,
            None => return Err((piece, &rest[..rest.len().min(piece.bytes.len())])),
        }
    }
    Ok(rest)
}

/// Compares bytes with pieces that must come one after another, all of them some times over.
pub fn compare_bytes(
    alloc: Global,
    found: &mut Vec<Difference>,
    (line, of): (usize, &'static str),
    (wanted, times): (&[Piece], usize),
    came: &[u8],
) -> Result<(), Fault> {
    let mut rest = came;
    for _ in 0..times {
        match behind(wanted, rest) {
            Ok(left) => rest = left,
            Err((piece, came)) => {
                return put(alloc, found, piece.line, of, piece.bytes.as_slice(), came);
            }
        }
    }
    if rest.is_empty() {
        return Ok(());
    }
    put(alloc, found, line, of, b"nothing more", rest)
}

/// Compares two numbers.
pub fn compare_numbers(
    alloc: Global,
    found: &mut Vec<Difference>,
    (line, of): (usize, &'static str),
    wanted: usize,
    came: usize,
) -> Result<(), Fault> {
    if wanted == came {
        return Ok(());
    }
    let wanted = format!(in alloc; "{wanted}")?;
    let came = format!(in alloc; "{came}")?;
    put(alloc, found, line, of, wanted.as_bytes(), came.as_bytes())
}

/// Compares what was asked of grains, where that is told.
pub fn compare_asked(
    alloc: Global,
    conversation: &Conversation,
    found: &mut Vec<Difference>,
    asked: &[Ask],
) -> Result<(), Fault> {
    let Some(wanted) = &conversation.asked else {
        return Ok(());
    };
    let mut came = Vec::new(alloc);
    for ask in asked {
        came.extend_from_slice(ask.text.as_slice())?;
    }
    let place = (conversation.line, "what was asked of grains");
    compare_bytes(alloc, found, place, (wanted.as_slice(), 1), came.as_slice())
}

/// Compares what the spawner was told, its starts and then its stops, where that is told.
pub fn compare_told(
    alloc: Global,
    conversation: &Conversation,
    found: &mut Vec<Difference>,
    spawner: &FakeSpawner,
) -> Result<(), Fault> {
    let Some(wanted) = &conversation.told else {
        return Ok(());
    };
    let mut came = Vec::new(alloc);
    for start in spawner.starts() {
        let (run, grain, app) = (start.run.0, start.grain.0, start.app.0);
        let line = format!(in alloc; "start {run} {grain} {app} ")?;
        came.extend_from_slice(line.as_bytes())?;
        came.extend_from_slice(start.token.as_slice())?;
        came.extend_from_slice(b"\r\n")?;
    }
    for run in spawner.stops() {
        let line = format!(in alloc; "stop {}\r\n", run.0)?;
        came.extend_from_slice(line.as_bytes())?;
    }
    let place = (conversation.line, "what the spawner was told");
    compare_bytes(alloc, found, place, (wanted.as_slice(), 1), came.as_slice())
}

// The body of the row of a kind and a number in hexadecimal digits, or `none`.
fn digits_of(alloc: Global, rows: &[Row], kind: u8, num: u32) -> Result<String, Fault> {
    match rows.iter().find(|row| row.kind == kind && row.num == num) {
        Some(row) => Ok(hex::encode(alloc, row.body.as_slice())?),
        None => Ok(String::from_str(alloc, "none")?),
    }
}

// The rows that a keeper loads, at the second call where the first one was to fail.
fn loaded<K: Keeper>(alloc: Global, keeper: &mut K) -> Option<Vec<Row>> {
    match keeper.load(alloc) {
        Ok(rows) => Some(rows),
        Err(_) => keeper.load(alloc).ok(),
    }
}

// Compares a row that must be kept with those that are.
fn compare_row(
    alloc: Global,
    found: &mut Vec<Difference>,
    (line, row): (usize, &Row),
    rows: &[Row],
) -> Result<(), Fault> {
    let wanted = hex::encode(alloc, row.body.as_slice())?;
    let came = digits_of(alloc, rows, row.kind, row.num)?;
    if wanted.as_str() == came.as_str() {
        return Ok(());
    }
    let (wanted, came) = (wanted.as_bytes(), came.as_bytes());
    put(alloc, found, line, "a row", wanted, came)
}

/// Compares the rows that a keeper has, where that is told.
pub fn compare_rows<K: Keeper>(
    alloc: Global,
    conversation: &Conversation,
    found: &mut Vec<Difference>,
    keeper: &mut K,
) -> Result<(), Fault> {
    let kept = &conversation.kept;
    if kept.count.is_none() && kept.last.is_empty() {
        return Ok(());
    }
    let Some(rows) = loaded(alloc, keeper) else {
        let (line, of) = (conversation.line, "the keeper at the end");
        return put(alloc, found, line, of, b"its rows", b"none");
    };
    if let Some((line, count)) = kept.count {
        let place = (line, "how many rows are kept");
        compare_numbers(alloc, found, place, count, rows.len())?;
    }
    for (line, row) in &kept.last {
        compare_row(alloc, found, (*line, row), rows.as_slice())?;
    }
    Ok(())
}
