//! Which manifest may take the place of another, and what memory with room takes.

use app_manifest::{Manifest, ManifestError, manifest_from, upgrade};
use host_base::{Fails, MemSink, Sink};
use std::alloc::Global;
use test_words::{Fault, size};

// The manifest that a text states.
fn manifest(alloc: Global, text: &str) -> Result<Manifest, Fault> {
    match manifest_from(alloc, text.as_bytes()) {
        Ok(manifest) => Ok(manifest),
        Err(ManifestError::Fault(_)) => Err(Fault::Unreadable),
        Err(ManifestError::Memory) => Err(Fault::Memory),
    }
}

// What stands before and behind the first blank.
fn split(row: &str) -> Result<(&str, &str), Fault> {
    row.split_once(' ').ok_or(Fault::Unreadable)
}

// Whether the second manifest may take the place of the first, with `|` between them.
fn upgraded(alloc: Global, row: &str) -> Result<String, Fault> {
    let (old, new) = row.split_once(" | ").ok_or(Fault::Unreadable)?;
    let (old, new) = (manifest(alloc, old)?, manifest(alloc, new)?);
    match upgrade(&old, new) {
        Ok(manifest) => {
            let count = manifest.permissions.as_slice().len();
            Ok(format!(in alloc; "{count} permissions")?)
        }
        Err(fault) => Ok(format!(in alloc; "{fault}")?),
    }
}

// What a sink in memory with room for so many bytes has written of a text.
fn roomy(alloc: Global, row: &str) -> Result<String, Fault> {
    let (room, text) = split(row)?;
    let mut sink = MemSink::with_room(alloc, size(room)?, Fails::empty(alloc))?;
    if sink.put(text.as_bytes()).is_err() {
        return Ok(String::from_str(alloc, "failed")?);
    }
    Ok(String::from_utf8_lossy(alloc, sink.written())?)
}

/// What a row of a value gives.
pub fn given_by(alloc: Global, word: &str, rest: &str) -> Result<String, Fault> {
    match word {
        "upgrade" => upgraded(alloc, rest),
        _ => roomy(alloc, rest),
    }
}
