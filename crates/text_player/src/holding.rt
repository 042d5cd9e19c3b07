//! How much a reader of requests holds.

use front_http::RequestReader;
use host_base::MemSource;
use std::alloc::Global;
use test_words::{Fault, bytes_of, size};

// The most calls of a reader in a row.
const MOST: usize = 100;

// Reads the next request: whether there is one.
fn reads_one(alloc: Global, reader: &mut RequestReader, input: &mut MemSource) -> bool {
    matches!(reader.next(alloc, input), Ok(Some(_)))
}

/// How many bytes a reader holds behind each of its calls, over a text that comes so many bytes at a time, up to the one
/// that gives no request.
pub fn held_by(alloc: Global, rest: &str) -> Result<String, Fault> {
    let (most, text) = rest.split_once(' ').ok_or(Fault::Unreadable)?;
    let mut input = MemSource::stingy(alloc, bytes_of(alloc, text)?, size(most)?.max(1));
    let mut reader = RequestReader::new(alloc);
    let mut told = String::new(alloc);
    for _ in 0..MOST {
        let is_read = reads_one(alloc, &mut reader, &mut input);
        let gap = if told.is_empty() { "" } else { " " };
        let held = reader.held();
        told = format!(in alloc; "{told}{gap}{held}")?;
        if !is_read {
            break;
        }
    }
    Ok(told)
}
