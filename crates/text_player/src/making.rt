//! The requests of a seed.

use host_base::digest_of;
use request_maker::generate;
use std::alloc::Global;
use test_words::{Fault, number, small};

/// The requests of a count and a seed, as they are or by their length and their digest.
pub fn made_by(alloc: Global, word: &str, rest: &str) -> Result<String, Fault> {
    let (count, seed) = rest.split_once(' ').ok_or(Fault::Unreadable)?;
    let requests = generate(alloc, small(count)?, number(seed)?)?;
    let length = requests.len();
    if word == "digest" {
        let digest = hex::encode(alloc, &digest_of(requests.as_slice()).0)?;
        return Ok(format!(in alloc; "{length} bytes, {digest}")?);
    }
    let text = String::from_utf8_lossy(alloc, requests.as_slice())?;
    Ok(format!(in alloc; "{length} bytes, {text:?}")?)
}
