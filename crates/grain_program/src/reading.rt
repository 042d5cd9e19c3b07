//! The text of a connection.
ghost use Rattle.std.specs.Prelude.{◌≡◌, ℕ, ◌+◌, ◌<◌, ◌≤◌, ◌++◌, List, [], true, Some, length, option_map, IfOk, IfSome, IsErrOf};
ghost use Rattle.host_base.specs.Outside.{Rose};
ghost use Rattle.front_http.specs.Stream.{head_length};
ghost use Rattle.front_http.specs.Pending.{GivesMore, HasNoEndBefore};
ghost use Rattle.grain_program.specs.Stated.{text_of};
ghost use Rattle.grain_program.specs.Reading.{GotHead, HasBytes};

use crate::lengths::{TEXT_LIMIT, text_length};
use host_base::Source;
use std::alloc::Global;
use thiserror::Error;

/// The most bytes that are taken at a time.
const PIECE: usize = 4096;

/// Why a text couldn't be read.
#[derive(Clone, Copy, Debug, PartialEq, Eq, Error)]
pub enum ReadFault {
    /// The connection failed. It was counted.
    #[error("the connection failed")]
    ReadFailed,
    #[error("out of memory")]
    Memory,
}

// Takes the next piece; whether one came.
fn take_piece<I: Source>(input: &mut I, held: &mut Vec<u8>) -> Result<bool, ReadFault>
    ensures counts { (I.inlet input.old).faults ≤ (I.inlet input.new).faults }
    ensures cause { IsErrOf result ReadFault.ReadFailed
        → Rose (I.inlet input.old).faults (I.inlet input.new).faults }
    ensures keeps { IfOk result (λ _. (more : List ℕ) × (held.new.items ≡ held.old.items ++ more)) }
    ensures grows { IfOk result (λ came. came ≡ true → length held.old.items < length held.new.items) }
    ensures given { (left : List ℕ) → (I.inlet input.old).left ≡ Some left →
        IfOk result (λ came. GivesMore held.old.items left came held.new.items (I.inlet input.new).left) }
{
    let mut piece = [0u8; PIECE];
    match input.take(&mut piece) {
        Err(_) => Err(ReadFault::ReadFailed),
        Ok(count) => match held.extend_from_slice(&piece[..count]) {
            Ok(()) => Ok(count > 0),
            Err(_) => Err(ReadFault::Memory),
        },
    }
}

// How long the head is that the bytes begin with, where none ends at the first places.
fn find_head(bytes: &[u8], from: usize) -> Option<usize>
    requires { HasNoEndBefore from bytes.now }
    ensures { result ≡ head_length bytes.now }
{
    for at in from..bytes.len().saturating_sub(3) {
        let (_, rest) = bytes.split_at(at);
        if rest.starts_with(b"\r\n\r\n") {
            return Some(at + 4);
        }
    }
    None
}

// Reads on to the end of the head; none where the input ends before, or no text is that long.
fn read_head<I: Source>(input: &mut I, held: &mut Vec<u8>) -> Result<Option<usize>, ReadFault>
    requires { held.old.items ≡ [] }
    ensures counts { (I.inlet input.old).faults ≤ (I.inlet input.new).faults }
    ensures cause { IsErrOf result ReadFault.ReadFailed
        → Rose (I.inlet input.old).faults (I.inlet input.new).faults }
    ensures within { IfOk result (λ found. IfSome found (λ n. n ≤ length held.new.items)) }
    ensures given { (bytes : List ℕ) → (I.inlet input.old).left ≡ Some bytes →
        IfOk result (λ found. GotHead bytes found held.new.items (I.inlet input.new).left) }
{
    let mut from = 0;
    'pieces: loop {
        if let Some(length) = find_head(held.as_slice(), from) {
            return Ok(Some(length));
        }
        if held.len() > TEXT_LIMIT {
            return Ok(None);
        }
        from = held.len().saturating_sub(3);
        match take_piece(input, held) {
            Ok(true) => {}
            Ok(false) => return Ok(None),
            Err(fault) => return Err(fault),
        }
    }
}

// Reads on until so many bytes are held; whether there were as many.
fn read_on<I: Source>(input: &mut I, held: &mut Vec<u8>, length: usize) -> Result<bool, ReadFault>
    ensures counts { (I.inlet input.old).faults ≤ (I.inlet input.new).faults }
    ensures cause { IsErrOf result ReadFault.ReadFailed
        → Rose (I.inlet input.old).faults (I.inlet input.new).faults }
    ensures given { (left : List ℕ) → (I.inlet input.old).left ≡ Some left →
        IfOk result (λ full. HasBytes length (held.old.items ++ left) full held.new.items (I.inlet input.new).left) }
{
    'pieces: while held.len() < length {
        match take_piece(input, held) {
            Ok(true) => {}
            Ok(false) => return Ok(false),
            Err(fault) => return Err(fault),
        }
    }
    Ok(true)
}

/// Reads the text of a connection; none where its bytes state none.
pub fn read_text<I: Source>(alloc: Global, input: &mut I) -> Result<Option<Vec<u8>>, ReadFault>
    ensures counts { (I.inlet input.old).faults ≤ (I.inlet input.new).faults }
    ensures cause { IsErrOf result ReadFault.ReadFailed
        → Rose (I.inlet input.old).faults (I.inlet input.new).faults }
    ensures text { (bytes : List ℕ) → (I.inlet input.old).left ≡ Some bytes →
        IfOk result (λ text. option_map (λ text. text.items) text ≡ text_of bytes) }
{
    let mut held = Vec::new(alloc);
    let head = match read_head(input, &mut held) {
        Ok(Some(head)) => head,
        Ok(None) => return Ok(None),
        Err(fault) => return Err(fault),
    };
    let length = match text_length(alloc, &held[..head]) {
        Ok(Some(length)) => length,
        Ok(None) => return Ok(None),
        Err(_) => return Err(ReadFault::Memory),
    };
    match read_on(input, &mut held, length) {
        Ok(true) => {
            held.truncate(length);
            Ok(Some(held))
        }
        Ok(false) => Ok(None),
        Err(fault) => Err(fault),
    }
}
