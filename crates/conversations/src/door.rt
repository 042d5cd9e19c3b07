//! The connections at the door.
ghost use Rattle.std.specs.Prelude.{◌≡◌, [], All, IfOk};
ghost use Rattle.serve_door.specs.Doors.{IsFreshPair};

use crate::conversation::Stream;
use grain_supervise::Link;
use host_base::{Fails, MemSink, MemSource};
use serve_door::{MemDoor, MemHalls};
use std::alloc::{AllocError, Global};

// A connection on which this is sent.
fn connection(alloc: Global, stream: &Stream) -> Result<(MemSource, MemSink), AllocError>
    ensures { IfOk result IsFreshPair }
{
    let input = MemSource::new(stream.sent.clone()?, Fails::empty(alloc));
    let output = MemSink::new(alloc, Fails::empty(alloc));
    Ok((input, output))
}

// The connections on which these are sent.
fn connections(alloc: Global, streams: &[Stream]) -> Result<Vec<(MemSource, MemSink)>, AllocError>
    ensures { IfOk result (λ pairs. All IsFreshPair pairs.items) }
{
    let mut pairs = Vec::new(alloc);
    'streams: for stream in streams {
        pairs.push(connection(alloc, stream)?)?;
    }
    Ok(pairs)
}

/// A door at which these connections come in.
pub fn door_of<L: Link>(alloc: Global, streams: &[Stream]) -> Result<MemDoor<L>, AllocError>
    ensures { IfOk result (λ door. door.kept ≡ []) }
{
    match MemDoor::new(alloc, connections(alloc, streams)?) {
        Ok(door) => Ok(door),
        Err(_) => Err(AllocError),
    }
}

/// Halls where no tunnel comes in.
pub fn no_halls<L: Link>(alloc: Global) -> Result<MemHalls<L>, AllocError>
    ensures { IfOk result (λ halls. halls.kept ≡ []) }
{
    match MemHalls::new(alloc, Vec::new(alloc)) {
        Ok(halls) => Ok(halls),
        Err(_) => Err(AllocError),
    }
}
