//! A close that lets a client read its last answer.

use crate::limits::{MOST_LEFT, MOST_LINGERING, millis};
use std::io;
use std::io::Read;
use std::net::{Shutdown, TcpStream};
use std::time::{Clock, Instant};

// Reads what still comes, for so long and so much at the most.
fn read_rest<R: Clock>(rt: &R, mut stream: &TcpStream) -> io::Result<()> {
    stream.shutdown(Shutdown::Write)?;
    let start = Instant::now(rt)?;
    let mut room = [0u8; 4096];
    for _ in 0..MOST_LEFT / room.len() {
        let left = millis(MOST_LINGERING).saturating_sub(start.elapsed(rt)?);
        if left < millis(1) {
            return Ok(());
        }
        stream.set_read_timeout(Some(left))?;
        if stream.read(&mut room)? == 0 {
            return Ok(());
        }
    }
    Ok(())
}

/// Ends what is written to a client, and reads what still comes of it, so that its system doesn't throw the last answer away with
/// a reset. What of that fails makes no difference any more.
pub fn close_slowly<R: Clock>(rt: &R, stream: &TcpStream) {
    let _ = read_rest(rt, stream);
}
