//! The programs of runs as children of this one.

use crate::limits::{MOST_STARTING, MOST_STOPPING, late, millis};
use crate::socket::is_socket;
use mio::unix::SourceFd;
use mio::{Events, Interest, Poll, Token};
use std::alloc::Global;
use std::io::{ErrorKind, PipeReader, Read, Write};
use std::net::Net;
use std::os::fd::AsRawFd;
use std::process::{Child, OpenProcess};
use std::rt::Files;
use std::time::{Clock, Duration, Instant};
use std::{io, thread};

// What a run's program says once it takes connections.
const READY: &[u8; 6] = b"ready\n";

// How often it is looked whether a child has ended, in milliseconds.
const STEP: u64 = 5;

// Waits until something is there to be read, or its end, for so long at the most.
fn is_readable<R: Net>(
    rt: &R,
    alloc: Global,
    output: &PipeReader,
    most: Duration,
) -> io::Result<bool> {
    let mut poll = Poll::new(rt)?;
    let mut events = Events::with_capacity(alloc, 1)?;
    let descriptor = output.as_raw_fd();
    poll.registry()
        .register(&mut SourceFd(&descriptor), Token(0), Interest::READABLE)?;
    poll.poll(&mut events, Some(most))?;
    Ok(!events.is_empty())
}

// Reads a child's line, for a limited time.
fn read_line<R: Net + Clock>(
    rt: &R,
    alloc: Global,
    output: &mut PipeReader,
) -> io::Result<[u8; READY.len()]> {
    let start = Instant::now(rt)?;
    let mut line = [0; READY.len()];
    let mut at = 0;
    for _ in 0..READY.len() {
        let left = millis(MOST_STARTING).saturating_sub(start.elapsed(rt)?);
        if !is_readable(rt, alloc, output, left)? {
            return Err(late());
        }
        let n = match line.get_mut(at..) {
            Some(rest) => output.read(rest)?,
            None => 0,
        };
        if n == 0 {
            return Err(io::Error::from(ErrorKind::UnexpectedEof));
        }
        at = n.saturating_add(at);
        if at >= READY.len() {
            break;
        }
    }
    Ok(line)
}

/// Writes the token and a line feed to a child's input, waits for the line that it says, and looks whether its socket is there. The
/// input stays open, so that the child notices where this program is gone.
pub fn greet<R: Files + Net + Clock, P: OpenProcess>(
    rt: &R,
    alloc: Global,
    path: &str,
    child: &mut Child<P>,
    said: &mut PipeReader,
    token: &[u8],
) -> io::Result<()> {
    if let Some(input) = &mut child.stdin {
        input.write_all(token)?;
        input.write_all(b"\n")?;
    }
    let line = read_line(rt, alloc, said)?;
    if line == *READY && is_socket(rt, path) {
        Ok(())
    } else {
        Err(io::Error::from(io::ErrorKind::InvalidData))
    }
}

/// Ends a child's input, upon which it ends, and waits for it. One that doesn't end is ended.
pub fn end<R: Clock, P: OpenProcess>(rt: &R, child: &mut Child<P>) -> io::Result<()> {
    child.stdin = None;
    for _ in 0..MOST_STOPPING / STEP {
        if child.try_wait()?.is_some() {
            return Ok(());
        }
        thread::sleep(rt, millis(STEP));
    }
    child.kill()?;
    child.wait()?;
    Ok(())
}
