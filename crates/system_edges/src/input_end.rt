//! The program's standard input as what it is tied to: who holds the other end open has it go on.

use mio::unix::SourceFd;
use mio::{Events, Interest, Poll, Token};
use std::alloc::Global;
use std::net::Net;
use std::os::fd::AsRawFd;
use std::os::unix::fs::FileTypeExt;
use std::rt::Files;
use std::{fs, io};

/// Whether the standard input is a pipe.
pub fn is_pipe<R: Files>(rt: &R) -> bool {
    match fs::metadata(rt, "/dev/stdin") {
        Ok(input) => input.file_type().is_fifo(),
        Err(_) => false,
    }
}

/// Waits until nobody holds the other end of a pipe open any more. Nothing is read of it.
pub fn wait_for_end<R: Net, S: AsRawFd>(rt: &R, alloc: Global, input: &S) -> io::Result<()> {
    let mut poll = Poll::new(rt)?;
    let mut events = Events::with_capacity(alloc, 1)?;
    let descriptor = input.as_raw_fd();
    poll.registry()
        .register(&mut SourceFd(&descriptor), Token(0), Interest::READABLE)?;
    for _ in 0..u32::MAX {
        poll.poll(&mut events, None)?;
        if events.iter().any(|event| event.is_read_closed()) {
            return Ok(());
        }
    }
    Ok(())
}
