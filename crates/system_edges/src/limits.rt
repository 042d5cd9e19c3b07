//! How long is waited for clients and for programs, and how much of them is kept.

use std::io;
use std::io::ErrorKind;
use std::time::Duration;

/// How many connections at the most wait for their first byte at one acceptor. Each takes a descriptor, of which a process often has
/// 1,024; where none is left the acceptor closes the one that was silent longest at it. Two acceptors, of connections and of tunnels,
/// have a set each: 2 times 1,024 that wait for their first byte and 256 for a worker, so 2,560, beside the 192 that workers serve.
pub const MOST_WAITING: usize = 1024;

/// How many connections at the most whose first byte is there wait for a worker, of each acceptor; further ones are closed.
pub const MOST_READY: usize = 256;

/// How many of the system's reports are taken at once.
pub const MOST_EVENTS: usize = 256;

/// How long a connection may be silent before its first byte, or between two requests. Clients that keep a connection make a new
/// one where it has ended.
pub const MOST_SILENT: u64 = 10_000;

/// In which steps silence is looked at, so that an end of the server is noticed.
pub const TURN: u64 = 500;

/// How often it is told what was done, at the most.
pub const TELLING: u64 = 1_000;

/// How long no byte may come within a request, or none be taken of an answer. The client of a tunnel may be silent for as long, and
/// for as long again once it was sent a ping.
pub const MOST_STILL: u64 = 30_000;

/// How long a request may take from its second read on, so that no client holds a worker by a byte now and then: 1 MiB in that time
/// is 18 KiB a second.
pub const MOST_READING: u64 = 60_000;

/// How long an answer may take after its first write, or what goes to the client of a tunnel: 4 MiB in that time are 35 KiB a second.
pub const MOST_WRITING: u64 = 120_000;

/// How long the client of a tunnel may take to ask for it, and to send its key and one message, from when a worker took it: no client
/// holds a worker by silence. A tunnel that was opened may be idle as long as its client answers pings.
pub const MOST_OPENING: u64 = 30_000;

/// How long a run's program may take to answer, from the connecting on.
pub const MOST_ASKING: u64 = 60_000;

/// How long a run's program may take to say that it takes connections. Orders wait meanwhile.
pub const MOST_STARTING: u64 = 5_000;

/// How long a run's program may take to end by itself once its input has ended. Orders wait meanwhile.
pub const MOST_STOPPING: u64 = 1_000;

/// How many bytes a log of a program may have; the one before it is kept too.
pub const MOST_LOG: u64 = 524_288;

/// How long and how much is read of a client that still sends after its last answer, so that it reads that answer.
pub const MOST_LINGERING: u64 = 1_000;

/// The same, in bytes.
pub const MOST_LEFT: usize = 2_097_152;

/// A time of so many milliseconds.
pub fn millis(count: u64) -> Duration {
    Duration::from_millis(count)
}

/// Whether a time limit passed.
pub fn is_late(error: &io::Error) -> bool {
    match error.kind() {
        ErrorKind::WouldBlock | ErrorKind::TimedOut => true,
        _ => false,
    }
}

/// The error of a time limit that passed.
pub fn late() -> io::Error {
    io::Error::from(ErrorKind::TimedOut)
}
