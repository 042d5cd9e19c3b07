//! A client's connection, of which the source and the sink have the one socket.

ghost use Rattle.std.specs.Prelude.{◌≤◌, length, IfOk};

use std::alloc::Global;
use std::io;
use std::io::Read;
use std::net::TcpStream;
use std::sync::Arc;
use std::sync::atomic::{AtomicU64, Ordering};

/// A client's socket, whether a request was begun on it that wasn't answered yet, whether it sent what a tunnel begins with, and
/// whether nothing more is read of it.
#[derive(Drop)]
pub struct Client {
    pub stream: TcpStream,
    begun: AtomicU64,
    opened: AtomicU64,
    ended: AtomicU64,
}

/// A handle of it.
pub type SharedClient = Arc<Client, Global>;

impl Client {
    /// A client that began no request.
    pub fn new(stream: TcpStream) -> Self {
        Client {
            stream,
            begun: AtomicU64::new(0),
            opened: AtomicU64::new(0),
            ended: AtomicU64::new(0),
        }
    }

    /// Takes what comes, for which it waits as long as the socket does.
    pub fn read(&self, buf: &mut [u8]) -> io::Result<usize>
        ensures { IfOk result (λ n. n ≤ length buf.old) }
    {
        let mut stream = &self.stream;
        stream.read(buf)
    }

    /// Something of a request was read.
    pub fn begin(&self) {
        self.begun.store(1, Ordering::SeqCst);
    }

    /// Something of an answer was written.
    pub fn answer(&self) {
        self.begun.store(0, Ordering::SeqCst);
    }

    /// Whether something of a request was read since the last answer.
    pub fn is_within(&self) -> bool {
        self.begun.load(Ordering::SeqCst) != 0
    }

    /// It sent what a tunnel begins with.
    pub fn open(&self) {
        self.opened.store(1, Ordering::SeqCst);
    }

    /// Whether it sent what a tunnel begins with.
    pub fn has_opened(&self) -> bool {
        self.opened.load(Ordering::SeqCst) != 0
    }

    /// Nothing more is read of it.
    pub fn end(&self) {
        self.ended.store(1, Ordering::SeqCst);
    }

    /// Whether nothing more is read of it.
    pub fn has_ended(&self) -> bool {
        self.ended.load(Ordering::SeqCst) != 0
    }
}
