//! What goes to a client.

ghost use Rattle.std.specs.Prelude.{◌≡◌, None};

use crate::client::SharedClient;
use crate::limits::{MOST_WRITING, late, millis};
use host_base::{Sink, WriteFailed};
use std::io;
use std::io::{ErrorKind, Write};
use std::marker::Model;
use std::net::TcpStream;
use std::time::{Clock, Instant};

/// What goes to a client, of which nothing is told. A client that takes nothing for too long is a fault, and so is an answer that
/// takes too long in all.
#[derive(Drop)]
pub struct ClientSink<'a, R> {
    rt: &'a R,
    client: SharedClient,
    faults: u64,
}

impl<'a, R> Model for ClientSink<'a, R> {
    ghost use Rattle.host_base.specs.Outside.{Outlet};
    ghost use Rattle.std.specs.Prelude.{None};

    ghost Value = { Outlet };

    ghost view = { λ s. record { faults = s.faults; written = None } };
}

// Writes all of it. The clock is asked only where one write doesn't do.
fn write_whole<R: Clock>(rt: &R, mut stream: &TcpStream, text: &[u8]) -> io::Result<()> {
    let mut rest = text;
    let mut began: Option<Instant> = None;
    for _ in 0..u32::MAX {
        let n = stream.write(rest)?;
        rest = rest.get(n..).unwrap_or(&[]);
        if rest.is_empty() {
            return Ok(());
        }
        if n == 0 {
            return Err(io::Error::from(ErrorKind::WriteZero));
        }
        let now = Instant::now(rt)?;
        match began {
            None => began = Some(now),
            Some(since) => {
                if now.saturating_duration_since(since) > millis(MOST_WRITING) {
                    return Err(late());
                }
            }
        }
    }
    Err(late())
}

impl<'a, R: Clock> ClientSink<'a, R> {
    /// What goes to a client from now on.
    pub fn new(rt: &'a R, client: SharedClient) -> Self
        ensures { result ≡ record { faults = 0; written = None } }
    {
        ClientSink {
            rt,
            client,
            faults: 0,
        }
    }

    /// How many faults there were.
    pub fn faults(&self) -> u64
        ensures { result ≡ self.now.faults }
    {
        self.faults
    }
}

impl<'a, R: Clock> Sink for ClientSink<'a, R> {
    ghost outlet = { λ s. s };

    fn put(&mut self, piece: &[u8]) -> Result<(), WriteFailed> {
        match write_whole(self.rt, &self.client.stream, piece) {
            Ok(()) => {
                self.client.answer();
                Ok(())
            }
            Err(_) => {
                self.faults = self.faults.saturating_add(1);
                Err(WriteFailed)
            }
        }
    }
}
