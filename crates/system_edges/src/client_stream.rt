//! What comes from the client of a tunnel, and what goes to it.

ghost use Rattle.std.specs.Prelude.{◌≤◌, length, IfOk};

use crate::activity::SharedActivity;
use crate::client::SharedClient;
use crate::limits::{MOST_OPENING, MOST_STILL, MOST_WRITING, TURN, is_late, late, millis};
use std::io;
use std::io::{ErrorKind, Read, Write};
use std::time::{Clock, Instant};

/// What comes from the client of a tunnel, and what goes to it. A read would block where nothing comes for too long, where the server
/// is to end, and where the client has had its time for what a tunnel begins with and didn't send that. A write fails of which nothing
/// is taken for too long, or which takes too long in all.
#[derive(Drop)]
pub struct ClientStream<'a, R> {
    rt: &'a R,
    client: SharedClient,
    activity: SharedActivity,
    // When it was read first.
    began: Option<Instant>,
    // Since when the client didn't take all that was written.
    behind: Option<Instant>,
}

// Writes as much as the client takes. One that takes nothing for too long has failed.
fn write_some(client: &SharedClient, buf: &[u8]) -> io::Result<usize>
    ensures { IfOk result (λ n. n ≤ length buf.now) }
{
    let mut stream = &client.stream;
    match stream.write(buf) {
        Ok(n) => Ok(n),
        Err(error) => {
            if is_late(&error) {
                Err(late())
            } else {
                Err(error)
            }
        }
    }
}

impl<'a, R: Clock> ClientStream<'a, R> {
    /// What comes from a client and goes to it from now on.
    pub fn new(rt: &'a R, client: SharedClient, activity: SharedActivity) -> Self {
        ClientStream {
            rt,
            client,
            activity,
            began: None,
            behind: None,
        }
    }

    // Whether the client has had its time for what a tunnel begins with, and didn't send that.
    fn is_overdue(&mut self) -> io::Result<bool> {
        if self.client.has_opened() {
            return Ok(false);
        }
        let now = Instant::now(self.rt)?;
        match self.began {
            None => {
                self.began = Some(now);
                Ok(false)
            }
            Some(since) => Ok(now.saturating_duration_since(since) > millis(MOST_OPENING)),
        }
    }

    // Reads what comes within the time that a client may be silent; at each turn it is looked whether that is to be waited for.
    fn read_in_turns(&mut self, buf: &mut [u8]) -> io::Result<usize>
        ensures { IfOk result (λ n. n ≤ length buf.old) }
    {
        for _ in 0..MOST_STILL / TURN {
            if self.activity.is_ending() || self.is_overdue()? {
                break;
            }
            match self.client.read(buf) {
                Ok(n) => return Ok(n),
                Err(error) => {
                    if !is_late(&error) {
                        return Err(error);
                    }
                }
            }
        }
        Err(io::Error::from(ErrorKind::WouldBlock))
    }
}

impl<'a, R: Clock> Read for ClientStream<'a, R> {
    fn read(&mut self, buf: &mut [u8]) -> io::Result<usize> {
        if self.client.has_ended() {
            return Ok(0);
        }
        self.read_in_turns(buf)
    }
}

impl<'a, R: Clock> Write for ClientStream<'a, R> {
    fn write(&mut self, buf: &[u8]) -> io::Result<usize> {
        let n = write_some(&self.client, buf)?;
        self.client.answer();
        if n >= buf.len() {
            self.behind = None;
            return Ok(n);
        }
        let now = Instant::now(self.rt)?;
        match self.behind {
            None => self.behind = Some(now),
            Some(since) => {
                if now.saturating_duration_since(since) > millis(MOST_WRITING) {
                    return Err(late());
                }
            }
        }
        Ok(n)
    }

    fn flush(&mut self) -> io::Result<()> {
        Ok(())
    }
}
