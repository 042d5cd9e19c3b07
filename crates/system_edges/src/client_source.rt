//! What comes from a client.

ghost use Rattle.std.specs.Prelude.{◌≡◌, ◌<◌, ◌≤◌, None, false, length, IfOk};

use crate::activity::SharedActivity;
use crate::client::SharedClient;
use crate::limits::{MOST_READING, MOST_SILENT, MOST_STILL, TURN, is_late, late, millis};
use host_base::{ReadFailed, Source};
use std::io;
use std::marker::Model;
use std::time::{Clock, Instant};

/// What comes from a client, of which nothing is told but its end. Where nothing comes for too long between two requests, or the
/// server is to end, that is the end; within a request it is a fault, as is a request that takes too long.
#[derive(Drop)]
pub struct ClientSource<'a, R> {
    rt: &'a R,
    client: SharedClient,
    activity: SharedActivity,
    // When a request was read from for the second time.
    began: Option<Instant>,
    // Whether the socket has the time limit of reads within a request.
    within: bool,
    ended: bool,
    faults: u64,
}

impl<'a, R> Model for ClientSource<'a, R> {
    ghost use Rattle.host_base.specs.Outside.{Inlet};
    ghost use Rattle.std.specs.Prelude.{None};

    ghost Value = { Inlet };

    ghost view = { λ s. record { faults = s.faults; ended = s.ended; left = None; whole = None } };
}

// Waits until a byte is there, the client's end, or a fault; it doesn't come where the client is silent for too long, or the server is to end.
fn comes(client: &SharedClient, activity: &SharedActivity) -> bool {
    let mut first = [0u8; 1];
    for _ in 0..MOST_SILENT / TURN {
        if activity.is_ending() {
            return false;
        }
        match client.stream.peek(&mut first) {
            Ok(_) => return true,
            Err(error) => {
                if !is_late(&error) {
                    return true;
                }
            }
        }
    }
    false
}

// Takes the first bytes of a request, or none.
fn read_first(client: &SharedClient, activity: &SharedActivity, buf: &mut [u8]) -> io::Result<usize>
    ensures { IfOk result (λ n. n ≤ length buf.old) }
{
    if client.has_ended() || activity.is_ending() {
        return Ok(0);
    }
    match client.read(buf) {
        Ok(n) => Ok(n),
        Err(error) => {
            if !is_late(&error) {
                Err(error)
            } else if comes(client, activity) {
                client.read(buf)
            } else {
                Ok(0)
            }
        }
    }
}

impl<'a, R: Clock> ClientSource<'a, R> {
    /// What comes from a client from now on.
    pub fn new(rt: &'a R, client: SharedClient, activity: SharedActivity) -> Self
        ensures { result ≡ record { faults = 0; ended = false; left = None; whole = None } }
    {
        ClientSource {
            rt,
            client,
            activity,
            began: None,
            within: false,
            ended: false,
            faults: 0,
        }
    }

    /// How many faults there were.
    pub fn faults(&self) -> u64
        ensures { result ≡ self.now.faults }
    {
        self.faults
    }

    /// The client where its end didn't come.
    pub fn into_unended(self) -> Option<SharedClient> {
        let ClientSource {
            rt: _,
            client,
            activity: _,
            began: _,
            within: _,
            ended,
            faults: _,
        } = self;
        if ended { None } else { Some(client) }
    }
}

// Gives reads within a request their time limit, and looks how long the request takes.
fn bound<R: Clock>(
    rt: &R,
    client: &SharedClient,
    within: &mut bool,
    began: &mut Option<Instant>,
) -> io::Result<()> {
    let now = Instant::now(rt)?;
    if !*within {
        client.stream.set_read_timeout(Some(millis(MOST_STILL)))?;
        *within = true;
    }
    match *began {
        None => *began = Some(now),
        Some(since) => {
            if now.saturating_duration_since(since) > millis(MOST_READING) {
                return Err(late());
            }
        }
    }
    Ok(())
}

// Takes the next bytes.
fn read_next<R: Clock>(
    rt: &R,
    client: &SharedClient,
    activity: &SharedActivity,
    within: &mut bool,
    began: &mut Option<Instant>,
    buf: &mut [u8],
) -> io::Result<usize>
    ensures { IfOk result (λ n. n ≤ length buf.old) }
{
    if client.is_within() {
        bound(rt, client, within, began)?;
        return client.read(buf);
    }
    if *within {
        client.stream.set_read_timeout(Some(millis(TURN)))?;
        *within = false;
    }
    *began = None;
    let n = read_first(client, activity, buf)?;
    client.begin();
    Ok(n)
}

impl<'a, R: Clock> Source for ClientSource<'a, R> {
    ghost inlet = { λ s. s };

    fn take(&mut self, buf: &mut [u8]) -> Result<usize, ReadFailed> {
        if self.ended {
            return Ok(0);
        }
        match read_next(
            self.rt,
            &self.client,
            &self.activity,
            &mut self.within,
            &mut self.began,
            buf,
        ) {
            Ok(n) => {
                self.ended = n == 0;
                Ok(n)
            }
            Err(_) => {
                self.faults = self.faults.saturating_add(1);
                Err(ReadFailed)
            }
        }
    }
}
