//! What the programs of runs print, in logs of a bounded size.

use crate::activity::{Activity, SharedActivity};
use crate::limits::{MOST_EVENTS, MOST_LOG, TURN, millis};
use crossbeam_channel::{Receiver, Sender, bounded};
use mio::unix::SourceFd;
use mio::{Events, Interest, Poll, Registry, Token};
use std::alloc::Global;
use std::fs::OpenOptions;
use std::io::{PipeReader, Read, Write};
use std::net::Net;
use std::os::fd::AsRawFd;
use std::os::unix::fs::OpenOptionsExt;
use std::rt::Files;
use std::sync::Wait;
use std::time::Clock;
use std::{fs, io, thread};

/// How many outputs may wait until the logs know them. They do after half a second at the most.
const MOST_COMING: usize = 1024;

/// How much of an output is taken at once: as much as a pipe holds.
const PIECE: usize = 65_536;

/// Who may read a log: the server's user alone.
const OWN: u32 = 0o600;

/// What a program prints, and the path of the log that keeps it.
#[derive(Drop)]
pub struct Output {
    pub pipe: PipeReader,
    pub log: String,
}

/// The outputs of all programs that run. What they print is appended to their logs, so that none of them has to wait for a reader.
#[derive(Drop)]
pub struct Logs {
    alloc: Global,
    poll: Poll,
    events: Events<Global>,
    coming: Receiver<Output>,
    outputs: Vec<Option<Output>>,
    piece: Vec<u8>,
    activity: SharedActivity,
}

// Appends to a log. One that would be too long is kept under another name, in the place of the one before it.
fn append<R: Files>(rt: &R, alloc: Global, log: &str, piece: &[u8]) -> io::Result<()> {
    if let Ok(there) = fs::metadata(rt, log)
        && there.len().saturating_add(piece.len() as u64) > MOST_LOG
    {
        let before = format!(in alloc; "{log}.1")?;
        fs::rename(rt, log, before.as_str())?;
    }
    let mut options = OpenOptions::new();
    options.append(true).create(true).mode(OWN);
    options.open(rt, log)?.write_all(piece)
}

impl Output {
    // Waits for it from now on, at its place.
    fn watch(&self, registry: &Registry, at: usize) -> io::Result<()> {
        let descriptor = self.pipe.as_raw_fd();
        registry.register(&mut SourceFd(&descriptor), Token(at), Interest::READABLE)
    }

    // Waits for it again.
    fn watch_again(&self, registry: &Registry, at: usize) -> io::Result<()> {
        let descriptor = self.pipe.as_raw_fd();
        registry.reregister(&mut SourceFd(&descriptor), Token(at), Interest::READABLE)
    }

    // Waits for it no more. Where that fails it isn't waited for, or it is closed next.
    fn leave(&self, registry: &Registry) {
        let descriptor = self.pipe.as_raw_fd();
        let _ = registry.deregister(&mut SourceFd(&descriptor));
    }

    // Takes what is there of it, and logs that; whether it goes on. What can't be logged is counted, and let go of.
    fn take<R: Files>(
        &mut self,
        rt: &R,
        alloc: Global,
        activity: &Activity,
        piece: &mut [u8],
    ) -> bool {
        let count = match self.pipe.read(piece) {
            Ok(count) => count,
            Err(_) => 0,
        };
        let Some(piece) = piece.get(..count) else {
            return false;
        };
        if piece.is_empty() {
            return false;
        }
        if append(rt, alloc, self.log.as_str(), piece).is_err() {
            activity.log_faults.add_one();
        }
        true
    }
}

impl Logs {
    /// Logs of no output yet, and where outputs are given to them.
    pub fn new<R: Net>(
        rt: &R,
        alloc: Global,
        activity: SharedActivity,
    ) -> io::Result<(Self, Sender<Output>)> {
        let mut piece = Vec::new(alloc);
        piece.resize(PIECE, 0)?;
        let (given, coming) = bounded(alloc, MOST_COMING)?;
        let logs = Logs {
            alloc,
            poll: Poll::new(rt)?,
            events: Events::with_capacity(alloc, MOST_EVENTS)?,
            coming,
            outputs: Vec::new(alloc),
            piece,
            activity,
        };
        Ok((logs, given))
    }

    // Keeps an output, at a place that is free.
    fn keep(&mut self, output: Output) -> io::Result<()> {
        let at = match self.outputs.iter().position(|place| place.is_none()) {
            Some(at) => at,
            None => {
                self.outputs.push(None)?;
                self.outputs.len().saturating_sub(1)
            }
        };
        output.watch(self.poll.registry(), at)?;
        if let Some(place) = self.outputs.get_mut(at) {
            *place = Some(output);
        }
        Ok(())
    }

    // Keeps all outputs that have come. One that can't be kept is counted and closed.
    fn keep_coming<R: Wait>(&mut self, rt: &R) {
        for _ in 0..MOST_COMING {
            match self.coming.try_recv(rt) {
                Ok(output) => {
                    if self.keep(output).is_err() {
                        self.activity.log_faults.add_one();
                    }
                }
                Err(_) => return,
            }
        }
    }

    // Logs what is there of the outputs that were reported. One that has ended leaves its place.
    fn log_ready<R: Files>(&mut self, rt: &R) {
        for event in self.events.iter() {
            let (at, registry) = (event.token().0, self.poll.registry());
            let Some(place) = self.outputs.get_mut(at) else {
                continue;
            };
            let goes_on = match place {
                Some(output) => {
                    let piece = self.piece.as_mut_slice();
                    let goes_on = output.take(rt, self.alloc, &self.activity, piece)
                        && output.watch_again(registry, at).is_ok();
                    if !goes_on {
                        output.leave(registry);
                    }
                    goes_on
                }
                None => true,
            };
            if !goes_on {
                *place = None;
            }
        }
    }

    // Waits for what is printed, for a turn at the most, and logs it.
    fn turn<R: Files + Wait>(&mut self, rt: &R) -> io::Result<()> {
        self.poll.poll(&mut self.events, Some(millis(TURN)))?;
        self.log_ready(rt);
        self.keep_coming(rt);
        Ok(())
    }

    /// Logs what is printed, until the server is to end.
    pub fn run<R: Files + Wait + Clock>(mut self, rt: &R) {
        for _ in rt.forever() {
            if self.activity.is_ending() {
                return;
            }
            if self.turn(rt).is_err() {
                thread::sleep(rt, millis(TURN));
            }
        }
    }
}
