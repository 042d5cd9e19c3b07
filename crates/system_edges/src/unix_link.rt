ghost use Rattle.std.specs.Prelude.{◌≡◌, None, IfOk};
ghost use Rattle.grain_supervise.specs.Line.{Line, fresh_line};

use crate::activity::SharedActivity;
use crate::limits::{MOST_ASKING, late, millis};
use crate::socket::{is_memory, socket_path};
use grain_supervise::{AskFault, Link};
use host_base::{ANSWER_READ, Answer, GrainId, Memory, RunId};
use std::alloc::Global;
use std::io;
use std::io::{Read, Write};
use std::marker::Model;
use std::net::{Net, Shutdown};
use std::os::unix::net::UnixStream;
use std::sync::Arc;
use std::time::{Clock, Duration, Instant};

// How much is read at once.
const PIECE: usize = 65_536;

/// The link to the programs of runs, over their sockets. A text is written whole, and what comes back is read to its end, 4,194,305
/// bytes at the most. A program that takes too long for it is a fault. What is asked isn't told.
#[derive(Drop)]
pub struct UnixLink<'a, R: Net> {
    rt: &'a R,
    dir: String,
    activity: SharedActivity,
    faults: u64,
}

impl<'a, R: Net> Model for UnixLink<'a, R> {
    ghost use Rattle.std.specs.Prelude.{None};
    ghost use Rattle.grain_supervise.specs.Line.{Line};

    ghost Value = { Line };

    ghost view = { λ s. record { faults = s.faults; asked = None } };
}

impl<'a, R: Net> UnixLink<'a, R> {
    /// A link without a fault, with the folder of the sockets.
    pub fn new(rt: &'a R, dir: String, activity: SharedActivity) -> Self
        ensures { result ≡ record { faults = 0; asked = None } }
    {
        UnixLink {
            rt,
            dir,
            activity,
            faults: 0,
        }
    }

    /// How many faults there were.
    pub fn faults(&self) -> u64
        ensures { result ≡ self.now.faults }
    {
        self.faults
    }
}

// How long it is until then.
fn left_until<R: Clock>(rt: &R, until: Instant) -> io::Result<Duration> {
    let left = until.saturating_duration_since(Instant::now(rt)?);
    if left < millis(1) {
        Err(late())
    } else {
        Ok(left)
    }
}

// Writes all of it until then.
fn write_until<R: Clock>(
    rt: &R,
    mut stream: &UnixStream,
    until: Instant,
    text: &[u8],
) -> io::Result<()> {
    let mut rest = text;
    for _ in 0..u32::MAX {
        if rest.is_empty() {
            return Ok(());
        }
        stream.set_write_timeout(Some(left_until(rt, until)?))?;
        let n = stream.write(rest)?;
        rest = rest.get(n..).unwrap_or(&[]);
    }
    Err(late())
}

// Reads what comes until then to its end, as far as there is room.
fn read_until<R: Clock>(
    rt: &R,
    mut stream: &UnixStream,
    until: Instant,
    bytes: &mut Vec<u8>,
) -> io::Result<()> {
    let mut piece = [0u8; PIECE];
    for _ in 0..u32::MAX {
        let room = ANSWER_READ.saturating_sub(bytes.len()).min(piece.len());
        let Some(piece) = piece.get_mut(..room) else {
            return Ok(());
        };
        if piece.is_empty() {
            return Ok(());
        }
        stream.set_read_timeout(Some(left_until(rt, until)?))?;
        let n = stream.read(piece)?;
        if n == 0 {
            return Ok(());
        }
        bytes.extend_from_slice(piece.get(..n).unwrap_or(&[]))?;
    }
    Err(late())
}

// Asks the program at a run's socket. The memory for the answer is taken before.
fn exchange<R: Net + Clock>(
    alloc: Global,
    rt: &R,
    dir: &str,
    run: RunId,
    text: &[u8],
) -> io::Result<Answer> {
    let now = Instant::now(rt)?;
    let until = now.checked_add(millis(MOST_ASKING)).unwrap_or(now);
    let path = socket_path(alloc, dir, run)?;
    let mut bytes = Vec::with_capacity(alloc, ANSWER_READ)?;

    // Where too many wait at the socket it isn't waited for.
    let stream = UnixStream::from(mio::net::UnixStream::connect(rt, path.as_str())?);
    stream.set_nonblocking(false)?;
    write_until(rt, &stream, until, text)?;
    stream.shutdown(Shutdown::Write)?;
    read_until(rt, &stream, until, &mut bytes)?;
    Ok(Answer::new(bytes))
}

impl<'a, R: Net + Clock> Link for UnixLink<'a, R> {
    ghost line = { λ s. s };

    fn ask(
        &mut self,
        alloc: Global,
        run: RunId,
        _grain: GrainId,
        text: &[u8],
    ) -> Result<Answer, AskFault> {
        match exchange(alloc, self.rt, self.dir.as_str(), run, text) {
            Ok(answer) => Ok(answer),
            Err(error) => {
                if is_memory(&error) {
                    return Err(AskFault::Memory);
                }
                self.faults = self.faults.saturating_add(1);
                self.activity.link_faults.add_one();
                Err(AskFault::LinkFailed)
            }
        }
    }

    fn another(&self, alloc: Global) -> Result<Self, Memory> {
        let dir = String::from_str(alloc, self.dir.as_str())?;
        Ok(UnixLink::new(self.rt, dir, Arc::try_clone(&self.activity)?))
    }
}
