//! The acceptor of a port: it keeps the connections that are silent, and gives out those whose first byte is there.

use crate::activity::{Activity, SharedActivity};
use crate::client::{Client, SharedClient};
use crate::limits::{
    MOST_EVENTS, MOST_READY, MOST_SILENT, MOST_STILL, MOST_WAITING, TELLING, TURN, millis,
};
use crossbeam_channel::{Receiver, Sender, bounded};
use mio::net::{TcpListener, TcpStream as Silent};
use mio::{Events, Interest, Poll, Registry, Token};
use std::alloc::Global;
use std::io::{Eprint, ErrorKind};
use std::net::{Ipv4Addr, Net, SocketAddr, TcpStream};
use std::sync::{Arc, Wait};
use std::time::{Clock, Instant};
use std::{io, thread};

// The token of the listener. Each other one is a place of those who wait.
const LISTENER: Token = Token(usize::MAX);

// A connection of which no byte is there yet.
#[derive(Drop)]
struct Waiting {
    stream: Silent,
    since: Instant,
}

// The connections that wait for their first byte, each at its place.
#[derive(Drop)]
struct Waiters {
    places: Vec<Option<Waiting>>,
}

/// The acceptor of a port of this machine.
#[derive(Drop)]
pub struct Acceptor {
    alloc: Global,
    poll: Poll,
    events: Events<Global>,
    listener: TcpListener,
    waiters: Waiters,
    ready: Sender<SharedClient>,
    activity: SharedActivity,
    // Whether it says what was done. Of two acceptors one does.
    tells: bool,
    // When silence was looked at, and when a line was printed, and which.
    swept: Instant,
    told: Instant,
    line: String,
}

impl Waiters {
    fn new(alloc: Global) -> io::Result<Self> {
        let mut places = Vec::with_capacity(alloc, MOST_WAITING)?;
        for _ in 0..MOST_WAITING {
            places.push(None)?;
        }
        Ok(Waiters { places })
    }

    // The place of the one that has been silent longest.
    fn oldest(&self) -> Option<usize> {
        let mut oldest: Option<(usize, Instant)> = None;
        for (at, place) in self.places.iter().enumerate() {
            if let Some(waiting) = place {
                let is_older = match oldest {
                    Some((_, since)) => waiting.since < since,
                    None => true,
                };
                if is_older {
                    oldest = Some((at, waiting.since));
                }
            }
        }
        match oldest {
            Some((at, _)) => Some(at),
            None => None,
        }
    }

    // Closes the connection at a place.
    fn close(&mut self, activity: &Activity, at: usize) {
        if let Some(place) = self.places.get_mut(at)
            && place.is_some()
        {
            *place = None;
            activity.waiting.take_one();
            activity.silent.add_one();
        }
    }

    // Closes the one that has been silent longest.
    fn close_oldest(&mut self, activity: &Activity) {
        if let Some(at) = self.oldest() {
            self.close(activity, at);
        }
    }

    // A place that is free, for which the connection that has been silent longest is closed where there is none.
    fn free_place(&mut self, activity: &Activity) -> Option<usize> {
        let free = self.places.iter().position(|place| place.is_none());
        if free.is_some() {
            return free;
        }
        let oldest = self.oldest();
        self.close_oldest(activity);
        oldest
    }

    // Keeps a connection until its first byte is there.
    fn keep(
        &mut self,
        registry: &Registry,
        activity: &Activity,
        mut stream: Silent,
        since: Instant,
    ) -> io::Result<()> {
        if let Some(at) = self.free_place(activity)
            && let Some(place) = self.places.get_mut(at)
        {
            registry.register(&mut stream, Token(at), Interest::READABLE)?;
            *place = Some(Waiting { stream, since });
            activity.waiting.add_one();
        }
        Ok(())
    }

    // Takes a connection out.
    fn release(&mut self, registry: &Registry, activity: &Activity, at: usize) -> Option<Silent> {
        let mut waiting = self.places.get_mut(at)?.take()?;
        activity.waiting.take_one();
        match registry.deregister(&mut waiting.stream) {
            Ok(()) => Some(waiting.stream),
            Err(_) => None,
        }
    }

    // Whether a byte of a connection is there, or its end.
    fn has_come(&self, at: usize) -> bool {
        let mut first = [0u8; 1];
        match self.places.get(at) {
            Some(Some(waiting)) => match waiting.stream.peek(&mut first) {
                Ok(_) => true,
                Err(error) => error.kind() != ErrorKind::WouldBlock,
            },
            _ => false,
        }
    }

    // Whether a connection has been silent for too long.
    fn is_silent(&self, at: usize, now: Instant) -> bool {
        match self.places.get(at) {
            Some(Some(waiting)) => {
                now.saturating_duration_since(waiting.since) > millis(MOST_SILENT)
            }
            _ => false,
        }
    }
}

// A client that came. Its reads and writes are bounded in time from now on.
fn client_of(alloc: Global, stream: Silent) -> io::Result<SharedClient> {
    let stream = TcpStream::from(stream);
    stream.set_nonblocking(false)?;
    stream.set_nodelay(true)?;
    stream.set_read_timeout(Some(millis(TURN)))?;
    stream.set_write_timeout(Some(millis(MOST_STILL)))?;
    Ok(Arc::new(alloc, Client::new(stream))?)
}

impl Acceptor {
    /// An acceptor of a port of the address 127.0.0.1, or of one that is free where it is 0, and where its clients come out. It may
    /// tell what was done.
    pub fn bind<R: Net + Clock>(
        rt: &R,
        alloc: Global,
        port: u16,
        activity: SharedActivity,
        tells: bool,
    ) -> io::Result<(Self, Receiver<SharedClient>)> {
        let poll = Poll::new(rt)?;
        let events = Events::with_capacity(alloc, MOST_EVENTS)?;
        let address = SocketAddr::from((Ipv4Addr::LOCALHOST, port));
        let mut listener = TcpListener::bind(rt, address)?;
        poll.registry()
            .register(&mut listener, LISTENER, Interest::READABLE)?;
        let (ready, clients) = bounded(alloc, MOST_READY)?;
        let now = Instant::now(rt)?;
        let line = activity.line(alloc)?;
        let acceptor = Acceptor {
            alloc,
            poll,
            events,
            listener,
            waiters: Waiters::new(alloc)?,
            ready,
            activity,
            tells,
            swept: now,
            told: now,
            line,
        };
        Ok((acceptor, clients))
    }

    /// The port.
    pub fn port(&self) -> io::Result<u16> {
        Ok(self.listener.local_addr()?.port())
    }

    // Takes all connections that wait at the port. Where there is no descriptor for another one, the one that has been silent longest is closed.
    fn accept_all(&mut self, now: Instant) {
        for _ in 0..MOST_WAITING {
            match self.listener.accept() {
                Ok((stream, _)) => {
                    let registry = self.poll.registry();
                    let _ = self.waiters.keep(registry, &self.activity, stream, now);
                }
                Err(error) => {
                    if error.kind() != ErrorKind::WouldBlock {
                        self.waiters.close_oldest(&self.activity);
                    }
                    return;
                }
            }
        }
    }

    // Gives all connections to workers of which a byte is there, or the end.
    fn give_ready<R: Wait>(&mut self, rt: &R) {
        for event in self.events.iter() {
            let (registry, activity) = (self.poll.registry(), &self.activity);
            let at = event.token().0;
            if self.waiters.has_come(at)
                && let Some(stream) = self.waiters.release(registry, activity, at)
                && let Ok(client) = client_of(self.alloc, stream)
            {
                give(rt, &self.ready, activity, client);
            }
        }
    }

    // Gives all connections to workers that have been silent for too long, which have ended for them.
    fn give_silent<R: Wait>(&mut self, rt: &R, now: Instant) {
        for at in 0..MOST_WAITING {
            let (registry, activity) = (self.poll.registry(), &self.activity);
            if self.waiters.is_silent(at, now)
                && let Some(stream) = self.waiters.release(registry, activity, at)
                && let Ok(client) = client_of(self.alloc, stream)
            {
                activity.silent.add_one();
                client.end();
                give(rt, &self.ready, activity, client);
            }
        }
    }

    // Waits for what is reported, for a turn at the most, and does what that calls for.
    fn turn<R: Wait + Clock>(&mut self, rt: &R) -> io::Result<()> {
        self.poll.poll(&mut self.events, Some(millis(TURN)))?;
        let now = Instant::now(rt)?;
        self.give_ready(rt);

        // At each turn: an accept that failed for want of descriptors isn't reported again.
        self.accept_all(now);
        if now.saturating_duration_since(self.swept) > millis(TURN) {
            self.give_silent(rt, now);
            self.swept = now;
        }
        Ok(())
    }

    // Says what was done, once a second at the most, and where that has changed.
    fn tell<R: Eprint + Clock>(&mut self, rt: &R) -> io::Result<()> {
        let now = Instant::now(rt)?;
        if now.saturating_duration_since(self.told) > millis(TELLING) {
            let line = self.activity.line(self.alloc)?;
            if line != self.line {
                eprintln!(rt; "{line}")?;
                self.line = line;
            }
            self.told = now;
        }
        Ok(())
    }

    /// Accepts connections until the server is to end, and says once a second on standard error what was done, where it is to tell.
    pub fn run<R: Wait + Clock + Eprint>(mut self, rt: &R) {
        for _ in rt.forever() {
            if self.activity.is_ending() {
                return;
            }
            if self.turn(rt).is_err() {
                thread::sleep(rt, millis(TURN));
            }
            if self.tells {
                let _ = self.tell(rt);
            }
        }
    }
}

// Gives a client to a worker, or closes the connection where too many wait for one.
fn give<R: Wait>(rt: &R, ready: &Sender<SharedClient>, activity: &Activity, client: SharedClient) {
    activity.waiting.add_one();
    if ready.try_send(rt, client).is_err() {
        activity.waiting.take_one();
        activity.turned_away.add_one();
    }
}
