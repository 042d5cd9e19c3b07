//! Two connections that are served at once, over a link that holds its first call until the second one is answered.

ghost use Rattle.std.specs.Prelude.{All, IfOk};
ghost use Rattle.serve_door.specs.Doors.{IsInOrder, mem_doorway};
ghost use Rattle.serve_door.specs.Working.{AreReady};

use crate::book::book_of;
use crate::passes::on_passes;
use front_http::Routes;
use grain_supervise::{AskFault, EchoLink, Link};
use host_base::{Answer, Fails, GrainId, MemSink, MemSource, Memory, RunId};
use hub_core::SoloDesk;
use serve_door::{Entrance, MemDoor, MemHalls, Post, Stop, Worker, serve_all};
use std::alloc::Global;
use std::num::NonZeroUsize;
use std::sync::atomic::{AtomicU64, Ordering};
use std::sync::{Arc, Wait};
use std::thread::{Threads, yield_now};
use test_words::Fault;

// What is asked on the two connections, by the keys of two sessions of the small book.
const REQUESTS: [&str; 2] = [
    "GET /one HTTP/1.1\r\nHost: ui-11111111111111111111111111111111.example.org\r\n\r\n",
    "GET /two HTTP/1.1\r\nHost: ui-22222222222222222222222222222222.example.org\r\n\r\n",
];

// How often the first call looks at the most whether the second one is answered.
const MOST_TURNS: u32 = 10_000_000;

// No call began; the first one did; the second one is answered; the first one went on after that.
const NONE: u64 = 0;

const BEGUN: u64 = 1;

const ANSWERED: u64 = 2;

const HELD: u64 = 3;

// An echo link. The first of all calls waits until another one is answered, or for so many turns.
#[derive(Drop)]
struct HeldLink {
    link: EchoLink,
    stage: Arc<AtomicU64, Global>,
}

impl HeldLink {
    // Whether this call is the first one.
    fn is_first(&self) -> bool {
        self.stage
            .compare_exchange(NONE, BEGUN, Ordering::SeqCst, Ordering::SeqCst)
            .is_ok()
    }

    // Waits until another call is answered.
    fn hold(&self) {
        for _ in 0..MOST_TURNS {
            if self.stage.load(Ordering::SeqCst) == ANSWERED {
                self.stage.store(HELD, Ordering::SeqCst);
                return;
            }
            yield_now();
        }
    }
}

impl Link for HeldLink {
    ghost line = { λ held. ⟦<EchoLink as Link>⟧.line held.link };

    fn ask(
        &mut self,
        alloc: Global,
        run: RunId,
        grain: GrainId,
        text: &[u8],
    ) -> Result<Answer, AskFault> {
        let is_first = self.is_first();
        if is_first {
            self.hold();
        }
        let answer = self.link.ask(alloc, run, grain, text);
        if !is_first {
            self.stage.store(ANSWERED, Ordering::SeqCst);
        }
        answer
    }

    fn another(&self, alloc: Global) -> Result<Self, Memory> {
        Ok(HeldLink {
            link: self.link.another(alloc)?,
            stage: Arc::try_clone(&self.stage)?,
        })
    }
}

// A door at which this is asked on one connection.
fn door_of<L: Link + Drop>(alloc: Global, request: &str) -> Result<MemDoor<L>, Fault>
    ensures { IfOk result (λ door. IsInOrder (mem_doorway door)) }
{
    let mut bytes = Vec::new(alloc);
    bytes.extend_from_slice(request.as_bytes())?;
    let mut streams = Vec::new(alloc);
    streams.push((
        MemSource::new(bytes, Fails::empty(alloc)),
        MemSink::new(alloc, Fails::empty(alloc)),
    ))?;
    let mut door = MemDoor::new(alloc, streams)?;
    door.expect(1);
    Ok(door)
}

// A worker at a door in memory.
type Doorman<'a, R> = Worker<'a, MemDoor<HeldLink>, MemHalls<HeldLink>, R>;

// A worker for each request, at a door of its own.
fn workers_of<'a, R>(
    rt: &'a R,
    alloc: Global,
    link: &HeldLink,
) -> Result<Vec<Doorman<'a, R>>, Fault>
    ensures { IfOk result (λ workers. All AreReady workers.items) }
{
    let mut workers = Vec::new(alloc);
    let first = Post::new(door_of(alloc, REQUESTS[0])?, link.another(alloc)?);
    workers.push(Worker::at_door(rt, first))?;
    let second = Post::new(door_of(alloc, REQUESTS[1])?, link.another(alloc)?);
    workers.push(Worker::at_door(rt, second))?;
    Ok(workers)
}

// What was written to the connections at a door.
fn written_at<L: Link + Drop>(alloc: Global, door: &MemDoor<L>) -> Result<Vec<u8>, Fault> {
    let mut written = Vec::new(alloc);
    for connection in door.kept() {
        written.extend_from_slice(connection.wire.out.written())?;
    }
    Ok(written)
}

// What is written to such a connection where it is served alone.
fn written_alone<R: Wait>(rt: &R, alloc: Global, request: &str) -> Result<Vec<u8>, Fault> {
    let book = book_of(alloc, None)?;
    let routes = Routes::new(alloc)?;
    let mut door = door_of(alloc, request)?;
    let mut desk = SoloDesk::new(book);
    let link = EchoLink::new(alloc, Fails::empty(alloc));
    serve_all(rt, alloc, &routes, &mut door, &mut desk, &link);
    written_at(alloc, &door)
}

// What came of a worker: how many requests it answered, and whether what was written is what is written to the connection alone.
fn compared<'a, R: Wait>(
    rt: &R,
    alloc: Global,
    worker: Doorman<'a, R>,
    request: &str,
) -> Result<(u64, bool), Fault> {
    let (post, _) = worker.into_posts();
    let (door, stopped) = post.ok_or(Fault::Unreadable)?.into_parts();
    let answered = if stopped.stop == Stop::All {
        stopped.answered
    } else {
        0
    };
    let came = written_at(alloc, &door)?;
    let wanted = written_alone(rt, alloc, request)?;
    Ok((answered, !wanted.is_empty() && came == wanted))
}

// The two workers once they have served, each a connection of its own, over a link that holds its first call.
fn served<'a, R: Threads + Wait + Sync>(
    rt: &'a R,
    alloc: Global,
    stage: Arc<AtomicU64, Global>,
) -> Result<Vec<Doorman<'a, R>>, Fault> {
    let link = HeldLink {
        link: EchoLink::new(alloc, Fails::empty(alloc)),
        stage,
    };
    let workers = workers_of(rt, alloc, &link)?;
    let book = book_of(alloc, None)?;
    let (_, workers) = on_passes(rt, alloc, book, NonZeroUsize::MIN, workers)?;
    Ok(workers)
}

/// Serves two connections on two threads, over a link that holds its first call until the second one is answered: how many requests
/// were answered, whether the first call was held so long, and whether what was written is what is written to each alone.
pub fn serve_two<R: Threads + Wait + Sync>(rt: &R, alloc: Global) -> Result<String, Fault> {
    let stage = Arc::new(alloc, AtomicU64::new(NONE))?;
    let workers = served(rt, alloc, Arc::try_clone(&stage)?)?;
    let mut answered: u64 = 0;
    let mut same = true;
    for (worker, request) in workers.into_iter().zip(REQUESTS) {
        let (count, as_alone) = compared(rt, alloc, worker, request)?;
        answered = answered.saturating_add(count);
        same = same && as_alone;
    }
    let held = if stage.load(Ordering::SeqCst) == HELD {
        "the first was held"
    } else {
        "none was held"
    };
    let same = if same { "as alone" } else { "otherwise" };
    Ok(format!(in alloc; "{answered} answered, {held}, {same}")?)
}
