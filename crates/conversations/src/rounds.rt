//! One run of the program over the objects of a conversation.

ghost use Rattle.std.specs.Prelude.{◌≡◌, [], map, IfOk};
ghost use Rattle.site_caps.specs.Registered.{IsRegistered};
ghost use Rattle.admin_run.specs.Connection.{HasBook};
ghost use Rattle.admin_run.specs.Program.{BeginWithBook};

use crate::comparing::{Difference, compare_bytes, compare_numbers};
use crate::conversation::{Conversation, Round};
use crate::door::{door_of, no_halls};
use crate::objects::{AnyLink, AnySecrets, Objects};
use admin_run::{Of, Ran, World, run, world_of};
use cloud_keeper::{Keeper, MemKeeper};
use club_site::{ClubLaw, PlainClub, plain_sites};
use command_line::{Line, line_of};
use grain_supervise::FakeSpawner;
use host_base::{MemSink, MemSource};
use host_clock::{ListClock, Moments};
use hub_core::Held;
use plain_data::List;
use serve_door::{MemDoor, MemHalls};
use site_caps::{SiteDriver, SiteLaw};
use std::alloc::Global;
use std::sync::Wait;
use std::thread::Threads;
use test_words::Fault;

/// How a run is played: what its client sends, how often what must come back comes, and the status that it must have.
#[derive(Drop)]
pub struct Part {
    pub sent: Vec<u8>,
    pub times: usize,
    pub status: u8,
}

/// What came of a run: what was written, the door with its connections, and the status.
#[derive(Drop)]
struct Came {
    out: MemSink,
    door: MemDoor<AnyLink>,
    status: u8,
}

// Compares what came on the connections at the door.
fn compare_streams(
    alloc: Global,
    round: &Round,
    found: &mut Vec<Difference>,
    door: &MemDoor<AnyLink>,
) -> Result<(), Fault> {
    let (streams, kept) = (round.streams.as_slice(), door.kept());
    let place = (round.own.line, "how many connections were served");
    compare_numbers(alloc, found, place, streams.len(), kept.len())?;
    for (stream, connection) in streams.iter().zip(kept.iter()) {
        let place = (stream.line, "the answer on a connection");
        let wanted = (stream.answered.as_slice(), 1);
        compare_bytes(alloc, found, place, wanted, connection.wire.out.written())?;
    }
    Ok(())
}

// Compares what came of a run.
fn compare(
    alloc: Global,
    round: &Round,
    part: &Part,
    found: &mut Vec<Difference>,
    came: &Came,
) -> Result<(), Fault> {
    let place = (round.own.line, "the answer");
    let wanted = (round.own.answered.as_slice(), part.times);
    compare_bytes(alloc, found, place, wanted, came.out.written())?;
    compare_streams(alloc, round, found, &came.door)?;
    let place = (round.status.0, "the status");
    let (wanted, status) = (usize::from(part.status), usize::from(came.status));
    compare_numbers(alloc, found, place, wanted, status)
}

// The source of what a client sends, which fails at these calls, or gives so many bytes at the most.
fn source(
    alloc: Global,
    sent: &Vec<u8>,
    failing: &Vec<u64>,
    gives: Option<usize>,
) -> Result<MemSource, Fault> {
    let bytes = sent.clone()?;
    match gives {
        Some(most) => Ok(MemSource::stingy(alloc, bytes, most.max(1))),
        None => Ok(MemSource::new(bytes, List::new(failing.clone()?))),
    }
}

// Of which types the objects of a conversation are.
type Kinds = Of<
    MemSource,
    MemSink,
    MemKeeper,
    AnySecrets,
    FakeSpawner,
    ListClock,
    MemDoor<AnyLink>,
    MemHalls<AnyLink>,
>;

// What a run is given beside the objects that go on.
#[derive(Drop)]
struct Given {
    input: MemSource,
    out: MemSink,
    clock: ListClock,
    door: MemDoor<AnyLink>,
    halls: MemHalls<AnyLink>,
    sites: Vec<PlainClub>,
}

// The clock of a run.
fn clock_of(alloc: Global, round: &Round) -> Result<ListClock, Fault> {
    let mut moments = round.clock.clone()?;
    if moments.is_empty() {
        moments.push(0)?;
    }
    let moments = Moments::new(moments).ok_or(Fault::Unreadable)?;
    Ok(ListClock::new(moments))
}

// What a run of a conversation is given.
fn given_to(
    alloc: Global,
    conversation: &Conversation,
    round: &Round,
    part: &Part,
) -> Result<Given, Fault>
    ensures none { IfOk result (λ given. (given.door.kept ≡ []) × (given.halls.kept ≡ [])) }
    ensures registered { IfOk result (λ given. IsRegistered (⟦<ClubLaw as SiteLaw>⟧.law.tags)
        (map (⟦<PlainClub as SiteDriver>⟧.tag_of) given.sites.items)) }
{
    let failing = &conversation.failing;
    let fails = List::new(failing.sink.clone()?);
    Ok(Given {
        input: source(alloc, &part.sent, &failing.source, conversation.gives)?,
        out: MemSink::new(alloc, fails),
        clock: clock_of(alloc, round)?,
        door: door_of(alloc, round.streams.as_slice())?,
        halls: no_halls(alloc)?,
        sites: plain_sites(alloc)?,
    })
}

// Runs the program with what it is given.
#[tactic(auto, using(hub_core::proofs::Stopping::memory_outlives))]
fn run_given<R: Threads + Wait + Sync>(
    rt: &R,
    alloc: Global,
    words: &[String],
    given: Given,
    objects: Objects,
) -> Ran<Kinds>
    requires book { BeginWithBook words.now → HasBook (⟦<MemKeeper as Keeper>⟧.keeping objects.keeper) }
    requires none { (given.door.kept ≡ []) × (given.halls.kept ≡ []) }
    requires registered { IsRegistered (⟦<ClubLaw as SiteLaw>⟧.law.tags)
        (map (⟦<PlainClub as SiteDriver>⟧.tag_of) given.sites.items) }
{
    let world = world_of(
        given.input,
        given.out,
        objects.link,
        objects.keeper,
        objects.secrets,
        objects.spawner,
        given.clock,
        given.door,
        given.halls,
    );
    run(rt, alloc, words, world, given.sites)
}

// What came of a run, and the objects that go on.
fn taken_apart(ran: Ran<Kinds>) -> (Came, Objects) {
    let Ran { status, world } = ran;
    let World {
        input: _,
        out,
        link,
        held,
        clock: _,
        door,
        halls: _,
    } = world;
    let Held {
        keeper,
        secrets,
        spawner,
    } = held;
    let objects = Objects {
        link,
        keeper,
        secrets,
        spawner,
    };
    (Came { out, door, status }, objects)
}

/// Plays a run, and compares what comes of it. The objects are handed back.
pub fn play_round<R: Threads + Wait + Sync>(
    rt: &R,
    alloc: Global,
    conversation: &Conversation,
    round: &Round,
    part: &Part,
    objects: Objects,
    found: &mut Vec<Difference>,
) -> Result<Objects, Fault>
    requires { BeginWithBook round.now.words.items
        → HasBook (⟦<MemKeeper as Keeper>⟧.keeping objects.keeper) }
{
    let given = given_to(alloc, conversation, round, part)?;
    let ran = run_given(rt, alloc, round.words.as_slice(), given, objects);
    let (came, objects) = taken_apart(ran);
    compare(alloc, round, part, found, &came)?;
    Ok(objects)
}

/// The same of a run over any keeper, of which the words may not be those that begin with the small book.
#[tactic(auto, using(admin_run::proofs::Begins::begins_otherwise))]
pub fn play_otherwise<R: Threads + Wait + Sync>(
    rt: &R,
    alloc: Global,
    conversation: &Conversation,
    round: &Round,
    part: &Part,
    objects: Objects,
    found: &mut Vec<Difference>,
) -> Result<Objects, Fault> {
    match line_of(alloc, round.words.as_slice())? {
        Line::Serve { .. } => play_round(rt, alloc, conversation, round, part, objects, found),
        Line::Check | Line::Access { .. } | Line::Preview { .. } | Line::Collect { .. } => {
            play_round(rt, alloc, conversation, round, part, objects, found)
        }
        _ => Err(Fault::Unreadable),
    }
}
