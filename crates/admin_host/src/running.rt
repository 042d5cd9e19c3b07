//! A line of the program in a world of the system's objects.

ghost use Rattle.std.specs.Prelude.{◌⊎◌, map};
ghost use Rattle.site_caps.specs.Registered.{IsRegistered};
ghost use Rattle.admin_run.specs.Terms.{OutliveStops};
ghost use Rattle.admin_run.specs.Connection.{HasBook};
ghost use Rattle.admin_run.specs.Outside.{AreInOrder};
ghost use Rattle.admin_run.specs.Program.{BeginWithBook, NeedSites, ServeAtDoor};
ghost use Rattle.serve_door.specs.Doors.{IsInOrder};

use crate::NO_MEMORY;
use admin_run::{LinkOf, Setting, World, book_keeper, run, world_of};
use cloud_keeper::Keeper;
use grain_supervise::{EchoLink, FakeSpawner, Spawner};
use host_base::{Fails, Memory, Secrets, SeqSecrets, StdSink, StdSource};
use host_clock::{Clock, StillClock};
use serve_door::{Door, Entrance, HallDoor, MemHalls};
use site_caps::SiteDriver;
use std::alloc::Global;
use std::io;
use std::sync::Wait;
use std::thread::Threads;

// The status of the program in a world, which goes with it. Outside of `main` the host runtime is no handle to wait by, so there
// is a second one.
fn status_in<R: Threads + Wait + Sync, W: Setting + Send, C: SiteDriver + Drop + Send>(
    wait: &R,
    alloc: Global,
    words: &[String],
    world: World<W>,
    sites: Vec<C>,
) -> u8
where
    W::Keeper: Send,
    W::Secrets: Send,
    W::Spawner: Send,
    W::Clock: Send,
    W::Door: Send,
    W::Halls: Send,
    <W::Door as Door>::Input: Send,
    <W::Door as Door>::Output: Send,
    <W::Halls as HallDoor>::Hall: Send,
    LinkOf<W>: Send,
    C::Law: Send,
    requires book { BeginWithBook words.now → HasBook world.tells.holds.keeping }
    requires outlive { BeginWithBook words.now
        → OutliveStops world.tells.holds.keeping (W.Keeper.may_leave world.keeper) }
    requires registered { NeedSites words.now → IsRegistered C.Law.law.tags (map C.tag_of sites.items) }
    requires order { ServeAtDoor words.now → AreInOrder world.tells }
{
    run(wait, alloc, words, world, sites).status
}

// Runs a line that serves no connections at a door, with a keeper, a clock, a door and the drivers of its sites, over standard input and
// output. The link, the secrets and the spawner are those in memory, so that the same words and input give the same output; the halls
// are too, and have no tunnels.
pub(crate) fn run_with<
    R: Threads + Wait + Sync,
    K: Keeper + Drop + Send,
    T: Clock + Drop + Send,
    E: Door + Entrance<Link = EchoLink> + Drop + Send,
    C: SiteDriver + Drop + Send,
>(rt: &HostRuntime, wait: &R, words: &[String], keeper: K, clock: T, door: E, sites: Vec<C>) -> u8
where
    C::Law: Send,
    E::Input: Send,
    E::Output: Send,
    requires book { BeginWithBook words.now → HasBook (K.keeping keeper) }
    requires outlive { BeginWithBook words.now → OutliveStops (K.keeping keeper) (K.may_leave keeper) }
    requires registered { IsRegistered C.Law.law.tags (map C.tag_of sites.items) }
    requires elsewhere { ServeAtDoor words.now → ⊥ }
{
    let alloc = rt.alloc();
    let Ok(halls) = MemHalls::<EchoLink>::new(alloc, Vec::new(alloc)) else {
        return NO_MEMORY;
    };
    let world = world_of(
        StdSource::new(rt.reader()),
        StdSink::new(io::writer(rt)),
        EchoLink::new(alloc, Fails::empty(alloc)),
        keeper,
        SeqSecrets::new(),
        FakeSpawner::new(alloc, Fails::empty(alloc)),
        clock,
        door,
        halls,
    );
    status_in(wait, rt.alloc(), words, world, sites)
}

// Runs such a line with the rows of the small book.
pub(crate) fn run_with_book<
    R: Threads + Wait + Sync,
    E: Door + Entrance<Link = EchoLink> + Drop + Send,
    C: SiteDriver + Drop + Send,
>(rt: &HostRuntime, wait: &R, words: &[String], door: E, sites: Vec<C>) -> u8
where
    C::Law: Send,
    E::Input: Send,
    E::Output: Send,
    requires registered { IsRegistered C.Law.law.tags (map C.tag_of sites.items) }
    requires elsewhere { ServeAtDoor words.now → ⊥ }
{
    match book_keeper(rt.alloc(), Fails::empty(rt.alloc())) {
        Ok(keeper) => run_with(rt, wait, words, keeper, StillClock::new(0), door, sites),
        Err(Memory) => NO_MEMORY,
    }
}

// Serves connections at a door and tunnels at halls from the rows of a keeper, with these objects, a clock and standard output.
pub(crate) fn serve_with<
    R: Threads + Wait + Sync,
    K: Keeper + Drop + Send,
    S: Secrets + Drop + Send,
    P: Spawner + Drop + Send,
    T: Clock + Drop + Send,
    E: Door + Drop + Send,
    H: HallDoor + Entrance<Link = E::Link> + Drop + Send,
    C: SiteDriver + Drop + Send,
>(
    rt: &HostRuntime,
    wait: &R,
    words: &[String],
    link: E::Link,
    held: (K, S, P),
    clock: T,
    door: E,
    halls: H,
    sites: Vec<C>,
) -> u8
where
    C::Law: Send,
    E::Input: Send,
    E::Output: Send,
    E::Link: Send,
    H::Hall: Send,
    requires registered { IsRegistered C.Law.law.tags (map C.tag_of sites.items) }
    requires elsewhere { BeginWithBook words.now → ⊥ }
    requires order { (IsInOrder (E.doorway door)) × (IsInOrder (H.doorway halls)) }
{
    let (keeper, secrets, spawner) = held;
    let input = StdSource::new(rt.reader());
    let out = StdSink::new(io::writer(rt));
    let world = world_of(
        input, out, link, keeper, secrets, spawner, clock, door, halls,
    );
    status_in(wait, rt.alloc(), words, world, sites)
}
