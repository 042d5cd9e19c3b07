//! `serve`: workers serve the connections at the door and the tunnels at the halls, from the rows of a keeper.
ghost use Rattle.std.specs.Prelude.{◌≡◌, ◌≢◌, ◌<◌, ◌≤◌, ◌⊎◌, [], map, IfOk, IfErr};
ghost use Rattle.host_base.specs.Outside.{Rose};
ghost use Rattle.row_tables.specs.Kept.{IsStored};
ghost use Rattle.share_graph.specs.WellFormed.{IsWellFormed};
ghost use Rattle.site_caps.specs.Registered.{IsRegistered};
ghost use Rattle.hub_core.specs.Opening.{opened};
ghost use Rattle.hub_core.specs.Stopping.{OutliveStops};
ghost use Rattle.admin_run.specs.Outside.{AnyRose, AreInOrder, HasStatusCause, Tells, entrances};
ghost use Rattle.admin_run.specs.Serving.{Serves, ServesHistory, TellsStop, served_line};
ghost use Rattle.serve_door.specs.Doors.{IsInOrder};

use crate::beginning::{Beginning, announce, begin};
use crate::telling::tell_value;
use crate::world::{LinkOf, Ran, Setting, World, joined};
use cloud_serve::Wire;
use host_base::{Memory, Sink};
use hub_core::{Held, Holding, Locked};
use hub_jobs::{Done, do_at_once};
use itoa::Buffer;
use serve_door::{Door, Entrance, HallDoor, Stop, Stopped, dismiss, hire};
use share_graph::{Rows, State, Tables};
use site_caps::{Registry, SiteDriver};
use std::alloc::Global;
use std::num::NonZeroUsize;
use std::sync::Wait;
use std::thread::Threads;

// How many workers there are beside the one at the door itself.
const OTHER_WORKERS: u16 = 127;

// How many there are beside the one at the halls themselves, where tunnels are to come.
const OTHER_HALL_WORKERS: u16 = 63;

// How many verdicts each worker's cache holds.
const CACHED_VERDICTS: usize = 1024;

/// A history on tables, with a driver for each site. Where memory runs out the objects are handed back.
#[tactic(auto, using(crate::proofs::Registered::never_two))]
pub(crate) fn open_tables<H: Holding, C: SiteDriver + Drop>(
    alloc: Global,
    held: Held<H>,
    tables: Tables,
    sites: Vec<C>,
) -> Result<Locked<H, C>, Held<H>>
    requires registered { IsRegistered C.Law.law.tags (map C.tag_of sites.items) }
    requires formed { IsWellFormed (opened tables) }
    requires stored { IsStored held.tell.keeping tables }
    requires outlive { OutliveStops held.tell.keeping (H.Keeper.may_leave held.keeper) }
    ensures ok { IfOk result (λ locked. locked
        ≡ record { start = opened tables; history = []; holds = held.tell; keeper = held.keeper }) }
    ensures err { IfErr result (λ back. back ≡ held) }
{
    let registry = match Registry::new(sites) {
        Ok(registry) => registry,
        Err(_) => unreachable!(),
    };
    let state = State {
        tables,
        sessions: Rows::empty(alloc),
        runs: Rows::empty(alloc),
        handles: Rows::empty(alloc),
    };
    Locked::from_state(alloc, state, held, registry)
}

// Prints how many requests were answered.
fn tell_served<O: Sink>(out: &mut O, answered: u64) -> u8
    ensures tells { Tells (O.outlet out.old) (O.outlet out.new) (served_line answered) 0 result }
    ensures counts { (O.outlet out.old).faults ≤ (O.outlet out.new).faults }
    ensures cause { result ≡ 5 → Rose (O.outlet out.old).faults (O.outlet out.new).faults }
    ensures either { (result ≡ 0) ⊎ (result ≡ 5) }
{
    let mut digits = Buffer::new();
    tell_value(out, b"served ", digits.format(answered).as_bytes(), 0)
}

// The status of serving that stopped, once how many requests were answered was printed where all connections were served.
fn tell_stop<O: Sink>(out: &mut O, stopped: Stopped) -> u8
    ensures tells { TellsStop stopped.stop [] stopped.answered (O.outlet out.old) (O.outlet out.new) result }
    ensures counts { (O.outlet out.old).faults ≤ (O.outlet out.new).faults }
    ensures cause { result ≡ 5 → Rose (O.outlet out.old).faults (O.outlet out.new).faults }
    ensures taken { result ≡ 4 → stopped.stop ≡ Stop.DoorFailed }
    ensures kept { result ≢ 9 }
{
    match stopped.stop {
        Stop::All => tell_served(out, stopped.answered),
        Stop::DoorFailed => 4,
        Stop::Memory => 7,
    }
}

// How many workers there are beside the one at the halls.
fn hall_workers(tunnels: u32) -> u16
    ensures none { tunnels ≡ 0 → result ≡ 0 }
    ensures some { 0 < tunnels → result ≡ 63 }
{
    if tunnels == 0 { 0 } else { OTHER_HALL_WORKERS }
}

/// How many connections and how many tunnels are to be served.
#[derive(Clone, Copy)]
pub(crate) struct Counts {
    pub(crate) connections: u32,
    pub(crate) tunnels: u32,
}

// What serving leaves: the status, the objects that the desks worked with, the door and the halls.
#[derive(Drop)]
struct Served<W: Setting> {
    status: u8,
    held: Held<W>,
    door: W::Door,
    halls: W::Halls,
}

// Workers serve so many connections and tunnels on a history that has no entry yet; prints how many requests were answered where all
// were served.
fn serve_history<R: Threads + Wait + Sync, W: Setting + Send, C: SiteDriver + Drop + Send>(
    rt: &R,
    alloc: Global,
    locked: Locked<W, C>,
    out: &mut W::Output,
    link: &LinkOf<W>,
    clock: &W::Clock,
    doors: (W::Door, W::Halls),
    counts: Counts,
) -> Served<W>
where
    W::Keeper: Send,
    W::Secrets: Send,
    W::Spawner: Send,
    W::Clock: Send,
    W::Door: Send,
    W::Halls: Send,
    <W::Door as Door>::Input: Send,
    <W::Door as Door>::Output: Send,
    <W::Halls as HallDoor>::Hall: Send,
    LinkOf<W>: Send,
    C::Law: Send,
    requires empty { locked.history ≡ [] }
    requires order { (IsInOrder (W.Door.doorway doors.0)) × (IsInOrder (W.Halls.doorway doors.1)) }
    ensures serves { ServesHistory C.Law.law locked.start counts.connections counts.tunnels
        (W.Keeper.may_leave result.held.keeper) locked.holds result.held.tell
        (record { door = W.Door.doorway doors.0; halls = W.Halls.doorway doors.1 })
        (record { door = W.Door.doorway result.door; halls = W.Halls.doorway result.halls })
        (W.Output.outlet out.old) (W.Output.outlet out.new) result.status }
    ensures counts { (W.Output.outlet out.old).faults ≤ (W.Output.outlet out.new).faults }
    ensures taken { result.status ≡ 4 → AnyRose
        (record { door = W.Door.doorway doors.0; halls = W.Halls.doorway doors.1 })
        (record { door = W.Door.doorway result.door; halls = W.Halls.doorway result.halls }) }
    ensures written { result.status ≡ 5
        → Rose (W.Output.outlet out.old).faults (W.Output.outlet out.new).faults }
    ensures kept { result.status ≢ 9 }
{
    let (mut door, mut halls) = doors;
    door.expect(counts.connections);
    halls.expect(counts.tunnels);
    let others = hall_workers(counts.tunnels);
    let staff = match hire(
        rt,
        alloc,
        (door, OTHER_WORKERS),
        link,
        (halls, others),
        link,
    ) {
        Ok(staff) => staff,
        Err((door, halls)) => {
            let held = locked.into_held();
            return Served {
                status: 7,
                held,
                door,
                halls,
            };
        }
    };
    let room = NonZeroUsize::new(CACHED_VERDICTS).unwrap_or(NonZeroUsize::MIN);
    let Done {
        locked,
        jobs,
        outcome,
    } = do_at_once(rt, alloc, locked, room, clock, staff.workers);
    let held = locked.into_held();
    let (door, halls, stopped) = dismiss(jobs, staff.doors, staff.halls);
    if outcome.is_err() {
        return Served {
            status: 7,
            held,
            door,
            halls,
        };
    }
    let status = tell_stop(out, stopped);
    Served {
        status,
        held,
        door,
        halls,
    }
}

// The same from tables that the keeper has.
fn serve_tables<R: Threads + Wait + Sync, W: Setting + Send, C: SiteDriver + Drop + Send>(
    rt: &R,
    alloc: Global,
    world: World<W>,
    tables: Tables,
    counts: Counts,
    sites: Vec<C>,
) -> Ran<W>
where
    W::Keeper: Send,
    W::Secrets: Send,
    W::Spawner: Send,
    W::Clock: Send,
    W::Door: Send,
    W::Halls: Send,
    <W::Door as Door>::Input: Send,
    <W::Door as Door>::Output: Send,
    <W::Halls as HallDoor>::Hall: Send,
    LinkOf<W>: Send,
    C::Law: Send,
    requires registered { IsRegistered C.Law.law.tags (map C.tag_of sites.items) }
    requires order { AreInOrder world.tells }
    requires formed { IsWellFormed (opened tables) }
    requires stored { IsStored world.tells.holds.keeping tables }
    requires outlive { OutliveStops world.tells.holds.keeping (W.Keeper.may_leave world.keeper) }
    ensures serves { ServesHistory C.Law.law (opened tables) counts.connections counts.tunnels
        (W.Keeper.may_leave result.world.keeper) world.tells.holds result.world.tells.holds
        (entrances world.tells) (entrances result.world.tells)
        world.tells.outlet result.world.tells.outlet result.status }
    ensures others { result.world.tells ≡ record world.tells {
      outlet = result.world.tells.outlet;
      holds = result.world.tells.holds;
      doorway = result.world.tells.doorway;
      hallway = result.world.tells.hallway;
    } }
    ensures counts { world.tells.outlet.faults ≤ result.world.tells.outlet.faults }
    ensures taken { result.status ≡ 4 → AnyRose (entrances world.tells) (entrances result.world.tells) }
    ensures written { result.status ≡ 5 → Rose world.tells.outlet.faults result.world.tells.outlet.faults }
    ensures kept { result.status ≢ 9 }
{
    let World {
        input,
        mut out,
        link,
        held,
        clock,
        door,
        halls,
    } = world;
    let locked = match open_tables(alloc, held, tables, sites) {
        Ok(locked) => locked,
        Err(held) => {
            let world = joined(Wire { input, out, link }, held, clock, door, halls);
            return Ran { status: 7, world };
        }
    };
    let doors = (door, halls);
    let Served {
        status,
        held,
        door,
        halls,
    } = serve_history(rt, alloc, locked, &mut out, &link, &clock, doors, counts);
    let world = joined(Wire { input, out, link }, held, clock, door, halls);
    Ran { status, world }
}

/// Serves so many connections and tunnels by workers, from the rows of the keeper. Where it has none it begins with the first account, and
/// prints its login.
pub(crate) fn serve<R: Threads + Wait + Sync, W: Setting + Send, C: SiteDriver + Drop + Send>(
    rt: &R,
    alloc: Global,
    world: World<W>,
    counts: Counts,
    sites: Vec<C>,
) -> Ran<W>
where
    W::Keeper: Send,
    W::Secrets: Send,
    W::Spawner: Send,
    W::Clock: Send,
    W::Door: Send,
    W::Halls: Send,
    <W::Door as Door>::Input: Send,
    <W::Door as Door>::Output: Send,
    <W::Halls as HallDoor>::Hall: Send,
    LinkOf<W>: Send,
    C::Law: Send,
    requires registered { IsRegistered C.Law.law.tags (map C.tag_of sites.items) }
    requires order { AreInOrder world.tells }
    ensures serves { Serves C.Law.law counts.connections counts.tunnels (W.Keeper.may_leave result.world.keeper)
        world.tells result.world.tells result.status }
    ensures cause { HasStatusCause world.tells result.world.tells result.status }
{
    let mut world = world;
    let Beginning { tables, login } = match begin(
        alloc,
        &mut world.held.keeper,
        &mut world.held.secrets,
    ) {
        Ok(begun) => begun,
        Err(status) => return Ran { status, world },
    };
    let told = announce(&mut world.out, &login);
    if told != 0 {
        return Ran {
            status: told,
            world,
        };
    }
    serve_tables(rt, alloc, world, tables, counts, sites)
}
